// Yard sheets written, and read back.
use cases::lines::field;
use cases::lists::part;
use cases::print::{counted, digest, text};
use model::Lists;
use reader::read::read_sheet;
use sheet::writer::write_sheet;

// The answer, and the list; a line feed in it begins a line.
pub fn write_small(line: &[u8], lists: &Lists) {
    let mut sheet = [b'.'; 5041];
    let sheet = part(field(line, 6), &mut sheet);
    counted(write_sheet(
        lists.parents,
        lists.pebbles,
        lists.targets,
        lists.depths,
        sheet,
    ));
    text(b", list:\n");
    text(sheet);
}

// The answer for the first bytes of the list, as many as a field says; then digests of the parents
// and of the list.
pub fn write_long(line: &[u8], lists: &Lists) {
    let mut sheet = [b'.'; 5041];
    let sheet = part(field(line, 6), &mut sheet);
    counted(write_sheet(
        lists.parents,
        lists.pebbles,
        lists.targets,
        lists.depths,
        part(field(line, 7), sheet),
    ));
    digest(b", values ", lists.parents);
    digest(b", list ", sheet);
}

// What a sheet says.
fn read_back(sheet: &[u8]) {
    let mut parents = [0u8; 256];
    let mut pebbles = [0u8; 256];
    let mut targets = [0u8; 256];
    let mut depths = [0u8; 256];
    counted(read_sheet(sheet, &mut parents, &mut pebbles, &mut targets, &mut depths));
    digest(b", parents ", &parents);
    digest(b", pebbles ", &pebbles);
    digest(b", targets ", &targets);
    digest(b", depths ", &depths);
}

// What the first bytes of a written sheet say, as many as a field says.
pub fn write_and_read(line: &[u8], lists: &Lists) {
    let mut sheet = [b'.'; 5041];
    let sheet = part(field(line, 6), &mut sheet);
    let _ = write_sheet(
        lists.parents,
        lists.pebbles,
        lists.targets,
        lists.depths,
        sheet,
    );
    let sheet = part(field(line, 7), sheet);
    read_back(sheet);
}
