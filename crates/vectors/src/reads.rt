// Yard sheets read.
use cases::lines::{bad, field};
use cases::lists::{front, part};
use cases::print::{counted, first};
use reader::read::read_sheet;

// A sheet's byte, by the sign for it in a case.
fn meant(sign: u8) -> u8 {
    match sign {
        b'~' => b'\n',
        b'<' => b'\r',
        b'>' => b'\t',
        _ => sign,
    }
}

// The bytes that signs are for, into the front of a list; how many.
fn spell(signs: &[u8], sheet: &mut [u8]) -> usize {
    if signs.len() > sheet.len() {
        bad(signs);
        return 0;
    }
    for (i, &sign) in signs.iter().enumerate() {
        sheet[i] = meant(sign);
    }
    signs.len()
}

// The sheet that a field says, in the front of a list.
fn spelled<'a>(signs: &[u8], sheet: &'a mut [u8]) -> &'a mut [u8] {
    let count = spell(signs, sheet);
    front(sheet, count)
}

// After the answer come the first four entries of each list, which held 7 before.
pub fn read_small(line: &[u8]) {
    let mut sheet = [0u8; 300];
    let sheet = spelled(field(line, 2), &mut sheet);
    let mut parents = [7u8; 256];
    let mut pebbles = [7u8; 256];
    let mut targets = [7u8; 256];
    let mut depths = [7u8; 256];
    counted(read_sheet(sheet, &mut parents, &mut pebbles, &mut targets, &mut depths));
    first(b", parents", &parents, 4);
    first(b", pebbles", &pebbles, 4);
    first(b", targets", &targets, 4);
    first(b", depths", &depths, 4);
}

// The answer for lists as long as the fields say.
pub fn read_to_lists(line: &[u8]) {
    let mut sheet = [0u8; 300];
    let sheet = spelled(field(line, 2), &mut sheet);
    let mut parents = [0u8; 300];
    let mut pebbles = [0u8; 300];
    let mut targets = [0u8; 300];
    let mut depths = [0u8; 300];
    let parents = part(field(line, 3), &mut parents);
    let pebbles = part(field(line, 4), &mut pebbles);
    let targets = part(field(line, 5), &mut targets);
    let depths = part(field(line, 6), &mut depths);
    counted(read_sheet(sheet, parents, pebbles, targets, depths));
}
