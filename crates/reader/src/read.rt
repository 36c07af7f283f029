// The reader's call: what a yard sheet says, into four lists.
ghost use Rattle.std.specs.Prelude.{◌≡◌, ◌≤◌};
ghost use Rattle.model.specs.Yard.{size, max_size};
ghost use Rattle.model.specs.Given.{read_from};
ghost use Rattle.model.specs.Calls.Answers.{mapAnswer};
ghost use Rattle.model.specs.Sheets.{read_yard, filled};
ghost use Rattle.model.specs.Paper.{paper_counted};
ghost use Rattle.reader.specs.Reading.{Full, took, counted, lines_say};

use crate::line::{begins, read_line};
use model::Refusal;
use sheet::decimal::put_text;
use sheet::writer::{HEADER, HEADER_BYTES};

// How many values a node's line has.
const VALUES: usize = 5;

// The nodes of a sheet behind the header, line by line, into four arrays: how many, or the refusal of the first line that has one.
fn read_nodes(
    sheet: &[u8],
    parents: &mut [u8; 256],
    pebbles: &mut [u8; 256],
    targets: &mut [u8; 256],
    depths: &mut [u8; 256],
) -> Result<usize, Refusal>
    requires { Full parents.old pebbles.old targets.old depths.old }
    ensures depths_value { took result parents.new pebbles.new targets.new depths.new ≡ lines_say sheet.now }
    ensures result_bound { (counted result ≤ max_size) × Full parents.new pebbles.new targets.new depths.new }
{
    // A `for` over the nodes would test for the end of the sheet twice: in the loop and behind it.
    let mut at = HEADER_BYTES;
    let mut v = 0;
    while at < sheet.len() {
        let number = v + 2;
        if v == 256 {
            return Err(Refusal::NodeCount(number));
        }
        let mut values = [0u8; VALUES];
        let Some(next) = read_line(sheet, at, &mut values) else {
            return Err(Refusal::LineShape(number));
        };
        if values[0] != v as u8 {
            return Err(Refusal::NodeNumber(number));
        }
        parents[v] = values[1];
        pebbles[v] = values[2];
        targets[v] = values[3];
        depths[v] = values[4];
        at = next;
        v += 1;
    }
    Ok(v)
}

// What a sheet says, in the first entries of four arrays.
fn read_lines(
    sheet: &[u8],
    parents: &mut [u8; 256],
    pebbles: &mut [u8; 256],
    targets: &mut [u8; 256],
    depths: &mut [u8; 256],
) -> Result<usize, Refusal>
    requires { Full parents.old pebbles.old targets.old depths.old }
    ensures depths_value { took result parents.new pebbles.new targets.new depths.new ≡ read_yard sheet.now }
    ensures result_bound { (counted result ≤ max_size) × Full parents.new pebbles.new targets.new depths.new }
{
    if !begins(sheet, &HEADER) {
        return Err(Refusal::Header(1));
    }
    if sheet.len() == HEADER_BYTES {
        return Err(Refusal::NodeCount(2));
    }
    read_nodes(sheet, parents, pebbles, targets, depths)
}

// Reads a sheet: 18 if one of the lists is shorter than 256, then as the sheet says. It answers the number of nodes and fills as many
// entries at the front of each list, and nothing else; a refusal leaves all lists as they were.
pub fn read_sheet(
    sheet: &[u8],
    parents: &mut [u8],
    pebbles: &mut [u8],
    targets: &mut [u8],
    depths: &mut [u8],
) -> Result<usize, Refusal>
    ensures result_value { paper_counted result ≡ mapAnswer size (read_from sheet.now parents.old pebbles.old targets.old depths.old) }
    ensures parents_value { parents.new ≡ filled (λ y. y.parents) (read_from sheet.now parents.old pebbles.old targets.old depths.old) parents.old }
    ensures pebbles_value { pebbles.new ≡ filled (λ y. y.pebbles) (read_from sheet.now parents.old pebbles.old targets.old depths.old) pebbles.old }
    ensures targets_value { targets.new ≡ filled (λ y. y.targets) (read_from sheet.now parents.old pebbles.old targets.old depths.old) targets.old }
    ensures depths_value { depths.new ≡ filled (λ y. y.depths) (read_from sheet.now parents.old pebbles.old targets.old depths.old) depths.old }
{
    if parents.len() < 256 {
        return Err(Refusal::ReaderList);
    }
    if pebbles.len() < 256 {
        return Err(Refusal::ReaderList);
    }
    if targets.len() < 256 {
        return Err(Refusal::ReaderList);
    }
    if depths.len() < 256 {
        return Err(Refusal::ReaderList);
    }
    let mut parents_read = [0u8; 256];
    let mut pebbles_read = [0u8; 256];
    let mut targets_read = [0u8; 256];
    let mut depths_read = [0u8; 256];
    let n = read_lines(
        sheet,
        &mut parents_read,
        &mut pebbles_read,
        &mut targets_read,
        &mut depths_read,
    )?;
    put_text(parents, 0, &parents_read[..n]);
    put_text(pebbles, 0, &pebbles_read[..n]);
    put_text(targets, 0, &targets_read[..n]);
    put_text(depths, 0, &depths_read[..n]);
    Ok(n)
}
