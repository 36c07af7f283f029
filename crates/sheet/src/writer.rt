// The writer's call: four lists as a yard sheet.
ghost use Rattle.std.specs.Prelude.{◌≡◌, ◌≤◌, length};
ghost use Rattle.model.specs.Given.{given, handed};
ghost use Rattle.model.specs.Sheets.{yard_sheet, write_answer, write_list};
ghost use Rattle.model.specs.Paper.{paper_counted};
ghost use Rattle.sheet.specs.Written.{SameLength, Written};

use crate::decimal::put_text;
use crate::line::put_line;
use judge::test::test_lengths;
use model::{Lists, Refusal};

// The header of a yard sheet.
pub const HEADER_BYTES: usize = 30;

pub const HEADER: [u8; HEADER_BYTES] = *b"berth parent car target depth\n";

// Room for every sheet.
const SHEET_BYTES: usize = 5_040;

// Writes the sheet of four lists at the front of a list, and answers its length. Here and below the four
// are not one struct: the sheet's length needs that entries are bytes, which is known of lists lent alone.
fn put_sheet(
    parents: &[u8],
    pebbles: &[u8],
    targets: &[u8],
    depths: &[u8],
    sheet: &mut [u8],
) -> usize
    requires same_length { SameLength (handed parents.now pebbles.now targets.now depths.now) }
    requires depths_in_bounds { length (yard_sheet (handed parents.now pebbles.now targets.now depths.now)) ≤ length sheet.old }
    ensures { Written (yard_sheet (given parents.now pebbles.now targets.now depths.now)) 0 sheet.old result sheet.new }
{
    let mut at = put_text(sheet, 0, &HEADER);
    for v in 0..parents.len() {
        let parent = parents[v] as usize;
        let pebble = pebbles[v] as usize;
        let target = targets[v] as usize;
        let depth = depths[v] as usize;
        at = put_line(sheet, at, &[v, parent, pebble, target, depth]);
    }
    at
}

// Writes four lists as a sheet: refusals 1 and 2, then 8 with the bytes needed if the list is shorter. It answers the bytes written and
// leaves the others. The sheet is written aside first, since its length is known only then.
pub fn write_sheet(
    parents: &[u8],
    pebbles: &[u8],
    targets: &[u8],
    depths: &[u8],
    sheet: &mut [u8],
) -> Result<usize, Refusal>
    ensures result_value { paper_counted result ≡ write_answer (given parents.now pebbles.now targets.now depths.now) sheet.old }
    ensures sheet_value { sheet.new ≡ write_list (given parents.now pebbles.now targets.now depths.now) sheet.old }
{
    test_lengths(&Lists {
        parents,
        pebbles,
        targets,
        depths,
    })?;
    let mut whole = [0u8; SHEET_BYTES];
    let needed = put_sheet(parents, pebbles, targets, depths, &mut whole);
    if needed > sheet.len() {
        return Err(Refusal::ListTooShort(needed));
    }
    put_text(sheet, 0, &whole[..needed]);
    Ok(needed)
}
