// Yard sheets read and written.
ghost use Rattle.std.specs.Prelude.{◌≡◌};
ghost use Rattle.model.specs.Yard.{Yard, size};
ghost use Rattle.model.specs.Given.{given, read_from};
ghost use Rattle.model.specs.Calls.Answers.{mapAnswer, in_c};
ghost use Rattle.model.specs.Sheets.{filled, write_answer, write_list};

use crate::answers::counted;
use reader::read::read_sheet;
use sheet::writer::write_sheet;

// The reader: fills the first entries of four lists of at least 256, and answers how many. Refusals 18, 15, then line by line 1, 16, 17.
#[unsafe(no_mangle)]
pub extern "C" fn javendriky_read_sheet(
    sheet: &[u8],
    parents: &mut [u8],
    pebbles: &mut [u8],
    targets: &mut [u8],
    depths: &mut [u8],
) -> u32
    ensures value { result ≡ in_c (mapAnswer size (read_from sheet.now parents.old pebbles.old targets.old depths.old)) }
    ensures parents_value { parents.new ≡ filled (λ (y : Yard). y.parents) (read_from sheet.now parents.old pebbles.old targets.old depths.old) parents.old }
    ensures pebbles_value { pebbles.new ≡ filled (λ (y : Yard). y.pebbles) (read_from sheet.now parents.old pebbles.old targets.old depths.old) pebbles.old }
    ensures targets_value { targets.new ≡ filled (λ (y : Yard). y.targets) (read_from sheet.now parents.old pebbles.old targets.old depths.old) targets.old }
    ensures depths_value { depths.new ≡ filled (λ (y : Yard). y.depths) (read_from sheet.now parents.old pebbles.old targets.old depths.old) depths.old }
{
    counted(read_sheet(sheet, parents, pebbles, targets, depths))
}

// The writer: writes the sheet of four lists at the front of its list, and answers its bytes. Refusals 1, 2, 8.
#[unsafe(no_mangle)]
pub extern "C" fn javendriky_write_sheet(
    parents: &[u8],
    pebbles: &[u8],
    targets: &[u8],
    depths: &[u8],
    sheet: &mut [u8],
) -> u32
    ensures value { result ≡ in_c (write_answer (given parents.now pebbles.now targets.now depths.now) sheet.old) }
    ensures sheet_value { sheet.new ≡ write_list (given parents.now pebbles.now targets.now depths.now) sheet.old }
{
    counted(write_sheet(parents, pebbles, targets, depths, sheet))
}
