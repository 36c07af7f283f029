// From the bytes of a yard sheet to the bytes that are printed.
ghost use Rattle.std.specs.Prelude.{◌≡◌, ◌+◌, ◌≤◌, length};
ghost use Rattle.model.specs.Given.{listed};
ghost use Rattle.model.specs.Calls.Answers.{overwrite, answered};
ghost use Rattle.model.specs.Sheets as Sheets;
ghost use Rattle.model.specs.Sheets.{program_plan_bytes, printed_of};
ghost use Rattle.sheet.specs.Written.{Written};
ghost use Rattle.sheet.specs.Report.{report_room};
ghost use Rattle.moves.specs.Report.{output_room, Planned, plan_report, planSheet};

use crate::report::split;
use demand::fill::fill;
use judge::root::root_of;
use judge::tree::TreeLists;
use model::Lists;
use planner::plan::plan;
use reader::read::read_sheet;
use sheet::output::{put_moves, put_refused};
use sheet::report::put_report;

// The program judges only so many bytes of its input.
pub const JUDGED_BYTES: usize = 5_200;

// Room for 32,768 moves: longer plans meet 8.
const PLAN_BYTES: usize = 65_536;

// Room for the longest report (`report_room`), and for every output, of which a move sheet is the longest: its head has 8 bytes, and in a line each of
// the two bytes of a move takes at most 4.
const REPORT_BYTES: usize = 27 + 18 * 256;

pub const OUTPUT_BYTES: usize = 8 + 4 * PLAN_BYTES + REPORT_BYTES;

// The report of a plan, the one of these four lists, from `at` on; answers the place after it. By
// the demands at the start.
fn put_plan_report(yard: &Lists, plan: &[u8], out: &mut [u8], at: usize) -> usize
    requires { Planned (listed yard.now) plan.now × (at + report_room (length yard.now.parents.now) ≤ length out.old) }
    ensures written { Written (plan_report (listed yard.now)) at out.old result out.new }
    ensures upper_bound { result ≤ at + report_room (length yard.now.parents.now) }
{
    let n = yard.parents.len();
    let tree = TreeLists { lists: *yard };
    let mut demands = [0i16; 256];
    fill(&tree, &mut demands[..n]);
    let root = root_of(&tree);
    let mut ups = [0u32; 256];
    let mut downs = [0u32; 256];
    split(&demands[..n], &mut ups[..n], &mut downs[..n]);
    put_report(&ups[..n], &downs[..n], root, plan.len() / 2, out, at)
}

// The move sheet of a plan, the one of these four lists: its moves, and the report.
fn put_planned(yard: &Lists, plan: &[u8], out: &mut [u8]) -> usize
    requires { Planned (listed yard.now) plan.now × (output_room (length plan.now) ≤ length out.old) }
    ensures value { result ≡ length (planSheet (listed yard.now)) }
    ensures out_value { out.new ≡ overwrite (planSheet (listed yard.now)) out.old }
{
    let behind = put_moves(plan, out);
    put_plan_report(yard, plan, out, behind)
}

// The move sheet of four lists, or what refuses them.
fn put_plan(yard: &Lists, out: &mut [u8]) -> usize
    requires { output_room program_plan_bytes ≤ length out.old }
    ensures value { result ≡ length (printed_of (answered (listed yard.now))) }
    ensures out_value { out.new ≡ overwrite (printed_of (answered (listed yard.now))) out.old }
{
    let mut list = [0u8; PLAN_BYTES];
    match plan(yard, &mut list) {
        Ok(count) => put_planned(yard, &list[..2 * count], out),
        Err(r) => put_refused(r, out),
    }
}

// What is printed for an input, at the front of a list; answers how many bytes.
pub fn program(input: &[u8], out: &mut [u8; OUTPUT_BYTES]) -> usize
    ensures value { result ≡ length (Sheets.program input.now) }
    ensures out_value { out.new ≡ overwrite (Sheets.program input.now) out.old }
{
    let mut parents = [0u8; 256];
    let mut pebbles = [0u8; 256];
    let mut targets = [0u8; 256];
    let mut depths = [0u8; 256];
    match read_sheet(input, &mut parents, &mut pebbles, &mut targets, &mut depths) {
        Ok(n) => put_plan(
            &Lists {
                parents: &parents[..n],
                pebbles: &pebbles[..n],
                targets: &targets[..n],
                depths: &depths[..n],
            },
            out,
        ),
        Err(r) => put_refused(r, out),
    }
}
