// From the bytes of a yard sheet and a move sheet to the bytes that are printed.
ghost use Rattle.std.specs.Prelude.{◌≡◌, ◌≤◌, length, drop};
ghost use Rattle.model.specs.Yard.{Yard, size, max_size};
ghost use Rattle.model.specs.Given.{listed};
ghost use Rattle.model.specs.Calls.Answers.{overwrite};
ghost use Rattle.model.specs.CheckSheets as CheckSheets;
ghost use Rattle.checks.specs.Verdicts.{verdict, Accepted, accepted_sheet, checked_plan, checked_from, verdict_room};

use crate::crossings::{Crossings, count_crossings};
use crate::part::yard_bytes;
use crate::plan::{PLAN_BYTES, read_plan};
use checker::check::check;
use judge::root::root_of;
use judge::tree::TreeLists;
use model::{Checked, Lists};
use reader::read::read_sheet;
use sheet::decimal::put_text;
use sheet::line::put_line;
use sheet::output::put_refused;
use sheet::report::put_report;

// The program judges only so many bytes of its input.
pub const CHECKED_BYTES: usize = 1_060_000;

// Room for every output (`verdict_room`): the verdict, and the report of the largest yard.
pub const OUTPUT_BYTES: usize = 12 + 14 + 27 + 18 * 256;

// Accepted moves of a yard: the number of moves and how many are spare, and below
// them the crossing report.
fn put_accepted(yard: &Lists, plan: &[u8], moves: usize, excess: usize, out: &mut [u8]) -> usize
    requires { Accepted (listed yard.now) yard.now.parents.now plan.now (verdict moves excess) × (verdict_room ≤ length out.old) }
    ensures value { result ≡ length (accepted_sheet (listed yard.now) plan.now (verdict moves excess)) }
    ensures out_value { out.new ≡ overwrite (accepted_sheet (listed yard.now) plan.now (verdict moves excess)) out.old }
{
    let n = yard.parents.len();
    let root = root_of(&TreeLists { lists: *yard });
    let Crossings { ups, downs } = count_crossings(yard.parents, plan);
    let values = put_text(out, 0, b"moves spare\n");
    let at = put_line(out, values, &[moves, excess]);
    put_report(&ups[..n], &downs[..n], root, moves, out, at)
}

// What the checker answers for four lists and a plan.
fn put_verdict(yard: &Lists, plan: &[u8], out: &mut [u8]) -> usize
    requires { verdict_room ≤ length out.old }
    ensures value { result ≡ length (checked_plan (listed yard.now) plan.now) }
    ensures out_value { out.new ≡ overwrite (checked_plan (listed yard.now) plan.now) out.old }
{
    match check(yard, plan) {
        Ok(Checked { moves, excess }) => put_accepted(yard, plan, moves, excess, out),
        Err(r) => put_refused(r, out),
    }
}

// The same for four lists and the move sheet that stands at `at`, or what refuses that sheet.
fn put_checked(yard: &Lists, input: &[u8], at: usize, out: &mut [u8]) -> usize
    requires { (size (listed yard.now) ≤ max_size) × (at ≤ length input.now) × (verdict_room ≤ length out.old) }
    ensures value { result ≡ length (checked_from (listed yard.now) (drop at input.now)) }
    ensures out_value { out.new ≡ overwrite (checked_from (listed yard.now) (drop at input.now)) out.old }
{
    let mut plan = [0u8; PLAN_BYTES];
    match read_plan(input, at, yard.parents.len() + 2, &mut plan) {
        Ok(count) => put_verdict(yard, &plan[..2 * count], out),
        Err(r) => put_refused(r, out),
    }
}

// What is printed for an input, at the front of a list; answers how many bytes.
pub fn program(input: &[u8], out: &mut [u8; OUTPUT_BYTES]) -> usize
    ensures value { result ≡ length (CheckSheets.checks input.now) }
    ensures out_value { out.new ≡ overwrite (CheckSheets.checks input.now) out.old }
{
    let end = yard_bytes(input);
    let mut parents = [0u8; 256];
    let mut pebbles = [0u8; 256];
    let mut targets = [0u8; 256];
    let mut depths = [0u8; 256];
    match read_sheet(
        &input[..end],
        &mut parents,
        &mut pebbles,
        &mut targets,
        &mut depths,
    ) {
        Ok(n) => put_checked(
            &Lists {
                parents: &parents[..n],
                pebbles: &pebbles[..n],
                targets: &targets[..n],
                depths: &depths[..n],
            },
            input,
            end,
            out,
        ),
        Err(r) => put_refused(r, out),
    }
}
