// The move sheet behind a yard sheet, read line by line.
ghost use Rattle.std.specs.Prelude.{◌≡◌, ◌≤◌, length, drop};
ghost use Rattle.model.specs.Sheets as Sheets;
ghost use Rattle.model.specs.Sheets.{report_head};
ghost use Rattle.model.specs.CheckSheets.{moves_read, readMoves, readPlan};
ghost use Rattle.checks.specs.Reading.{plan_room, plan_in, moves_in};

use model::Refusal;
use reader::line::{begins, read_line};
use sheet::output::{MOVE_HEAD, MOVE_HEAD_BYTES, REPORT_HEAD};

// One move more than the checker takes: it refuses such a plan, whatever follows.
const MOVES_READ: usize = 131_073;

pub const PLAN_BYTES: usize = 2 * MOVES_READ;

// How many values a move's line has.
const VALUES: usize = 2;

// Whether a head stands at `at`.
fn stands_at(head: &[u8], input: &[u8], at: usize) -> bool
    requires { at ≤ length input.now }
    ensures { result ≡ Sheets.begins head.now (drop at input.now) }
{
    begins(&input[at..], head)
}

// Whether a report stands at `at`.
fn report_at(input: &[u8], at: usize) -> bool
    requires { at ≤ length input.now }
    ensures { result ≡ Sheets.begins report_head (drop at input.now) }
{
    stands_at(&REPORT_HEAD, input, at)
}

// The moves whose lines stand at `at`, the first of them line `first` of the input, into a list: how many, or the refusal of the first line that has one. A report
// ends them.
fn read_moves(input: &[u8], at: usize, first: usize, plan: &mut [u8]) -> Result<usize, Refusal>
    requires { (length plan.old ≡ plan_room) × (first ≤ 259) }
    ensures plan_value { plan_in result plan.new ≡ readMoves moves_read first (drop at input.now) }
    ensures result_bound { moves_in result ≤ moves_read }
{
    let mut next = at;
    for m in 0..MOVES_READ {
        if next >= input.len() || report_at(input, next) {
            return Ok(m);
        }
        let mut values = [0u8; VALUES];
        let Some(behind) = read_line(input, next, &mut values) else {
            return Err(Refusal::LineShape(first + m));
        };
        plan[2 * m] = values[0];
        plan[2 * m + 1] = values[1];
        next = behind;
    }
    Ok(MOVES_READ)
}

// The moves of the move sheet that stands at `at` and whose head is line `line` of the input, into a list: how many, or the refusal. Left open are the bytes behind
// the moves, and after a refusal all of them: no rule speaks of them, as the list is an array of the program's own, of which it looks at the moves alone.
pub(crate) fn read_plan(
    input: &[u8],
    at: usize,
    line: usize,
    plan: &mut [u8],
) -> Result<usize, Refusal>
    requires { (at ≤ length input.now) × (line ≤ 258) × (length plan.old ≡ plan_room) }
    ensures plan_value { plan_in result plan.new ≡ readPlan line (drop at input.now) }
    ensures result_bound { moves_in result ≤ moves_read }
{
    if !stands_at(&MOVE_HEAD, input, at) {
        return Err(Refusal::Header(line));
    }
    read_moves(input, at + MOVE_HEAD_BYTES, line + 1, plan)
}
