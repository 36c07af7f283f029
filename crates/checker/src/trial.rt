// The trial: a plan obeyed until a budget or the plan ends.
ghost use Rattle.std.specs.Prelude.{◌≡◌, ◌*◌, ◌≤◌, length};
ghost use Rattle.model.specs.Given.{given, handed};
ghost use Rattle.model.specs.Judge.{Tree};
ghost use Rattle.model.specs.Calls.Checks.{moves_fault, within, trial_answer, trial_pebbles};
ghost use Rattle.model.specs.Paper.{paper_done, paper_tried};
ghost use Rattle.checker.specs.Obeyed.{obeyed_or_left};

use crate::obey::{obey_copy, whole_plan};
use judge::test::test_yard;
use judge::tree::TreeLists;
use model::{Lists, Refusal, Tried};

// Obeys the first `count` moves of a plan on a copy of the pebbles of a tree, and writes the new counts if none is refused.
fn obey_or_leave(
    parents: &[u8],
    pebbles: &mut [u8],
    targets: &[u8],
    depths: &[u8],
    plan: &[u8],
    count: usize,
) -> Result<(), Refusal>
    requires { Tree (handed parents.now pebbles.old targets.now depths.now) × (2 * count ≤ length plan.now) }
    ensures result_value { paper_done result ≡ moves_fault 0 (given parents.now pebbles.old targets.now depths.now) (within plan.now count) }
    ensures pebbles_value { pebbles.new ≡ obeyed_or_left (paper_done result) (given parents.now pebbles.old targets.now depths.now) (within plan.now count) }
{
    let n = parents.len();
    let mut counts = [0u8; 256];
    obey_copy(
        &TreeLists {
            lists: Lists {
                parents,
                pebbles,
                targets,
                depths,
            },
        },
        &mut counts[..n],
        plan,
        count,
    )?;
    pebbles.copy_from_slice(&counts[..n]);
    Ok(())
}

// Refusals 1 to 6, 9, then 10 to 13 on the moves obeyed; it writes the new counts, and answers the moves taken and which of the two ended it
// (together: the plan). Moves past the budget are not examined, totals may differ, and a refusal leaves the counts as they were.
pub fn trial(
    parents: &[u8],
    pebbles: &mut [u8],
    targets: &[u8],
    depths: &[u8],
    plan: &[u8],
    budget: u16,
) -> Result<Tried, Refusal>
    ensures result_value { paper_tried result ≡ trial_answer (given parents.now pebbles.old targets.now depths.now) plan.now budget }
    ensures pebbles_value { pebbles.new ≡ trial_pebbles (given parents.now pebbles.old targets.now depths.now) plan.now budget }
{
    test_yard(&Lists {
        parents,
        pebbles,
        targets,
        depths,
    })?;
    if !whole_plan(plan) {
        return Err(Refusal::PlanLength);
    }
    let moves = plan.len() / 2;
    let limit = budget as usize;
    let taken = moves.min(limit);
    obey_or_leave(parents, pebbles, targets, depths, plan, taken)?;
    if moves <= limit {
        return Ok(Tried::PlanEnded(taken));
    }
    Ok(Tried::BudgetEnded(taken))
}
