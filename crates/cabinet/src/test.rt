// The refusals of a step.
ghost use Rattle.std.specs.Prelude.{◌≡◌, not, ◌&&◌, ◌||◌, ◌≤◌, ◌<◌, leb, ltb, eqb};
ghost use Rattle.std.proofs.Math.Option.{none};
ghost use Rattle.model.specs.Given.{listed};
ghost use Rattle.model.specs.Judge.{first_of};
ghost use Rattle.model.specs.Calls.Registers.{idle, block_of, whole_moves, register_fault, next_tests, task_fault, step_fault};
ghost use Rattle.model.specs.Paper.{paper_done};

use checker::check::test_plan;
use checker::obey::whole_plan;
use judge::tree::{TreeLists, tree_of};
use model::{Lists, Refusal, Registers};
use yard::step::test_move;

// Whether the moves left are more than the plan's, or none while not idle.
fn left_wrong(r: Registers, moves: usize) -> bool
    ensures { result ≡ not ((leb r.left moves) && ((eqb r.status idle) || (ltb 0 r.left))) }
{
    r.left > moves || r.status != 0 && r.left == 0
}

// 24, with the lowest register that is wrong.
fn test_registers(r: Registers, moves: usize) -> Result<(), Refusal>
    ensures { paper_done result ≡ register_fault moves r }
{
    if r.command > 3 {
        return Err(Refusal::Register(0));
    }
    if r.status > 2 {
        return Err(Refusal::Register(1));
    }
    if left_wrong(r, moves) {
        return Err(Refusal::Register(4));
    }
    if r.flags > 3 {
        return Err(Refusal::Register(8));
    }
    Ok(())
}

// 9, then 10 to 13 of the next move with its number, for a running step with command 0.
fn test_next(yard: &TreeLists, plan: &[u8], r: Registers) -> Result<(), Refusal>
    requires { (0 < r.left) × (r.left ≤ whole_moves plan.now) }
    ensures { paper_done result ≡ first_of (next_tests (listed yard.now.lists) plan.now r) }
{
    if !whole_plan(plan) {
        return Err(Refusal::PlanLength);
    }
    let i = plan.len() / 2 - r.left;
    test_move(
        yard.lists.parents,
        yard.lists.pebbles,
        yard.lists.depths,
        plan[2 * i] as usize,
        plan[2 * i + 1] as usize,
        i,
    )
}

// 25 and the checker's refusals for a start; those of the next move where one is obeyed.
fn test_task(yard: &TreeLists, plan: &[u8], r: Registers) -> Result<(), Refusal>
    requires { register_fault (whole_moves plan.now) r ≡ none }
    ensures { paper_done result ≡ task_fault (listed yard.now.lists) plan.now r }
{
    match (r.command, r.status) {
        (1, 0) => test_plan(&yard.lists, plan),
        (1, _) => Err(Refusal::NotIdle),
        (0, 1) => test_next(yard, plan, r),
        _ => Ok(()),
    }
}

// All refusals of a step, in their order.
pub fn test_step(yard: &Lists, plan: &[u8], r: Registers) -> Result<(), Refusal>
    ensures { paper_done result ≡ step_fault (listed yard.now) plan.now (block_of r) }
{
    let tree = tree_of(yard)?;
    test_registers(r, plan.len() / 2)?;
    test_task(&tree, plan, r)
}
