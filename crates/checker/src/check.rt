// The checker.
ghost use Rattle.std.specs.Prelude.{◌≡◌};
ghost use Rattle.model.specs.Yard.{Matched};
ghost use Rattle.model.specs.Given.{listed};
ghost use Rattle.model.specs.Judge.{first_of};
ghost use Rattle.model.specs.Calls.Plans.{moves_of};
ghost use Rattle.model.specs.Calls.Checks.{obey_tests, check_fault, check_answer};
ghost use Rattle.model.specs.Paper.{paper_done, paper_checked};
ghost use Rattle.laws.specs.Demand2.{CheckerExact, Accepts};

use crate::obey::{obey_copy, whole_plan};
use demand::call::shortest_length;
use judge::totals::test_matched;
use judge::tree::TreeLists;
use lists::find::first_below;
use model::{Checked, Lists, Refusal};

// Obeys a whole plan on a copy of the pebbles of a tree: refusals 10 to 13 move by move, then 14.
fn obey_to_end(yard: &TreeLists, plan: &[u8]) -> Result<(), Refusal>
    ensures { paper_done result ≡ first_of (obey_tests (listed yard.now.lists) (moves_of plan.now)) }
{
    let n = yard.lists.parents.len();
    let mut counts = [0u8; 256];
    obey_copy(yard, &mut counts[..n], plan, plan.len() / 2)?;
    if let Some(empty) = first_below(&counts[..n], yard.lists.targets) {
        return Err(Refusal::TargetEmpty(empty));
    }
    Ok(())
}

// Judges a plan for a tree with as many pebbles as targets: refusals 9, 10 to 13 move by move, 14.
fn test_matched_plan(yard: &TreeLists, plan: &[u8]) -> Result<(), Refusal>
    requires { Matched (listed yard.now.lists) }
    ensures { paper_done result ≡ check_fault (listed yard.now.lists) plan.now }
{
    if !whole_plan(plan) {
        return Err(Refusal::PlanLength);
    }
    obey_to_end(yard, plan)
}

// The checker without its figures: refusals 1 to 6, 7, 9, 10 to 13 for each move in turn with its number as place, then 14 with the lowest node
// that lacks a pebble. A plan need not be shortest.
pub fn test_plan(yard: &Lists, plan: &[u8]) -> Result<(), Refusal>
    ensures { paper_done result ≡ check_fault (listed yard.now) plan.now }
{
    let tree = test_matched(yard)?;
    test_matched_plan(&tree, plan)
}

// The checker: refused as above, else the number of moves and the excess (spare), moves minus shortest length. On a tree with as many pebbles as targets it accepts
// whole moves exactly if each carries a pebble and they end on exactly the targets (`CheckerExact`, demand 2).
pub fn check(yard: &Lists, plan: &[u8]) -> Result<Checked, Refusal>
    ensures result_value { paper_checked result ≡ check_answer (listed yard.now) plan.now }
    ensures checker_exact { CheckerExact (listed yard.now) plan.now (Accepts (paper_checked result)) }
{
    test_plan(yard, plan)?;
    let length = shortest_length(&TreeLists { lists: *yard });
    let moves = plan.len() / 2;
    Ok(Checked {
        moves,
        excess: moves - length,
    })
}
