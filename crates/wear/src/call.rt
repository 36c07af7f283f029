// The call.
ghost use Rattle.std.specs.Prelude.{◌≡◌, ◌&&◌, ◌≤◌, ◌<◌, length, leb, ltb};
ghost use Rattle.model.specs.Given.{listed};
ghost use Rattle.model.specs.Judge.{first_of};
ghost use Rattle.model.specs.Wear as Wear;
ghost use Rattle.model.specs.Calls.Answers.{answer};
ghost use Rattle.model.specs.Calls.Plans.{moves_of};
ghost use Rattle.model.specs.Calls.Checks.{obey_tests};
ghost use Rattle.model.specs.Calls.Wear.{wear_answer};
ghost use Rattle.model.specs.Paper.{paper_worn};
ghost use Rattle.wear.specs.Wearing.{AskedWear};

use crate::count::count_copy;
use checker::check::test_plan;
use checker::obey::whole_plan;
use judge::totals::test_matched;
use judge::tree::TreeLists;
use lists::find::first_below;
use model::{Lists, Refusal, Worn};

// Obeys a whole plan on a copy of the pebbles of a tree, counting: refusals 10 to 13 move by move, then 14.
fn wear_to_end(yard: &TreeLists, plan: &[u8], width: usize) -> Result<Worn, Refusal>
    requires { AskedWear plan.now width }
    ensures { paper_worn result ≡ answer (first_of (obey_tests (listed yard.now.lists) (moves_of plan.now))) (Wear.wear (listed yard.now.lists) width (moves_of plan.now)) }
{
    let n = yard.lists.parents.len();
    let mut counts = [0u8; 256];
    let worn = count_copy(yard, &mut counts[..n], plan, width)?;
    if let Some(empty) = first_below(&counts[..n], yard.lists.targets) {
        return Err(Refusal::TargetEmpty(empty));
    }
    Ok(worn)
}

// The wear of a plan that has a stretch of this width.
fn wear_of_stretches(yard: &Lists, plan: &[u8], width: usize) -> Result<Worn, Refusal>
    requires { (0 < width) × (width ≤ length (moves_of plan.now)) }
    ensures { paper_worn result ≡ wear_answer (listed yard.now) plan.now width }
{
    let tree = test_matched(yard)?;
    if !whole_plan(plan) {
        return Err(Refusal::PlanLength);
    }
    wear_to_end(&tree, plan, width)
}

// Whether a plan has a stretch of this width: else refusal 28 meets it.
fn has_stretch(plan: &[u8], width: usize) -> bool
    ensures { result ≡ (ltb 0 width) && (leb width (length (moves_of plan.now))) }
{
    0 < width && width <= plan.len() / 2
}

// The most crossings of one edge within any `width` moves in a row of an accepted plan, the first move of the first stretch that has them, and the lowest such
// edge in it. Refused as by the checker, then with 28 for a width of 0 or above the number of moves. Linear in moves and nodes, whatever the width is.
pub fn wear(yard: &Lists, plan: &[u8], width: u32) -> Result<Worn, Refusal>
    ensures { paper_worn result ≡ wear_answer (listed yard.now) plan.now width }
{
    if has_stretch(plan, width as usize) {
        return wear_of_stretches(yard, plan, width as usize);
    }
    test_plan(yard, plan)?;
    Err(Refusal::Width)
}
