// The planner's call.
ghost use Rattle.std.specs.Prelude.{◌≡◌};
ghost use Rattle.model.specs.Given.{listed};
ghost use Rattle.model.specs.Calls.Plans.{plan_answer, plan_list};
ghost use Rattle.model.specs.Paper.{paper_counted};
ghost use Rattle.laws.specs.Demand2.{PlannerExact};
ghost use Rattle.laws.specs.Demand3.{Demand3};

use crate::balance::balance_subtrees;
use crate::state::start;
use demand::signed::sizes;
use judge::root::root_of;
use model::{Lists, Refusal};
use serve::state::State;
use serve::tree::tables;

// The plan, or the refusal. Its length is worked out from the demands before anything is written: refusal 8 with it as place if the list is shorter.
fn plan_sheet(yard: &Lists, plan: &mut [u8]) -> Result<usize, Refusal>
    ensures result_value { paper_counted result ≡ plan_answer (listed yard.now) plan.old }
    ensures plan_value { plan.new ≡ plan_list (listed yard.now) plan.old }
{
    let mut s = State::new();
    let tree = start(yard, &mut s)?;
    let n = yard.parents.len();
    let length = sizes(&s.demands[..n]);
    if plan.len() / 2 < length {
        return Err(Refusal::ListTooShort(length));
    }
    let t = tables(yard.parents);
    let root = root_of(&tree);
    let mut moves = [0u8; 512];
    let count = balance_subtrees(&t.children, &mut s, plan, &mut moves, yard.parents, root, n);
    Ok(count)
}

// The planner: the plan of Algorithms 1 to 4 at the front of the lent list, the bytes behind it untouched; answers the number of moves. Refusals 1
// to 7, then 8 with the moves needed as place; a refusal leaves the list as it was. On a tree with as many pebbles as targets it is the one list that Algorithms 1 to 4 output
// (`PlannerExact`, demand 2), and no move is spare (`Demand3`).
pub fn plan(yard: &Lists, list: &mut [u8]) -> Result<usize, Refusal>
    ensures result_value { paper_counted result ≡ plan_answer (listed yard.now) list.old }
    ensures list_value { list.new ≡ plan_list (listed yard.now) list.old }
    ensures planner_exact { PlannerExact (listed yard.now) list.old (paper_counted result) list.new }
    ensures demand3 { Demand3 (listed yard.now) list.old (paper_counted result) list.new }
{
    plan_sheet(yard, list)
}
