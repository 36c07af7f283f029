// Planning part by part, and the call.
ghost use Rattle.std.specs.Prelude.{◌≡◌};
ghost use Rattle.model.specs.Yard.{Yard};
ghost use Rattle.model.specs.Given.{listed};
ghost use Rattle.model.specs.Calls.Parts.{parts_answer, parts_plan_list, parts_list};
ghost use Rattle.model.specs.Paper.{paper_counted};
ghost use Rattle.parts.specs.Planning.{AskedParts, PlannedParts};

use crate::name::name_parts;
use demand::signed::sizes;
use model::{Lists, Refusal};
use planner::balance::balance_subtrees;
use planner::state::start;
use serve::state::State;
use serve::tree::{Children, tables};

// Plans the parts in rising number of their topmost nodes, each into the rest of the list behind the moves of the part before; answers the number of moves.
fn plan_each(t: &Children, s: &mut State, plan: &mut [u8], parts: &[u8]) -> usize
    requires { (y : Yard) × AskedParts y t.now s.old plan.old parts.now }
    ensures { (y : Yard) → AskedParts y t.now s.old plan.old parts.now → PlannedParts y plan.old plan.new result }
{
    let mut moves = [0u8; 512];
    let mut k = 0;
    for v in 0..parts.len() {
        if parts[v] as usize == v {
            let m = balance_subtrees(t, s, &mut plan[2 * k..], &mut moves, parts, v, parts.len());
            k += m;
        }
    }
    k
}

// The call: the plan of each part as a yard of its own, part behind part, and for each node its part's topmost node; answers the number of moves. Refusals 1 to 7,
// then 2 for a part list of another length than n, then 8 with the moves of all parts as place; a refusal leaves both lists. Linear in nodes and moves: no part is
// planned over the whole yard.
pub fn plan_parts(yard: &Lists, plan: &mut [u8], parts: &mut [u8]) -> Result<usize, Refusal>
    ensures result_value { paper_counted result ≡ parts_answer (listed yard.now) plan.old parts.old }
    ensures plan_value { plan.new ≡ parts_plan_list (listed yard.now) plan.old parts.old }
    ensures parts_value { parts.new ≡ parts_list (listed yard.now) plan.old parts.old }
{
    let mut s = State::new();
    start(yard, &mut s)?;
    let n = yard.parents.len();
    if parts.len() != n {
        return Err(Refusal::ListLength);
    }
    let length = sizes(&s.demands[..n]);
    if plan.len() / 2 < length {
        return Err(Refusal::ListTooShort(length));
    }
    name_parts(yard.parents, &s.demands, parts);
    let t = tables(yard.parents);
    let count = plan_each(&t.children, &mut s, plan, parts);
    Ok(count)
}
