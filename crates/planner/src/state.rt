// The state that planning starts from.
ghost use Rattle.std.specs.Prelude.{◌≤◌, ◌≡◌, length, ◌≢◌, IfOk};
ghost use Rattle.std.proofs.Math.Option.{none};
ghost use Rattle.model.specs.Judge.{matched_fault};
ghost use Rattle.model.specs.Given.{listed};
ghost use Rattle.model.specs.Paper.{paper_done};
ghost use Rattle.serve.specs.Serving.{Kept};
ghost use Rattle.planner.specs.Balancing.{Placed, tested_state};

use demand::matched::matched_demands;
use judge::tree::TreeLists;
use model::{Lists, Refusal};
use serve::state::State;

// Writes all but the demands: the pebbles, twice each node itself, as none of its children was
// served, and the depths.
fn place(pebbles: &[u8], depths: &[u8], s: &mut State)
    requires { (length pebbles.now ≤ 256) × (length depths.now ≡ length pebbles.now) }
    ensures { Placed pebbles.now depths.now s.old s.new (length pebbles.now) }
{
    for v in 0..pebbles.len() {
        s.pebbles[v] = pebbles[v] as i16;
        s.last_filled[v] = v as i16;
        s.last_drawn[v] = v as i16;
        s.depths[v] = depths[v] as i16;
    }
}

// Tests a yard as the planner does (refusals 1, 2, 26, 27, 4, 5, 6, then 7), and makes the state
// of one that passes. A refused yard leaves in the demands what `matched_demands` leaves there.
// Entries of numbers that are no node are left open: nothing reads them.
pub fn start<'a>(yard: &Lists<'a>, s: &mut State) -> Result<TreeLists<'a>, Refusal>
    ensures result_value { paper_done result ≡ matched_fault (listed yard.now) }
    ensures tree_value { IfOk result (λ tree. tree.lists ≡ yard.now) }
    ensures kept { matched_fault (listed yard.now) ≡ none → Kept (listed yard.now) s.new }
    ensures s_value { matched_fault (listed yard.now) ≢ none → s.new ≡ tested_state (listed yard.now) s.old }
{
    let tree = matched_demands(yard, &mut s.demands)?;
    place(yard.pebbles, yard.depths, s);
    Ok(tree)
}
