// The displaced (disturbed) pebbles, told by the demands.
ghost use Rattle.std.specs.Prelude.{◌≡◌, ℕ, ◌≤◌, ◌<◌, length, get_or, pos, nat_abs, unwrap_or};
ghost use Rattle.model.specs.Yard.{sum, max_size, max_demand};
ghost use Rattle.model.specs.Given.{listed};
ghost use Rattle.model.specs.Calls.Demands.{displaced_answer};
ghost use Rattle.model.specs.Paper.{paper_counted};
ghost use Rattle.figures.specs.Leaving.{source_or, Leaves, staying_of, moving_at};

use demand::matched::matched_demands;
use demand::signed::size;
use model::{Lists, Refusal};

// The node from which pebbles cross the edge of v, whose parent is p: v if its demand is below 0, p
// if it is above, and none if none cross it.
fn source(demand: i16, v: usize, p: usize) -> Option<usize>
    ensures { (other : ℕ) → unwrap_or result other ≡ source_or other demand v p }
{
    if demand < 0 {
        return Some(v);
    }
    if demand > 0 {
        return Some(p);
    }
    None
}

// For each node how many pebbles leave it, over its own edge and over those of its children. An
// edge that none cross adds its 0 at entry 256, which is no node's: so the loop has no branch.
fn leaving(parents: &[u8], demands: &[i16]) -> [usize; 257]
    requires parents_len_bound { (length parents.now ≤ max_size) × (length demands.now ≡ length parents.now) }
    requires by_index { (v : ℕ) → nat_abs (get_or demands.now v (pos 0)) ≤ max_demand }
    ensures { Leaves parents.now demands.now result }
{
    let mut counts = [0usize; 257];
    for (v, parent) in parents.iter().enumerate() {
        let u = source(demands[v], v, *parent as usize).unwrap_or(256);
        counts[u] += size(demands[v]);
    }
    counts
}

// How many pebbles of a node stay: one that lacks some is not left full, and what leaves is beyond what comes.
fn staying(depth: usize, pebble: usize, demand: i16, out: usize) -> usize
    requires { (pebble < 256) × (nat_abs demand ≤ max_demand) }
    ensures { result ≡ staying_of depth pebble demand out }
{
    if demand > 0 {
        let room = depth.saturating_sub(1);
        let left = (pebble + size(demand)).saturating_sub(out);
        return room.min(pebble.min(left));
    }
    depth.min(pebble.saturating_sub(out))
}

// The sum over the nodes of what they hold above what stays.
fn moving(pebbles: &[u8], depths: &[u8], demands: &[i16], out: &[usize]) -> usize
    requires pebbles_len_bound { (length pebbles.now ≤ max_size) × (length depths.now ≡ length pebbles.now) × (length demands.now ≡ length pebbles.now) × (length pebbles.now ≤ length out.now) }
    requires by_index { (v : ℕ) → nat_abs (get_or demands.now v (pos 0)) ≤ max_demand }
    ensures { result ≡ sum (length pebbles.now) (moving_at pebbles.now depths.now demands.now out.now) }
{
    let mut count = 0;
    for (v, pebble) in pebbles.iter().enumerate() {
        let pebble = *pebble as usize;
        count += pebble - staying(depths[v] as usize, pebble, demands[v], out[v]);
    }
    count
}

// Displaced (disturbed): the pebbles that take part in a move of the plan, the last in first, without planning: of each node's those beyond the least that
// it ever holds, which the demands tell. Refusals 1 to 7. Linear work.
pub fn displaced(yard: &Lists) -> Result<usize, Refusal>
    ensures { paper_counted result ≡ displaced_answer (listed yard.now) }
{
    let mut demands = [0i16; 256];
    matched_demands(yard, &mut demands)?;
    let n = yard.parents.len();
    let out = leaving(yard.parents, &demands[..n]);
    let count = moving(yard.pebbles, yard.depths, &demands[..n], &out);
    Ok(count)
}
