// How often edges are crossed within a stretch of a plan's moves, counted while the moves are obeyed.
ghost use Rattle.std.specs.Prelude.{◌≡◌, ◌+◌, ◌*◌, ◌≤◌, ◌<◌, length, get_or, eqb};
ghost use Rattle.model.specs.Yard as Yard;
ghost use Rattle.model.specs.Yard.{lowest};
ghost use Rattle.model.specs.Given.{given, handed, listed};
ghost use Rattle.model.specs.Judge.{Tree};
ghost use Rattle.model.specs.Push.{move_fault, shifted, after};
ghost use Rattle.model.specs.Wear as Wear;
ghost use Rattle.model.specs.Calls.Answers.{answer, lent};
ghost use Rattle.model.specs.Calls.Plans.{moves_of};
ghost use Rattle.model.specs.Calls.Checks.{moves_fault};
ghost use Rattle.model.specs.Paper.{paper_done, paper_worn};
ghost use Rattle.yard.specs.Given.{given_bare, Alike};
ghost use Rattle.wear.specs.Wearing.{move_in, edge_in, taken, added, obeyed_of, AskedWear, AskedShift};

use judge::tree::TreeLists;
use model::{Refusal, Worn};
use yard::step::step;

// Makes move i of a plan, or refuses it.
fn obey_move(
    parents: &[u8],
    pebbles: &mut [u8],
    depths: &[u8],
    plan: &[u8],
    i: usize,
) -> Result<(), Refusal>
    requires { Alike parents.now pebbles.old depths.now × (2 * i + 1 < length plan.now) }
    ensures result_value { paper_done result ≡ move_fault (given_bare parents.now pebbles.old depths.now) (move_in plan.now i) i }
    ensures pebbles_value { pebbles.new ≡ lent (paper_done result) (shifted pebbles.old (move_in plan.now i)) pebbles.old }
{
    let from = plan[2 * i] as usize;
    let to = plan[2 * i + 1] as usize;
    step(parents, pebbles, depths, from, to, i)
}

// The edge that move i crosses: that of the lower of its nodes.
fn edge_at(parents: &[u8], plan: &[u8], i: usize) -> usize
    requires { (2 * i + 1 < length plan.now) × (get_or plan.now (2 * i) 0 < length parents.now) }
    ensures { result ≡ edge_in parents.now plan.now i }
{
    let from = plan[2 * i] as usize;
    let to = plan[2 * i + 1] as usize;
    if parents[from] as usize == to {
        return from;
    }
    to
}

// The greatest of the first n entries, each of which is looked at, so that many can be at once.
fn most_crossings(counts: &[u32; 256], n: usize) -> u32
    requires { n ≤ 256 }
    ensures { result ≡ Yard.most n (λ v. get_or counts.now v 0) }
{
    counts[..n].iter().copied().max().unwrap_or(0)
}

// The lowest of the first n entries that has so many, or n. An Option is no plainer: the caller
// asks for the most, which an entry has, and would need a default for a case that cannot be. With
// `position` the call takes 1.06 times as long.
fn lowest_edge(counts: &[u32; 256], n: usize, crossings: u32) -> usize
    requires { n ≤ 256 }
    ensures { result ≡ lowest n (λ v. eqb (get_or counts.now v 0) crossings) }
{
    for v in 0..n {
        if counts[v] == crossings {
            return v;
        }
    }
    n
}

// One crossing less of the edge of the move that goes, and one more of that of the move that comes in. Answers how often the latter is crossed then.
fn shift(counts: &mut [u32; 256], come: usize, gone: usize) -> u32
    requires { AskedShift counts.old come gone }
    ensures { (counts.new ≡ added (taken counts.old gone) come) × (result ≡ get_or (taken counts.old gone) come 0 + 1) }
{
    counts[gone] -= 1;
    counts[come] += 1;
    counts[come]
}

// Obeys a plan on the pebbles of a tree, and counts the crossings: those of the first stretch, then from stretch to stretch to the end of the plan. The edge of the move that
// comes in alone can be crossed more often than before, so only that one is compared with the most so far, and the last move of the worst stretch tells its edge. A refusal is that of the first move that is refused; the moves before it are obeyed, so callers lend a copy.
fn obey_and_count(
    parents: &[u8],
    pebbles: &mut [u8],
    targets: &[u8],
    depths: &[u8],
    plan: &[u8],
    width: usize,
) -> Result<Worn, Refusal>
    requires { Tree (handed parents.now pebbles.old targets.now depths.now) × AskedWear plan.now width }
    ensures result_value { paper_worn result ≡ answer (moves_fault 0 (given parents.now pebbles.old targets.now depths.now) (moves_of plan.now)) (Wear.wear (given parents.now pebbles.old targets.now depths.now) width (moves_of plan.now)) }
    ensures pebbles_value { pebbles.new ≡ after (given parents.now pebbles.old targets.now depths.now) (obeyed_of (moves_fault 0 (given parents.now pebbles.old targets.now depths.now) (moves_of plan.now)) plan.now) }
{
    let mut counts = [0u32; 256];
    for i in 0..width {
        obey_move(parents, pebbles, depths, plan, i)?;
        let come = edge_at(parents, plan, i);
        counts[come] += 1;
    }
    let mut most = most_crossings(&counts, parents.len());
    let worst = lowest_edge(&counts, parents.len(), most);
    let mut first = 0;
    let moves = plan.len() / 2;
    for gone in 0..moves - width {
        obey_move(parents, pebbles, depths, plan, gone + width)?;
        let come = edge_at(parents, plan, gone + width);
        let crossings = shift(&mut counts, come, edge_at(parents, plan, gone));
        if most < crossings {
            most = crossings;
            first = gone + 1;
        }
    }
    if first == 0 {
        return Ok(Worn {
            crossings: most as usize,
            first: 0,
            edge: worst,
        });
    }
    Ok(Worn {
        crossings: most as usize,
        first,
        edge: edge_at(parents, plan, first + width - 1),
    })
}

// The same, on a copy of the pebbles: `counts` is written, whatever it held.
pub fn count_copy(
    yard: &TreeLists,
    counts: &mut [u8],
    plan: &[u8],
    width: usize,
) -> Result<Worn, Refusal>
    requires asked { AskedWear plan.now width }
    requires counts_len { length counts.old ≡ length yard.now.lists.pebbles.now }
    ensures result_value { paper_worn result ≡ answer (moves_fault 0 (listed yard.now.lists) (moves_of plan.now)) (Wear.wear (listed yard.now.lists) width (moves_of plan.now)) }
    ensures counts_value { counts.new ≡ after (listed yard.now.lists) (obeyed_of (moves_fault 0 (listed yard.now.lists) (moves_of plan.now)) plan.now) }
{
    let yard = yard.lists;
    counts.copy_from_slice(yard.pebbles);
    obey_and_count(yard.parents, counts, yard.targets, yard.depths, plan, width)
}
