// Pebbles by their distances.
ghost use Rattle.std.specs.Prelude.{◌≡◌, ◌&&◌, map, ℕ, ◌≤◌, ◌<◌, length, leb, ltb, unwrap_or, IfSome};
ghost use Rattle.model.specs.Yard.{Yard, size, one, below, head_or};
ghost use Rattle.model.specs.Calls.Answers.{range};
ghost use Rattle.model.specs.Calls.Distances.{inReach, reach_count};
ghost use Rattle.model.specs.Paper.{paper_located};
ghost use Rattle.distance.specs.Far.{unknown, Asked, Least, is_within, nearest_or_none};

use model::{Located, Refusal};

// The least distance of a pebble, if there is one. In the loop 256, which is no distance, stands for
// none: an Option there would put a branch into it.
fn least(pebbles: &[u8], far: &[u16; 256]) -> Option<u16>
    requires { length pebbles.now ≤ 256 }
    ensures value { Least pebbles.now far.now (length pebbles.now) (unwrap_or result unknown) }
    ensures known { IfSome result (λ r. r < unknown) }
{
    let mut nearest = 256;
    for (v, pebble) in pebbles.iter().enumerate() {
        nearest = nearest.min((*pebble > 0).then_some(far[v]).unwrap_or(256));
    }
    (nearest < 256).then_some(nearest)
}

// Whether a node that holds so many pebbles, so far away, holds one within reach.
fn holds_within(pebble: u8, far: u16, reach: u16) -> bool
    ensures { result ≡ ((ltb 0 pebble) && (leb far reach)) }
{
    (pebble > 0) & (far <= reach)
}

// The first node that holds a pebble within reach.
fn first_within(pebbles: &[u8], far: &[u16; 256], reach: u16) -> Option<usize>
    requires { length pebbles.now ≤ 256 }
    ensures { (none : ℕ) → unwrap_or result none ≡ head_or none (below (length pebbles.now) (is_within pebbles.now far.now reach)) }
{
    for (v, pebble) in pebbles.iter().enumerate() {
        if holds_within(*pebble, far[v], reach) {
            return Some(v);
        }
    }
    None
}

// The nearest pebble: the first that is as near as the nearest.
pub fn nearest_of(pebbles: &[u8], far: &[u16; 256]) -> Result<Located, Refusal>
    requires { (y : Yard) × ((a : ℕ) × Asked y a pebbles.now far.now) }
    ensures { (y : Yard) (a : ℕ) → Asked y a pebbles.now far.now → paper_located result ≡ nearest_or_none y a }
{
    let Some(distance) = least(pebbles, far) else {
        return Err(Refusal::NoPebble);
    };
    let node = first_within(pebbles, far, distance).unwrap();
    Ok(Located {
        node,
        distance: distance as usize,
    })
}

// Writes 1 for each node that holds a pebble within reach and 0 for the others, and answers the
// count of 1s.
pub fn reach_into(pebbles: &[u8], far: &[u16; 256], list: &mut [u8], reach: u16) -> usize
    requires { (y : Yard) × ((a : ℕ) × Asked y a pebbles.now far.now × (length list.old ≡ size y)) }
    ensures value { (y : Yard) (a : ℕ) → Asked y a pebbles.now far.now → length list.old ≡ size y → result ≡ reach_count y a reach }
    ensures list_value { (y : Yard) (a : ℕ) → Asked y a pebbles.now far.now → length list.old ≡ size y → list.new ≡ map (λ v. one (inReach y a reach v)) (range 0 (size y)) }
{
    let mut count = 0;
    for (v, pebble) in pebbles.iter().enumerate() {
        let mark = u8::from(holds_within(*pebble, far[v], reach));
        list[v] = mark;
        count += mark as usize;
    }
    count
}
