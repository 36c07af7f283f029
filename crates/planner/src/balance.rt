// Algorithm 1: balancing the subtrees of a node.
ghost use Rattle.std.specs.Prelude.{◌≡◌, true, false, not, ◌&&◌, ◌+◌, ◌≤◌, ◌<◌, eqb, length, get_or};
ghost use Rattle.model.specs.Yard.{Yard, size};
ghost use Rattle.model.specs.Plan.{fills};
ghost use Rattle.laws.proofs.Demands.{weight};
ghost use Rattle.planner.specs.Balancing.{entered, AskedEven, AskedTurn, TurnTaken, Settled, Balanced};

use serve::choose::pick;
use serve::pebble::{draw_child, fill_child};
use serve::state::State;
use serve::tree::Children;

// A turn of the loop at u, which holds a pebble: fills the child that is picked. Answers how many moves it took, which is none if no child lacks a pebble.
// One function for both signs is slower: a plan of a star takes up to 1.6 times as long.
fn inject_turn(
    t: &Children,
    s: &mut State,
    plan: &mut [u8],
    moves: &mut [u8; 512],
    u: usize,
) -> usize
    requires { (y : Yard) × AskedTurn true y t.now s.old plan.old u }
    ensures { (y : Yard) → AskedTurn true y t.now s.old plan.old u → TurnTaken true y u s.old s.new plan.old plan.new result }
{
    let c = pick(t, s, u, true);
    if c == u {
        return 0;
    }
    fill_child(t, s, plan, moves, u, c)
}

// A turn of the loop at u that does not fill: draws from the child that is picked.
fn extract_turn(
    t: &Children,
    s: &mut State,
    plan: &mut [u8],
    moves: &mut [u8; 512],
    u: usize,
) -> usize
    requires { (y : Yard) × AskedTurn false y t.now s.old plan.old u }
    ensures { (y : Yard) → AskedTurn false y t.now s.old plan.old u → TurnTaken false y u s.old s.new plan.old plan.new result }
{
    let c = pick(t, s, u, false);
    if c == u {
        return 0;
    }
    draw_child(t, s, plan, moves, u, c)
}

// A turn of the loop at u: if it holds a pebble a child that lacks one is filled; where it holds none, or no child lacks one, one is drawn from a child.
fn turn(t: &Children, s: &mut State, plan: &mut [u8], moves: &mut [u8; 512], u: usize) -> usize
    requires { (y : Yard) × AskedEven y t.now s.old plan.old u }
    ensures { (y : Yard) → AskedEven y t.now s.old plan.old u → TurnTaken (fills y u) y u s.old s.new plan.old plan.new result }
{
    if s.pebbles[u] == 0 {
        return extract_turn(t, s, plan, moves, u);
    }
    let m = inject_turn(t, s, plan, moves, u);
    if m != 0 {
        return m;
    }
    extract_turn(t, s, plan, moves, u)
}

// The loop at u: turns, until none makes a move; then no child has a demand, as u's own demand is 0.
fn settle(t: &Children, s: &mut State, plan: &mut [u8], moves: &mut [u8; 512], u: usize) -> usize
    requires { (y : Yard) × AskedEven y t.now s.old plan.old u }
    ensures { (y : Yard) → AskedEven y t.now s.old plan.old u → Settled y u s.new plan.old plan.new result }
{
    let mut k = 0;
    loop {
        let m = turn(t, s, &mut plan[2 * k..], moves, u);
        if m == 0 {
            return k;
        }
        k += m;
    }
}

// Whether the child v is balanced after its parent: not if it has no child itself, as it then needs no move, and not if the list names it by itself.
fn enters(t: &Children, parts: &[u8], v: usize) -> bool
    requires { (v < 256) × (v < length parts.now) }
    ensures { result ≡ (entered parts.now v) && (not (eqb (get_or t.now.lowest v 0) v)) }
{
    parts[v] as usize != v && t.lowest[v] as usize != v
}

// Balances u: the loop, and after it has ended the children in rising number, each behind the moves before. A child that the list of parts names by itself is
// the topmost node of another part (request 2.11), and is passed over; in the list of parents none is, so with that all of the tree is balanced. The moves go
// to the front of the plan list; answers how many.
pub fn balance_subtrees(
    t: &Children,
    s: &mut State,
    plan: &mut [u8],
    moves: &mut [u8; 512],
    parts: &[u8],
    u: usize,
    height: usize,
) -> usize
    requires { (y : Yard) × AskedEven y t.now s.old plan.old u × (weight y.parents u ≤ height) × (size y ≤ length parts.now) }
    ensures { (y : Yard) → AskedEven y t.now s.old plan.old u → Balanced (entered parts.now) y u s.new plan.old plan.new result }
{
    let mut k = settle(t, s, plan, moves, u);
    let mut c = t.lowest[u] as usize;
    while c != u {
        let v = c;
        c = t.next[v] as usize;
        if enters(t, parts, v) {
            let m = balance_subtrees(t, s, &mut plan[2 * k..], moves, parts, v, height - 1);
            k += m;
        }
    }
    k
}
