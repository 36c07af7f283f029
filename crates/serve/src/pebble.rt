// Algorithms 2, 3 and 4: filling and clearing, which call each other down the tree, drawing, and their moves.
ghost use Rattle.std.specs.Prelude.{◌≡◌, ◌≢◌, true, false, not, ℕ, ◌+◌, ◌*◌, ◌<◌, ◌≤◌, List, length, drop, ℤ, ltb};
ghost use Rattle.model.specs.Yard.{Yard, up};
ghost use Rattle.model.specs.Calls.Answers.{overwrite};
ghost use Rattle.serve.specs.Serving.{Small, Room, pebble_counted, recorded, AskedFill, Filled, Cleared, AskedServe, Served};

use crate::choose::{nearer, pick};
use crate::state::State;
use crate::tree::Children;
use lists::copy::copy;

// How many moves the list of a filling has places for, and how many bytes it has.
const PLACES: usize = 256;

const LIST_BYTES: usize = 2 * PLACES;

impl State {
    // Whether a node has a place for one more pebble.
    fn has_place(&self, v: usize) -> bool
        requires { (v < 256) × ((p : ℕ) × (d : ℕ) × Room self.now v p d) }
        ensures { (p d : ℕ) → Room self.now v p d → result ≡ ltb p d }
    {
        self.pebbles[v] < self.depths[v]
    }

    // One pebble less at a node (true), or one more.
    fn count_pebble(&mut self, v: usize, less: bool)
        requires { (v < 256) × Small self.old.pebbles v }
        ensures { self.new ≡ pebble_counted less v self.old }
    {
        self.pebbles[v] = nearer(self.pebbles[v], less);
    }
}

// Algorithm 4: writes the move of a pebble over the edge of v, whose parent is p, away from the root or towards it, at place k of the list.
pub fn record_move(plan: &mut [u8], k: usize, p: usize, v: usize, away: bool)
    requires { (p < 256) × (v < 256) × (2 * k + 2 ≤ length plan.old) }
    ensures { plan.new ≡ recorded away p v k plan.old }
{
    if away {
        plan[2 * k] = p as u8;
        plan[2 * k + 1] = v as u8;
        return;
    }
    plan[2 * k] = v as u8;
    plan[2 * k + 1] = p as u8;
}

// Algorithm 2: fills v, which was picked for it, from its parent u. The last move of a filling is known first: it is written to the place before `end`, and v
// is cleared into the places before that one. Answers where the moves begin.
#[cycle(clear_node_inject_pebble)]
pub fn inject_pebble(
    t: &Children,
    s: &mut State,
    moves: &mut [u8; 512],
    end: usize,
    u: usize,
    v: usize,
) -> usize
    requires { (y : Yard) × AskedFill true y t.now s.old end v × (u ≡ up y.parents v) }
    ensures { (y : Yard) → AskedFill true y t.now s.old end v → u ≡ up y.parents v → Filled true y end v s.old s.new moves.old moves.new result }
{
    record_move(moves, end - 1, u, v, true);
    clear_node(t, s, moves, end - 1, v)
}

// Clears v, so that it has a place, and takes that place. To clear a full v, fill the child that is picked.
#[cycle(clear_node_inject_pebble)]
fn clear_node(t: &Children, s: &mut State, moves: &mut [u8; 512], end: usize, v: usize) -> usize
    requires { (y : Yard) × AskedFill true y t.now s.old (end + 1) v }
    ensures { (y : Yard) → AskedFill true y t.now s.old (end + 1) v → Cleared true y end v s.old s.new moves.old moves.new result }
{
    if s.has_place(v) {
        s.count_pebble(v, false);
        return end;
    }
    let c = pick(t, s, v, true);
    inject_pebble(t, s, moves, end, v, c)
}

// Algorithm 3: draws from v, which was picked for it, into its parent u. Into an empty v a pebble is drawn first.
pub fn extract_pebble(
    t: &Children,
    s: &mut State,
    moves: &mut [u8; 512],
    end: usize,
    u: usize,
    v: usize,
) -> usize
    requires { (y : Yard) × AskedFill false y t.now s.old end v × (u ≡ up y.parents v) }
    ensures { (y : Yard) → AskedFill false y t.now s.old end v → u ≡ up y.parents v → Filled false y end v s.old s.new moves.old moves.new result }
{
    record_move(moves, end - 1, u, v, false);
    if s.pebbles[v] != 0 {
        s.count_pebble(v, true);
        return end - 1;
    }
    let c = pick(t, s, v, false);
    extract_pebble(t, s, moves, end - 1, v, c)
}

// A single move over the edge of v, whose parent is u, to the front of the plan.
fn move_pebble(s: &mut State, plan: &mut [u8], u: usize, v: usize, away: bool)
    requires { (u < 256) × (v < 256) × (u ≢ v) × Small s.old.pebbles u × Small s.old.pebbles v × (2 ≤ length plan.old) }
    ensures s_value { s.new ≡ pebble_counted (not away) v (pebble_counted away u s.old) }
    ensures plan_value { plan.new ≡ recorded away u v 0 plan.old }
{
    s.count_pebble(u, away);
    s.count_pebble(v, !away);
    record_move(plan, 0, u, v, away);
}

// Copies the moves from place k of a list to the front of the plan. Answers how many.
fn hand_over(moves: &[u8], k: usize, plan: &mut [u8]) -> usize
    requires { (length moves.now ≡ 512) × (k ≤ 256) × (512 ≤ length plan.old + 2 * k) }
    ensures k_value { result + k ≡ 256 }
    ensures plan_value { plan.new ≡ overwrite (drop (2 * k) moves.now) plan.old }
{
    copy(&moves[2 * k..], &mut plan[..LIST_BYTES - 2 * k]);
    PLACES - k
}

// Fills the child c of u that was picked, by moves at the front of the plan; answers how many. Mostly c has a place, and it is one;
// else they are written to a list that is lent for it, and handed over.
pub fn fill_child(
    t: &Children,
    s: &mut State,
    plan: &mut [u8],
    moves: &mut [u8; 512],
    u: usize,
    c: usize,
) -> usize
    requires { (y : Yard) × (s₀ : State) × AskedServe true y t.now s₀ s.old plan.old u c }
    ensures { (y : Yard) (s₀ : State) → AskedServe true y t.now s₀ s.old plan.old u c → Served true y c s.new plan.old plan.new result }
{
    if s.has_place(c) {
        move_pebble(s, plan, u, c, true);
        return 1;
    }
    let k = inject_pebble(t, s, moves, PLACES, u, c);
    s.count_pebble(u, true);
    hand_over(moves, k, plan)
}

// Draws from the child c of u that was picked, in the same way.
pub fn draw_child(
    t: &Children,
    s: &mut State,
    plan: &mut [u8],
    moves: &mut [u8; 512],
    u: usize,
    c: usize,
) -> usize
    requires { (y : Yard) × (s₀ : State) × AskedServe false y t.now s₀ s.old plan.old u c }
    ensures { (y : Yard) (s₀ : State) → AskedServe false y t.now s₀ s.old plan.old u c → Served false y c s.new plan.old plan.new result }
{
    if s.pebbles[c] != 0 {
        move_pebble(s, plan, u, c, false);
        return 1;
    }
    let k = extract_pebble(t, s, moves, PLACES, u, c);
    s.count_pebble(u, false);
    hand_over(moves, k, plan)
}
