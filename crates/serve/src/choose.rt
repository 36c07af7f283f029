// The choice of a child: the one whose demand, of the sign wanted, is farthest from 0, the lowest-numbered among equals.
ghost use Rattle.std.specs.Prelude.{◌≡◌, ℕ, ◌≤◌, ◌<◌, get_or, pos, nat_abs};
ghost use Rattle.model.specs.Yard.{Yard, max_demand};
ghost use Rattle.model.specs.Plan.{choice};
ghost use Rattle.laws.specs.Algorithms.{need};
ghost use Rattle.laws.proofs.Signed.{nextℤ};
ghost use Rattle.serve.specs.Serving.{beyond, lasts, Small, picked_state, Sees, Lowest, NextBeyond, AskedAfter, Picks};

use crate::state::State;
use crate::tree::Children;

// Whether a demand lies beyond another, away from 0 on the side of the sign wanted.
fn passes(demand: i16, other: i16, away: bool) -> bool
    ensures { result ≡ beyond away demand other }
{
    if away {
        return demand > other;
    }
    demand < other
}

// The first child of u, from one on, whose demand lies beyond `most`; u itself if there is none. It ends at that child, so that a processor need not wait for
// the demands to foresee where the way leads.
fn next_beyond(t: &Children, s: &State, u: usize, from: usize, most: i16, away: bool) -> usize
    requires { (y : Yard) × Sees y t.now s.now u × ((low : ℕ) × Lowest y.parents u low from) }
    ensures { (y : Yard) → Sees y t.now s.now u → (low : ℕ) → Lowest y.parents u low from → NextBeyond away y u low most result }
{
    let mut c = from;
    while c != u {
        if passes(s.demands[c], most, away) {
            return c;
        }
        c = t.next[c] as usize;
    }
    u
}

// The child that is served before any other was: from each that is farther from 0 than those before it on to the next, through all children of u.
fn choose_of_all(t: &Children, s: &State, u: usize, away: bool) -> usize
    requires { (y : Yard) × Sees y t.now s.now u }
    ensures { (y : Yard) → Sees y t.now s.now u → result ≡ choice (need y away) y u }
{
    let mut best = u;
    let mut from = t.lowest[u] as usize;
    let mut most = 0;
    loop {
        let c = next_beyond(t, s, u, from, most, away);
        if c == u {
            return best;
        }
        best = c;
        from = t.next[c] as usize;
        most = s.demands[c];
    }
}

impl State {
    // The child of u that was served last for a sign, or u itself before one was.
    fn last_served(&self, u: usize, away: bool) -> usize
        requires { (u < 256) × ((c : ℕ) × (c < 256) × (get_or (lasts away self.now) u (pos 0) ≡ pos c)) }
        ensures { get_or (lasts away self.now) u (pos 0) ≡ pos result }
    {
        if away {
            return self.last_filled[u] as usize;
        }
        self.last_drawn[u] as usize
    }

    // Writes that the child c of u is served: its demand is one nearer to 0, and it is the one
    // that was served last.
    fn note_served(&mut self, u: usize, c: usize, away: bool)
        requires { (u < 256) × (c < 256) × Small self.old.demands c }
        ensures { self.new ≡ picked_state away u c self.old }
    {
        self.demands[c] = nearer(self.demands[c], away);
        if away {
            self.last_filled[u] = c as i16;
            return;
        }
        self.last_drawn[u] = c as i16;
    }
}

// A demand, one nearer to 0 on the side of the sign wanted.
pub fn nearer(demand: i16, away: bool) -> i16
    requires { nat_abs demand ≤ max_demand }
    ensures { result ≡ nextℤ away demand }
{
    if away {
        return demand - 1;
    }
    demand + 1
}

// The child that is served after `last`. Children at the greatest size are served in rising number, and no demand grows: so the next one lies behind it, by
// what its demand then is; else it is the first that is as far from 0, at most `last` itself.
fn choose_after(t: &Children, s: &State, u: usize, last: usize, away: bool) -> usize
    requires { (y : Yard) × AskedAfter away y t.now s.now u last }
    ensures { (y : Yard) → AskedAfter away y t.now s.now u last → result ≡ choice (need y away) y u }
{
    let c = next_beyond(t, s, u, t.next[last] as usize, s.demands[last], away);
    if c != u {
        return c;
    }
    if s.demands[last] == 0 {
        return u;
    }
    next_beyond(
        t,
        s,
        u,
        t.lowest[u] as usize,
        nearer(s.demands[last], away),
        away,
    )
}

// The child of u that is served wherever one is chosen, or u itself if no child has a demand of the sign wanted.
fn choose(t: &Children, s: &State, u: usize, away: bool) -> usize
    requires { (y : Yard) × Sees y t.now s.now u }
    ensures { (y : Yard) → Sees y t.now s.now u → result ≡ choice (need y away) y u }
{
    let last = s.last_served(u, away);
    if last == u {
        return choose_of_all(t, s, u, away);
    }
    choose_after(t, s, u, last, away)
}

// Picks that child: the state is then as if a pebble had gone over its edge, but for the pebbles.
pub fn pick(t: &Children, s: &mut State, u: usize, away: bool) -> usize
    requires { (y : Yard) × Sees y t.now s.old u }
    ensures value { (y : Yard) → Sees y t.now s.old u → result ≡ choice (need y away) y u }
    ensures picks { Picks away u result s.old s.new }
{
    let c = choose(t, s, u, away);
    if c == u {
        return u;
    }
    s.note_served(u, c, away);
    c
}
