// One step: the push that the yard state, the checker and the trial share.
ghost use Rattle.std.specs.Prelude.{◌≡◌, false, [], ℕ, ◌<◌, length};
ghost use Rattle.std.proofs.Math.Option.{some};
ghost use Rattle.model.specs.Yard.{yard_of};
ghost use Rattle.model.specs.Push as Push;
ghost use Rattle.model.specs.Push.{push, move_fault, is_none, shifted};
ghost use Rattle.model.specs.Calls.Answers.{lent};
ghost use Rattle.model.specs.Paper.{paper, paper_done};
ghost use Rattle.yard.specs.Given.{given_bare, handed_bare, Alike};

use model::Refusal;

// Whether one of two nodes is the other's parent, and they differ.
fn adjacent(parents: &[u8], a: usize, b: usize) -> bool
    requires { (a < length parents.now) × (b < length parents.now) }
    ensures { result ≡ Push.adjacent (yard_of parents.now [] [] []) a b }
{
    if a == b {
        return false;
    }
    if parents[a] as usize == b {
        return true;
    }
    parents[b] as usize == a
}

// Whether none of refusals 10 to 13 meets the move from `from` to `to`.
fn free(parents: &[u8], pebbles: &[u8], depths: &[u8], from: usize, to: usize) -> bool
    requires { Alike parents.now pebbles.now depths.now }
    ensures { (place : ℕ) → result ≡ is_none (move_fault (given_bare parents.now pebbles.now depths.now) (push from to) place) }
{
    let n = parents.len();
    if n <= from {
        return false;
    }
    if n <= to {
        return false;
    }
    if pebbles[from] == 0 {
        return false;
    }
    if pebbles[to] >= depths[to] {
        return false;
    }
    if parents[from] as usize == to {
        return from != to;
    }
    parents[to] as usize == from
}

// Which of refusals 10 to 13 meets a move first, where one does.
fn fault(
    parents: &[u8],
    pebbles: &[u8],
    depths: &[u8],
    from: usize,
    to: usize,
    place: usize,
) -> Refusal
    requires alike { Alike parents.now pebbles.now depths.now }
    requires place_value { is_none (move_fault (handed_bare parents.now pebbles.now depths.now) (push from to) place) ≡ false }
    ensures { move_fault (given_bare parents.now pebbles.now depths.now) (push from to) place ≡ some (paper result) }
{
    let n = parents.len();
    if n <= from {
        return Refusal::NoSuchNode(place);
    }
    if n <= to {
        return Refusal::NoSuchNode(place);
    }
    if !adjacent(parents, from, to) {
        return Refusal::NotAdjacent(place);
    }
    if pebbles[from] == 0 {
        return Refusal::FromEmpty(place);
    }
    Refusal::ToFull(place)
}

// Judges the move from `from` to `to` by refusals 10 to 13, with `place` as their place.
pub fn test_move(
    parents: &[u8],
    pebbles: &[u8],
    depths: &[u8],
    from: usize,
    to: usize,
    place: usize,
) -> Result<(), Refusal>
    requires { Alike parents.now pebbles.now depths.now }
    ensures { paper_done result ≡ move_fault (given_bare parents.now pebbles.now depths.now) (push from to) place }
{
    if !free(parents, pebbles, depths, from, to) {
        return Err(fault(parents, pebbles, depths, from, to, place));
    }
    Ok(())
}

// Judges a move likewise, and makes it if none meets it; a refusal leaves the
// pebbles as they were. (Refusals 10 to 13 do not look at targets.)
pub fn step(
    parents: &[u8],
    pebbles: &mut [u8],
    depths: &[u8],
    from: usize,
    to: usize,
    place: usize,
) -> Result<(), Refusal>
    requires { Alike parents.now pebbles.old depths.now }
    ensures result_value { paper_done result ≡ move_fault (given_bare parents.now pebbles.old depths.now) (push from to) place }
    ensures pebbles_value { pebbles.new ≡ lent (paper_done result) (shifted pebbles.old (push from to)) pebbles.old }
{
    if !free(parents, pebbles, depths, from, to) {
        return Err(fault(parents, pebbles, depths, from, to, place));
    }
    let first = pebbles[from];
    let second = pebbles[to];
    pebbles[from] = first - 1;
    pebbles[to] = second + 1;
    Ok(())
}
