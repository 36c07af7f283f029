// The openings in their order: node by node in rising number, and of each its children in rising number, with its parent among them at its place.
ghost use Rattle.std.specs.Prelude.{ℕ, length};
ghost use Rattle.model.specs.Yard.{Yard};
ghost use Rattle.openings.specs.Listing.{AskedChildren, ListedChildren, AskedFrom, ListedFrom, AskedAll, ListedAll};

use crate::edges::{Marks, Way};
use serve::pebble::record_move;

// The next child to look at, or the node itself behind the last, and the number of moves listed.
#[derive(Drop)]
pub struct Walk {
    pub child: usize,
    pub count: usize,
}

// Lists the openings from a to its children, from one on, with numbers below `end`.
fn list_children(
    t: &Marks,
    list: &mut [u8],
    a: usize,
    from: usize,
    end: usize,
    count: usize,
) -> Walk
    requires { (y : Yard) × (i : ℕ) × AskedChildren y t.now list.old a i from end count }
    ensures { (y : Yard) (i : ℕ) → AskedChildren y t.now list.old a i from end count → ListedChildren y list.new a result.child end result.count }
{
    let mut c = from;
    let mut k = count;
    while c != a {
        if c >= end {
            return Walk { child: c, count: k };
        }
        record_move(list, k, a, c, true);
        k += 1;
        c = t.down.next[c] as usize;
    }
    Walk { child: a, count: k }
}

// Lists the openings from a: those to the children with lower numbers than the parent's, that to the parent, and those to the other children.
fn list_from(t: &Marks, parents: &[u8], list: &mut [u8], a: usize, n: usize, count: usize) -> usize
    requires { (y : Yard) × AskedFrom y t.now parents.now list.old a n count }
    ensures { (y : Yard) → AskedFrom y t.now parents.now list.old a n count → ListedFrom y list.new a result }
{
    let first = t.down.lowest[a] as usize;
    if t.ways[a] != Some(Way::Up) {
        let all = list_children(t, list, a, first, n, count);
        return all.count;
    }
    let p = parents[a] as usize;
    let lower = list_children(t, list, a, first, p, count);
    let k = lower.count;
    record_move(list, k, p, a, false);
    let higher = list_children(t, list, a, lower.child, n, k + 1);
    higher.count
}

// Lists them all, and answers how many they are.
pub fn list_openings(t: &Marks, parents: &[u8], list: &mut [u8]) -> usize
    requires { (y : Yard) × AskedAll y t.now parents.now list.old (length parents.now) }
    ensures { (y : Yard) → AskedAll y t.now parents.now list.old (length parents.now) → ListedAll y list.new result }
{
    let n = parents.len();
    let mut k = 0;
    for a in 0..n {
        k = list_from(t, parents, list, a, n, k);
    }
    k
}
