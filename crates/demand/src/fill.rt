// The demands of all nodes by equation 2 of the source, leaves first, in linear time; and on the way whether the parents are a tree's.
ghost use Rattle.std.specs.Prelude.{◌≡◌, ℕ, ◌+◌, ◌*◌, ◌%◌, ◌≤◌, ◌<◌, length, get_or};
ghost use Rattle.std.proofs.Math.Option.{none};
ghost use Rattle.model.specs.Given.{listed};
ghost use Rattle.model.specs.Judge.{first_of, list_tests};
ghost use Rattle.model.specs.Calls.Demands.{demands_of};
ghost use Rattle.demand.specs.Filling.{Differences, Pending, Gathered};

use crate::signed::{difference, plus};
use judge::tree::TreeLists;
use model::Lists;

// Writes the demand of each node of a tree into a list of one entry a node: the only list that meets equation 2 at every node.
pub fn fill(yard: &TreeLists, list: &mut [i16])
    requires { length list.old ≡ length yard.now.lists.parents.now }
    ensures { list.new ≡ demands_of (listed yard.now.lists) }
{
    gather(&yard.lists, list);
}

// Equation 2, of lists that refusals 1 to 4, 26 and 27 do not meet: each node's entry begins as its targets minus its pebbles, and the entries of its children are
// added to it, each once all of its own children are added to it. A node's pending number is 1 for itself, until it is added to its parent, and 1 for
// each node whose parent it is and that is not added yet: at 1 it is ready. Adding it may make its parent ready, and so on up, so that each node is added
// once. A node that is its own parent, or on a circle, is never ready: so one node is left over, the root, exactly if the parents are a tree's. Answers how
// many are. Left open are the number and the entries where it is not 1: the callers ask only whether it is.
pub(crate) fn gather(yard: &Lists, list: &mut [i16]) -> usize
    requires { (first_of (list_tests (listed yard.now)) ≡ none) × (length list.old ≡ length yard.now.parents.now) }
    ensures { Gathered (listed yard.now) result list.new }
{
    let parents = yard.parents;
    let n = parents.len();
    own(yard.pebbles, yard.targets, list);
    let mut pending = count_children(parents);
    let mut left = n;
    for v in 0..n {
        let mut u = v;
        while pending[u] == 1 {
            let p = parents[u] as usize;
            list[p] = plus(list[p], list[u]);
            pending[p] -= 1;
            pending[u] = 0;
            left -= 1;
            u = p;
        }
    }
    left
}

// Writes the difference of its counts into the entry of each node.
fn own(pebbles: &[u8], targets: &[u8], list: &mut [i16])
    requires { (length pebbles.now ≡ length list.old) × (length targets.now ≡ length list.old) }
    ensures { Differences targets.now pebbles.now (length list.old) list.new }
{
    for (v, entry) in list.iter_mut().enumerate() {
        *entry = difference(targets[v], pebbles[v]);
    }
}

// For each node 1, and 1 more for each node whose parent it is. Even and odd nodes are counted apart: of many nodes with one parent, each
// count would else wait for the store of the one before.
fn count_children(parents: &[u8]) -> [u16; 256]
    requires { length parents.now ≤ 256 }
    ensures { Pending parents.now result }
{
    let mut counts = [0u16; 512];
    for (v, parent) in parents.iter().enumerate() {
        counts[place(*parent, v)] += 1;
    }
    add_halves(&counts)
}

// Where node v is counted: at its parent, in the half of even or of odd nodes.
fn place(parent: u8, v: usize) -> usize
    ensures { (result ≡ parent + 256 * (v % 2)) × (result < 512) }
{
    parent as usize + 256 * (v % 2)
}

// For each node 1 and its counts in both halves.
fn add_halves(counts: &[u16; 512]) -> [u16; 256]
    requires { (u : ℕ) → u < 256 → get_or counts.now u 0 + get_or counts.now (256 + u) 0 ≤ 256 }
    ensures { (length result ≡ 256) × ((u : ℕ) → u < 256 → get_or result u 0 ≡ 1 + get_or counts.now u 0 + get_or counts.now (256 + u) 0) }
{
    let mut pending = [0u16; 256];
    for u in 0..256 {
        pending[u] = 1 + counts[u] + counts[256 + u];
    }
    pending
}
