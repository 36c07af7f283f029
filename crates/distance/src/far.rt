// The distances of all nodes from one, in linear time, and on the way whether the parents are a tree's. Along the way from that node to the root the distances
// rise by one, and every other node is one farther away than its parent. An entry of 256, which is no distance, is not known yet. No way to the root has n steps:
// a climb of so many goes round in a circle.
ghost use Rattle.std.specs.Prelude.{◌≡◌, true, [], ℕ, ◌<◌, length, drop, Some, IfSome};
ghost use Rattle.model.specs.Yard.{Yard, yard_of};
ghost use Rattle.model.specs.Judge.{Parents, first_of, shape_tests};
ghost use Rattle.model.specs.Distance.{distance};
ghost use Rattle.model.specs.Paper.{paper_done};
ghost use Rattle.laws.proofs.Trees.{Wood};
ghost use Rattle.distance.specs.Far.{From, unknown, Unknown, Entries, Rooted, Climbs, Written, Partly, Distances};

use judge::test::test_shape;
use model::Refusal;

// The node itself, and those on the way from it to the root, by the steps up to each. False if there is no root within n steps.
fn mark_way(parents: &[u8], list: &mut [u16], node: usize) -> bool
    requires { Parents parents.now × Entries parents.now list.old × Unknown list.old × (node < length parents.now) }
    ensures entries { Entries parents.now list.new × (result ≡ true → (root : ℕ) × Rooted parents.now list.new root) }
    ensures value { (y : Yard) → From y parents.now node → (result ≡ true) × Partly y node list.new }
{
    let mut w = node;
    for steps in 0..parents.len() as u16 {
        list[w] = steps;
        let p = parents[w] as usize;
        if p == w {
            return true;
        }
        w = p;
    }
    false
}

// The distance of v: that of the first node up from it that is known, and the steps up to there.
// None if there is none within n steps, or the sum is no distance.
fn far_away(parents: &[u8], list: &[u16], v: usize) -> Option<u16>
    requires { Parents parents.now × Entries parents.now list.now × (v < length parents.now) }
    ensures upper_bound { IfSome result (λ far. (far < unknown) × Climbs parents.now list.now v far) }
    ensures value { (y : Yard) (a : ℕ) → From y parents.now a → Partly y a list.now → result ≡ Some (distance y a v) }
{
    let mut u = v;
    for climbed in 0..parents.len() as u16 {
        if list[u] != 256 {
            let far = list[u] + climbed;
            return (far < 256).then_some(far);
        }
        u = parents[u] as usize;
    }
    None
}

// Writes the distance of v, and of the nodes up from it as far as they are not known.
fn write_up(parents: &[u8], list: &mut [u16], v: usize, far: u16)
    requires { Parents parents.now × Entries parents.now list.old × (v < length parents.now) × (far < unknown) × Climbs parents.now list.old v far }
    ensures written { Written parents.now v list.old list.new }
    ensures partly { (y : Yard) (a : ℕ) → From y parents.now a → Partly y a list.old → far ≡ distance y a v → Partly y a list.new }
{
    let mut w = v;
    let mut steps = far;
    while list[w] == 256 {
        list[w] = steps;
        steps -= 1;
        w = parents[w] as usize;
    }
}

// The distance of v, if it is not known: at once where its parent's is, else by climbs. False if no climb from v comes to a node that is known.
fn know(parents: &[u8], list: &mut [u16], v: usize) -> bool
    requires { Parents parents.now × Entries parents.now list.old × (v < length parents.now) }
    ensures list_len { (length list.new ≡ length parents.now) × (result ≡ true → Written parents.now v list.old list.new) }
    ensures value { (y : Yard) (a : ℕ) → From y parents.now a → Partly y a list.old → (result ≡ true) × Partly y a list.new }
{
    if list[v] != 256 {
        return true;
    }
    let above = list[parents[v] as usize];
    if above < 255 {
        list[v] = above + 1;
        return true;
    }
    let Some(far) = far_away(parents, list, v) else {
        return false;
    };
    write_up(parents, list, v, far);
    true
}

// All of them, into a list of one entry a node. False if the parents are not a tree's.
fn fill(parents: &[u8], list: &mut [u16], node: usize) -> bool
    requires { Parents parents.now × Entries parents.now list.old × Unknown list.old × (node < length parents.now) }
    ensures by_index { result ≡ true → (root : ℕ) × Wood parents.now root }
    ensures value { (y : Yard) → From y parents.now node → (result ≡ true) × Distances y node list.new }
{
    if !mark_way(parents, list, node) {
        return false;
    }
    for v in 0..parents.len() {
        if !know(parents, list, v) {
            return false;
        }
    }
    true
}

// Refusals 5 and 6, and of a tree the distances of all nodes from one, at the front of a list of 256, whose other entries stay. Left open are the first n entries
// after a refusal: no rule speaks of them, as each call lends an array of its own and looks at it only if the yard is accepted.
pub(crate) fn measure(parents: &[u8], list: &mut [u16], node: usize) -> Result<(), Refusal>
    requires { Parents parents.now × Unknown list.old × (length list.old ≡ 256) × (node < length parents.now) }
    ensures result_value { paper_done result ≡ first_of (shape_tests (yard_of parents.now [] [] [])) }
    ensures distances { (y : Yard) → From y parents.now node → Distances y node list.new }
    ensures list_value { drop (length parents.now) list.new ≡ drop (length parents.now) list.old }
{
    if fill(parents, &mut list[..parents.len()], node) {
        return Ok(());
    }
    test_shape(parents)
}
