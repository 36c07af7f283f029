// Which opening goes over each edge: one at most, as its demand has one sign. Those that go down are linked by the node that they start from.
ghost use Rattle.std.specs.Prelude.{◌≡◌};
ghost use Rattle.model.specs.Yard.{Matched};
ghost use Rattle.model.specs.Given.{listed};
ghost use Rattle.openings.specs.Listing.{Demands, Marked};
ghost use Rattle.openings.specs.Ways.{wayOver};

use judge::tree::TreeLists;
use serve::tree::Children;

// The way of an opening over an edge: down from the parent, or up to it.
#[derive(Clone, Copy, PartialEq, Eq)]
pub enum Way {
    Down,
    Up,
}

// Which opening goes over the edge of each node, and the children to which one goes from a node.
#[derive(Drop)]
pub struct Marks {
    pub ways: [Option<Way>; 256],
    pub down: Children,
}

// Over the edge of a node, by its demand, the pebbles that it holds and its depth, and those of
// its parent. A pebble goes from where one is held to where there is a place.
fn way_over(demand: i16, pebbles: u8, depth: u8, above: u8, limit: u8) -> Option<Way>
    ensures { result ≡ wayOver demand pebbles depth above limit }
{
    if demand > 0 && above > 0 && pebbles < depth {
        return Some(Way::Down);
    }
    if demand < 0 && pebbles > 0 && above < limit {
        return Some(Way::Up);
    }
    None
}

// That of every edge, by the node below it, and the children to which one goes linked: from the highest node down, so that each node's come in rising order.
pub fn mark_edges(yard: &TreeLists, demands: &[i16]) -> Marks
    requires { Matched (listed yard.now.lists) × Demands (listed yard.now.lists) demands.now }
    ensures { Marked 0 (listed yard.now.lists) result }
{
    let yard = yard.lists;
    let mut t = Marks {
        ways: [None; 256],
        down: Children::unlinked(yard.parents.len()),
    };
    for v in (0..yard.parents.len()).rev() {
        let p = yard.parents[v] as usize;
        let way = way_over(
            demands[v],
            yard.pebbles[v],
            yard.depths[v],
            yard.pebbles[p],
            yard.depths[p],
        );
        t.ways[v] = way;
        if way == Some(Way::Down) {
            t.down.link(v, p);
        }
    }
    t
}
