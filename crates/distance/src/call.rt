// The nearest call and the reach call.
ghost use Rattle.std.specs.Prelude.{◌≡◌, ◌<◌, length};
ghost use Rattle.std.proofs.Math.Option.{none};
ghost use Rattle.model.specs.Yard.{size};
ghost use Rattle.model.specs.Judge.{judge};
ghost use Rattle.model.specs.Given.{handed, listed};
ghost use Rattle.model.specs.Calls.Distances.{nearest_answer, reach_answer, reach_list};
ghost use Rattle.model.specs.Paper.{paper_done, paper_located, paper_counted};
ghost use Rattle.distance.specs.Far.{Unknown, Distances};

use crate::far::measure;
use crate::look::{nearest_of, reach_into};
use judge::test::test_lists;
use model::{Lists, Located, Refusal};

// The node itself, or node 0 for a number that is no node's.
fn or_first(node: usize, n: usize) -> usize
    requires { 0 < n }
    ensures { (result < n) × (node < n → result ≡ node) }
{
    if node < n { node } else { 0 }
}

// Refusals 1 to 6, and of a tree the distances of all nodes from one of them. That the number handed in is a node's is asked later.
fn test_from(yard: &Lists, far: &mut [u16], node: usize) -> Result<(), Refusal>
    requires { Unknown far.old × (length far.old ≡ 256) }
    ensures result_value { paper_done result ≡ judge (listed yard.now) }
    ensures distances { judge (listed yard.now) ≡ none → node < size (listed yard.now) → Distances (listed yard.now) node far.new }
{
    test_lists(yard)?;
    measure(yard.parents, far, or_first(node, yard.parents.len()))
}

// The pebble nearest to a node, the lowest-numbered among equals, and its distance. Refusals 1 to 6; 19; 22 if the yard holds no pebble. Linear work.
pub fn nearest(yard: &Lists, node: usize) -> Result<Located, Refusal>
    ensures { paper_located result ≡ nearest_answer (listed yard.now) node }
{
    let mut far = [256u16; 256];
    test_from(yard, &mut far, node)?;
    if node >= yard.parents.len() {
        return Err(Refusal::NodeOutside);
    }
    nearest_of(yard.pebbles, &far)
}

// Writes 1 for each node that holds a pebble at most so many edges away and 0 elsewhere, and answers how many they are. Refusals 1 to 6; 2 for a list of
// another length than n; 19. Linear work.
pub fn reach(yard: &Lists, list: &mut [u8], node: usize, reach: u16) -> Result<usize, Refusal>
    ensures result_value { paper_counted result ≡ reach_answer (listed yard.now) list.old node reach }
    ensures list_value { list.new ≡ reach_list (listed yard.now) list.old node reach }
{
    let mut far = [256u16; 256];
    test_from(yard, &mut far, node)?;
    if list.len() != yard.parents.len() {
        return Err(Refusal::ListLength);
    }
    if node >= yard.parents.len() {
        return Err(Refusal::NodeOutside);
    }
    let count = reach_into(yard.pebbles, &far, list, reach);
    Ok(count)
}
