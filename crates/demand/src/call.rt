// The account call, and the shortest length.
ghost use Rattle.std.specs.Prelude.{◌≡◌};
ghost use Rattle.model.specs.Given.{listed};
ghost use Rattle.model.specs.Yard.{shortest};
ghost use Rattle.model.specs.Calls.Demands.{demands_fault, demands_list};
ghost use Rattle.model.specs.Paper.{paper_done};

use crate::fill::fill;
use crate::signed::sizes;
use judge::tree::{TreeLists, tree_of};
use model::{Lists, Refusal};

// The account call: the demands of all nodes into a list of exactly one entry a node. Refusals 1 to 6, then 2 for a list of another length;
// unequal totals are no fault. Linear work.
pub fn demands(yard: &Lists, list: &mut [i16]) -> Result<(), Refusal>
    ensures result_value { paper_done result ≡ demands_fault (listed yard.now) list.old }
    ensures list_value { list.new ≡ demands_list (listed yard.now) list.old }
{
    let tree = tree_of(yard)?;
    if list.len() != yard.parents.len() {
        return Err(Refusal::ListLength);
    }
    fill(&tree, list);
    Ok(())
}

// The shortest length of a tree: the sum of the sizes of its demands.
pub fn shortest_length(yard: &TreeLists) -> usize
    ensures { result ≡ shortest (listed yard.now.lists) }
{
    let n = yard.lists.parents.len();
    let mut list = [0i16; 256];
    fill(yard, &mut list[..n]);
    sizes(&list[..n])
}
