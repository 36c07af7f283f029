// The root of a tree.
ghost use Rattle.std.specs.Prelude.{◌≡◌};
ghost use Rattle.model.specs.Given.{listed};
ghost use Rattle.model.specs.Yard.{root};

use crate::tree::TreeLists;
use lists::find::first_own;

// The root of a tree: its one node that is its own parent.
pub fn root_of(yard: &TreeLists) -> usize
    ensures { result ≡ root (listed yard.now.lists) }
{
    first_own(yard.lists.parents, 0).unwrap()
}
