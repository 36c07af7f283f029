// The demands of a tree, and of a yard with a plan, or the refusal of one that is none.
ghost use Rattle.std.specs.Prelude.{◌≡◌, ◌≤◌, length, replicate, pos, IfOk};
ghost use Rattle.model.specs.Given.{listed};
ghost use Rattle.model.specs.Judge.{judge, matched_fault};
ghost use Rattle.model.specs.Paper.{paper_done};
ghost use Rattle.demand.specs.Filling.{demands_then};

use crate::fill::gather;
use judge::root::root_of;
use judge::test::test_lists;
use judge::tree::{TreeLists, tree_of_tested};
use model::{Lists, Refusal};

// Writes 0 into every entry.
fn clear(list: &mut [i16])
    ensures { list.new ≡ replicate (length list.old) (pos 0) }
{
    list.fill(0);
}

// Tests a yard: refusals 1, 2, 26, 27, 4, 5, 6. Writes the demands of a tree to the front of a list
// of at least 256 entries; the other entries stay. Refusals 5 and 6 leave zeros at the front, the
// others leave the list unchanged. Linear work: gathering the demands tells whether the parents
// form a tree.
pub fn tree_demands<'a>(yard: &Lists<'a>, list: &mut [i16]) -> Result<TreeLists<'a>, Refusal>
    requires { 256 ≤ length list.old }
    ensures result_value { paper_done result ≡ judge (listed yard.now) }
    ensures tree_value { IfOk result (λ tree. tree.lists ≡ yard.now) }
    ensures list_value { list.new ≡ demands_then (listed yard.now) list.old }
{
    test_lists(yard)?;
    let n = yard.parents.len();
    let left = gather(yard, &mut list[..n]);
    if left != 1 {
        clear(&mut list[..n]);
        return tree_of_tested(yard);
    }
    Ok(TreeLists { lists: *yard })
}

// The same, then refusal 7: the totals differ exactly if the root's demand is not 0. Refusal 7 comes
// after the demands are written.
pub fn matched_demands<'a>(yard: &Lists<'a>, list: &mut [i16]) -> Result<TreeLists<'a>, Refusal>
    requires { 256 ≤ length list.old }
    ensures result_value { paper_done result ≡ matched_fault (listed yard.now) }
    ensures tree_value { IfOk result (λ tree. tree.lists ≡ yard.now) }
    ensures list_value { list.new ≡ demands_then (listed yard.now) list.old }
{
    let tree = tree_demands(yard, list)?;
    let root = root_of(&tree);
    if list[root] != 0 {
        return Err(Refusal::Totals);
    }
    Ok(tree)
}
