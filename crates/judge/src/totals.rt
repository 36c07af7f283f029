// Refusal 7: the totals of pebbles and targets.
ghost use Rattle.std.specs.Prelude.{◌≡◌, IfOk};
ghost use Rattle.model.specs.Given.{listed};
ghost use Rattle.model.specs.Judge.{matched_fault};
ghost use Rattle.model.specs.Paper.{paper_done};

use crate::tree::{TreeLists, tree_of};
use lists::total::total;
use model::{Lists, Refusal};

// Refusals 1 to 7: four lists of a tree with as many pebbles as targets.
pub fn test_matched<'a>(yard: &Lists<'a>) -> Result<TreeLists<'a>, Refusal>
    ensures result_value { paper_done result ≡ matched_fault (listed yard.now) }
    ensures tree_value { IfOk result (λ tree. tree.lists ≡ yard.now) }
{
    let tree = tree_of(yard)?;
    let pebble_count = total(yard.pebbles);
    let target_count = total(yard.targets);
    if pebble_count != target_count {
        return Err(Refusal::Totals);
    }
    Ok(tree)
}
