// Four lists that are a tree's.
ghost use Rattle.std.specs.Prelude.{◌≡◌, IfOk};
ghost use Rattle.std.proofs.Math.Option.{none};
ghost use Rattle.model.specs.Given.{listed};
ghost use Rattle.model.specs.Judge.{first_of, judge, list_tests, Tree};
ghost use Rattle.model.specs.Paper.{paper_done};

use crate::test::{test_shape, test_yard};
use model::{Lists, Refusal};

// Four lists that have passed refusals 1 to 6. Whoever makes one by hand has to prove it.
#[derive(Clone, Copy)]
pub struct TreeLists<'a> {
    pub lists: Lists<'a>,
    pub ghost tree: { Tree (listed lists) },
}

// Tests a yard, and answers its lists as a tree's: refusals 1 to 6, as `test_yard`.
pub fn tree_of<'a>(yard: &Lists<'a>) -> Result<TreeLists<'a>, Refusal>
    ensures result_value { paper_done result ≡ judge (listed yard.now) }
    ensures tree_value { IfOk result (λ tree. tree.lists ≡ yard.now) }
{
    test_yard(yard)?;
    Ok(TreeLists { lists: *yard })
}

// The same of lists that have passed refusals 1, 2, 26, 27 and 4, which are not tested again.
pub fn tree_of_tested<'a>(yard: &Lists<'a>) -> Result<TreeLists<'a>, Refusal>
    requires { first_of (list_tests (listed yard.now)) ≡ none }
    ensures result_value { paper_done result ≡ judge (listed yard.now) }
    ensures tree_value { IfOk result (λ tree. tree.lists ≡ yard.now) }
{
    test_shape(yard.parents)?;
    Ok(TreeLists { lists: *yard })
}
