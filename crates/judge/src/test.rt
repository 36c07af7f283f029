// Testing a yard: refusals 1, 2, 26, 27, 4, 5 and 6, in their order.
ghost use Rattle.std.specs.Prelude.{◌≡◌, [], length};
ghost use Rattle.model.specs.Given.{listed};
ghost use Rattle.model.specs.Yard.{Yard, yard_of, size};
ghost use Rattle.model.specs.Judge.{first_of, length_tests, entry_tests, list_tests, shape_tests, judge, Parents};
ghost use Rattle.model.specs.Paper.{paper_done};

use crate::circle::first_circle;
use lists::find::{first_at_least, first_below, first_outside, first_own};
use model::{Lists, Refusal};

// Refusals 1 and 2.
pub fn test_lengths(yard: &Lists) -> Result<(), Refusal>
    ensures { paper_done result ≡ first_of (length_tests (listed yard.now)) }
{
    let n = yard.parents.len();
    if n == 0 || n > 256 {
        return Err(Refusal::NodeCount(0));
    }
    if yard.pebbles.len() != n || yard.targets.len() != n || yard.depths.len() != n {
        return Err(Refusal::ListLength);
    }
    Ok(())
}

// Refusals 26, 27 and 4, of lists of one length.
fn test_entries(yard: &Lists) -> Result<(), Refusal>
    requires { (length yard.now.pebbles.now ≡ length yard.now.parents.now) × (length yard.now.targets.now ≡ length yard.now.parents.now) × (length yard.now.depths.now ≡ length yard.now.parents.now) }
    ensures { paper_done result ≡ first_of (entry_tests (listed yard.now)) }
{
    if let Some(v) = first_outside(yard.depths, 1, 8) {
        return Err(Refusal::Depth(v));
    }
    if let Some(v) = first_below(yard.depths, yard.pebbles) {
        return Err(Refusal::AboveDepth(v));
    }
    if let Some(v) = first_below(yard.depths, yard.targets) {
        return Err(Refusal::AboveDepth(v));
    }
    if let Some(v) = first_at_least(yard.parents, yard.parents.len()) {
        return Err(Refusal::ParentOutside(v));
    }
    Ok(())
}

// Refusals 1, 2, 26, 27 and 4.
pub fn test_lists(yard: &Lists) -> Result<(), Refusal>
    ensures { paper_done result ≡ first_of (list_tests (listed yard.now)) }
{
    test_lengths(yard)?;
    test_entries(yard)
}

// Refusals 5 and 6, of parents that are nodes. A second root never climbs to the first, so it is looked for only where some node does not.
pub fn test_shape(parents: &[u8]) -> Result<(), Refusal>
    requires { Parents parents.now }
    ensures { paper_done result ≡ first_of (shape_tests (yard_of parents.now [] [] [])) }
{
    let Some(root) = first_own(parents, 0) else {
        return Err(Refusal::Roots(0));
    };
    let Some(circle) = first_circle(parents, root) else {
        return Ok(());
    };
    if let Some(second) = first_own(parents, root + 1) {
        return Err(Refusal::Roots(second));
    }
    Err(Refusal::Circle(circle))
}

// Whether four lists are a yard's, and a tree: refusals 1 to 6, in the order above.
pub fn test_yard(yard: &Lists) -> Result<(), Refusal>
    ensures { paper_done result ≡ judge (listed yard.now) }
{
    test_lists(yard)?;
    test_shape(yard.parents)
}
