// One push of four lists.
ghost use Rattle.std.specs.Prelude.{◌≡◌};
ghost use Rattle.model.specs.Given.{given};
ghost use Rattle.model.specs.Push.{push, push_fault, pushed_pebbles};
ghost use Rattle.model.specs.Paper.{paper_done};

use crate::step::step;
use judge::test::test_yard;
use model::{Lists, Refusal};

// The tests of the yard, then the step: refusals 1 to 6, then 10 to 13 with place 0. Refused, the pebbles stay as they were.
pub fn push_lists(
    parents: &[u8],
    pebbles: &mut [u8],
    targets: &[u8],
    depths: &[u8],
    from: usize,
    to: usize,
) -> Result<(), Refusal>
    ensures result_value { paper_done result ≡ push_fault (given parents.now pebbles.old targets.now depths.now) (push from to) }
    ensures pebbles_value { pebbles.new ≡ pushed_pebbles (given parents.now pebbles.old targets.now depths.now) (push from to) }
{
    test_yard(&Lists {
        parents,
        pebbles,
        targets,
        depths,
    })?;
    step(parents, pebbles, depths, from, to, 0)
}
