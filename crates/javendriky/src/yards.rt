// The test of a yard, and one push.
ghost use Rattle.std.specs.Prelude.{◌≡◌};
ghost use Rattle.model.specs.Given.{given};
ghost use Rattle.model.specs.Judge.{judge};
ghost use Rattle.model.specs.Push.{push, push_fault, pushed_pebbles};
ghost use Rattle.model.specs.Calls.Answers.{zeroInC};

use crate::answers::done;
use judge::test::test_yard;
use model::Lists;
use yard::push::push_lists;

// Whether four lists are a tree: refusals 1 to 6, or 0.
#[unsafe(no_mangle)]
pub extern "C" fn javendriky_test_yard(
    parents: &[u8],
    pebbles: &[u8],
    targets: &[u8],
    depths: &[u8],
) -> u32
    ensures { result ≡ zeroInC (judge (given parents.now pebbles.now targets.now depths.now)) }
{
    done(test_yard(&Lists {
        parents,
        pebbles,
        targets,
        depths,
    }))
}

// One push: writes the new counts. Refusals 1 to 6, 10 to 13 with place 0, or 0.
#[unsafe(no_mangle)]
pub extern "C" fn javendriky_push(
    parents: &[u8],
    pebbles: &mut [u8],
    targets: &[u8],
    depths: &[u8],
    from: usize,
    to: usize,
) -> u32
    ensures value { result ≡ zeroInC (push_fault (given parents.now pebbles.old targets.now depths.now) (push from to)) }
    ensures pebbles_value { pebbles.new ≡ pushed_pebbles (given parents.now pebbles.old targets.now depths.now) (push from to) }
{
    done(push_lists(parents, pebbles, targets, depths, from, to))
}
