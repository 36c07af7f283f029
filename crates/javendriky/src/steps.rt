// The pusher cabinet's step.
ghost use Rattle.std.specs.Prelude.{◌≡◌, not, eqb};
ghost use Rattle.model.specs.Given.{given};
ghost use Rattle.model.specs.Calls.Registers.{stepped, line_in_c, line_told};
ghost use Rattle.laws.specs.Cabinet.{stepped_to, EachStep};

use crate::answers::signalled;
use cabinet::call::step_block;

// A step of the cabinet, told whether the pebble failed to arrive (any number but 0): 1 if its line is
// raised, else 0. Refusals 1, 2, 26, 27, 4, 5, 6, then 2 for a block of another length, 24, 25, 7 and
// 9 to 14. `EachStep` holds of the answer that the number tells.
#[unsafe(no_mangle)]
pub extern "C" fn javendriky_step(
    parents: &[u8],
    pebbles: &mut [u8],
    targets: &[u8],
    depths: &[u8],
    plan: &[u8],
    registers: &mut [u8],
    failed: u8,
) -> u32
    ensures value { result ≡ line_in_c (stepped (given parents.now pebbles.old targets.now depths.now) plan.now registers.old (not (eqb failed 0))).line }
    ensures registers_value { registers.new ≡ (stepped (given parents.now pebbles.old targets.now depths.now) plan.now registers.old (not (eqb failed 0))).block }
    ensures pebbles_value { pebbles.new ≡ (stepped (given parents.now pebbles.old targets.now depths.now) plan.now registers.old (not (eqb failed 0))).pebbles }
    ensures each_step { EachStep (given parents.now pebbles.old targets.now depths.now) plan.now registers.old (not (eqb failed 0)) (stepped_to (line_told result) registers.new pebbles.new) }
{
    signalled(step_block(
        parents,
        pebbles,
        targets,
        depths,
        plan,
        registers,
        failed != 0,
    ))
}
