// Events at a node, a call for each, so that no number of an event can be wrong.
ghost use Rattle.std.specs.Prelude.{◌≡◌};
ghost use Rattle.model.specs.declared.Event.TheVariants.{PebbleArrives, PebbleLeaves, TargetSet, TargetCleared};
ghost use Rattle.model.specs.Given.{given};
ghost use Rattle.model.specs.Calls.Answers.{zeroInC};
ghost use Rattle.model.specs.Calls.Events.{event_fault, event_pebbles, event_targets, event_demands};

use crate::answers::done;
use event::call::event_at;
use model::Event;

// What the event call answers, as one number.
fn happened(
    parents: &[u8],
    pebbles: &mut [u8],
    targets: &mut [u8],
    depths: &[u8],
    demands: &mut [i16],
    event: Event,
    node: usize,
) -> u32
    ensures value { result ≡ zeroInC (event_fault (given parents.now pebbles.old targets.old depths.now) demands.old event node) }
    ensures pebbles_value { pebbles.new ≡ event_pebbles (given parents.now pebbles.old targets.old depths.now) demands.old event node }
    ensures targets_value { targets.new ≡ event_targets (given parents.now pebbles.old targets.old depths.now) demands.old event node }
    ensures demands_value { demands.new ≡ event_demands (given parents.now pebbles.old targets.old depths.now) demands.old event node }
{
    done(event_at(parents, pebbles, targets, depths, demands, event, node))
}

// A pebble arrives at a node. Refusals 1 to 6, 2 for a demand list of another length, 19, 20 and 23, or 0.
#[unsafe(no_mangle)]
pub extern "C" fn javendriky_pebble_arrives(
    parents: &[u8],
    pebbles: &mut [u8],
    targets: &mut [u8],
    depths: &[u8],
    demands: &mut [i16],
    node: usize,
) -> u32
    ensures value { result ≡ zeroInC (event_fault (given parents.now pebbles.old targets.old depths.now) demands.old PebbleArrives node) }
    ensures pebbles_value { pebbles.new ≡ event_pebbles (given parents.now pebbles.old targets.old depths.now) demands.old PebbleArrives node }
    ensures targets_value { targets.new ≡ event_targets (given parents.now pebbles.old targets.old depths.now) demands.old PebbleArrives node }
    ensures demands_value { demands.new ≡ event_demands (given parents.now pebbles.old targets.old depths.now) demands.old PebbleArrives node }
{
    happened(
        parents,
        pebbles,
        targets,
        depths,
        demands,
        Event::PebbleArrives,
        node,
    )
}

// A pebble leaves a node. Refusals 1 to 6, 2 for a demand list of another length, 19, 20 and 23, or 0.
#[unsafe(no_mangle)]
pub extern "C" fn javendriky_pebble_leaves(
    parents: &[u8],
    pebbles: &mut [u8],
    targets: &mut [u8],
    depths: &[u8],
    demands: &mut [i16],
    node: usize,
) -> u32
    ensures value { result ≡ zeroInC (event_fault (given parents.now pebbles.old targets.old depths.now) demands.old PebbleLeaves node) }
    ensures pebbles_value { pebbles.new ≡ event_pebbles (given parents.now pebbles.old targets.old depths.now) demands.old PebbleLeaves node }
    ensures targets_value { targets.new ≡ event_targets (given parents.now pebbles.old targets.old depths.now) demands.old PebbleLeaves node }
    ensures demands_value { demands.new ≡ event_demands (given parents.now pebbles.old targets.old depths.now) demands.old PebbleLeaves node }
{
    happened(
        parents,
        pebbles,
        targets,
        depths,
        demands,
        Event::PebbleLeaves,
        node,
    )
}

// A target is set at a node. Refusals 1 to 6, 2 for a demand list of another length, 19, 20 and 23, or 0.
#[unsafe(no_mangle)]
pub extern "C" fn javendriky_target_set(
    parents: &[u8],
    pebbles: &mut [u8],
    targets: &mut [u8],
    depths: &[u8],
    demands: &mut [i16],
    node: usize,
) -> u32
    ensures value { result ≡ zeroInC (event_fault (given parents.now pebbles.old targets.old depths.now) demands.old TargetSet node) }
    ensures pebbles_value { pebbles.new ≡ event_pebbles (given parents.now pebbles.old targets.old depths.now) demands.old TargetSet node }
    ensures targets_value { targets.new ≡ event_targets (given parents.now pebbles.old targets.old depths.now) demands.old TargetSet node }
    ensures demands_value { demands.new ≡ event_demands (given parents.now pebbles.old targets.old depths.now) demands.old TargetSet node }
{
    happened(
        parents,
        pebbles,
        targets,
        depths,
        demands,
        Event::TargetSet,
        node,
    )
}

// The target of a node is cleared. Refusals 1 to 6, 2 for a demand list of another length, 19, 20 and 23, or 0.
#[unsafe(no_mangle)]
pub extern "C" fn javendriky_target_cleared(
    parents: &[u8],
    pebbles: &mut [u8],
    targets: &mut [u8],
    depths: &[u8],
    demands: &mut [i16],
    node: usize,
) -> u32
    ensures value { result ≡ zeroInC (event_fault (given parents.now pebbles.old targets.old depths.now) demands.old TargetCleared node) }
    ensures pebbles_value { pebbles.new ≡ event_pebbles (given parents.now pebbles.old targets.old depths.now) demands.old TargetCleared node }
    ensures targets_value { targets.new ≡ event_targets (given parents.now pebbles.old targets.old depths.now) demands.old TargetCleared node }
    ensures demands_value { demands.new ≡ event_demands (given parents.now pebbles.old targets.old depths.now) demands.old TargetCleared node }
{
    happened(
        parents,
        pebbles,
        targets,
        depths,
        demands,
        Event::TargetCleared,
        node,
    )
}
