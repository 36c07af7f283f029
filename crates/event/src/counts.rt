// The one count that an event alters.
ghost use Rattle.std.specs.Prelude.{◌≡◌, true, [], ◌<◌, length, get_or};
ghost use Rattle.model.specs.Yard.{yard_of};
ghost use Rattle.model.specs.Calls.Events.{pebbles_after, targets_after};
ghost use Rattle.event.specs.Change.{can};

use model::Event;

// Whether an event can happen at a node with these counts and this depth.
pub fn can_happen(event: Event, pebble: u8, target: u8, depth: u8) -> bool
    ensures { result ≡ can event pebble target depth }
{
    match event {
        Event::PebbleArrives => pebble < depth,
        Event::PebbleLeaves => 0 < pebble,
        Event::TargetSet => target < depth,
        Event::TargetCleared => 0 < target,
    }
}

// Alters the count.
pub fn alter(pebbles: &mut [u8], targets: &mut [u8], event: Event, node: usize)
    requires node_in_bounds { (node < length pebbles.old) × (node < length targets.old) }
    requires node_value { can event (get_or pebbles.old node 0) (get_or targets.old node 0) 255 ≡ true }
    ensures pebbles_value { pebbles.new ≡ pebbles_after (yard_of [] pebbles.old targets.old []) event node }
    ensures targets_value { targets.new ≡ targets_after (yard_of [] pebbles.old targets.old []) event node }
{
    match event {
        Event::PebbleArrives => pebbles[node] += 1,
        Event::PebbleLeaves => pebbles[node] -= 1,
        Event::TargetSet => targets[node] += 1,
        Event::TargetCleared => targets[node] -= 1,
    }
}
