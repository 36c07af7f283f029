// The event call.
ghost use Rattle.std.specs.Prelude.{◌≡◌};
ghost use Rattle.model.specs.Given.{given, listed};
ghost use Rattle.model.specs.Calls.Events.{event_fault, event_pebbles, event_targets, event_demands};
ghost use Rattle.model.specs.Paper.{paper_done};

use crate::counts::{alter, can_happen};
use crate::update::{climb, first_difference, step};
use demand::matched::tree_demands;
use model::{Event, Lists, Refusal};

// Refusals 1 to 6, 2 for a demand list of another length than n, 19, 20, and 23: the demands are worked out afresh and compared with the list.
fn test_event(yard: &Lists, list: &[i16], event: Event, node: usize) -> Result<(), Refusal>
    ensures { paper_done result ≡ event_fault (listed yard.now) list.now event node }
{
    let mut fresh = [0i16; 256];
    tree_demands(yard, &mut fresh)?;
    let n = yard.parents.len();
    if list.len() != n {
        return Err(Refusal::ListLength);
    }
    if node >= n {
        return Err(Refusal::NodeOutside);
    }
    if !can_happen(
        event,
        yard.pebbles[node],
        yard.targets[node],
        yard.depths[node],
    ) {
        return Err(Refusal::EventImpossible);
    }
    if let Some(stale) = first_difference(list, &fresh[..n]) {
        return Err(Refusal::StaleDemands(stale));
    }
    Ok(())
}

// An event at a node: alters its count, and each entry of the demand list on the way from the node to the root by one. The list must be the yard's, and is then
// the altered yard's. Refusals 1 to 6; 2 for a list of another length than n; 19, 20 and 23. Nothing is written before all is tested. Linear work.
pub fn event_at(
    parents: &[u8],
    pebbles: &mut [u8],
    targets: &mut [u8],
    depths: &[u8],
    list: &mut [i16],
    event: Event,
    node: usize,
) -> Result<(), Refusal>
    ensures result_value { paper_done result ≡ event_fault (given parents.now pebbles.old targets.old depths.now) list.old event node }
    ensures pebbles_value { pebbles.new ≡ event_pebbles (given parents.now pebbles.old targets.old depths.now) list.old event node }
    ensures targets_value { targets.new ≡ event_targets (given parents.now pebbles.old targets.old depths.now) list.old event node }
    ensures list_value { list.new ≡ event_demands (given parents.now pebbles.old targets.old depths.now) list.old event node }
{
    test_event(
        &Lists {
            parents,
            pebbles,
            targets,
            depths,
        },
        list,
        event,
        node,
    )?;
    climb(parents, list, step(event), node);
    alter(pebbles, targets, event, node);
    Ok(())
}
