// The nearest pebble, and the pebbles within reach.
ghost use Rattle.std.specs.Prelude.{◌≡◌};
ghost use Rattle.model.specs.Given.{given};
ghost use Rattle.model.specs.Calls.Answers.{mapAnswer, in_c, noted};
ghost use Rattle.model.specs.Calls.Distances.{nearest_answer, reach_answer, reach_list};

use crate::answers::{counted, refused};
use distance::call::{nearest, reach};
use model::Lists;

// The node of the pebble nearest to a node, the lowest-numbered among equals, and through the pointer its distance in edges. Refusals 1 to 6, 19, 22.
#[unsafe(no_mangle)]
pub extern "C" fn javendriky_nearest(
    parents: &[u8],
    pebbles: &[u8],
    targets: &[u8],
    depths: &[u8],
    node: usize,
    distance: &mut u32,
) -> u32
    ensures value { result ≡ in_c (mapAnswer (λ l. l.node) (nearest_answer (given parents.now pebbles.now targets.now depths.now) node)) }
    ensures distance_value { distance.new ≡ noted (nearest_answer (given parents.now pebbles.now targets.now depths.now) node) (λ l. l.distance) distance.old }
{
    match nearest(
        &Lists {
            parents,
            pebbles,
            targets,
            depths,
        },
        node,
    ) {
        Ok(l) => {
            *distance = l.distance as u32;
            l.node as u32
        }
        Err(r) => refused(r),
    }
}

// Writes 1 for each node that holds a pebble within so many edges of a node and 0 elsewhere, and answers how many they are. Refusals 1 to 6, 2 for a list of
// another length than n, 19.
#[unsafe(no_mangle)]
pub extern "C" fn javendriky_reach(
    parents: &[u8],
    pebbles: &[u8],
    targets: &[u8],
    depths: &[u8],
    list: &mut [u8],
    node: usize,
    edges: u16,
) -> u32
    ensures value { result ≡ in_c (reach_answer (given parents.now pebbles.now targets.now depths.now) list.old node edges) }
    ensures list_value { list.new ≡ reach_list (given parents.now pebbles.now targets.now depths.now) list.old node edges }
{
    counted(reach(
        &Lists {
            parents,
            pebbles,
            targets,
            depths,
        },
        list,
        node,
        edges,
    ))
}
