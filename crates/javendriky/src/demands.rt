// The demands (accounts) and the figures.
ghost use Rattle.std.specs.Prelude.{◌≡◌};
ghost use Rattle.model.specs.Given.{given};
ghost use Rattle.model.specs.Calls.Answers.{mapAnswer, in_c, zeroInC, noted};
ghost use Rattle.model.specs.Calls.Demands.{demands_fault, demands_list, bound_answer, displaced_answer, longest_answer};

use crate::answers::{counted, done, refused};
use demand::call::demands;
use figures::bound::{length_bound, longest_plan};
use figures::displaced::displaced;
use model::Lists;

// The demands of all nodes into a list of exactly one entry a node. Refusals 1 to 6, then 2 for a list of another length, or 0.
#[unsafe(no_mangle)]
pub extern "C" fn javendriky_demands(
    parents: &[u8],
    pebbles: &[u8],
    targets: &[u8],
    depths: &[u8],
    list: &mut [i16],
) -> u32
    ensures value { result ≡ zeroInC (demands_fault (given parents.now pebbles.now targets.now depths.now) list.old) }
    ensures list_value { list.new ≡ demands_list (given parents.now pebbles.now targets.now depths.now) list.old }
{
    done(demands(
        &Lists {
            parents,
            pebbles,
            targets,
            depths,
        },
        list,
    ))
}

// Bound: the moves of the plan, and through the pointer the bytes that its list needs. Refusals 1 to 7.
#[unsafe(no_mangle)]
pub extern "C" fn javendriky_length_bound(
    parents: &[u8],
    pebbles: &[u8],
    targets: &[u8],
    depths: &[u8],
    bytes: &mut u32,
) -> u32
    ensures value { result ≡ in_c (mapAnswer (λ l. l.moves) (bound_answer (given parents.now pebbles.now targets.now depths.now))) }
    ensures bytes_value { bytes.new ≡ noted (bound_answer (given parents.now pebbles.now targets.now depths.now)) (λ l. l.list_bytes) bytes.old }
{
    match length_bound(&Lists {
        parents,
        pebbles,
        targets,
        depths,
    }) {
        Ok(m) => {
            *bytes = m.bytes as u32;
            m.moves as u32
        }
        Err(r) => refused(r),
    }
}

// The most moves that a yard of n nodes can need. Refusal 1.
#[unsafe(no_mangle)]
pub extern "C" fn javendriky_longest_plan(n: usize) -> u32
    ensures { result ≡ in_c (longest_answer n) }
{
    counted(longest_plan(n))
}

// Displaced: the pebbles that take part in a move of the plan, the last in first. Refusals 1 to 7.
#[unsafe(no_mangle)]
pub extern "C" fn javendriky_displaced(
    parents: &[u8],
    pebbles: &[u8],
    targets: &[u8],
    depths: &[u8],
) -> u32
    ensures { result ≡ in_c (displaced_answer (given parents.now pebbles.now targets.now depths.now)) }
{
    counted(displaced(&Lists {
        parents,
        pebbles,
        targets,
        depths,
    }))
}
