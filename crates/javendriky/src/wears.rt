// The wear within a stretch of moves.
ghost use Rattle.std.specs.Prelude.{◌≡◌};
ghost use Rattle.model.specs.Given.{given};
ghost use Rattle.model.specs.Calls.Answers.{mapAnswer, in_c, noted};
ghost use Rattle.model.specs.Calls.Wear.{wear_answer};

use crate::answers::refused;
use model::Lists;
use wear::call::wear;

// The most crossings of one edge within so many moves in a row of a plan that the checker accepts (request 2.12), and through the pointers the first move of the first
// stretch that has them and the lowest such edge in it. Refused as the checker refuses, then with 28.
#[unsafe(no_mangle)]
pub extern "C" fn javendriky_wear(
    parents: &[u8],
    pebbles: &[u8],
    targets: &[u8],
    depths: &[u8],
    plan: &[u8],
    width: u32,
    first: &mut u32,
    edge: &mut u32,
) -> u32
    ensures value { result ≡ in_c (mapAnswer (λ w. w.crossings) (wear_answer (given parents.now pebbles.now targets.now depths.now) plan.now width)) }
    ensures first_value { first.new ≡ noted (wear_answer (given parents.now pebbles.now targets.now depths.now) plan.now width) (λ w. w.first) first.old }
    ensures edge_value { edge.new ≡ noted (wear_answer (given parents.now pebbles.now targets.now depths.now) plan.now width) (λ w. w.edge) edge.old }
{
    match wear(
        &Lists {
            parents,
            pebbles,
            targets,
            depths,
        },
        plan,
        width,
    ) {
        Ok(w) => {
            *first = w.first as u32;
            *edge = w.edge as u32;
            w.crossings as u32
        }
        Err(r) => refused(r),
    }
}
