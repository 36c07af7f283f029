// The planner, over the whole yard and part by part, and the moves that a plan can start with.
ghost use Rattle.std.specs.Prelude.{◌≡◌};
ghost use Rattle.model.specs.Given.{given};
ghost use Rattle.model.specs.Calls.Answers.{in_c, told};
ghost use Rattle.model.specs.Calls.Plans.{plan_answer, plan_list};
ghost use Rattle.model.specs.Calls.Parts.{parts_answer, parts_plan_list, parts_list};
ghost use Rattle.model.specs.Calls.Openings.{openings_answer, openings_list};
ghost use Rattle.laws.specs.Demand2.{PlannerExact};
ghost use Rattle.laws.specs.Demand3.{Demand3};

use crate::answers::counted;
use model::Lists;

// The planner: writes the plan at the front of its list, and answers the number of moves. Refusals 1 to 8.
#[unsafe(no_mangle)]
pub extern "C" fn javendriky_plan(
    parents: &[u8],
    pebbles: &[u8],
    targets: &[u8],
    depths: &[u8],
    plan: &mut [u8],
) -> u32
    ensures value { result ≡ in_c (plan_answer (given parents.now pebbles.now targets.now depths.now) plan.old) }
    ensures plan_value { plan.new ≡ plan_list (given parents.now pebbles.now targets.now depths.now) plan.old }
    ensures planner_exact { PlannerExact (given parents.now pebbles.now targets.now depths.now) plan.old (told result) plan.new }
    ensures demand3 { Demand3 (given parents.now pebbles.now targets.now depths.now) plan.old (told result) plan.new }
{
    counted(planner::plan::plan(
        &Lists {
            parents,
            pebbles,
            targets,
            depths,
        },
        plan,
    ))
}

// The planner part by part (request 2.11): writes the parts' plans, one behind the other, at the front of the plan list and for each node its part's topmost node
// into the part list, and answers the number of moves. Refusals 1 to 7, then 2 for the part list, then 8.
#[unsafe(no_mangle)]
pub extern "C" fn javendriky_plan_parts(
    parents: &[u8],
    pebbles: &[u8],
    targets: &[u8],
    depths: &[u8],
    plan: &mut [u8],
    parts: &mut [u8],
) -> u32
    ensures value { result ≡ in_c (parts_answer (given parents.now pebbles.now targets.now depths.now) plan.old parts.old) }
    ensures plan_value { plan.new ≡ parts_plan_list (given parents.now pebbles.now targets.now depths.now) plan.old parts.old }
    ensures parts_value { parts.new ≡ parts_list (given parents.now pebbles.now targets.now depths.now) plan.old parts.old }
{
    counted(parts::plan::plan_parts(
        &Lists {
            parents,
            pebbles,
            targets,
            depths,
        },
        plan,
        parts,
    ))
}

// The openings (request 2.13): writes every move with which some shortest plan starts at the front of its list, ordered by from and then to, and answers their number. Refusals
// 1 to 8.
#[unsafe(no_mangle)]
pub extern "C" fn javendriky_openings(
    parents: &[u8],
    pebbles: &[u8],
    targets: &[u8],
    depths: &[u8],
    list: &mut [u8],
) -> u32
    ensures value { result ≡ in_c (openings_answer (given parents.now pebbles.now targets.now depths.now) list.old) }
    ensures list_value { list.new ≡ openings_list (given parents.now pebbles.now targets.now depths.now) list.old }
{
    counted(openings::call::openings(
        &Lists {
            parents,
            pebbles,
            targets,
            depths,
        },
        list,
    ))
}
