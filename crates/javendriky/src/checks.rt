// The checker, its excess, and the trial.
ghost use Rattle.std.specs.Prelude.{◌≡◌};
ghost use Rattle.model.specs.Given.{given};
ghost use Rattle.model.specs.Calls.Answers.{in_c, zeroInC, mapAnswer};
ghost use Rattle.model.specs.Calls.Checks.{trial_in_c, check_fault, check_answer, trial_answer, trial_pebbles};
ghost use Rattle.laws.specs.Demand2.{CheckerExact};

use crate::answers::{done, refused, tried};
use checker::check::{check, test_plan};
use checker::trial::trial;
use model::Lists;

// The checker: 0 for a plan that it accepts, and only then (`CheckerExact`). Refusals 1 to 7, 9 to 14.
#[unsafe(no_mangle)]
pub extern "C" fn javendriky_check(
    parents: &[u8],
    pebbles: &[u8],
    targets: &[u8],
    depths: &[u8],
    plan: &[u8],
) -> u32
    ensures value { result ≡ zeroInC (check_fault (given parents.now pebbles.now targets.now depths.now) plan.now) }
    ensures checker_exact { CheckerExact (given parents.now pebbles.now targets.now depths.now) plan.now (result ≡ 0) }
{
    done(test_plan(
        &Lists {
            parents,
            pebbles,
            targets,
            depths,
        },
        plan,
    ))
}

// Excess: the moves of a plan that the checker accepts, minus the shortest length. Refused as the checker refuses.
#[unsafe(no_mangle)]
pub extern "C" fn javendriky_excess(
    parents: &[u8],
    pebbles: &[u8],
    targets: &[u8],
    depths: &[u8],
    plan: &[u8],
) -> u32
    ensures { result ≡ in_c (mapAnswer (λ v. v.excess) (check_answer (given parents.now pebbles.now targets.now depths.now) plan.now)) }
{
    match check(
        &Lists {
            parents,
            pebbles,
            targets,
            depths,
        },
        plan,
    ) {
        Ok(c) => c.excess as u32,
        Err(r) => refused(r),
    }
}

// The trial: obeys a plan until the budget or the plan ends, writes the new counts, and answers the moves taken, plus 500,000 where the budget ended
// it. Refusals 1 to 6, 9 to 13.
#[unsafe(no_mangle)]
pub extern "C" fn javendriky_trial(
    parents: &[u8],
    pebbles: &mut [u8],
    targets: &[u8],
    depths: &[u8],
    plan: &[u8],
    budget: u16,
) -> u32
    ensures value { result ≡ in_c (mapAnswer trial_in_c (trial_answer (given parents.now pebbles.old targets.now depths.now) plan.now budget)) }
    ensures pebbles_value { pebbles.new ≡ trial_pebbles (given parents.now pebbles.old targets.now depths.now) plan.now budget }
{
    tried(trial(parents, pebbles, targets, depths, plan, budget))
}
