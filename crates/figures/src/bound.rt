// The bound of a yard, and of n nodes alone.
ghost use Rattle.std.specs.Prelude.{◌≡◌};
ghost use Rattle.model.specs.Given.{listed};
ghost use Rattle.model.specs.Calls.Demands.{bound_answer, longest_answer};
ghost use Rattle.model.specs.Paper.{paper_counted, paper_measured};

use demand::matched::matched_demands;
use demand::signed::sizes;
use model::{Lists, Measured, Refusal};

// Bound: the moves of the plan and the bytes that its list needs, without planning: the shortest length is the plan's. Refusals 1 to 7. Linear work.
pub fn length_bound(yard: &Lists) -> Result<Measured, Refusal>
    ensures { paper_measured result ≡ bound_answer (listed yard.now) }
{
    let mut demands = [0i16; 256];
    matched_demands(yard, &mut demands)?;
    let moves = sizes(&demands[..yard.parents.len()]);
    Ok(Measured {
        moves: moves,
        bytes: 2 * moves,
    })
}

// The most moves that a yard of n nodes can need. Refusal 1 for an n outside 1 to 256.
pub fn longest_plan(n: usize) -> Result<usize, Refusal>
    ensures { paper_counted result ≡ longest_answer n }
{
    if n == 0 {
        return Err(Refusal::NodeCount(0));
    }
    if n > 256 {
        return Err(Refusal::NodeCount(0));
    }
    Ok(8 * (n * n / 4))
}
