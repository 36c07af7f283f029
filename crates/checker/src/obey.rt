// What the checker and the trial share: the test of a plan's length, and the moves of a plan's front obeyed one by one.
ghost use Rattle.std.specs.Prelude.{◌≡◌, ◌*◌, ◌≤◌, length};
ghost use Rattle.model.specs.Given.{given, handed, listed};
ghost use Rattle.model.specs.Judge.{fault, unless, Tree};
ghost use Rattle.model.specs.Push.{after};
ghost use Rattle.model.specs.Calls.Checks.{bytes_fault, moves_fault, within};
ghost use Rattle.model.specs.Paper.{paper_done};
ghost use Rattle.checker.specs.Obeyed.{obeyed};

use judge::tree::TreeLists;
use model::Refusal;
use yard::step::step;

// Whether a plan's length is even and at most 262,144 bytes: else refusal 9 meets it.
pub fn whole_plan(plan: &[u8]) -> bool
    ensures { bytes_fault plan.now ≡ unless result (fault 9 0) }
{
    if plan.len() % 2 != 0 {
        return false;
    }
    plan.len() <= 262144
}

// Obeys the first `count` moves of a plan on the pebbles of a tree. A refusal is that of the first move that is refused, with its number as
// place; the moves before it are obeyed, so callers lend a copy.
fn obey(
    parents: &[u8],
    pebbles: &mut [u8],
    targets: &[u8],
    depths: &[u8],
    plan: &[u8],
    count: usize,
) -> Result<(), Refusal>
    requires { Tree (handed parents.now pebbles.old targets.now depths.now) × (2 * count ≤ length plan.now) }
    ensures result_value { paper_done result ≡ moves_fault 0 (given parents.now pebbles.old targets.now depths.now) (within plan.now count) }
    ensures pebbles_value { pebbles.new ≡ after (given parents.now pebbles.old targets.now depths.now) (obeyed (paper_done result) plan.now count) }
{
    for i in 0..count {
        let from = plan[2 * i] as usize;
        let to = plan[2 * i + 1] as usize;
        step(parents, pebbles, depths, from, to, i)?;
    }
    Ok(())
}

// The same, on a copy of the pebbles: `counts` is written, whatever it held.
pub fn obey_copy(
    yard: &TreeLists,
    counts: &mut [u8],
    plan: &[u8],
    count: usize,
) -> Result<(), Refusal>
    requires plan_len { 2 * count ≤ length plan.now }
    requires counts_len { length counts.old ≡ length yard.now.lists.pebbles.now }
    ensures result_value { paper_done result ≡ moves_fault 0 (listed yard.now.lists) (within plan.now count) }
    ensures counts_value { counts.new ≡ after (listed yard.now.lists) (obeyed (paper_done result) plan.now count) }
{
    let yard = yard.lists;
    counts.copy_from_slice(yard.pebbles);
    obey(yard.parents, counts, yard.targets, yard.depths, plan, count)
}
