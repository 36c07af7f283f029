// The cabinet's call.
ghost use Rattle.std.specs.Prelude.{◌≡◌, ◌≤◌};
ghost use Rattle.model.specs.Given.{given, handed};
ghost use Rattle.model.specs.Judge.{Tree};
ghost use Rattle.model.specs.Push.{push};
ghost use Rattle.model.specs.Calls.Registers as Call;
ghost use Rattle.model.specs.Calls.Registers.{block_of, whole_moves, pebbles_then};
ghost use Rattle.model.specs.Paper.{paper_signalled};
ghost use Rattle.laws.specs.Cabinet.{stepped_to, EachStep};
ghost use Rattle.cabinet.specs.Step.{told_of, LeftBy};

use crate::block::{load, store};
use crate::registers::{Told, next_registers, raised};
use crate::test::test_step;
use judge::test::test_yard;
use model::{Lists, Refusal, Registers, Signalled};
use yard::step::step;

// What a step is told of the plan: its whole moves and the next of them, of which one is left at least; else any.
fn tell(plan: &[u8], r: Registers, failed: bool) -> Told
    requires { r.left ≤ whole_moves plan.now }
    ensures { result ≡ told_of plan.now r failed }
{
    let moves = plan.len() / 2;
    let (from, to) = if r.left == 0 {
        (0, 0)
    } else {
        let i = moves - r.left;
        (plan[2 * i], plan[2 * i + 1])
    };
    Told {
        moves,
        from,
        to,
        failed,
    }
}

// The push of a running step with command 0, unless its pebble failed to arrive.
fn push_next(
    parents: &[u8],
    pebbles: &mut [u8],
    targets: &[u8],
    depths: &[u8],
    r: Registers,
    told: Told,
)
    requires { Tree (handed parents.now pebbles.old targets.now depths.now) }
    ensures { pebbles.new ≡ pebbles_then (given parents.now pebbles.old targets.now depths.now) (push told.from told.to) told.failed r }
{
    if r.command != 0 || r.status != 1 || told.failed {
        return;
    }
    let _ = step(
        parents,
        pebbles,
        depths,
        told.from as usize,
        told.to as usize,
        0,
    );
}

// What a step leaves, on a refusal too: its answer, and the registers.
#[derive(Drop)]
pub struct Left {
    pub line: Result<Signalled, Refusal>,
    pub next: Registers,
}

// A step of the cabinet, by value: obeys the command in the registers, or where it runs without one the plan's next move. Answers whether the line is raised.
// Refusals 1 to 6, 26 and 27; 24, 25; a start as the checker, a running step with command 0 by 9 and 10 to 13. A refusal alters nothing. Linear work.
// By value, with `step_registers` thin over it: the form that docs/DECISIONS.md names.
fn stepped(
    parents: &[u8],
    pebbles: &mut [u8],
    targets: &[u8],
    depths: &[u8],
    plan: &[u8],
    r: Registers,
    failed: bool,
) -> Left
    ensures { LeftBy (Call.stepped (given parents.now pebbles.old targets.now depths.now) plan.now (block_of r) failed) result.line result.next pebbles.new }
{
    let tested = test_step(
        &Lists {
            parents,
            pebbles,
            targets,
            depths,
        },
        plan,
        r,
    );
    if let Err(fault) = tested {
        return Left {
            line: Err(fault),
            next: r,
        };
    }
    let told = tell(plan, r, failed);
    push_next(parents, pebbles, targets, depths, r, told);
    let next = next_registers(r, told);
    let line = if raised(next) {
        Signalled::Raised
    } else {
        Signalled::Quiet
    };
    Left {
        line: Ok(line),
        next,
    }
}

// The step, of registers that are lent: a copy is stepped, and stored back whole.
pub fn step_registers(
    parents: &[u8],
    pebbles: &mut [u8],
    targets: &[u8],
    depths: &[u8],
    plan: &[u8],
    registers: &mut Registers,
    failed: bool,
) -> Result<Signalled, Refusal>
    ensures { LeftBy (Call.stepped (given parents.now pebbles.old targets.now depths.now) plan.now (block_of registers.old) failed) result registers.new pebbles.new }
{
    let s = stepped(parents, pebbles, targets, depths, plan, *registers, failed);
    *registers = s.next;
    s.line
}

// The step of the registers in a block of bytes. The refusals are those of `step_registers`, with
// refusal 2 for a block of another length after those of the yard. `EachStep` says when a step is
// accepted, and that an accepted running step made a legal push.
pub fn step_block(
    parents: &[u8],
    pebbles: &mut [u8],
    targets: &[u8],
    depths: &[u8],
    plan: &[u8],
    block: &mut [u8],
    failed: bool,
) -> Result<Signalled, Refusal>
    ensures result_value { paper_signalled result ≡ (Call.stepped (given parents.now pebbles.old targets.now depths.now) plan.now block.old failed).line }
    ensures block_value { block.new ≡ (Call.stepped (given parents.now pebbles.old targets.now depths.now) plan.now block.old failed).block }
    ensures pebbles_value { pebbles.new ≡ (Call.stepped (given parents.now pebbles.old targets.now depths.now) plan.now block.old failed).pebbles }
    ensures each_step { EachStep (given parents.now pebbles.old targets.now depths.now) plan.now block.old failed (stepped_to (paper_signalled result) block.new pebbles.new) }
{
    let Ok(bytes) = <[u8; 9]>::try_from(&*block) else {
        test_yard(&Lists {
            parents,
            pebbles,
            targets,
            depths,
        })?;
        return Err(Refusal::ListLength);
    };
    let mut registers = load(bytes);
    let line = step_registers(
        parents,
        pebbles,
        targets,
        depths,
        plan,
        &mut registers,
        failed,
    );
    block.copy_from_slice(&store(registers));
    line
}
