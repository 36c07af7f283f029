// The registers after an accepted step, by value.
ghost use Rattle.std.specs.Prelude.{◌≡◌};
ghost use Rattle.model.specs.Calls.Registers as Call;
ghost use Rattle.model.specs.Calls.Registers.{set_bit, finished_bit, stalled_bit};
ghost use Rattle.model.specs.Push.{push};
ghost use Rattle.cabinet.specs.Step.{next_of};

use model::Registers;

// What a step is told besides: the plan's whole moves, the next of them, and whether its pebble failed to arrive.
#[derive(Clone, Copy)]
pub struct Told {
    pub moves: usize,
    pub from: u8,
    pub to: u8,
    pub failed: bool,
}

// Whether flags and mask share bit 0 or bit 1.
pub fn raised(r: Registers) -> bool
    ensures { result ≡ Call.raised r }
{
    r.flags & r.mask & 3 != 0
}

fn with_finished(flags: u8) -> u8
    ensures { result ≡ set_bit finished_bit flags }
{
    flags | 1
}

fn with_stalled(flags: u8) -> u8
    ensures { result ≡ set_bit stalled_bit flags }
{
    flags | 2
}

// With so many moves left: running, or at 0 idle with the flag.
fn counted(r: Registers, left: usize) -> Registers
    ensures { result ≡ Call.counted left r }
{
    let (status, flags) = if left == 0 {
        (0, with_finished(r.flags))
    } else {
        (1, r.flags)
    };
    Registers {
        command: 0,
        status,
        left,
        flags,
        ..r
    }
}

fn stopped(r: Registers) -> Registers
    ensures { result ≡ Call.stopped r }
{
    Registers {
        command: 0,
        status: 0,
        left: 0,
        ..r
    }
}

fn acknowledged(r: Registers) -> Registers
    ensures { result ≡ Call.acknowledged r }
{
    Registers {
        command: 0,
        status: if r.status == 2 { 1 } else { r.status },
        flags: 0,
        ..r
    }
}

fn jammed(r: Registers) -> Registers
    ensures { result ≡ Call.jammed r }
{
    Registers {
        status: 2,
        flags: with_stalled(r.flags),
        ..r
    }
}

// The move is shown, and one less is left.
fn advanced(r: Registers, from: u8, to: u8) -> Registers
    ensures { result ≡ Call.advanced (push from to) r }
{
    counted(Registers { from, to, ..r }, r.left.saturating_sub(1))
}

pub fn next_registers(r: Registers, told: Told) -> Registers
    ensures { result ≡ next_of r told }
{
    match (r.command, r.status) {
        (1, _) => counted(r, told.moves),
        (2, _) => stopped(r),
        (3, _) => acknowledged(r),
        (0, 1) if told.failed => jammed(r),
        (0, 1) => advanced(r, told.from, told.to),
        _ => r,
    }
}
