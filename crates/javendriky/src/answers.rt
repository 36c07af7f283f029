// An answer as one number.
ghost use Rattle.std.specs.Prelude.{◌≡◌};
ghost use Rattle.model.specs.Calls.Answers as Answers;
ghost use Rattle.model.specs.Calls.Answers.{answer, mapAnswer, in_c, zeroInC, Row, Small};
ghost use Rattle.model.specs.Calls.Checks.{trial_in_c};
ghost use Rattle.model.specs.Calls.Registers.{line_in_c};
ghost use Rattle.model.specs.Yard.{one};
ghost use Rattle.model.specs.Paper.{paper, paper_done, paper_counted, paper_tried, paper_signalled};

use model::{Refusal, Signalled, Tried};
use refusal::{number, place};

// A refusal as one number.
pub fn refused(r: Refusal) -> u32
    requires { Row (paper r) }
    ensures { result ≡ in_c (Answers.refused (paper r)) }
{
    number(r) * 1_000_000 + place(r) as u32
}

// The answer of a call with no value: 0, or the refusal.
pub fn done(d: Result<(), Refusal>) -> u32
    requires { Small (answer (paper_done d) 0) }
    ensures { result ≡ zeroInC (paper_done d) }
{
    d.map_or_else(refused, |()| 0)
}

// The number, or the refusal.
pub fn counted(a: Result<usize, Refusal>) -> u32
    requires { Small (paper_counted a) }
    ensures { result ≡ in_c (paper_counted a) }
{
    a.map_or_else(refused, |n| n as u32)
}

// The moves taken, plus 500,000 where the budget ended the trial, or the refusal.
pub fn tried(a: Result<Tried, Refusal>) -> u32
    requires { Small (mapAnswer trial_in_c (paper_tried a)) }
    ensures { result ≡ in_c (mapAnswer trial_in_c (paper_tried a)) }
{
    a.map_or_else(refused, |t| match t {
        Tried::PlanEnded(n) => n as u32,
        Tried::BudgetEnded(n) => n as u32 + 500_000,
    })
}

// 1 if the line is raised, 0 if not, or the refusal.
pub fn signalled(a: Result<Signalled, Refusal>) -> u32
    requires { Small (mapAnswer one (paper_signalled a)) }
    ensures { result ≡ line_in_c (paper_signalled a) }
{
    a.map_or_else(refused, |s| match s {
        Signalled::Raised => 1,
        Signalled::Quiet => 0,
    })
}
