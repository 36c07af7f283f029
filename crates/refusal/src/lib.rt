// A refusal's number and place in the table of document 01 and of the requests. Other crates use these and match on no case, so that a new row changes this file alone.
#![tactic(auto)]

ghost use Rattle.std.specs.Prelude.{◌≡◌};
ghost use Rattle.model.specs.Paper.{paper};

use model::Refusal;

pub fn number(r: Refusal) -> u32
    ensures { result ≡ (paper r).number }
{
    match r {
        Refusal::NodeCount(_) => 1,
        Refusal::ListLength => 2,
        Refusal::ParentOutside(_) => 4,
        Refusal::Roots(_) => 5,
        Refusal::Circle(_) => 6,
        Refusal::Totals => 7,
        Refusal::ListTooShort(_) => 8,
        Refusal::PlanLength => 9,
        Refusal::NoSuchNode(_) => 10,
        Refusal::NotAdjacent(_) => 11,
        Refusal::FromEmpty(_) => 12,
        Refusal::ToFull(_) => 13,
        Refusal::TargetEmpty(_) => 14,
        Refusal::Header(_) => 15,
        Refusal::LineShape(_) => 16,
        Refusal::NodeNumber(_) => 17,
        Refusal::ReaderList => 18,
        Refusal::NodeOutside => 19,
        Refusal::EventImpossible => 20,
        Refusal::NoPebble => 22,
        Refusal::StaleDemands(_) => 23,
        Refusal::Register(_) => 24,
        Refusal::NotIdle => 25,
        Refusal::Depth(_) => 26,
        Refusal::AboveDepth(_) => 27,
        Refusal::Width => 28,
    }
}

pub fn place(r: Refusal) -> usize
    ensures { result ≡ (paper r).place }
{
    match r {
        Refusal::NodeCount(p) => p,
        Refusal::ListLength => 0,
        Refusal::ParentOutside(v) => v,
        Refusal::Roots(v) => v,
        Refusal::Circle(v) => v,
        Refusal::Totals => 0,
        Refusal::ListTooShort(n) => n,
        Refusal::PlanLength => 0,
        Refusal::NoSuchNode(m) => m,
        Refusal::NotAdjacent(m) => m,
        Refusal::FromEmpty(m) => m,
        Refusal::ToFull(m) => m,
        Refusal::TargetEmpty(v) => v,
        Refusal::Header(l) => l,
        Refusal::LineShape(l) => l,
        Refusal::NodeNumber(l) => l,
        Refusal::ReaderList => 0,
        Refusal::NodeOutside => 0,
        Refusal::EventImpossible => 0,
        Refusal::NoPebble => 0,
        Refusal::StaleDemands(v) => v,
        Refusal::Register(r) => r,
        Refusal::NotIdle => 0,
        Refusal::Depth(v) => v,
        Refusal::AboveDepth(v) => v,
        Refusal::Width => 0,
    }
}
