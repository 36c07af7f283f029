// The yard state, by value, and one push of it.
ghost use Rattle.std.specs.Prelude.{◌≡◌, ◌≤◌, length};
ghost use Rattle.model.specs.Yard.{max_size, fresh};
ghost use Rattle.model.specs.Given.{listed};
ghost use Rattle.model.specs.Judge.{judge};
ghost use Rattle.model.specs.Push.{push, push_fault, pushed};
ghost use Rattle.model.specs.Paper.{paper_done};
ghost use Rattle.yard.specs.State as State;
ghost use Rattle.yard.specs.State.{yard_in, state_of, or_fresh, state_after};

use crate::push::push_lists;
use judge::test::test_yard;
use model::{Lists, Refusal};

// A yard of up to `Yard::MAX` nodes: the first `size` entries of each array count.
#[derive(Drop)]
pub struct Yard {
    pub parents: [u8; Yard::MAX],
    pub pebbles: [u8; Yard::MAX],
    pub targets: [u8; Yard::MAX],
    pub depths: [u8; Yard::MAX],
    pub size: usize,
}

// The yard after a push, or one made from lists, and whether it was accepted.
#[derive(Drop)]
pub struct Answered {
    pub yard: Yard,
    pub answer: Result<(), Refusal>,
}

// A list of at most `Yard::MAX` entries, continued by zeros.
fn padded(list: &[u8]) -> [u8; Yard::MAX]
    requires { length list.now ≤ max_size }
    ensures { result ≡ State.padded max_size list.now }
{
    let mut array = [0u8; Yard::MAX];
    array[..list.len()].copy_from_slice(list);
    array
}

impl Yard {
    // The largest yard.
    pub const MAX: usize = 256;

    // A fresh yard: one node, its own parent, of depth 1, with no pebble and no target. The last clause says that MAX is the definition's largest yard: so
    // many entries the arrays have.
    pub fn new() -> Yard
        ensures result_value { yard_in result ≡ fresh }
        ensures value { result ≡ state_of fresh }
        ensures parents_len { length result.parents ≡ max_size }
    {
        let mut depths = [0u8; Yard::MAX];
        depths[0] = 1;
        Yard {
            parents: [0u8; Yard::MAX],
            pebbles: [0u8; Yard::MAX],
            targets: [0u8; Yard::MAX],
            depths,
            size: 1,
        }
    }

    // The yard of four lists; refused as they are (1 to 6), a fresh one. The last clause says what lies behind its nodes too: zeros.
    pub fn from_lists(yard: &Lists) -> Answered
        ensures answer_value { paper_done result.answer ≡ judge (listed yard.now) }
        ensures yard_value { yard_in result.yard ≡ or_fresh (listed yard.now) }
        ensures yard_value_2 { result.yard ≡ state_of (or_fresh (listed yard.now)) }
    {
        let answer = test_yard(yard);
        if let Err(r) = answer {
            return Answered {
                yard: Yard::new(),
                answer: Err(r),
            };
        }
        Answered {
            yard: Yard {
                parents: padded(yard.parents),
                pebbles: padded(yard.pebbles),
                targets: padded(yard.targets),
                depths: padded(yard.depths),
                size: yard.parents.len(),
            },
            answer: Ok(()),
        }
    }

    // One push: refusals 1, 26, 27, 4 to 6, then 10 to 13 with place 0; refused, the yard comes back unchanged. The yard is the definition's; what lies
    // behind its nodes stays (the last clause). States pushed one by one: proofs/States.antt.
    pub fn push(self, from: usize, to: usize) -> Answered
        ensures answer_value { paper_done result.answer ≡ push_fault (yard_in self) (push from to) }
        ensures yard_value { yard_in result.yard ≡ pushed (yard_in self) (push from to) }
        ensures yard_value_2 { result.yard ≡ state_after self (push from to) }
    {
        let size = self.size;
        if size > Yard::MAX {
            return Answered {
                yard: self,
                answer: Err(Refusal::NodeCount(0)),
            };
        }
        let parents = self.parents;
        let mut pebbles = self.pebbles;
        let targets = self.targets;
        let depths = self.depths;
        let answer = push_lists(
            &parents[..size],
            &mut pebbles[..size],
            &targets[..size],
            &depths[..size],
            from,
            to,
        );
        Answered {
            yard: Yard {
                parents,
                pebbles,
                targets,
                depths,
                size,
            },
            answer,
        }
    }
}
