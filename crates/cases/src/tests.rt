// What `fields` and `number` read, and how answers and lists print as values.
use crate::lines::fields;
use crate::lists::number;
use crate::print::{Answer, Digest, Ends, Entries};
use model::{Checked, Located, Measured, Refusal, Signalled, Tried, Worn};
use std::test::Fail;

#[test]
fn fields_of_a_case(rt: HostRuntime) -> Result<(), Fail> {
    let read = fields(rt.alloc(), "push | 11, not adjacent|0 0|  1 ||6 ")?;
    assert_eq!(rt; read.len(), 6);
    assert_eq!(rt; read[0], "push");
    assert_eq!(rt; read[1], "11, not adjacent");
    assert_eq!(rt; read[2], "0 0");
    assert_eq!(rt; read[3], " 1");
    assert_eq!(rt; read[4], "");
    assert_eq!(rt; read[5], "6");
    Ok(())
}

#[test]
fn numbers_of_texts(rt: HostRuntime) -> Result<(), Fail> {
    assert_eq!(rt; number::<u8>("255")?, 255);
    assert_eq!(rt; number::<i16>("-2048")?, -2048);
    assert_eq!(rt; number::<usize>("1234567")?, 1_234_567);
    let Err(unread) = number::<u8>("256") else {
        panic!(rt; "256 is no byte");
    };
    assert_eq!(rt; unread.to_string(rt.alloc())?.as_str(), "256");
    Ok(())
}

#[test]
fn answers_in_print(rt: HostRuntime) -> Result<(), Fail> {
    let alloc = rt.alloc();
    let refusal = format!(in alloc; "{}", Answer(Refusal::Circle(2)))?;
    assert_eq!(rt; refusal.as_str(), "refusal 6 place 2");
    let done = format!(in alloc; "{}", Answer(Ok::<(), Refusal>(())))?;
    assert_eq!(rt; done.as_str(), "accepted");
    let refused = format!(in alloc; "{}", Answer(Err::<(), Refusal>(Refusal::ListLength)))?;
    assert_eq!(rt; refused.as_str(), "refusal 2 place 0");
    let counted = format!(in alloc; "{}", Answer(Ok::<usize, Refusal>(7)))?;
    assert_eq!(rt; counted.as_str(), "7");
    let checked = Checked {
        moves: 3,
        excess: 1,
    };
    let checked = format!(in alloc; "{}", Answer(Ok::<Checked, Refusal>(checked)))?;
    assert_eq!(rt; checked.as_str(), "moves 3 spare 1");
    let tried = format!(in alloc; "{}", Answer(Ok::<Tried, Refusal>(Tried::BudgetEnded(2))))?;
    assert_eq!(rt; tried.as_str(), "budget ended after 2");
    let measured = Measured { moves: 3, bytes: 6 };
    let measured = format!(in alloc; "{}", Answer(Ok::<Measured, Refusal>(measured)))?;
    assert_eq!(rt; measured.as_str(), "moves 3 bytes 6");
    let located = Located {
        node: 4,
        distance: 2,
    };
    let located = format!(in alloc; "{}", Answer(Ok::<Located, Refusal>(located)))?;
    assert_eq!(rt; located.as_str(), "node 4 distance 2");
    let worn = Worn {
        crossings: 5,
        first: 1,
        edge: 3,
    };
    let worn = format!(in alloc; "{}", Answer(Ok::<Worn, Refusal>(worn)))?;
    assert_eq!(rt; worn.as_str(), "crossings 5 first 1 edge 3");
    let signalled = format!(in alloc; "{}", Answer(Ok::<Signalled, Refusal>(Signalled::Quiet)))?;
    assert_eq!(rt; signalled.as_str(), "quiet");
    Ok(())
}

#[test]
fn lists_in_print(rt: HostRuntime) -> Result<(), Fail> {
    let alloc = rt.alloc();
    let list = [1, 2, 3, 4, 5];
    let entries = format!(in alloc; "{}", Entries(&[-1i16, 0, 300]))?;
    assert_eq!(rt; entries.as_str(), " -1 0 300");
    // ((1 * 31 + 2) * 31 + 3) * 31 + 4 is 31,810, and 31,810 * 31 + 5 is 986,115.
    let digest = format!(in alloc; "{}", Digest(&list))?;
    assert_eq!(rt; digest.as_str(), "986115");
    let ends = format!(in alloc; "{}", Ends(&list))?;
    assert_eq!(rt; ends.as_str(), " 1 2 3 4, last 2 3 4 5, digest 986115");
    let few = format!(in alloc; "{}", Ends(&list[..3]))?;
    assert_eq!(rt; few.as_str(), " 1 2 3, digest 1026");
    Ok(())
}
