// A yard planned into a list, whole or part by part, and the moves that a plan can start with.
use cases::lines::field;
use cases::lists::{entries, part};
use cases::print::{counted, digest, first, last, list};
use model::Lists;
use openings::call::openings;
use parts::plan::plan_parts;
use planner::plan::plan;

// The answer, and the whole list.
pub fn plan_short(line: &[u8], lists: &Lists) {
    let mut moves = [0u8; 262144];
    let moves = entries(field(line, 6), &mut moves);
    counted(plan(lists, moves));
    list(b", list", moves);
}

// The first and the last four bytes of a list, and its digest.
fn ends(name: &[u8], bytes: &[u8]) {
    first(name, bytes, 4);
    last(b", last", bytes, 4);
    digest(b", digest ", bytes);
}

// The answer for the first bytes of the list, as many as a field says, and the ends of the list.
pub fn plan_long(line: &[u8], lists: &Lists) {
    let mut moves = [0u8; 262144];
    let moves = entries(field(line, 6), &mut moves);
    counted(plan(lists, part(field(line, 7), moves)));
    ends(b", first", moves);
}

// The answer, and both lists: the whole of them, or their ends.
pub fn in_parts(line: &[u8], lists: &Lists, whole: bool) {
    let mut moves = [0u8; 262144];
    let mut parts = [0u8; 300];
    let moves = entries(field(line, 6), &mut moves);
    let parts = entries(field(line, 7), &mut parts);
    counted(plan_parts(lists, moves, parts));
    if whole {
        list(b", list", moves);
        list(b", parts", parts);
    } else {
        ends(b", first", moves);
        ends(b", parts", parts);
    }
}

// The answer, and the list: the whole of it, or its ends.
pub fn first_moves(line: &[u8], lists: &Lists, whole: bool) {
    let mut moves = [0u8; 600];
    let moves = entries(field(line, 6), &mut moves);
    counted(openings(lists, moves));
    if whole {
        list(b", list", moves);
    } else {
        ends(b", first", moves);
    }
}
