// The account call, the bound, the displaced, and the longest plan of n nodes.
use crate::signed::{signed_list, signed_part};
use cases::lines::field;
use cases::lists::value;
use cases::print::{counted, done, measured, text};
use demand::call::demands;
use figures::bound::{length_bound, longest_plan};
use figures::displaced::displaced;
use model::Lists;

// The answer, and the list, which is full of 9 before the call.
pub fn account(line: &[u8], lists: &Lists) {
    let mut list = [9i16; 300];
    let list = signed_part(field(line, 6), &mut list);
    done(demands(lists, list));
    signed_list(b", list", list);
}

// The answer for 256 nodes, and the first two and the last two demands.
pub fn account_ends(lists: &Lists) {
    let mut list = [9i16; 256];
    done(demands(lists, &mut list));
    signed_list(b", ends", &[list[0], list[1], list[254], list[255]]);
}

pub fn figures(lists: &Lists) {
    text(b"bound ");
    measured(length_bound(lists));
    text(b", displaced ");
    counted(displaced(lists));
}

pub fn longest(line: &[u8]) {
    counted(longest_plan(value(field(line, 2))));
}
