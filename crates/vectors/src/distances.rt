// The nearest pebble, and those within reach.
use cases::lines::field;
use cases::lists::{part, short, value};
use cases::print::{counted, list, located};
use distance::call::{nearest, reach};
use model::Lists;

pub fn nearest_pebble(line: &[u8], lists: &Lists) {
    located(nearest(lists, value(field(line, 6))));
}

// The answer, and the list, which is full of 9 before the call.
pub fn within(line: &[u8], lists: &Lists) {
    let mut counts = [9u8; 300];
    let counts = part(field(line, 6), &mut counts);
    counted(reach(lists, counts, value(field(line, 7)), short(field(line, 8))));
    list(b", list", counts);
}
