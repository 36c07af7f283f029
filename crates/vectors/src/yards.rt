// The test of a yard, and one push of its lists.
use cases::lines::field;
use cases::lists::{entries, value};
use cases::print::{done, last, list};
use judge::test::test_yard;
use model::Lists;
use yard::push::push_lists;

pub fn test(lists: &Lists) {
    done(test_yard(lists));
}

// The answer, and the pebble list after the push: the whole of it, or its last two entries.
pub fn push(line: &[u8], lists: &Lists, whole: bool) {
    let mut pebbles = [0u8; 300];
    let pebbles = entries(field(line, 3), &mut pebbles);
    let from = value(field(line, 6));
    let to = value(field(line, 7));
    done(push_lists(
        lists.parents,
        pebbles,
        lists.targets,
        lists.depths,
        from,
        to,
    ));
    if whole {
        list(b", pebbles", pebbles);
    } else {
        last(b", last pebbles", pebbles, 2);
    }
}
