// Events at a node.
use crate::signed::{signed_list, signed_part};
use cases::lines::{bad, field};
use cases::lists::{entries, value};
use cases::print::{done, list};
use demand::call::demands;
use event::call::event_at;
use model::{Event, Lists};

// An entry, of those that the cases need.
fn entry(word: &[u8]) -> i16 {
    match word {
        b"2049" => 2049,
        b"-2049" => -2049,
        b"1" => 1,
        b"2" => 2,
        b"-2" => -2,
        b"7" => 7,
        _ => {
            bad(word);
            0
        }
    }
}

// Puts an entry at an index, if the list has it.
fn put(list: &mut [i16], at: usize, entry: i16) {
    if at < list.len() {
        list[at] = entry;
    }
}

// The answer, and the three lists then. The demand list is the yard's, but for one entry.
pub fn happen(line: &[u8], lists: &Lists, event: Event) {
    let mut pebbles = [0u8; 300];
    let mut targets = [0u8; 300];
    let mut account = [0i16; 300];
    let pebbles = entries(field(line, 3), &mut pebbles);
    let targets = entries(field(line, 4), &mut targets);
    let account = signed_part(field(line, 7), &mut account);
    let _ = demands(
        &Lists {
            parents: lists.parents,
            pebbles,
            targets,
            depths: lists.depths,
        },
        account,
    );
    put(account, value(field(line, 8)), entry(field(line, 9)));
    done(event_at(
        lists.parents,
        pebbles,
        targets,
        lists.depths,
        account,
        event,
        value(field(line, 6)),
    ));
    list(b", pebbles", pebbles);
    list(b", targets", targets);
    signed_list(b", demands", account);
}
