// Yard states, and pushes of them. What is told ends with the size and the first four pebbles of
// the yard that came back.
use cases::lines::field;
use cases::lists::{entries, value};
use cases::print::{done, figure, first};
use model::Lists;
use yard::state::{Answered, Yard};

fn show(a: Answered) -> Yard {
    let Answered { yard, answer } = a;
    done(answer);
    figure(b", size ", yard.size);
    first(b" pebbles", &yard.pebbles, 4);
    yard
}

// A push; its nodes stand in two fields.
pub fn push_state(line: &[u8], yard: Yard, from_field: usize, to_field: usize) -> Yard {
    let from = value(field(line, from_field));
    let to = value(field(line, to_field));
    show(yard.push(from, to))
}

// A yard made from lists.
pub fn made(line: &[u8]) -> Yard {
    let mut parents = [0u8; 300];
    let mut pebbles = [0u8; 300];
    let mut targets = [0u8; 300];
    let mut depths = [0u8; 300];
    let parents = entries(field(line, 2), &mut parents);
    let pebbles = entries(field(line, 3), &mut pebbles);
    let targets = entries(field(line, 4), &mut targets);
    let depths = entries(field(line, 5), &mut depths);
    show(Yard::from_lists(&Lists {
        parents,
        pebbles,
        targets,
        depths,
    }))
}

// A state as it stands in the fields, with zeros behind each list.
pub fn state(line: &[u8]) -> Yard {
    let mut parents = [0u8; Yard::MAX];
    let mut pebbles = [0u8; Yard::MAX];
    let mut targets = [0u8; Yard::MAX];
    let mut depths = [0u8; Yard::MAX];
    entries(field(line, 2), &mut parents);
    entries(field(line, 3), &mut pebbles);
    entries(field(line, 4), &mut targets);
    entries(field(line, 5), &mut depths);
    let size = value(field(line, 6));
    Yard {
        parents,
        pebbles,
        targets,
        depths,
        size,
    }
}
