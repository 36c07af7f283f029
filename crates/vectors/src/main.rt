// Worked cases of the library's calls: document 01's yards and tables, and cases beside them. Each
// line of standard input is a case, which goes by its kind, the first field, and of the output too:
// the case's label, and then what the call gave. The kinds of one subject stand in a module.
#![tactic(auto)]

mod checks;
mod demands;
mod distances;
mod events;
mod plans;
mod reads;
mod signed;
mod states;
mod steps;
mod writes;
mod yards;

use cases::kinds::kind;
use cases::lines::{bad, field, is_case, line_at, next_line};
use cases::lists::entries;
use cases::print::{end, label};
use model::Event::{PebbleArrives, PebbleLeaves, TargetCleared, TargetSet};
use model::Lists;
use yard::state::Yard;

// A case on four lists.
fn on_lists(line: &[u8], lists: &Lists) {
    match kind(line) {
        (b"test", 5) => yards::test(lists),
        (b"push", 7) => yards::push(line, lists, true),
        (b"last", 7) => yards::push(line, lists, false),
        (b"account", 6) => demands::account(line, lists),
        (b"ends", 5) => demands::account_ends(lists),
        (b"figures", 5) => demands::figures(lists),
        (b"arrives", 9) => events::happen(line, lists, PebbleArrives),
        (b"leaves", 9) => events::happen(line, lists, PebbleLeaves),
        (b"set", 9) => events::happen(line, lists, TargetSet),
        (b"cleared", 9) => events::happen(line, lists, TargetCleared),
        (b"nearest", 6) => distances::nearest_pebble(line, lists),
        (b"reach", 8) => distances::within(line, lists),
        (b"plan", 6) => plans::plan_short(line, lists),
        (b"long-plan", 7) => plans::plan_long(line, lists),
        (b"parts", 7) => plans::in_parts(line, lists, true),
        (b"long-parts", 7) => plans::in_parts(line, lists, false),
        (b"openings", 6) => plans::first_moves(line, lists, true),
        (b"long-openings", 6) => plans::first_moves(line, lists, false),
        (b"check", 6) => checks::check_plan(line, lists),
        (b"trial", 7) => checks::try_plan(line, lists),
        (b"wear", 7) => checks::wear_plan(line, lists),
        (b"step", 7) => steps::step(line, lists, false),
        (b"fails", 7) => steps::step(line, lists, true),
        (b"write", 6) => writes::write_small(line, lists),
        (b"long-sheet", 7) => writes::write_long(line, lists),
        (b"back", 7) => writes::write_and_read(line, lists),
        _ => bad(line),
    }
}

// A case whose fields behind the label begin with a yard's four lists.
fn with_lists(line: &[u8]) {
    let mut parents = [0u8; 300];
    let mut pebbles = [0u8; 300];
    let mut targets = [0u8; 300];
    let mut depths = [0u8; 300];
    let parents = entries(field(line, 2), &mut parents);
    let pebbles = entries(field(line, 3), &mut pebbles);
    let targets = entries(field(line, 4), &mut targets);
    let depths = entries(field(line, 5), &mut depths);
    on_lists(
        line,
        &Lists {
            parents,
            pebbles,
            targets,
            depths,
        },
    );
}

// A case, with the yard state of the case before it; the state after it.
fn case(line: &[u8], yard: Yard) -> Yard {
    match kind(line) {
        (b"fresh", 3) => return states::push_state(line, Yard::new(), 2, 3),
        (b"made", 5) => return states::made(line),
        (b"then", 3) => return states::push_state(line, yard, 2, 3),
        (b"state", 8) => return states::push_state(line, states::state(line), 7, 8),
        (b"longest", 2) => demands::longest(line),
        (b"read", 2) => reads::read_small(line),
        (b"lists", 6) => reads::read_to_lists(line),
        _ => with_lists(line),
    }
    yard
}

// A line of the input, which is a case, a comment or empty.
fn told(line: &[u8], yard: Yard) -> Yard {
    if !is_case(line) {
        return yard;
    }
    label(field(line, 1));
    let next = case(line, yard);
    end();
    next
}

fn run(input: &[u8]) {
    let mut yard = Yard::new();
    let mut at = 0;
    while at < input.len() {
        yard = told(line_at(input, at), yard);
        at = next_line(input, at);
    }
}

fn main() {
    let mut input = [0u8; 65536];
    let count = io::read_full(0, &mut input);
    if count == 65536 {
        bad(b"too many cases");
    }
    run(&input[..count]);
}
