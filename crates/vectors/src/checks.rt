// A plan checked or tried, and its wear.
use cases::lines::field;
use cases::lists::{NONE, decimal, entries, short};
use cases::print::{checked, list, tried, worn};
use checker::check::check;
use checker::trial::trial;
use model::Lists;
use wear::call::wear;

pub fn check_plan(line: &[u8], lists: &Lists) {
    let mut plan = [0u8; 262146];
    let plan = entries(field(line, 6), &mut plan);
    checked(check(lists, plan));
}

// The answer, and the pebble list after the trial.
pub fn try_plan(line: &[u8], lists: &Lists) {
    let mut pebbles = [0u8; 300];
    let pebbles = entries(field(line, 3), &mut pebbles);
    let mut plan = [0u8; 262146];
    let plan = entries(field(line, 6), &mut plan);
    tried(trial(
        lists.parents,
        pebbles,
        lists.targets,
        lists.depths,
        plan,
        short(field(line, 7)),
    ));
    list(b", pebbles", pebbles);
}

pub fn wear_plan(line: &[u8], lists: &Lists) {
    let mut plan = [0u8; 262146];
    let plan = entries(field(line, 6), &mut plan);
    let width = decimal(field(line, 7)).unwrap_or(NONE);
    worn(wear(lists, plan, (width % 4294967296) as u32));
}
