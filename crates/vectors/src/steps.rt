// Steps of the pusher cabinet.
use cabinet::call::step_block;
use cases::lines::field;
use cases::lists::entries;
use cases::print::{list, signalled};
use model::Lists;

// The answer, the pebbles and the block then.
pub fn step(line: &[u8], lists: &Lists, failed: bool) {
    let mut pebbles = [0u8; 300];
    let mut plan = [0u8; 262146];
    let mut block = [0u8; 300];
    let pebbles = entries(field(line, 3), &mut pebbles);
    let plan = entries(field(line, 6), &mut plan);
    let block = entries(field(line, 7), &mut block);
    signalled(step_block(
        lists.parents,
        pebbles,
        lists.targets,
        lists.depths,
        plan,
        block,
        failed,
    ));
    list(b", pebbles", pebbles);
    list(b", block", block);
}
