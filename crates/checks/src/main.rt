// The check program: a yard sheet and behind it a move sheet on standard input, the number of moves and of spare ones or the refusal on standard output.
// What it prints is `checks` of what it read.
#![tactic(auto)]

mod crossings;
mod part;
mod plan;
mod program;

fn main() {
    let mut input = [0u8; program::CHECKED_BYTES];
    let count = io::read_full(0, &mut input);
    let mut out = [0u8; program::OUTPUT_BYTES];
    let printed = program::program(&input[..count], &mut out);
    io::write_all(1, &out[..printed]);
}
