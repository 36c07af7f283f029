// The move program: a yard sheet on standard input, its move sheet or the refusal on standard output. What it prints is `program` of what it read.
#![tactic(auto)]

mod program;
mod report;

fn main() {
    let mut input = [0u8; program::JUDGED_BYTES];
    let count = io::read_full(0, &mut input);
    let mut out = [0u8; program::OUTPUT_BYTES];
    let printed = program::program(&input[..count], &mut out);
    io::write_all(1, &out[..printed]);
}
