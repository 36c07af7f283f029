// The pusher cabinet: its registers, read from a block of bytes and written back, and the step that is lent them.
#![tactic(auto)]

mod block;
pub mod call;
mod registers;
mod test;
