// What is recorded of a script: the calls of its lines, and the answers to them, as records.
#![tactic(auto)]

mod answers;
mod taken;

pub use answers::answer_piece;
pub use taken::{Taken, count_with, take_chunk, take_last};
