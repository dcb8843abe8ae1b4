// The judge's program without its input and output: a machine that asks for the bytes of a file and
// is handed them, and at the end has the line that is said of it.
//
// `Counts` is born with the file's size and asks for its counts, one after another; `Judging` is born
// of the counts with fresh tables and asks for calls and answers in step. Neither can be had in
// another way. Each step is proved to keep to every file that the bytes so far were taken from, and
// the last one to say that file's verdict.
#![tactic(auto)]

mod counted;
mod lockstep;

pub use counted::Counts;
pub use lockstep::Judging;
