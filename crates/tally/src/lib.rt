// What the test program counts: the steps tried and those that were as expected, and the words of
// tables that differ.
//
// Every function is proved against a definition of specs/.
#![tactic(auto)]

mod changes;
mod noted;
mod score;
mod tally;

pub use changes::{changed, differing, put, word};
pub use noted::note;
pub use score::Score;
pub use tally::{REFUSED, Tally, WAIT, as_expected};
