// What the lines of a text come to, whatever they say: counted, with the first that is bad; and the names
// in them.
#![tactic(auto)]

mod naming;
mod tally;

pub use naming::{Names, WIDE, place, put_name};
pub use tally::{first, next, say_bad};
