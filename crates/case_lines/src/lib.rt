// The answer to a case, as a line: the answer's numbers, and the words of the tables as the call left
// them. A line that is no case is answered `bad`.
#![tactic(auto)]

mod answers;
mod outcomes;

pub use answers::respond;
