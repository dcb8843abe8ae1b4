// The runner's language: a line as a call.
//
// Every function here is proved against a definition of specs/, and none has a `requires`: every
// line, of any bytes and any length, is a call or is none.
#![tactic(auto)]

mod calls;
mod words;

pub use calls::{parse, read_as};
