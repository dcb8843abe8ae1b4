// The parts of doing that end a transaction, or its writing: each deed's own function, which writes
// the tables that it changes and no other. Proved equal to `done` of the rules for its deed; what each
// asks of the tables is in specs/Asked.
#![tactic(auto)]

pub mod aborts;
pub mod ends;
pub mod leaving;
pub mod settles;
