// The parts of doing that begin, read, write and wait: each deed's own function, which writes the
// tables that it changes and no other. Proved equal to `done` of the rules for its deed; what each asks
// of the tables is in specs/Asked. What ends a transaction is in `endings`.
#![tactic(auto)]

pub mod begins;
pub mod grants;
pub mod reads;
