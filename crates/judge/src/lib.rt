// The judge: replays a journal from fresh tables and says whether it is the journal of a run.
//
// It sees one call and one answer at a time and keeps how many it has seen, the first wrong one and
// three tables. It goes by what the keeper promises alone: by `step`, never by a word of a table.
#![tactic(auto)]

mod pieces;
mod points;
mod whole;

pub use pieces::{one, piece};
pub use points::{calls_stand, spoken};
pub use whole::verdict_on;

// What is said of a file: it is accepted, or the first point that fails.
#[derive(Clone, Copy)]
pub enum Verdict {
    Accepted,
    Short,
    Unequal,
    LeftOver,
    Wrong(u64),
}

// What the judge keeps beside the tables: how many calls it has seen, and the first wrong one of
// them, counted from 1; 0 for none.
// Stays: 0 for none, as the definitions `first_wrong` and `spoken` have it.
#[derive(Clone, Copy)]
pub struct Judge {
    pub seen: u64,
    pub wrong: u64,
}
