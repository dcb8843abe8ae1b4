// What the lines that are ended have come to.
ghost use Rattle.std.specs.Prelude.{List, [], ◌∷◌, ◌++◌, ℕ};
ghost use Rattle.line_words.specs.Said.{Said};
ghost use Rattle.op_lines.specs.Says.{Operation};
ghost use Rattle.op_lines.specs.Read.{said};
ghost use Rattle.op_lines.specs.Held.{Tells};
ghost use Rattle.fining.specs.Life.{Counts};

use crate::operations::Operations;
use op_lines::{Ended, Told};
use told_lines::{first, next};

// How many there are, which of them is the first bad one, counted from 1, and the
// operations.
#[derive(Drop)]
pub struct Tally {
    pub lines: u64,
    pub bad: Option<u64>,
    pub operations: Operations,
}

impl Tally {
    pub fn new() -> Self
        ensures { Counts [] result }
    {
        let operations = Operations::new();
        Tally {
            lines: 0,
            bad: None,
            operations,
        }
    }

    // A line more, by what it says.
    pub fn count(&mut self, ended: Ended)
        ensures { (ss : List (Said Operation)) (line : List ℕ) → Counts ss self.old → Tells (said line) ended → Counts (ss ++ (said line ∷ [])) self.new }
    {
        self.lines = next(self.lines);
        match ended.told {
            Told::Comment => {}
            Told::Operation => self.operations.add(ended.noted),
            Told::Bad => self.bad = first(self.bad, self.lines),
        }
    }
}
