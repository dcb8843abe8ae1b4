// The program of the finest cut as a machine: it is born with no byte read, takes the input in pieces of
// any length, and at the end of input puts out the pieces of the finest cut, or why there is none.
//
// It reads and writes nothing itself: input is handed in, and the text stands at the front of a lent
// buffer. `new` is the only way to one.
#![tactic(auto)]

mod operations;
mod says;
mod tally;

ghost use Rattle.std.specs.Prelude.{◌≡◌, List, [], ◌++◌, ℕ, ◌≤◌, length, take};
ghost use Rattle.cut_lines.specs.Given.{longest_text};
ghost use Rattle.fining.specs.Programs.{said_lines};
ghost use Rattle.fining.specs.Told.{put_out};
ghost use Rattle.fining.specs.Life.{Took, Counts};

use crate::says::say;
use crate::tally::Tally;
pub use cut_lines::LONGEST_TEXT;
use op_lines::Line;

const LINE_END: u8 = 10;

// The line that is not ended, whether it has a byte, and what the lines before it have come to.
#[derive(Drop)]
pub struct Fining {
    line: Line,
    begun: bool,
    tally: Tally,
}

impl Fining {
    pub fn new() -> Self
        ensures { Took [] result }
    {
        let line = Line::new();
        let tally = Tally::new();
        Fining {
            line,
            begun: false,
            tally,
        }
    }

    // A piece of the input.
    pub fn take(self, piece: &[u8]) -> Self
        ensures { (input : List ℕ) → Took input self → Took (input ++ piece.now) result }
    {
        let mut line = self.line;
        let mut begun = self.begun;
        let mut tally = self.tally;
        for &byte in piece {
            if byte == LINE_END {
                tally.count(line.ended());
                line = Line::new();
                begun = false;
            } else {
                line = line.push(byte);
                begun = true;
            }
        }
        Fining { line, begun, tally }
    }

    // The end of the input: how many bytes are put out.
    pub fn end(self, out: &mut [u8]) -> usize
        requires { longest_text ≤ length out.old }
        ensures upper_bound { result ≤ length out.old }
        ensures by_index { (input : List ℕ) → Took input self → take result out.new ≡ put_out input }
    {
        let tally = self.last();
        say(tally, out)
    }

    // What all lines have come to: the end of input ends one that is begun.
    fn last(self) -> Tally
        ensures { (input : List ℕ) → Took input self → Counts (said_lines input) result }
    {
        let begun = self.begun;
        let mut tally = self.tally;
        if begun {
            tally.count(self.line.ended());
        }
        tally
    }
}
