// A line of whole programs, read byte by byte: an operation, a comment, or neither.
//
// A line may have any length, so it is not kept: `Line` knows how far its words have come, and what
// they have said of the operation.
#![tactic(auto)]

mod stages;

ghost use Rattle.std.specs.Prelude.{◌≡◌, List, [], ◌∷◌, ◌++◌, ℕ};
ghost use Rattle.line_words.specs.Held.{KeepsWord};
ghost use Rattle.op_lines.specs.Read.{Heard, hear, said};
ghost use Rattle.op_lines.specs.Held.{told_at, KeepsHeard, Follows, Tells};

use crate::stages::{Stage, note, onward};
use line_words::Speech;
pub use stages::Noted;

// The words so far, how far those that are ended have come, and what they have said.
#[derive(Clone, Copy)]
pub struct Line {
    speech: Speech,
    stage: Stage,
    noted: Noted,
}

// What a line says, once it is ended: the operation is in what is noted.
#[derive(Clone, Copy)]
pub enum Told {
    Comment,
    Operation,
    Bad,
}

#[derive(Clone, Copy)]
pub struct Ended {
    pub told: Told,
    pub noted: Noted,
}

fn tell(stage: Stage) -> Told
    ensures { result ≡ told_at stage }
{
    match stage {
        Stage::Nothing => Told::Comment,
        Stage::Blank => Told::Comment,
        Stage::Named => Told::Bad,
        Stage::Doing => Told::Bad,
        Stage::Touched => Told::Operation,
        Stage::Marked => Told::Operation,
        Stage::Wrong => Told::Bad,
    }
}

impl Line {
    // No byte yet.
    pub fn new() -> Self
        ensures { Follows [] result }
    {
        let speech = Speech::new();
        let noted = Noted::new();
        Line {
            speech,
            stage: Stage::Nothing,
            noted,
        }
    }

    // A byte more.
    pub fn push(self, byte: u8) -> Self
        ensures { (line : List ℕ) → Follows line self → Follows (line ++ (byte ∷ [])) result }
    {
        let before = self.speech;
        let speech = before.push(byte);
        if before.ends(byte) {
            let heard = self.word_ended();
            let stage = heard.stage;
            let noted = heard.noted;
            return Line {
                speech,
                stage,
                noted,
            };
        }
        let stage = self.stage;
        let noted = self.noted;
        Line {
            speech,
            stage,
            noted,
        }
    }

    // The word ends.
    #[inline(always)]
    fn word_ended(self) -> Self
        ensures { (h : Heard) (w : List ℕ) → KeepsHeard h self → KeepsWord w self.speech.word → KeepsHeard (hear h w) result }
    {
        let speech = self.speech;
        let ended = speech.word;
        let from = self.stage;
        let before = self.noted;
        let stage = onward(from, ended);
        let noted = note(stage, ended, before);
        Line {
            speech,
            stage,
            noted,
        }
    }

    // The line ends.
    pub fn ended(self) -> Ended
        ensures { (line : List ℕ) → Follows line self → Tells (said line) result }
    {
        let speech = self.speech;
        let over = speech.over;
        if over {
            let stage = self.stage;
            let noted = self.noted;
            return Ended {
                told: tell(stage),
                noted,
            };
        }
        let last = self.word_ended();
        let stage = last.stage;
        let noted = last.noted;
        Ended {
            told: tell(stage),
            noted,
        }
    }
}
