// Request E9: may a release run be cut up? The judge of choppings, after source document 004, section 3.
//
// A piece is three words: the number of its transaction, the items that it reads and the items that it
// writes, each as a word of 64 bits.
#![tactic(auto)]

ghost use Rattle.std.specs.Prelude.{◌≡◌, []};
ghost use Rattle.chop.specs.Pieces.{pieces_of};
ghost use Rattle.chop.specs.Verdicts.{said, shows};
ghost use Rattle.chop.specs.Judgement.{judgement};

mod circles;
mod links;

use circles::judge_linked;
use links::links_of;

// How many pieces may be judged.
pub const MOST: usize = 32;

// What is found of a chopping.
#[derive(Clone, Copy)]
pub enum Finding {
    TooManyPieces,
    UnknownItem,
    Malformed,
    Refused,
    Accepted,
}

// The judge's answer: what was found, and the circle if it is a refusal: `length` pieces by their places
// in the input, counted from 0; zeros behind them.
// Stays: Fixed memory, no heap; the definitions `shows` and `said` give these three fields.
#[derive(Drop)]
pub struct Judged {
    pub finding: Finding,
    pub length: usize,
    pub circle: [u64; MOST],
}

// An answer that shows no circle.
pub fn plain(finding: Finding) -> Judged
    ensures { result ≡ shows finding [] }
{
    Judged {
        finding,
        length: 0,
        circle: [0; MOST],
    }
}

// The judgement on the pieces that stand in rows of three words: transaction, items read, items written.
// Words behind the last whole row are not looked at.
pub fn judge(words: &[u64]) -> Judged
    ensures { result ≡ said (judgement (pieces_of words.now)) }
{
    let count = words.len() / 3;
    if MOST < count {
        return plain(Finding::TooManyPieces);
    }
    let links = links_of(words);
    judge_linked(words, &links[..count])
}
