// How far the words of a line have come: the stage that a word leads to, and what is noted of the piece.
ghost use Rattle.std.specs.Prelude.{◌≡◌, cond, List, [], ◌∷◌, ℕ};
ghost use Rattle.piece_lines.specs.Says.{Piece, piece};
ghost use Rattle.piece_lines.specs.Read.{onward as Read·onward, noted};
ghost use Rattle.piece_lines.specs.Items.{word_with};
ghost use Rattle.piece_lines.specs.Held.{KeepsPiece};
ghost use Rattle.line_words.specs.Held.{KeepsWord};

use line_words::Word;

#[derive(Clone, Copy)]
pub enum Stage {
    // No word, and one that is empty.
    Nothing,
    Blank,
    // The transaction's name.
    Named,
    // `reads`, and an item behind it.
    ToRead,
    Reading,
    // `writes`, and an item behind it.
    ToWrite,
    Writing,
    // None of these.
    Wrong,
}

// What is known of the piece: its transaction's name, zeros behind it, the items below 64 that it
// reads and writes, as bits, and whether there is any other.
#[derive(Clone, Copy)]
pub struct Noted {
    pub name: [u8; 32],
    pub reads: u64,
    pub writes: u64,
    pub unknown: bool,
}

fn pick(test: bool, yes: Stage, no: Stage) -> Stage
    ensures { result ≡ cond test yes no }
{
    if test { yes } else { no }
}

// The stage that a word leads to.
pub(crate) fn onward(stage: Stage, word: Word) -> Stage
    ensures { (w : List ℕ) → KeepsWord w word → result ≡ Read·onward stage w }
{
    let empty = word.empty();
    let name = word.is_name();
    let item = word.is_item();
    let kept = word.kept;
    let reads = kept.is(b"reads");
    let writes = kept.is(b"writes");
    let part = pick(writes, Stage::ToWrite, Stage::Wrong);
    match stage {
        Stage::Nothing => pick(empty, Stage::Blank, pick(name, Stage::Named, Stage::Wrong)),
        Stage::Blank => Stage::Wrong,
        Stage::Named => pick(reads, Stage::ToRead, part),
        Stage::ToRead => pick(item, Stage::Reading, Stage::Wrong),
        Stage::Reading => pick(item, Stage::Reading, part),
        Stage::ToWrite => pick(item, Stage::Writing, Stage::Wrong),
        Stage::Writing => pick(item, Stage::Writing, Stage::Wrong),
        Stage::Wrong => Stage::Wrong,
    }
}

// A word of bits with an item more, where it is known.
fn with_item(bits: u64, item: u64) -> u64
    ensures { result ≡ word_with bits (item ∷ []) }
{
    if 63 < item {
        return bits;
    }
    bits | (1 << item)
}

impl Noted {
    pub fn new() -> Self
        ensures { KeepsPiece (piece [] [] []) result }
    {
        Noted {
            name: [0; 32],
            reads: 0,
            writes: 0,
            unknown: false,
        }
    }
}

// What is known once a word has led to a stage.
pub(crate) fn note(stage: Stage, word: Word, before: Noted) -> Noted
    ensures { (s : Stage) (w : List ℕ) (p : Piece) → stage ≡ Read·onward s w → KeepsWord w word → KeepsPiece p before → KeepsPiece (noted stage w p) result }
{
    let value = word.digits.value.unwrap_or(0);
    let other = 63 < value;
    match stage {
        Stage::Nothing => before,
        Stage::Blank => before,
        Stage::Named => {
            let name = word.kept.bytes;
            Noted { name, ..before }
        }
        Stage::ToRead => before,
        Stage::Reading => Noted {
            reads: with_item(before.reads, value),
            unknown: before.unknown | other,
            ..before
        },
        Stage::ToWrite => before,
        Stage::Writing => Noted {
            writes: with_item(before.writes, value),
            unknown: before.unknown | other,
            ..before
        },
        Stage::Wrong => before,
    }
}
