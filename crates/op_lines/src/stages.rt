// How far the words of a line have come: the stage that a word leads to, and what is noted of the operation.
ghost use Rattle.std.specs.Prelude.{◌≡◌, false, cond, List, [], ℕ};
ghost use Rattle.line_words.specs.Held.{KeepsWord};
ghost use Rattle.op_lines.specs.Says.{Operation, operation};
ghost use Rattle.op_lines.specs.Read.{onward as Read·onward, noted};
ghost use Rattle.op_lines.specs.Held.{KeepsOperation};

use line_words::Word;

#[derive(Clone, Copy)]
pub enum Stage {
    // No word, and one that is empty.
    Nothing,
    Blank,
    // The program's name.
    Named,
    // `reads` or `writes`.
    Doing,
    // The item.
    Touched,
    // `!`.
    Marked,
    // None of these.
    Wrong,
}

// What is known of the operation: its program's name, zeros behind it, the item, whether it writes the
// item, and whether it may roll back.
#[derive(Clone, Copy)]
pub struct Noted {
    pub name: [u8; 32],
    pub item: u64,
    pub writes: bool,
    pub marked: bool,
}

fn pick(test: bool, yes: Stage, no: Stage) -> Stage
    ensures { result ≡ cond test yes no }
{
    if test { yes } else { no }
}

// The stage that a word leads to.
pub(crate) fn onward(stage: Stage, word: Word) -> Stage
    ensures { (w : List ℕ) → KeepsWord w word → result ≡ Read·onward stage w }
{
    let empty = word.empty();
    let name = word.is_name();
    let item = word.is_item();
    let kept = word.kept;
    let reads = kept.is(b"reads");
    let writes = kept.is(b"writes");
    let mark = kept.is(b"!");
    match stage {
        Stage::Nothing => pick(empty, Stage::Blank, pick(name, Stage::Named, Stage::Wrong)),
        Stage::Blank => Stage::Wrong,
        Stage::Named => pick(reads | writes, Stage::Doing, Stage::Wrong),
        Stage::Doing => pick(item, Stage::Touched, Stage::Wrong),
        Stage::Touched => pick(mark, Stage::Marked, Stage::Wrong),
        Stage::Marked => Stage::Wrong,
        Stage::Wrong => Stage::Wrong,
    }
}

impl Noted {
    pub fn new() -> Self
        ensures { KeepsOperation (operation [] 0 false false) result }
    {
        Noted {
            name: [0; 32],
            item: 0,
            writes: false,
            marked: false,
        }
    }
}

// What is known once a word has led to a stage.
pub(crate) fn note(stage: Stage, word: Word, before: Noted) -> Noted
    ensures { (s : Stage) (w : List ℕ) (o : Operation) → stage ≡ Read·onward s w → KeepsWord w word → KeepsOperation o before → KeepsOperation (noted stage w o) result }
{
    let value = word.digits.value.unwrap_or(0);
    let names_writing = word.kept.is(b"writes");
    match stage {
        Stage::Nothing => before,
        Stage::Blank => before,
        Stage::Named => {
            let name = word.kept.bytes;
            Noted { name, ..before }
        }
        Stage::Doing => Noted {
            writes: names_writing,
            ..before
        },
        Stage::Touched => Noted {
            item: value,
            ..before
        },
        Stage::Marked => Noted {
            marked: true,
            ..before
        },
        Stage::Wrong => before,
    }
}
