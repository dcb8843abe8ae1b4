// Calls and answers as bytes: four words each.
ghost use Rattle.std.specs.Prelude.{◌≡◌, [], ◌∷◌, ◌+◌, ◌*◌, ◌++◌};
ghost use Rattle.journal.specs.Words.{word_size, word_bytes, word_at};
ghost use Rattle.journal.specs.Format.{call_bytes, answer_bytes, call_at, answer_at};
ghost use Rattle.texts.specs.Written.{buffer, put};

use super::words::{from, put_word, room, word};
use super::{RECORD, WORD};
use call_words::Fields;
use names::Answer;

// Where the words of a record stand behind its first.
const SECOND: usize = WORD;

const THIRD: usize = 2 * WORD;

const FOURTH: usize = 3 * WORD;

// The four words at a place; a byte that is missing counts as 0.
fn four(bytes: &[u8], at: usize) -> [u64; 4]
    ensures { result ≡ word_at at bytes.now ∷ word_at (at + word_size) bytes.now ∷ word_at (at + 2 * word_size) bytes.now ∷ word_at (at + 3 * word_size) bytes.now ∷ [] }
{
    let rest = from(bytes, at);
    [
        word(rest, 0),
        word(rest, SECOND),
        word(rest, THIRD),
        word(rest, FOURTH),
    ]
}

// The call at a place; a byte that is missing counts as 0.
#[tactic(auto, unfolding(crate::specs::Format::call_at))]
pub fn call(bytes: &[u8], at: usize) -> Fields
    ensures { result ≡ call_at at bytes.now }
{
    let [kind, number, item, value] = four(bytes, at);
    Fields {
        kind,
        number,
        item,
        value,
    }
}

// The answer at a place; a byte that is missing counts as 0.
#[tactic(auto, unfolding(crate::specs::Format::answer_at))]
pub fn answer(bytes: &[u8], at: usize) -> Answer
    ensures { result ≡ answer_at at bytes.now }
{
    let [code, value, number, looked] = four(bytes, at);
    Answer {
        code,
        value,
        number,
        looked,
    }
}

// Puts four words into a buffer at a place: all of them, or none.
fn put_four(out: &mut [u8], at: usize, a: u64, b: u64, c: u64, d: u64) -> usize
    ensures { buffer out.new result
        ≡ put (word_bytes a ++ (word_bytes b ++ (word_bytes c ++ word_bytes d))) (buffer out.old at) }
{
    if !room(out.len(), at, RECORD) {
        return at;
    }
    let second = put_word(out, at, a);
    let third = put_word(out, second, b);
    let fourth = put_word(out, third, c);
    put_word(out, fourth, d)
}

// Puts a call into a buffer at a place, and answers the next place; where there is no room, nothing
// is written and the place is answered.
#[tactic(auto, unfolding(crate::specs::Format::call_bytes))]
pub fn put_call(out: &mut [u8], at: usize, fields: Fields) -> usize
    ensures { buffer out.new result ≡ put (call_bytes fields) (buffer out.old at) }
{
    put_four(
        out,
        at,
        fields.kind,
        fields.number,
        fields.item,
        fields.value,
    )
}

// Puts an answer into a buffer at a place, and answers the next place; where there is no room,
// nothing is written and the place is answered.
#[tactic(auto, unfolding(crate::specs::Format::answer_bytes))]
pub fn put_answer(out: &mut [u8], at: usize, answer: Answer) -> usize
    ensures { buffer out.new result ≡ put (answer_bytes answer) (buffer out.old at) }
{
    put_four(
        out,
        at,
        answer.code,
        answer.value,
        answer.number,
        answer.looked,
    )
}
