// Words as bytes, the lowest first.
ghost use Rattle.std.specs.Prelude.{◌≡◌, ◌+◌, ◌<◌, leb, length, drop};
ghost use Rattle.journal.specs.Words.{word_size, word_bytes, word_at};
ghost use Rattle.texts.specs.Written.{buffer, put};

use super::WORD;

// Bytes that are too few for a word, filled up with 0.
fn filled_up(bytes: &[u8]) -> [u8; WORD]
    requires { length bytes.now < word_size }
    ensures { word_at 0 result ≡ word_at 0 bytes.now }
{
    let mut word = [0; WORD];
    word[..bytes.len()].copy_from_slice(bytes);
    word
}

// What stands from a place on.
#[tactic(auto, using(crate::proofs::Lists::take_rest))]
pub(crate) fn from(bytes: &[u8], at: usize) -> &[u8]
    ensures { result.now ≡ drop at bytes.now }
{
    if at < bytes.len() {
        &bytes[at..]
    } else {
        &bytes[..0]
    }
}

// The word at a place; a byte that is missing counts as 0.
pub fn word(bytes: &[u8], at: usize) -> u64
    ensures { result ≡ word_at at bytes.now }
{
    let rest = from(bytes, at);
    let word = match rest.first_chunk() {
        Some(word) => *word,
        None => filled_up(rest),
    };
    u64::from_le_bytes(word)
}

// Whether so many bytes have room from a place on.
pub(crate) fn room(size: usize, at: usize, need: usize) -> bool
    ensures { result ≡ leb (at + need) size }
{
    if size < at {
        return false;
    }
    need <= size - at
}

// Puts a word into a buffer at a place, and answers the next place; where there is no room, nothing
// is written and the place is answered.
pub fn put_word(out: &mut [u8], at: usize, w: u64) -> usize
    ensures { buffer out.new result ≡ put (word_bytes w) (buffer out.old at) }
{
    if !room(out.len(), at, WORD) {
        return at;
    }
    let end = at + WORD;
    out[at..end].copy_from_slice(&w.to_le_bytes());
    end
}
