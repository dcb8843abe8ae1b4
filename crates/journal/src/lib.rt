// Journals: a run on file, its calls and then their answers, each section after its count.
//
// Words are written and read byte by byte, the lowest byte first. No public function has a
// `requires`. A byte that is missing counts as 0, so who reads asks first whether the section is
// whole. Where a buffer has no room nothing is written.
#![tactic(auto)]

mod records;
mod words;

ghost use Rattle.std.specs.Prelude.{◌≡◌};
ghost use Rattle.journal.specs.Format.{next_piece};

pub use records::{answer, call, put_answer, put_call};
pub use words::{put_word, word};

// The bytes of a word, and of a call or an answer.
pub const WORD: usize = 8;

pub const RECORD: usize = 4 * WORD;

// The records that are read at a time, at most: as many as a buffer of 65,536 bytes holds.
const PIECE: u64 = 2048;

// How many records are read next, where so many are left.
pub fn next_piece(left: u64) -> u64
    ensures { result ≡ next_piece left }
{
    left.min(PIECE)
}
