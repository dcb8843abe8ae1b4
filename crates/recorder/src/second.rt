// The second pass: the answers to the calls.
ghost use Rattle.std.specs.Prelude.{◌≡◌, List, [], ◌++◌, ℕ, ◌-◌, ◌≤◌, length, take};
ghost use Rattle.numerals.specs.Print.{followed};
ghost use Rattle.texts.specs.Written.{Wrote};
ghost use Rattle.journal.specs.Words.{word_bytes, greatest};
ghost use Rattle.journal.specs.Format.{call_records};
ghost use Rattle.recorder.specs.First.{input_calls, count_of};
ghost use Rattle.recorder.specs.Second.{run_journal, longest, left, records_next, bytes_next, Answered};

use journal::RECORD;
use names::{LOCK_WORDS, TXN_WORDS, VERSION_WORDS};

// A word's bytes.
fn word(w: u64) -> [u8; 8]
    ensures { result ≡ word_bytes w }
{
    w.to_le_bytes()
}

// What stands for the first count until all is written: the greatest word, so that an unfinished
// journal is judged short.
pub fn unfinished() -> [u8; 8]
    ensures { result ≡ word_bytes greatest }
{
    word(u64::MAX)
}

// The line of a count.
fn count_line(count: u64, out: &mut [u8]) -> usize
    requires { longest ≤ length out.old }
    ensures upper_bound { result ≤ length out.old }
    ensures wrote { Wrote out.old 0 (followed count 10) out.new result }
{
    let end = numerals::decimal(count, out, 0);
    texts::put(out, end, b'\n')
}

// How many calls there are, how many of them are still asked for, and the tables.
#[derive(Clone, Copy)]
pub struct Answering {
    count: u64,
    left: u64,
    txns: [u64; TXN_WORDS],
    locks: [u64; LOCK_WORDS],
    versions: [u64; VERSION_WORDS],
}

impl Answering {
    // From fresh tables, with so many calls.
    pub(crate) fn new(count: u64) -> Self
        ensures { (input : List ℕ) → count ≡ count_of input → Answered input [] [] result }
    {
        let mut txns = [0u64; TXN_WORDS];
        let mut locks = [0u64; LOCK_WORDS];
        let mut versions = [0u64; VERSION_WORDS];
        fresh::fresh(&mut txns, &mut locks, &mut versions);
        Answering {
            count,
            left: count,
            txns,
            locks,
            versions,
        }
    }

    // How many calls are still asked for.
    pub fn asks(self) -> u64
        ensures { result ≡ left self }
    {
        self.left
    }

    // How many bytes of calls are asked for next.
    pub fn bytes(self) -> usize
        ensures { result ≡ bytes_next self }
    {
        journal::next_piece(self.left) as usize * RECORD
    }

    // The calls that were asked for: the records of their answers, as many bytes.
    pub fn answer(self, piece: &[u8], out: &mut [u8]) -> Self
        requires piece_len { length piece.now ≡ bytes_next self }
        requires piece_in_bounds { length piece.now ≤ length out.old }
        ensures result_value { left result ≡ left self - records_next self }
        ensures by_index { (input calls put : List ℕ) → Answered input calls put self → Answered input (calls ++ piece.now) (put ++ take (length piece.now) out.new) result }
    {
        let count = self.count;
        let left = self.left;
        let mut txns = self.txns;
        let mut locks = self.locks;
        let mut versions = self.versions;
        recording::answer_piece(piece, &mut txns, &mut locks, &mut versions, out);
        let rest = left - journal::next_piece(left);
        Answering {
            count,
            left: rest,
            txns,
            locks,
            versions,
        }
    }

    // The second count, which stands before the answers.
    pub fn second(self) -> [u8; 8]
        ensures { (input calls put : List ℕ) → Answered input calls put self → result ≡ word_bytes (count_of input) }
    {
        word(self.count)
    }

    // The first count, once every call is answered. Where what was handed over is, as far as it goes,
    // what was put out in the first pass, it is all of it, and with the answers the journal of the run.
    pub fn first(self) -> [u8; 8]
        requires { left self ≡ 0 }
        ensures { (input calls put : List ℕ) → Answered input calls put self → calls ≡ take (length calls) (call_records (input_calls input)) → length (input_calls input) ≤ greatest → result ++ (calls ++ (word_bytes (count_of input) ++ put)) ≡ run_journal input }
    {
        self.second()
    }

    // The line of the count; how long it is.
    pub fn line(self, out: &mut [u8]) -> usize
        requires { longest ≤ length out.old }
        ensures upper_bound { result ≤ length out.old }
        ensures by_index { (input calls put : List ℕ) → Answered input calls put self → Wrote out.old 0 (followed (count_of input) 10) out.new result }
    {
        count_line(self.count, out)
    }
}
