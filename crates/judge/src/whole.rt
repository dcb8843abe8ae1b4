// A whole file at once.
ghost use Rattle.std.specs.Prelude.{◌≡◌, ◌+◌, ◌*◌, ◌≤◌, length, drop};
ghost use Rattle.journal.specs.Words.{word_size};
ghost use Rattle.journal.specs.Format.{record_size};
ghost use Rattle.judge.specs.Verdicts.{verdict_on};
ghost use Rattle.judge.specs.Pieces.{start, seen_all};

use crate::pieces::all;
use crate::points::{calls_stand, spoken};
use crate::{Judge, Verdict};
use journal::{RECORD, WORD};
use names::{LOCK_WORDS, TXN_WORDS, VERSION_WORDS};

// The first wrong one of so many calls, replayed from fresh tables; 0 for none.
fn replayed(file: &[u8], count: usize) -> u64
    requires { 2 * word_size + record_size * count + record_size * count ≤ length file.now }
    ensures { result ≡ (seen_all count (drop word_size file.now) (drop (2 * word_size + record_size * count) file.now) start).wrong }
{
    let mut txns = [0u64; TXN_WORDS];
    let mut locks = [0u64; LOCK_WORDS];
    let mut versions = [0u64; VERSION_WORDS];
    fresh::fresh(&mut txns, &mut locks, &mut versions);
    let answers = 2 * WORD + RECORD * count;
    let seen = all(
        Judge::new(),
        file,
        WORD,
        file,
        answers,
        count,
        &mut txns,
        &mut locks,
        &mut versions,
    );
    seen.wrong
}

// The first wrong call of a file whose calls and second count stand, if the counts are equal and no
// byte is missing or left over; else nobody asks.
fn first_wrong(file: &[u8], n: usize, m: u64) -> u64
    requires { 2 * word_size + record_size * n ≤ length file.now }
    ensures { n ≡ m → 2 * word_size + record_size * n + record_size * n ≡ length file.now → result ≡ (seen_all n (drop word_size file.now) (drop (2 * word_size + record_size * n) file.now) start).wrong }
{
    let rest = file.len() - 2 * WORD - RECORD * n;
    if n as u64 != m {
        return 0;
    }
    if rest != RECORD * n {
        return 0;
    }
    replayed(file, n)
}

// The verdict on a file.
pub fn verdict_on(file: &[u8]) -> Verdict
    ensures { result ≡ verdict_on file.now }
{
    let size = file.len() as u64;
    let n = journal::word(file, 0);
    if !calls_stand(size, n) {
        return Verdict::Short;
    }
    let count = n as usize;
    let m = journal::word(file, WORD + RECORD * count);
    let wrong = first_wrong(file, count, m);
    spoken(size, n, m, wrong)
}
