// The calls and the answers of a file, in step, and what is said of it.
ghost use Rattle.std.specs.Prelude.{◌≡◌, List, ℕ, ◌-◌, ◌≤◌, length};
ghost use Rattle.texts.specs.Written.{Wrote};
ghost use Rattle.judge.specs.Verdicts.{verdict_on};
ghost use Rattle.verdict_lines.specs.Lines.{longest, verdict_line};
ghost use Rattle.judging.specs.Counted.{wanted, part, Counted};
ghost use Rattle.judging.specs.Handed.{left, records_next, bytes_next, calls_at, answers_at, Handed};

use crate::counted::Counts;
use journal::RECORD;
use judge::Judge;
use names::{LOCK_WORDS, TXN_WORDS, VERSION_WORDS};

// How many records of each kind are still asked for, and what the judge keeps.
#[derive(Clone, Copy)]
pub struct Judging {
    counts: Counts,
    left: u64,
    judge: Judge,
    txns: [u64; TXN_WORDS],
    locks: [u64; LOCK_WORDS],
    versions: [u64; VERSION_WORDS],
}

impl Judging {
    // Of a file with these counts, from fresh tables.
    pub fn new(counts: Counts) -> Self
        requires { wanted counts ≡ 0 }
        ensures { (file : List ℕ) → Counted file counts → Handed file result }
    {
        let mut txns = [0u64; TXN_WORDS];
        let mut locks = [0u64; LOCK_WORDS];
        let mut versions = [0u64; VERSION_WORDS];
        fresh::fresh(&mut txns, &mut locks, &mut versions);
        let left = counts.records();
        let judge = Judge::new();
        Judging {
            counts,
            left,
            judge,
            txns,
            locks,
            versions,
        }
    }

    // How many records of each kind are still asked for.
    pub fn asks(self) -> u64
        ensures { result ≡ left self }
    {
        self.left
    }

    // How many bytes of calls, and of answers, are asked for next.
    pub fn bytes(self) -> usize
        ensures { result ≡ bytes_next self }
    {
        journal::next_piece(self.left) as usize * RECORD
    }

    // The calls and the answers that were asked for, as they stand in the file.
    pub fn records(self, calls: &[u8], answers: &[u8]) -> Self
        requires { (length calls.now ≡ bytes_next self) × (length answers.now ≡ bytes_next self) }
        ensures result_value { left result ≡ left self - records_next self }
        ensures by_index { (file : List ℕ) → Handed file self → calls.now ≡ part file (calls_at self) (bytes_next self) → answers.now ≡ part file (answers_at self) (bytes_next self) → Handed file result }
    {
        let counts = self.counts;
        let left = self.left;
        let mut txns = self.txns;
        let mut locks = self.locks;
        let mut versions = self.versions;
        let judge = judge::piece(
            self.judge,
            calls,
            answers,
            &mut txns,
            &mut locks,
            &mut versions,
        );
        let rest = left - journal::next_piece(left);
        Judging {
            counts,
            left: rest,
            judge,
            txns,
            locks,
            versions,
        }
    }

    // The line that is said of the file, once no record is asked for any more; how long it is.
    pub fn line(self, out: &mut [u8]) -> usize
        requires self_value { left self ≡ 0 }
        requires longest_in_bounds { longest ≤ length out.old }
        ensures upper_bound { result ≤ length out.old }
        ensures by_index { (file : List ℕ) → Handed file self → Wrote out.old 0 (verdict_line (verdict_on file)) out.new result }
    {
        let counts = self.counts;
        let judge = self.judge;
        verdict_lines::print(counts.say(judge.wrong), out, 0)
    }
}
