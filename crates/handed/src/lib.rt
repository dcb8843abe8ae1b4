// A file that is in memory, handed to the judge's machine as it is asked for.
//
// No program uses this. Its proof shows that the machine's steps, taken one after another, come to
// the verdict on the file: that what each step asks of those before it can be had.
#![tactic(auto)]

ghost use Rattle.std.specs.Prelude.{◌≡◌, ◌≤◌, ◌<◌, length};
ghost use Rattle.texts.specs.Written.{Wrote};
ghost use Rattle.judge.specs.Verdicts.{verdict_on};
ghost use Rattle.verdict_lines.specs.Lines.{longest, verdict_line};
ghost use Rattle.judging.specs.Counted.{wanted, part, Counted};
ghost use Rattle.judging.specs.Handed.{left, Handed};

use journal::{RECORD, WORD};
use judging::{Counts, Judging};

// So many bytes from a place on, or fewer where the file ends before.
fn part_of(file: &[u8], at: usize, n: usize) -> &[u8]
    ensures { result.now ≡ part file.now at n }
{
    if file.len() < at {
        return &file[..0];
    }
    if file.len() - at < n {
        return &file[at..];
    }
    let end = at + n;
    &file[at..end]
}

// The counts that are asked for.
fn counts_of(file: &[u8]) -> Counts
    ensures { (wanted result ≡ 0) × Counted file.now result }
{
    let mut counts = Counts::new(file.len() as u64);
    while counts.asks() > 0 {
        let word = part_of(file, counts.at() as usize, WORD);
        counts = counts.count(word);
    }
    counts
}

// The records that are asked for next.
fn next_of(file: &[u8], judging: Judging) -> Judging
    requires { (0 < left judging) × Handed file.now judging }
    ensures { (left result < left judging) × Handed file.now result }
{
    let first = journal::word(file, 0) as usize;
    let passed = first - judging.asks() as usize;
    let bytes = judging.bytes();
    let calls = WORD + RECORD * passed;
    let answers = 2 * WORD + RECORD * first + RECORD * passed;
    judging.records(part_of(file, calls, bytes), part_of(file, answers, bytes))
}

// All of them.
fn records_of(file: &[u8], counts: Counts) -> Judging
    requires { (wanted counts ≡ 0) × Counted file.now counts }
    ensures { (left result ≡ 0) × Handed file.now result }
{
    let mut judging = Judging::new(counts);
    while judging.asks() > 0 {
        judging = next_of(file, judging);
    }
    judging
}

// The line that is said of a file: that of the verdict on it.
pub fn line_of(file: &[u8], out: &mut [u8]) -> usize
    requires { longest ≤ length out.old }
    ensures { Wrote out.old 0 (verdict_line (verdict_on file.now)) out.new result }
{
    let counts = counts_of(file);
    let judging = records_of(file, counts);
    judging.line(out)
}
