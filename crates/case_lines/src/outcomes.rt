// An answer and the tables after it, as a line.
ghost use Rattle.std.specs.Prelude.{◌≡◌, ◌+◌, ◌*◌, ◌<◌, ◌≤◌, length};
ghost use Rattle.rules.specs.Answers.{outcome};
ghost use Rattle.texts.specs.Written.{Wrote};
ghost use Rattle.cases.specs.Cases.{head_numbers, number_bytes};
ghost use Rattle.case_lines.specs.Answers.{tables_line, outcome_line};

use names::Answer;
use number_lines::print_words;

// Writes the words of the three tables and the end of the line.
fn print_tables(txns: &[u64], locks: &[u64], versions: &[u64], out: &mut [u8], at: usize) -> usize
    requires { at + number_bytes * (length txns.now + length locks.now + length versions.now) < length out.old }
    ensures { Wrote out.old at (tables_line txns.now locks.now versions.now) out.new result }
{
    let c = print_words(txns, out, at);
    let d = print_words(locks, out, c);
    let e = print_words(versions, out, d);
    texts::put(out, e, b'\n')
}

// Writes the line of an answer and of the tables that the call left.
pub(crate) fn print_outcome(
    answer: Answer,
    txns: &[u64],
    locks: &[u64],
    versions: &[u64],
    out: &mut [u8],
    at: usize,
) -> usize
    requires { at + number_bytes * (head_numbers + length txns.now + length locks.now + length versions.now) ≤ length out.old }
    ensures { Wrote out.old at (outcome_line (outcome answer txns.now locks.now versions.now)) out.new result }
{
    let head = [
        answer.value,
        answer.number,
        answer.looked,
        txns.len() as u64,
        locks.len() as u64,
        versions.len() as u64,
    ];
    let a = numerals::decimal(answer.code, out, at);
    let b = print_words(&head, out, a);
    print_tables(txns, locks, versions, out, b)
}
