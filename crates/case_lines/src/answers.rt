// The answer line of a line's numbers.
ghost use Rattle.std.specs.Prelude.{◌≡◌, true, ◌+◌, ◌*◌, ◌≤◌, length};
ghost use Rattle.texts.specs.Written.{Wrote};
ghost use Rattle.number_lines.specs.Lines.{held_by};
ghost use Rattle.cases.specs.Cases.{txns_room, locks_room, versions_room, number_bytes, longest_answer, is_case, Fits};
ghost use Rattle.case_lines.specs.Answers.{case_line, answer_to, answer_at};

use crate::outcomes::print_outcome;
use cases::{LOCKS, TXNS, VERSIONS};
use number_lines::Scan;

// Room for the words of each table. The contracts give only the lengths, which lending a part needs;
// no word is read before it is set.
fn txns_room() -> [u64; TXNS]
    ensures { txns_room ≡ length result }
{
    [0; TXNS]
}

fn locks_room() -> [u64; LOCKS]
    ensures { locks_room ≡ length result }
{
    [0; LOCKS]
}

fn versions_room() -> [u64; VERSIONS]
    ensures { versions_room ≡ length result }
{
    [0; VERSIONS]
}

// A case's answer line, from an index on.
#[tactic(auto, unfolding(crate::specs::Answers::case_line))]
fn made_line(
    numbers: &[u64],
    txns: &mut [u64],
    locks: &mut [u64],
    versions: &mut [u64],
    out: &mut [u8],
    at: usize,
) -> usize
    requires { Fits numbers.now txns.old locks.old versions.old × (at + number_bytes * length numbers.now ≤ length out.old) }
    ensures { Wrote out.old at (case_line numbers.now) out.new result }
{
    let answer = cases::made(numbers, txns, locks, versions);
    print_outcome(answer, &txns[..], &locks[..], &versions[..], out, at)
}

// A case's answer line, with the tables that it takes.
fn case_line(numbers: &[u64], out: &mut [u8], at: usize) -> usize
    requires { (is_case numbers.now ≡ true) × (at + longest_answer ≤ length out.old) }
    ensures { Wrote out.old at (case_line numbers.now) out.new result }
{
    let mut txns = txns_room();
    let mut locks = locks_room();
    let mut versions = versions_room();
    let a = numbers[4] as usize;
    let b = numbers[5] as usize;
    let c = numbers[6] as usize;
    made_line(
        numbers,
        &mut txns[..a],
        &mut locks[..b],
        &mut versions[..c],
        out,
        at,
    )
}

// The answer line of any numbers.
#[tactic(auto, unfolding(crate::specs::Answers::answer_to))]
fn answer(numbers: &[u64], out: &mut [u8], at: usize) -> usize
    requires { at + longest_answer ≤ length out.old }
    ensures { Wrote out.old at (answer_to numbers.now) out.new result }
{
    if cases::is_case(numbers) {
        case_line(numbers, out, at)
    } else {
        numerals::print_bad(out, at)
    }
}

// The answer line of what was read of a line.
pub fn respond(line: Scan, words: &[u64], out: &mut [u8], at: usize) -> usize
    requires { at + longest_answer ≤ length out.old }
    ensures { Wrote out.old at (answer_at (held_by words.now line)) out.new result }
{
    let Scan::Reads { count, .. } = line else {
        return numerals::print_bad(out, at);
    };
    if words.len() < count {
        return answer(words, out, at);
    }
    answer(&words[..count], out, at)
}
