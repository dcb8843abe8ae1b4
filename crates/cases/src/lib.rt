// A line's numbers as a case: a call and the words of three tables, of any content; and the call,
// made on these tables.
#![tactic(auto)]

ghost use Rattle.std.specs.Prelude.{◌≡◌, length};
ghost use Rattle.names.specs.Sizes.{base};
ghost use Rattle.rules.specs.Answers.{outcome};
ghost use Rattle.rules.specs.Step.{step};
ghost use Rattle.cases.specs.Cases.{call_of, tables_of, is_case, Fits};

use call_words::Fields;
use names::Answer;

// The numbers before the words: kind, number, item and value of the call, and three lengths.
pub const HEAD: usize = 7;

// The longest tables that a case may give: eight words over the right sizes.
const OVER: usize = 8;

pub const TXNS: usize = names::TXN_WORDS + OVER;

pub const LOCKS: usize = names::LOCK_WORDS + OVER;

pub const VERSIONS: usize = names::VERSION_WORDS + OVER;

// Whether the numbers are a case: a kind, and as many words as the lengths say.
pub fn is_case(numbers: &[u64]) -> bool
    ensures { result ≡ is_case numbers.now }
{
    if numbers.len() < HEAD {
        return false;
    }
    let kind = numbers[0];
    let txns = numbers[4];
    let locks = numbers[5];
    let versions = numbers[6];
    if (TXNS as u64) < txns {
        return false;
    }
    if (LOCKS as u64) < locks {
        return false;
    }
    if (VERSIONS as u64) < versions {
        return false;
    }
    call_words::known_kind(kind) & (HEAD as u64 + txns + locks + versions == numbers.len() as u64)
}

// The tables filled with the words of a case, and its call made on them.
pub fn made(numbers: &[u64], txns: &mut [u64], locks: &mut [u64], versions: &mut [u64]) -> Answer
    requires { Fits numbers.now txns.old locks.old versions.old }
    ensures { outcome result txns.new locks.new versions.new ≡ step base (call_of numbers.now) (tables_of numbers.now) }
{
    let b = HEAD + txns.len();
    let c = b + locks.len();
    txns.copy_from_slice(&numbers[HEAD..b]);
    locks.copy_from_slice(&numbers[b..c]);
    versions.copy_from_slice(&numbers[c..]);
    let call = call_words::call_in(Fields {
        kind: numbers[0],
        number: numbers[1],
        item: numbers[2],
        value: numbers[3],
    });
    keeper::call(call, txns, locks, versions)
}
