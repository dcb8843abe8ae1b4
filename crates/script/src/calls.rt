// A line as a call: its word, then as many numbers as the call has.
ghost use Rattle.std.specs.Prelude.{◌≡◌, ℕ, drop};
ghost use Rattle.rules.specs.Answers.{Call as Answers·Call};
ghost use Rattle.lines.specs.Lines.{held_by};
ghost use Rattle.script.specs.Parse.{bare_of, one_of, two_of, three_of, spoken, parsed};
ghost use Rattle.script.specs.Inputs.{read_as};

use crate::words::starts_with;
use lines::{LONGEST, Lines};
use names::Call;
use numerals::number;

// The call that the line is, if it is one. A line over 80 bytes is none, whatever it says.
#[tactic(auto, unfolding(crate::specs::Parse::parsed))]
pub fn parse(line: &[u8]) -> Option<Call>
    ensures { result ≡ parsed line.now }
{
    if line.len() <= LONGEST {
        spoken(line)
    } else {
        None
    }
}

// What a line is read as, once it is ended.
pub fn read_as(line: Lines) -> Option<Call>
    ensures { result ≡ read_as (held_by line) }
{
    let count = line.count;
    let bytes = line.bytes;
    if count <= LONGEST {
        parse(&bytes[..count])
    } else {
        None
    }
}

#[tactic(auto, unfolding(crate::specs::Parse::spoken, crate::specs::Parse::first_of))]
fn spoken(line: &[u8]) -> Option<Call>
    ensures { result ≡ spoken line.now }
{
    if starts_with(line, b"update") {
        return bare(line, 6, Call::BeginUpdate);
    }
    if starts_with(line, b"query") {
        return bare(line, 5, Call::BeginQuery);
    }
    if starts_with(line, b"read") {
        return two(line, 4, |number, item| Call::Read { number, item });
    }
    if starts_with(line, b"write") {
        return three(
            line,
            5,
            |number, item, value| Call::Write {
                number,
                item,
                value,
            },
        );
    }
    if starts_with(line, b"commit") {
        return one(line, 6, |number| Call::Commit { number });
    }
    if starts_with(line, b"abort") {
        return one(line, 5, |number| Call::Abort { number });
    }
    if starts_with(line, b"settle") {
        return one(line, 6, |number| Call::Settle { number });
    }
    if starts_with(line, b"relaxed") {
        return bare(line, 7, Call::BeginRelaxed);
    }
    None
}

// The call, where nothing stands from an index on.
#[tactic(auto, using(texts::proofs::Places::ended, texts::proofs::Places::opened), unfolding(crate::specs::Parse::bare_of))]
fn bare(line: &[u8], at: usize, call: Call) -> Option<Call>
    ensures { result ≡ bare_of call (drop at line.now) }
{
    if line.len() <= at { Some(call) } else { None }
}

// The call of one number, of two, of three, where they stand from an index on and nothing more.
#[tactic(auto, unfolding(crate::specs::Parse::one_of))]
fn one<F: FnOnce(u64) -> Call>(line: &[u8], at: usize, call: F) -> Option<Call>
    requires { F.IsAlwaysCallable call }
    ensures { (c : ℕ → Answers·Call) → ((n : ℕ) (m : Answers·Call) → F.post call n m → m ≡ c n) → result ≡ one_of c (drop at line.now) }
{
    let (n, end) = number(line, at)?;
    bare(line, end, call(n))
}

#[tactic(auto, unfolding(crate::specs::Parse::two_of))]
fn two<F: FnOnce(u64, u64) -> Call>(line: &[u8], at: usize, call: F) -> Option<Call>
    requires { F.IsAlwaysCallable call }
    ensures { (c : ℕ → ℕ → Answers·Call) → ((n x : ℕ) (m : Answers·Call) → F.post call n x m → m ≡ c n x) → result ≡ two_of c (drop at line.now) }
{
    let (n, rest) = number(line, at)?;
    one(line, rest, |item| call(n, item))
}

#[tactic(auto, unfolding(crate::specs::Parse::three_of))]
fn three<F: FnOnce(u64, u64, u64) -> Call>(line: &[u8], at: usize, call: F) -> Option<Call>
    requires { F.IsAlwaysCallable call }
    ensures { (c : ℕ → ℕ → ℕ → Answers·Call) → ((n x v : ℕ) (m : Answers·Call) → F.post call n x v m → m ≡ c n x v) → result ≡ three_of c (drop at line.now) }
{
    let (n, rest) = number(line, at)?;
    two(line, rest, |item, value| call(n, item, value))
}
