// The line of a verdict.
#![tactic(auto)]

ghost use Rattle.std.specs.Prelude.{◌+◌, ◌≤◌, [], ◌∷◌, length};
ghost use Rattle.texts.specs.Written.{Wrote};
ghost use Rattle.verdict_lines.specs.Lines.{longest, accepted_line, point_line, wrong_line, verdict_line};

use judge::Verdict;
use texts::put;

// The longest line.
pub const LONGEST: usize = 23;

fn three(a: u8, b: u8, c: u8, out: &mut [u8], at: usize) -> usize
    requires { at + 3 ≤ length out.old }
    ensures { Wrote out.old at (a ∷ b ∷ c ∷ []) out.new result }
{
    let second = put(out, at, a);
    let third = put(out, second, b);
    put(out, third, c)
}

fn accepted(out: &mut [u8], at: usize) -> usize
    requires { at + 9 ≤ length out.old }
    ensures { Wrote out.old at accepted_line out.new result }
{
    let second = three(b'a', b'c', b'c', out, at);
    let third = three(b'e', b'p', b't', out, second);
    three(b'e', b'd', b'\n', out, third)
}

fn point(digit: u8, out: &mut [u8], at: usize) -> usize
    requires { at + 2 ≤ length out.old }
    ensures { Wrote out.old at (point_line digit) out.new result }
{
    let end = put(out, at, digit);
    put(out, end, b'\n')
}

fn wrong(call: u64, out: &mut [u8], at: usize) -> usize
    requires { at + longest ≤ length out.old }
    ensures { Wrote out.old at (wrong_line call) out.new result }
{
    let space = put(out, at, b'4');
    let number = put(out, space, b' ');
    let end = numerals::decimal(call, out, number);
    put(out, end, b'\n')
}

// Writes the line of a verdict from an index on, and answers the index after it.
pub fn print(verdict: Verdict, out: &mut [u8], at: usize) -> usize
    requires { at + longest ≤ length out.old }
    ensures { Wrote out.old at (verdict_line verdict) out.new result }
{
    match verdict {
        Verdict::Accepted => accepted(out, at),
        Verdict::Short => point(b'1', out, at),
        Verdict::Unequal => point(b'2', out, at),
        Verdict::LeftOver => point(b'3', out, at),
        Verdict::Wrong(call) => wrong(call, out, at),
    }
}
