// Numbers in decimal, and an answer as a line.
ghost use Rattle.std.specs.Prelude.{◌≡◌, ◌+◌, ◌<◌, ◌≤◌, length};
ghost use Rattle.numerals.specs.Print.{decimal, followed, answer_line, bad_line};
ghost use Rattle.texts.specs.Written.{Wrote};

use names::Answer;
use texts::{put, put_text};

fn glyph(digit: u64) -> u8
    requires { digit < 10 }
    ensures { result ≡ 48 + digit }
{
    48 + digit as u8
}

// Writes a number in decimal.
pub fn decimal(n: u64, out: &mut [u8], at: usize) -> usize
    requires { at + length (decimal n) ≤ length out.old }
    ensures { Wrote out.old at (decimal n) out.new result }
{
    if n < 10 {
        return put(out, at, glyph(n));
    }
    let last = decimal(n / 10, out, at);
    put(out, last, glyph(n % 10))
}

// Writes a number in decimal and a byte after it.
pub fn followed(n: u64, byte: u8, out: &mut [u8], at: usize) -> usize
    requires { at + length (followed n byte) ≤ length out.old }
    ensures { Wrote out.old at (followed n byte) out.new result }
{
    let end = decimal(n, out, at);
    put(out, end, byte)
}

// Writes the line of an answer, which takes 84 bytes at most, from an index on, and answers the
// index after it.
pub fn print(answer: Answer, out: &mut [u8], at: usize) -> usize
    requires { at + 84 ≤ length out.old }
    ensures { Wrote out.old at (answer_line answer) out.new result }
{
    let value = followed(answer.code, b' ', out, at);
    let number = followed(answer.value, b' ', out, value);
    let looked = followed(answer.number, b' ', out, number);
    followed(answer.looked, b'\n', out, looked)
}

// Writes the line of what is no call.
pub fn print_bad(out: &mut [u8], at: usize) -> usize
    requires { at + 4 ≤ length out.old }
    ensures { Wrote out.old at bad_line out.new result }
{
    put_text(out, at, b"bad\n")
}
