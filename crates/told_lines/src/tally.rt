// Lines counted, the first bad one, and the line that says which it is.
ghost use Rattle.std.specs.Prelude.{◌≡◌, ℕ, suc, ◌≤◌, length, Some};
ghost use Rattle.std.specs.Option.{unwrap_or};
ghost use Rattle.texts.specs.Written.{Wrote};
ghost use Rattle.told_lines.specs.Lines.{capped, bad_text, longest_bad};

use texts::put_text;

const GREATEST: u64 = 18446744073709551615;

// One line more, up to the greatest number.
pub fn next(lines: u64) -> u64
    ensures { (n : ℕ) → lines ≡ capped n → result ≡ capped (suc n) }
{
    if lines < GREATEST {
        return lines + 1;
    }
    lines
}

// The first bad line, where this one is bad too and behind the others.
pub fn first(bad: Option<u64>, line: u64) -> Option<u64>
    ensures { result ≡ Some (unwrap_or bad line) }
{
    bad.or(Some(line))
}

// The line that says which is the first bad one.
pub fn say_bad(line: u64, out: &mut [u8]) -> usize
    requires { longest_bad ≤ length out.old }
    ensures { Wrote out.old 0 (bad_text line) out.new result }
{
    let from = put_text(out, 0, b"bad line ");
    let end = numerals::decimal(line, out, from);
    texts::put(out, end, b'\n')
}
