// The line that says what was found of a chopping.
#![tactic(auto)]

ghost use Rattle.std.specs.Prelude.{◌≡◌, map, ℕ, suc, ◌<◌, ◌≤◌, length, take, get_or};
ghost use Rattle.texts.specs.Written.{Wrote};
ghost use Rattle.finding_lines.specs.Lines.{longest_line, refused_line, line_for, Shown};

use chop::{Finding, Judged};
use texts::{put, put_text};

// Room for the longest line.
pub const LONGEST: usize = 680;

// Writes the line of what was found, and answers the index after it.
pub fn print(judged: Judged, out: &mut [u8]) -> usize
    requires shown { Shown judged }
    requires longest_line_in_bounds { longest_line ≤ length out.old }
    ensures { Wrote out.old 0 (line_for judged.finding (take judged.length judged.circle)) out.new result }
{
    let finding = judged.finding;
    let n = judged.length;
    let circle = judged.circle;
    match finding {
        Finding::TooManyPieces => put_text(out, 0, b"too many pieces\n"),
        Finding::UnknownItem => put_text(out, 0, b"unknown item\n"),
        Finding::Malformed => put_text(out, 0, b"malformed\n"),
        Finding::Refused => refused(&circle[..n], out),
        Finding::Accepted => put_text(out, 0, b"accepted\n"),
    }
}

fn refused(circle: &[u64], out: &mut [u8]) -> usize
    requires circle_len_bound { (length circle.now ≤ 32) × ((k : ℕ) → k < length circle.now → get_or circle.now k 0 < 32) }
    requires longest_line_in_bounds { longest_line ≤ length out.old }
    ensures { Wrote out.old 0 (refused_line circle.now) out.new result }
{
    let n = circle.len();
    let places = from_one(circle);
    let from = put_text(out, 0, b"refused");
    let end = number_lines::print_words(&places[..n], out, from);
    put(out, end, b'\n')
}

// The places counted from 1.
fn from_one(circle: &[u64]) -> [u64; 32]
    requires { (length circle.now ≤ 32) × ((k : ℕ) → k < length circle.now → get_or circle.now k 0 < 32) }
    ensures { take (length circle.now) result ≡ map suc circle.now }
{
    let mut places = [0u64; 32];
    for k in 0..circle.len() {
        places[k] = circle[k] + 1;
    }
    places
}
