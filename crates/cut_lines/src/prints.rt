// The line of a piece, and the lines of all.
ghost use Rattle.std.specs.Prelude.{◌≡◌, cond, [], ◌∷◌, ◌+◌, ◌*◌, ◌/◌, ◌<◌, ◌≤◌, length};
ghost use Rattle.rules.specs.Words.{bit};
ghost use Rattle.texts.specs.Written.{Wrote};
ghost use Rattle.numerals.specs.Print.{spaced};
ghost use Rattle.finest.specs.Choppings.{passing, piece_by, leads as leadsIn};
ghost use Rattle.finest.specs.Rows.{operations_in};
ghost use Rattle.cut_lines.specs.Text.{items_in, part_text, items_text, places_of, places_text, line_at, cut_text};
ghost use Rattle.cut_lines.specs.Given.{Given, name_in, raised, longest_piece, longest_text};

use crate::sets::{items_of, leads, members_of};
use texts::put_text;
use told_lines::{Names, WIDE, put_name};

// Writes a space and a number of at most two digits, if `yes`.
fn put_number(yes: bool, number: u64, out: &mut [u8], at: usize) -> usize
    requires { (number < 100) × (at + 3 ≤ length out.old) }
    ensures wrote { Wrote out.old at (cond yes (spaced (number ∷ [])) []) out.new result }
    ensures upper_bound { result ≤ at + 3 }
{
    if !yes {
        return at;
    }
    let from = texts::put(out, at, b' ');
    numerals::decimal(number, out, from)
}

// Writes the numbers of a set below `count`, a space before each, with `more` added to it.
fn put_set(set: u64, count: usize, more: u64, out: &mut [u8], at: usize) -> usize
    requires { (count ≤ 64) × (more ≤ 1) × (at + 3 * count ≤ length out.old) }
    ensures wrote { Wrote out.old at (spaced (raised more (passing (bit set) 0 count))) out.new result }
    ensures upper_bound { result ≤ at + 3 * count }
{
    let mut end = at;
    for x in 0..count {
        let yes = (set >> x) % 2 == 1;
        end = put_number(yes, more + x as u64, out, end);
    }
    end
}

// Writes a part: its word and its items, or nothing where there are none.
fn put_part(word: &[u8], set: u64, out: &mut [u8], at: usize) -> usize
    requires { at + (1 + length word.now + 192) ≤ length out.old }
    ensures wrote { Wrote out.old at (part_text word.now (items_in set)) out.new result }
    ensures upper_bound { result ≤ at + (1 + length word.now + 192) }
{
    if set == 0 {
        return at;
    }
    let from = texts::put(out, at, b' ');
    let end = put_text(out, from, word);
    put_set(set, 64, 0, out, end)
}

// Writes the items that the piece of operation i reads, then those that it writes.
fn put_items(words: &[u64], cut: &[u64], i: usize, out: &mut [u8], at: usize) -> usize
    requires { Given words.now cut.now × (i < length words.now / 4) × (at + 397 ≤ length out.old) }
    ensures wrote { Wrote out.old at (items_text (piece_by (operations_in words.now) cut.now i)) out.new result }
    ensures upper_bound { result ≤ at + 397 }
{
    let reads = items_of(words, cut, i, false);
    let writes = items_of(words, cut, i, true);
    let end = put_part(b"reads", reads, out, at);
    put_part(b"writes", writes, out, end)
}

// Writes its operations by their places, and the line's end.
fn put_places(words: &[u64], cut: &[u64], i: usize, out: &mut [u8], at: usize) -> usize
    requires { Given words.now cut.now × (i < length words.now / 4) × (at + 99 ≤ length out.old) }
    ensures wrote { Wrote out.old at (places_text (places_of (operations_in words.now) cut.now i)) out.new result }
    ensures upper_bound { result ≤ at + 99 }
{
    let count = words.len() / 4;
    let members = members_of(words, cut, i);
    let from = put_text(out, at, b" #");
    let end = put_set(members, count, 1, out, from);
    texts::put(out, end, b'\n')
}

// Writes the line of the piece of operation i.
fn put_piece(
    names: &Names,
    words: &[u64],
    cut: &[u64],
    i: usize,
    out: &mut [u8],
    at: usize,
) -> usize
    requires { Given words.now cut.now × (i < length words.now / 4) × (at + longest_piece ≤ length out.old) }
    ensures wrote { Wrote out.old at (line_at (name_in names.now) (operations_in words.now) cut.now i) out.new result }
    ensures upper_bound { result ≤ at + longest_piece }
{
    let first = i * WIDE;
    let last = first + WIDE;
    let named = put_name(&names[first..last], out, at);
    let end = put_items(words, cut, i, out, named);
    put_places(words, cut, i, out, end)
}

// Writes it where operation i is the first of its piece.
fn put_first(
    names: &Names,
    words: &[u64],
    cut: &[u64],
    i: usize,
    out: &mut [u8],
    at: usize,
) -> usize
    requires { Given words.now cut.now × (i < length words.now / 4) × (at + longest_piece ≤ length out.old) }
    ensures wrote { Wrote out.old at (cond (leadsIn (operations_in words.now) cut.now i) (line_at (name_in names.now) (operations_in words.now) cut.now i) []) out.new result }
    ensures upper_bound { result ≤ at + longest_piece }
{
    if !leads(words, cut, i) {
        return at;
    }
    put_piece(names, words, cut, i, out, at)
}

// Writes the lines of all pieces, in the order of their first operations.
pub fn print_cut(names: &Names, words: &[u64], cut: &[u64], out: &mut [u8]) -> usize
    requires { Given words.now cut.now × (longest_text ≤ length out.old) }
    ensures wrote { Wrote out.old 0 (cut_text (name_in names.now) (operations_in words.now) cut.now) out.new result }
    ensures upper_bound { result ≤ longest_text }
{
    let mut end = 0;
    for i in 0..words.len() / 4 {
        end = put_first(names, words, cut, i, out, end);
    }
    end
}
