// The test of every row of versions, against the starts in order and the slots of the relaxed queries:
// each row is walked from its oldest version up, and the starts beside it. Where there is no relaxed
// query nothing is hidden, and the walk goes by the stamps alone.
//
// Proved equal to the test of the rules, for whichever readers have these starts and these slots.
#![tactic(auto)]

ghost use Rattle.std.specs.Prelude.{◌≡◌, List, ℕ, ◌*◌, ◌≤◌};
ghost use Rattle.names.specs.Sizes.{base};
ghost use Rattle.names.specs.Layout.{version_pair};
ghost use Rattle.rules.specs.Words.{every_row};
ghost use Rattle.rules.specs.Tables.{version_row, Reader};
ghost use Rattle.rules.specs.Tested.{versions_good};
ghost use Rattle.starts.specs.Starts.{Split};
ghost use Rattle.starts.specs.Ordered.{Rises, InOrder, Skipped};
ghost use Rattle.versions.specs.Rows.{pairs_wide, unused_ok, read_in, step_ok, walk_in, walk_ok, many_ok, row_ok};
ghost use Rattle.choices.specs.Pairs.{count_in};

use choices::{Row, row_at};
use names::{
    Item, VERSION_COUNT_AT, VERSION_HIDDEN_AT, VERSION_PAIR, VERSION_ROW, VERSION_STAMP_AT,
    Versions,
};
use starts::LANES;

// The words of a row's pairs, and its places.
const PAIRS: usize = VERSION_HIDDEN_AT - VERSION_STAMP_AT;

const PLACES: usize = names::PLACES as usize;

// The words of a row up to its first version.
const ONE: usize = VERSION_STAMP_AT + VERSION_PAIR;

// A row is tested for zeros in two parts, the second of a length that is known beforehand, which is
// faster: behind an eighth of its pairs, a quarter, or half of them.
const EIGHTH: usize = PAIRS / 8;

const QUARTER: usize = PAIRS / 4;

const HALF: usize = PAIRS / 2;

// Whether the pairs behind m versions are zero: those up to so many words, and those behind.
fn unused_in(row: &Row, m: usize, part: usize) -> bool
    requires { (m * version_pair ≤ part) × (part ≤ pairs_wide) }
    ensures { result ≡ unused_ok row.now m }
{
    words::zeros(
        row,
        VERSION_STAMP_AT + m * VERSION_PAIR,
        part - m * VERSION_PAIR,
    ) & words::zeros(row, VERSION_STAMP_AT + part, PAIRS - part)
}

// Stays: Each part is named: in a loop over the parts the second length would not be known beforehand.
fn unused_ok(row: &Row, m: usize) -> bool
    requires { m ≤ base.places }
    ensures { result ≡ unused_ok row.now m }
{
    let used = m * VERSION_PAIR;
    if used <= EIGHTH {
        return unused_in(row, m, EIGHTH);
    }
    if used <= QUARTER {
        return unused_in(row, m, QUARTER);
    }
    if used <= HALF {
        return unused_in(row, m, HALF);
    }
    unused_in(row, m, PAIRS)
}

// The first place from p on whose start is at least hi.
fn skip(starts: &[u64; LANES], p: usize, hi: u64) -> usize
    requires { Rises starts.now × (p ≤ base.slots) }
    ensures { Skipped starts.now p hi result }
{
    let mut k = p;
    while starts[k] < hi {
        k += 1;
    }
    k
}

// Whether the last of m versions is old enough for all starts, and each but the newest is read.
fn all_read(row: &Row, m: usize, starts: &[u64; LANES]) -> bool
    requires { (2 ≤ m) × (m ≤ base.places) × Rises starts.now }
    ensures { result ≡ read_in starts.now row.now m }
{
    if starts[0] < row[m * VERSION_PAIR + VERSION_STAMP_AT - VERSION_PAIR] {
        return false;
    }
    let mut p = 0;
    for j in (1..m - 1).rev() {
        let hi = row[j * VERSION_PAIR + VERSION_STAMP_AT];
        if hi <= starts[p] {
            return false;
        }
        p = skip(starts, p + 1, hi);
    }
    starts[p] < row[VERSION_STAMP_AT]
}

// A version and the one before it: it is older, hidden from no more, and read, by a start or by a
// relaxed query from which the one before it is hidden and it is not.
fn step_ok(older: u64, newer: u64, hidden: u64, before: u64, read: bool) -> bool
    ensures { result ≡ step_ok older newer hidden before read }
{
    (older < newer) & (((before | hidden) == before) & (read | !(before == hidden)))
}

// Whether the last of m versions is old enough for all starts, and hidden from nobody; and each but the
// newest is as it should be beside the one before it.
fn all_seen(row: &Row, m: usize, starts: &[u64; LANES]) -> bool
    requires { (1 ≤ m) × (m ≤ base.places) × Rises starts.now }
    ensures { result ≡ walk_in starts.now row.now m }
{
    if starts[0] < row[m * VERSION_PAIR + VERSION_STAMP_AT - VERSION_PAIR] {
        return false;
    }
    if row[VERSION_HIDDEN_AT + (m - 1)] != 0 {
        return false;
    }
    let mut p = 0;
    for j in (0..m - 1).rev() {
        let hi = row[j * VERSION_PAIR + VERSION_STAMP_AT];
        let lo = row[(j + 1) * VERSION_PAIR + VERSION_STAMP_AT];
        let hidden = row[VERSION_HIDDEN_AT + (j + 1)];
        let before = row[VERSION_HIDDEN_AT + j];
        if !step_ok(lo, hi, hidden, before, starts[p] < hi) {
            return false;
        }
        p = skip(starts, p, hi);
    }
    true
}

// The m versions of a row: who reads them, and from whom they are hidden.
fn walk_ok(row: &Row, m: usize, starts: &[u64; LANES], relaxed: u64) -> bool
    requires { (2 ≤ m) × (m ≤ base.places) × Rises starts.now }
    ensures { result ≡ walk_ok starts.now relaxed row.now m }
{
    if relaxed == 0 {
        if !words::zeros(row, VERSION_HIDDEN_AT, PLACES) {
            return false;
        }
        return all_read(row, m, starts);
    }
    if (relaxed | row[VERSION_HIDDEN_AT]) != relaxed {
        return false;
    }
    if !words::zeros(row, VERSION_HIDDEN_AT + m, PLACES - m) {
        return false;
    }
    all_seen(row, m, starts)
}

// A row with another count than 1, but for its newest stamp.
fn many_ok(row: &Row, starts: &[u64; LANES], relaxed: u64) -> bool
    requires { (count_in row.now ≡ 1 → ⊥) × Rises starts.now }
    ensures { result ≡ many_ok row.now starts.now relaxed }
{
    let n = row[VERSION_COUNT_AT];
    if n == 0 {
        return false;
    }
    if names::PLACES < n {
        return false;
    }
    let m = n as usize;
    if !walk_ok(row, m, starts, relaxed) {
        return false;
    }
    unused_ok(row, m)
}

// One row. Most have one version, and are tested without a branch.
fn row_ok(row: &Row, clock: u64, starts: &[u64; LANES], relaxed: u64) -> bool
    requires { Rises starts.now }
    ensures { result ≡ row_ok clock starts.now relaxed row.now }
{
    if row[VERSION_COUNT_AT] == 1 {
        return words::zeros(row, ONE, VERSION_ROW - ONE)
            & (row[VERSION_STAMP_AT] <= clock)
            & (row[VERSION_STAMP_AT] <= starts[0]);
    }
    (row[VERSION_STAMP_AT] <= clock) & many_ok(row, starts, relaxed)
}

// Whether every row of versions is good, for whichever readers have the starts in order and are, if
// relaxed, in these slots.
pub fn all_good(versions: &Versions, clock: u64, starts: &[u64; LANES], relaxed: u64) -> bool
    requires { Rises starts.now }
    ensures { (qs : List Reader) (us : List ℕ) → InOrder us starts.now → Split qs us relaxed → result ≡ every_row base.items (version_row base) (λ x w. versions_good base clock qs relaxed w) 0 versions.now }
{
    words::every_below(names::ITEMS, |item| {
        row_ok(row_at(versions, Item(item)), clock, starts, relaxed)
    })
}
