// One row of versions rewritten in place: a new version put in front, the version taken out that
// only one who leaves has read, and what was hidden from a relaxed query shown where it leaves. What
// does not change is not written.
//
// Proved for rows as specs/Changed asks, on numbers alone: which versions the rules keep is told by
// rules/proofs/Leaving, and tied to these functions in the crate rewrites.
#![tactic(auto)]

ghost use Rattle.std.specs.Prelude.{◌≡◌, ℕ, ◌+◌, ◌≤◌, ◌<◌, length, get_or, T};
ghost use Rattle.names.specs.Sizes.{base};
ghost use Rattle.rules.specs.Words.{bit};
ghost use Rattle.rules.specs.Tables.{version_row, masks_at, up_to, outside};
ghost use Rattle.rules.specs.Versions.{versions_in, row_of, place};
ghost use Rattle.choices.specs.Pairs.{count_in};
ghost use Rattle.packing.specs.Changed.{TidyRow, Frontable, fronted, without, left_by, shown_to};
ghost use Rattle.packing.specs.Moved.{Shown};

use names::{
    VERSION_COUNT_AT, VERSION_HIDDEN_AT, VERSION_PAIR, VERSION_STAMP_AT, VERSION_VALUE_AT,
};
use starts::{LANES, Neighbours};

// A version: its stamp, its value, and from which relaxed queries it is hidden.
#[derive(Clone, Copy)]
pub struct Version {
    pub stamp: u64,
    pub value: u64,
    pub hidden: u64,
}

// Puts a version in front, below being one more than the greatest start below its stamp. The version
// that was the newest stays behind it where that start reads it, or a relaxed query from which the
// new one is hidden; else the new one takes its place.
pub fn put_front(row: &mut [u64], below: u64, new: Version)
    requires { Frontable row.old below new.stamp new.value new.hidden }
    ensures { row.new ≡ row_of base (fronted below (record { stamp = new.stamp; value = new.value; hidden = new.hidden }) (versions_in base row.old)) }
{
    if (row[VERSION_STAMP_AT] < below) | (row[VERSION_HIDDEN_AT] != new.hidden) {
        let count = row[VERSION_COUNT_AT];
        let m = count as usize;
        row.copy_within(
            VERSION_STAMP_AT..VERSION_STAMP_AT + m * VERSION_PAIR,
            VERSION_STAMP_AT + VERSION_PAIR,
        );
        row.copy_within(
            VERSION_HIDDEN_AT..VERSION_HIDDEN_AT + m,
            VERSION_HIDDEN_AT + 1,
        );
        row[VERSION_COUNT_AT] = count + 1;
    }
    row[VERSION_STAMP_AT] = new.stamp;
    row[VERSION_VALUE_AT] = new.value;
    row[VERSION_HIDDEN_AT] = new.hidden;
}

// Takes out the version at place k: those behind it move up, and the last place is unused.
fn close_gap(row: &mut [u64], k: usize)
    requires { TidyRow row.old × (k < count_in row.old) }
    ensures { row.new ≡ row_of base (without k (versions_in base row.old)) }
{
    let left = row[VERSION_COUNT_AT] - 1;
    let last = left as usize;
    let gap = k * VERSION_PAIR + VERSION_STAMP_AT;
    row.copy_within(
        gap + VERSION_PAIR..last * VERSION_PAIR + VERSION_STAMP_AT + VERSION_PAIR,
        gap,
    );
    row.copy_within(
        VERSION_HIDDEN_AT + k + 1..VERSION_HIDDEN_AT + last + 1,
        VERSION_HIDDEN_AT + k,
    );
    row[VERSION_COUNT_AT] = left;
    row[last * VERSION_PAIR + VERSION_STAMP_AT] = 0;
    row[last * VERSION_PAIR + VERSION_VALUE_AT] = 0;
    row[VERSION_HIDDEN_AT + last] = 0;
}

// One who read by this start has left: takes out the version that it read, unless that is the
// newest, or one of the neighbours reads it too, or a relaxed query does.
pub fn forget(row: &mut [u64], start: u64, beside: Neighbours)
    requires { TidyRow row.old × (place (up_to start) (versions_in base row.old) < length (versions_in base row.old)) }
    ensures { row.new ≡ row_of base (left_by start beside.below beside.next (versions_in base row.old)) }
{
    let Neighbours { below, next } = beside;
    if row[VERSION_STAMP_AT] <= start {
        return;
    }
    let k = choices::place_in(&row[..], start);
    let at = k * VERSION_PAIR + VERSION_STAMP_AT;
    let mask = VERSION_HIDDEN_AT + k;
    if (row[at] < below) | ((next < row[at - VERSION_PAIR]) | (row[mask - 1] != row[mask])) {
        return;
    }
    close_gap(row, k);
}

// The first n versions, which are hidden from a slot, are so no more.
fn show(row: &mut [u64], slot: u64, n: usize)
    requires { (length row.old ≡ version_row base) × (n ≤ base.places) × (slot < base.slots) × ((i : ℕ) → i < n → T (bit (get_or row.old (masks_at base + i) 0) slot)) }
    ensures { Shown row.old row.new slot n }
{
    let one = 1 << slot;
    for k in 0..n {
        row[VERSION_HIDDEN_AT + k] -= one;
    }
}

// The relaxed query in a slot has left, and these are the starts of those who stay, in order: nothing
// is hidden from it any more, and the version that it read is taken out, unless that is the newest, or
// another reads it too.
pub fn reveal(row: &mut [u64], slot: u64, starts: &[u64; LANES])
    requires { TidyRow row.old × (slot < base.slots) × (place (outside slot) (versions_in base row.old) < length (versions_in base row.old)) }
    ensures { row.new ≡ row_of base (shown_to slot starts.now (versions_in base row.old)) }
{
    let k = choices::place_outside(&row[..], slot);
    if k == 0 {
        return;
    }
    show(row, slot, k);
    let at = k * VERSION_PAIR + VERSION_STAMP_AT;
    let mask = VERSION_HIDDEN_AT + k;
    if starts::some_between(starts, row[at], row[at - VERSION_PAIR])
        | (row[mask - 1] != row[mask])
    {
        return;
    }
    close_gap(row, k);
}
