// All rows rewritten, at a commit and where a reader leaves, by a start or relaxed: each item's row is
// lent, as the middle part of the table, to the row writer.
//
// Proved against `rewritten` of the rules. Good tables meet each `requires`, as proofs/Handed says.
#![tactic(auto)]

ghost use Rattle.std.specs.Prelude.{◌≡◌, List};
ghost use Rattle.names.specs.Sizes.{base};
ghost use Rattle.rules.specs.Tables.{Reader};
ghost use Rattle.rules.specs.Versions.{rewritten, revealed};
ghost use Rattle.rules.specs.Step.{with_new};
ghost use Rattle.rewrites.specs.Written.{Staying, Leavable, Showing, Revealable, Reading, Committable};

use names::{
    LOCK_EXCLUSIVE_AT, LOCK_ROW, LOCK_WORKING_AT, Locks, Slot, Stamp, VERSION_ROW, Versions,
};
use packing::{Version, forget, put_front, reveal};
use starts::{LANES, Neighbours};

const ROWS: usize = names::ITEMS as usize;

// One who read by this start has left, and these are its neighbours among those who stay: what it
// alone read goes from every row.
pub fn forget_all(versions: &mut Versions, start: Stamp, beside: Neighbours)
    requires { Leavable versions.old start.0 beside.below beside.next }
    ensures { (qs : List Reader) → Staying versions.old qs start.0 beside.below beside.next → versions.new ≡ rewritten base qs (λ x vs. vs) versions.old }
{
    let start = start.0;
    let Neighbours { below, next } = beside;
    // another reads by the very same start, so that nothing goes
    if next == start {
        return;
    }
    for i in 0..ROWS {
        let a = VERSION_ROW * i;
        let e = a + VERSION_ROW;
        forget(&mut versions[a..e], start, beside);
    }
}

// The relaxed query in this slot has left, and these are the starts of those who stay, in order:
// nothing is hidden from it any more, and what it alone read goes from every row.
pub fn reveal_all(versions: &mut Versions, slot: Slot, starts: &[u64; LANES])
    requires { Revealable versions.old slot.0 starts.now }
    ensures { (qs : List Reader) → Showing versions.old qs slot.0 starts.now → versions.new ≡ rewritten base qs (λ x vs. revealed slot.0 vs) versions.old }
{
    let slot = slot.0;
    for i in 0..ROWS {
        let a = VERSION_ROW * i;
        let e = a + VERSION_ROW;
        reveal(&mut versions[a..e], slot, starts);
    }
}

// Rewrites the rows at a commit of the update in a slot: the working values of the items that it
// holds exclusively go in front, under the new stamp, hidden from the relaxed queries in whose sets it
// is. below is one more than the greatest start below that stamp. An item that gets no new version has
// a row that is trimmed already, so it stays.
pub fn commit_all(
    versions: &mut Versions,
    locks: &Locks,
    slot: Slot,
    stamp: Stamp,
    hidden: u64,
    below: u64,
)
    requires { Committable versions.old locks.now slot.0 stamp.0 hidden below }
    ensures { (qs : List Reader) → Reading versions.old qs stamp.0 hidden below → versions.new ≡ rewritten base qs (with_new locks.now slot.0 stamp.0 hidden) versions.old }
{
    let owner = slot.0 + 1;
    let stamp = stamp.0;
    for i in 0..ROWS {
        if locks[LOCK_ROW * i + LOCK_EXCLUSIVE_AT] == owner {
            let new = Version {
                stamp,
                value: locks[LOCK_ROW * i + LOCK_WORKING_AT],
                hidden,
            };
            let a = VERSION_ROW * i;
            let e = a + VERSION_ROW;
            put_front(&mut versions[a..e], below, new);
        }
    }
}
