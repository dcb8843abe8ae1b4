// The test of the ranks: on each item those who wait have the ranks from 1 on without gaps, and those
// who share the item stand ahead of those who do not.
//
// Two passes over the slots, with a word for each item. The first marks each rank that is taken, and
// marks it a second time, higher up, for one who shares the item. The second looks the marks up.
#![tactic(auto)]

ghost use Rattle.std.specs.Prelude.{◌≡◌, ◌+◌, ◌≤◌, ◌<◌, false, IfSome, IfNone};
ghost use Rattle.names.specs.Sizes.{base};
ghost use Rattle.rules.specs.Words.{every_below};
ghost use Rattle.rules.specs.Tested.{ranks_good};
ghost use Rattle.ranked.specs.Marks.{Known, Marked, Marking, follows, placed};

use names::{ITEMS, Item, Locks, NO_LOCK, SLOTS, Slot, Txns};

// A word for each item.
type Marks = [u64; ITEMS as usize];

// How much higher a rank's second mark stands: above the marks of all ranks. A rank's mark stands a
// place below the rank, so that both marks of each have room in one word.
const SHARING: u64 = SLOTS;

// One slot: if it waits, its rank is marked. False if that is no rank, or is taken already.
#[tactic(auto, using(crate::proofs::Marking::item_below))]
fn mark(txns: &Txns, locks: &Locks, marks: &mut Marks, slot: Slot) -> bool
    requires { Known txns.now locks.now × Marked txns.now locks.now marks.old slot.0 × (slot.0 < base.slots) }
    ensures { Marking txns.now locks.now marks.new (slot.0 + 1) result }
{
    let wanted = rows::awaited_lock(txns, slot);
    if wanted == NO_LOCK {
        return true;
    }
    let item = rows::awaited_item(txns, slot);
    let rank = rows::rank(txns, slot);
    if rank == 0 {
        return false;
    }
    if SLOTS < rank {
        return false;
    }
    let place = rank - 1;
    let at = item as usize;
    let word = marks[at];
    if (word >> place) % 2 == 1 {
        return false;
    }
    let row = rows::lock_at(locks, Item(item));
    let share = (row.shared >> slot.0) % 2;
    marks[at] = word | (1 << place) | (share << (place + SHARING));
    true
}

// The first pass: the marks, or nothing where a rank cannot be marked.
fn mark_all(txns: &Txns, locks: &Locks) -> Option<Marks>
    requires { Known txns.now locks.now }
    ensures marked { IfSome result (λ w. Marked txns.now locks.now w base.slots) }
    ensures refused { IfNone result (ranks_good base txns.now locks.now ≡ false) }
{
    let mut marks = [0u64; ITEMS as usize];
    for slot in 0..SLOTS {
        if !mark(txns, locks, &mut marks, Slot(slot)) {
            return None;
        }
    }
    Some(marks)
}

// Whether a rank is the first, or the one before it is marked.
#[tactic(auto, unfolding(crate::specs::Marks::follows, rules::specs::Words::bit))]
fn follows(word: u64, rank: u64) -> bool
    requires { (1 ≤ rank) × (rank ≤ base.slots) }
    ensures { result ≡ follows word rank }
{
    if rank == 1 {
        return true;
    }
    (word >> (rank - 2)) % 2 == 1
}

// One slot, once all are marked: if it waits, the rank before its own is taken, and if it does not
// share the item, nobody who does stands behind it.
#[tactic(auto, using(crate::proofs::Marking::item_below))]
fn placed(txns: &Txns, locks: &Locks, marks: &Marks, slot: Slot) -> bool
    requires { Known txns.now locks.now × Marked txns.now locks.now marks.now base.slots × (slot.0 < base.slots) }
    ensures { result ≡ placed txns.now locks.now marks.now slot.0 }
{
    let wanted = rows::awaited_lock(txns, slot);
    if wanted == NO_LOCK {
        return true;
    }
    let item = rows::awaited_item(txns, slot);
    let rank = rows::rank(txns, slot);
    let row = rows::lock_at(locks, Item(item));
    let word = marks[item as usize];
    let shares = ranks::shares(row, slot);
    follows(word, rank) & (shares | (word >> (rank - 1 + SHARING) == 0))
}

// The second pass.
fn all_placed(txns: &Txns, locks: &Locks, marks: &Marks) -> bool
    requires { Known txns.now locks.now × Marked txns.now locks.now marks.now base.slots }
    ensures { result ≡ every_below base.slots (placed txns.now locks.now marks.now) }
{
    words::every_below(SLOTS, |slot| placed(txns, locks, marks, Slot(slot)))
}

// The ranks of all slots.
pub fn ranks_ok(txns: &Txns, locks: &Locks) -> bool
    requires { Known txns.now locks.now }
    ensures { result ≡ ranks_good base txns.now locks.now }
{
    let Some(marks) = mark_all(txns, locks) else {
        return false;
    };
    all_placed(txns, locks, &marks)
}
