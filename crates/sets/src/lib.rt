// The test of the sets of later updates: there are none but those of relaxed queries, no relaxed query
// lives beside one past its writing, and whoever holds an item has joined the sets that it had to.
// Where no relaxed query lives, the words that the pass over the rows has seen say all of it.
//
// Every function is proved equal to its definition.
#![tactic(auto)]

ghost use Rattle.std.specs.Prelude.{◌≡◌, ◌<◌};
ghost use Rattle.names.specs.Sizes.{base};
ghost use Rattle.rules.specs.Words.{every_below};
ghost use Rattle.rules.specs.Tables.{relaxed_in};
ghost use Rattle.rows.specs.Founds.{lock_of};
ghost use Rattle.shapes.specs.Shape.{settled_in, later_in};
ghost use Rattle.sets.specs.Joined.{slot_joined, joined_at, all_joined, sets_test};

use names::{ITEMS, Item, Locks, SLOTS, Slot, Txns, VERSION_HIDDEN_AT, VERSION_ROW, Versions};
use rows::LockRow;

// Whether a slot is in all the sets of a word if it holds the lock exclusively, and in the hidden ones
// if it shares it.
fn slot_joined(txns: &Txns, row: LockRow, all: u64, hidden: u64, slot: Slot) -> bool
    requires { slot.0 < base.slots }
    ensures { result ≡ slot_joined txns.now (lock_of row) all hidden slot.0 }
{
    let s = slot.0;
    let later = rows::later_for(txns, slot);
    (!(row.exclusive == s + 1) | ((later | all) == later))
        & (!((row.shared >> s) % 2 == 1) | ((later | hidden) == later))
}

fn slots_joined(txns: &Txns, row: LockRow, all: u64, hidden: u64) -> bool
    ensures { result ≡ every_below base.slots (slot_joined txns.now (lock_of row) all hidden) }
{
    words::every_below(
        SLOTS,
        |slot| slot_joined(txns, row, all, hidden, Slot(slot)),
    )
}

// Whether those who hold an item have joined the sets of those that have read it, and the sets in
// which its newest version's creator is. Nobody has to for an item that nobody holds.
fn holders_joined(txns: &Txns, locks: &Locks, versions: &Versions, item: Item) -> bool
    requires { item.0 < base.items }
    ensures { result ≡ joined_at base txns.now locks.now versions.now item.0 }
{
    let row = rows::lock_at(locks, item);
    if (row.exclusive | row.shared) == 0 {
        return true;
    }
    let x = item.0;
    let hidden = versions[VERSION_ROW * (x as usize) + VERSION_HIDDEN_AT];
    let readers = notes::have_read(txns, item);
    slots_joined(txns, row, readers | hidden, hidden)
}

#[tactic(auto, unfolding(crate::specs::Joined::all_joined))]
fn all_joined(txns: &Txns, locks: &Locks, versions: &Versions) -> bool
    ensures { result ≡ all_joined base txns.now locks.now versions.now }
{
    words::every_below(
        ITEMS,
        |item| holders_joined(txns, locks, versions, Item(item)),
    )
}

// The test of the sets, handed the slots of those past their writing, the slots of the relaxed
// queries, and the sets in which somebody is.
pub fn sets_pass(
    txns: &Txns,
    locks: &Locks,
    versions: &Versions,
    settled: u64,
    relaxed: u64,
    later: u64,
) -> bool
    requires { (settled ≡ settled_in base txns.now) × (relaxed ≡ relaxed_in base txns.now) × (later ≡ later_in base txns.now) }
    ensures { result ≡ sets_test base txns.now locks.now versions.now }
{
    if (relaxed | later) != relaxed {
        return false;
    }
    if relaxed == 0 {
        return true;
    }
    if settled != 0 {
        return false;
    }
    all_joined(txns, locks, versions)
}
