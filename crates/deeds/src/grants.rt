// A grant that writes a lock: one that is shared too, one with another working value, one taken
// exclusively. A grant clears the awaited fields.
ghost use Rattle.std.specs.Prelude.{◌≡◌, List, ℕ};
ghost use Rattle.names.specs.Sizes.{base};
ghost use Rattle.rules.specs.Tables.{tables};
ghost use Rattle.rules.specs.Answers.{outcome, TakesShared, Replaces, TakesExclusive};
ghost use Rattle.rules.specs.Step.{joined, done};
ghost use Rattle.rows.specs.Founds.{lock_of};
ghost use Rattle.deeds.specs.Asked.{Lockable, HasNewest, GrantedTo};

use names::{Answer, Item, Locks, Slot, Txns, Versions};
use rows::LockRow;

// The slot awaits nothing, and the item has this lock.
fn granted(txns: &mut Txns, locks: &mut Locks, slot: Slot, item: Item, row: LockRow)
    requires { Lockable txns.old locks.old slot.0 item.0 }
    ensures { GrantedTo slot.0 item.0 (lock_of row) txns.old locks.old txns.new locks.new }
{
    ranks::clear(txns, slot);
    rows::set_lock(locks, item, row);
}

// A further lock: the slot joins these sets besides.
fn granted_anew(txns: &mut Txns, locks: &mut Locks, slot: Slot, item: Item, row: LockRow, sets: u64)
    requires { Lockable txns.old locks.old slot.0 item.0 }
    ensures { GrantedTo slot.0 item.0 (lock_of row) (joined txns.old slot.0 sets) locks.old txns.new locks.new }
{
    notes::join(txns, slot, sets);
    granted(txns, locks, slot, item, row);
}

#[tactic(auto, unfolding(rules::specs::Step::done, rules::specs::Step::locked_anew, rules::specs::Step::locked, rules::specs::Step::grant_joins, rules::specs::Step::asking_joins))]
pub fn takes_shared(
    txns: &mut Txns,
    locks: &mut Locks,
    versions: &Versions,
    slot: Slot,
    item: Item,
) -> Answer
    requires { Lockable txns.old locks.old slot.0 item.0 × HasNewest versions.now item.0 }
    ensures { outcome result txns.new locks.new versions.now ≡ done base (TakesShared slot item) (tables txns.old locks.old versions.now) }
{
    let row = rows::lock_at(locks, item);
    let hidden = choices::hidden_now(versions, item);
    granted_anew(
        txns,
        locks,
        slot,
        item,
        cells::shared_too(row, slot),
        hidden,
    );
    Answer::found(choices::newest(versions, item), 1)
}

#[tactic(auto, unfolding(rules::specs::Step::done, rules::specs::Step::locked))]
pub fn replaces(txns: &mut Txns, locks: &mut Locks, slot: Slot, item: Item, value: u64) -> Answer
    requires { Lockable txns.old locks.old slot.0 item.0 }
    ensures { (v : List ℕ) → outcome result txns.new locks.new v ≡ done base (Replaces slot item value) (tables txns.old locks.old v) }
{
    let row = rows::lock_at(locks, item);
    let new = LockRow {
        working: value,
        ..row
    };
    granted(txns, locks, slot, item, new);
    Answer::granted()
}

#[tactic(auto, unfolding(rules::specs::Step::done, rules::specs::Step::locked_anew, rules::specs::Step::locked, rules::specs::Step::grant_joins, rules::specs::Step::asking_joins))]
pub fn takes_exclusive(
    txns: &mut Txns,
    locks: &mut Locks,
    versions: &Versions,
    slot: Slot,
    item: Item,
    value: u64,
) -> Answer
    requires { Lockable txns.old locks.old slot.0 item.0 × HasNewest versions.now item.0 }
    ensures { outcome result txns.new locks.new versions.now ≡ done base (TakesExclusive slot item value) (tables txns.old locks.old versions.now) }
{
    let row = rows::lock_at(locks, item);
    let readers = notes::have_read(txns, item);
    let hidden = choices::hidden_now(versions, item);
    granted_anew(
        txns,
        locks,
        slot,
        item,
        cells::taken(row, slot, value),
        readers | hidden,
    );
    Answer::granted()
}
