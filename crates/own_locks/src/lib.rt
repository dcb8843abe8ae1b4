// The locks of one slot, over all items: counted, and let go. What a row of the lock table is, `rows`
// says.
#![tactic(auto)]

ghost use Rattle.std.specs.Prelude.{◌≡◌, ℕ, ◌<◌, eqb, not};
ghost use Rattle.names.specs.Sizes.{base};
ghost use Rattle.rules.specs.Tables.{Lock, lock, holds_exclusive, exclusives_of, released, release, unshared, unshare};
ghost use Rattle.rows.specs.Founds.{lock_of};
ghost use Rattle.rows.specs.declared.locks.LockRow.{LockRow};

use names::{ITEMS, Item, Locks, Slot};
use rows::LockRow;

// Whether a slot holds an item exclusively.
#[tactic(auto, unfolding(rules::specs::Tables::holds_exclusive))]
fn holds(locks: &Locks, item: Item, slot: Slot) -> bool
    requires { (item.0 < base.items) × (slot.0 < base.slots) }
    ensures { result ≡ holds_exclusive (lock locks.now item.0) slot.0 }
{
    rows::lock_at(locks, item).exclusive == slot.0 + 1
}

// How many items a slot holds exclusively.
#[tactic(auto, unfolding(rules::specs::Tables::exclusives_of))]
pub fn exclusives_of(locks: &Locks, slot: Slot) -> u64
    requires { slot.0 < base.slots }
    ensures { result ≡ exclusives_of base locks.now slot.0 }
{
    words::count_below(ITEMS, |item| holds(locks, Item(item), slot))
}

// Whether a slot holds some item exclusively. A slot that does is found at its first item.
pub fn holds_some(locks: &Locks, slot: Slot) -> bool
    requires { slot.0 < base.slots }
    ensures { result ≡ not (eqb (exclusives_of base locks.now slot.0) 0) }
{
    words::first_below(ITEMS, |item| holds(locks, Item(item), slot)).is_some()
}

// A lock that a slot no longer shares.
fn unshared(row: LockRow, slot: Slot) -> LockRow
    requires { slot.0 < base.slots }
    ensures { lock_of result ≡ unshared slot.0 (lock_of row) }
{
    LockRow {
        shared: rows::without_bit(row.shared, slot),
        exclusive: row.exclusive,
        working: row.working,
    }
}

// A lock without a slot.
#[tactic(auto, unfolding(rules::specs::Tables::released, rules::specs::Tables::holds_exclusive))]
fn without(row: LockRow, slot: Slot) -> LockRow
    requires { slot.0 < base.slots }
    ensures { lock_of result ≡ released slot.0 (lock_of row) }
{
    let rest = unshared(row, slot);
    if row.exclusive == slot.0 + 1 {
        LockRow {
            shared: rest.shared,
            exclusive: 0,
            working: 0,
        }
    } else {
        rest
    }
}

// Every lock as a change makes it. One that stays as it is isn't written.
fn change<F: Fn(LockRow) -> LockRow>(locks: &mut Locks, changed: F)
    requires { (row : LockRow) → F.pre changed row }
    ensures { (f : Lock → Lock) → ((row made : LockRow) → F.post changed row made → lock_of made ≡ f (lock_of row)) → (x : ℕ) → x < base.items → lock locks.new x ≡ f (lock locks.old x) }
{
    for x in 0..ITEMS {
        let item = Item(x);
        let row = rows::lock_at(&*locks, item);
        let made = changed(row);
        if made != row {
            rows::set_lock(locks, item, made);
        }
    }
}

// All locks of a slot go.
pub fn release(locks: &mut Locks, slot: Slot)
    requires { slot.0 < base.slots }
    ensures { locks.new ≡ release base slot.0 locks.old }
{
    change(locks, |row| without(row, slot));
}

// All shared locks of a slot go.
pub fn unshare(locks: &mut Locks, slot: Slot)
    requires { slot.0 < base.slots }
    ensures { locks.new ≡ unshare base slot.0 locks.old }
{
    change(locks, |row| unshared(row, slot));
}
