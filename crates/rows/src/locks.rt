// The lock table: a row for each item.
ghost use Rattle.std.specs.Prelude.{◌≡◌, ◌<◌};
ghost use Rattle.names.specs.Sizes.{base};
ghost use Rattle.rules.specs.Tables.{lock, set_lock};
ghost use Rattle.rows.specs.Founds.{lock_of};

use names::{Item, LOCK_EXCLUSIVE_AT, LOCK_ROW, LOCK_WORKING_AT, Locks};

// The words of a lock: shared holders (bit i for slot i), exclusive holder (slot plus 1, 0 for
// none), working value.
#[derive(Clone, Copy, PartialEq, Eq)]
pub struct LockRow {
    pub shared: u64,
    pub exclusive: u64,
    pub working: u64,
}

// The lock of an item.
pub fn lock_at(locks: &Locks, item: Item) -> LockRow
    requires { item.0 < base.items }
    ensures { lock_of result ≡ lock locks.now item.0 }
{
    let x = item.0;
    let at = LOCK_ROW * (x as usize);
    LockRow {
        shared: locks[at],
        exclusive: locks[at + LOCK_EXCLUSIVE_AT],
        working: locks[at + LOCK_WORKING_AT],
    }
}

// The lock of an item, written.
pub fn set_lock(locks: &mut Locks, item: Item, row: LockRow)
    requires { item.0 < base.items }
    ensures { locks.new ≡ set_lock locks.old item.0 (lock_of row) }
{
    let x = item.0;
    let at = LOCK_ROW * (x as usize);
    locks[at] = row.shared;
    locks[at + LOCK_EXCLUSIVE_AT] = row.exclusive;
    locks[at + LOCK_WORKING_AT] = row.working;
}
