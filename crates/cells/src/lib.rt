// The lock decision: which cell of the table a read or a write of an update falls into, by what it
// asks, what it holds, what others hold and who waits before it; and the lock that a grant leaves. Proved against
// `decision`, `shared_too` and `taken` of the rules.
#![tactic(auto)]

ghost use Rattle.std.specs.Prelude.{◌≡◌, ◌<◌};
ghost use Rattle.names.specs.Sizes.{base};
ghost use Rattle.rules.specs.Tables.{lock};
ghost use Rattle.rules.specs.Locks.{held_by, wanted, decide, decision, another_shares, another_excludes, another_ahead};
ghost use Rattle.rules.specs.Step.{shared_too as Step·sharedToo, taken as Step·taken};
ghost use Rattle.rows.specs.Founds.{lock_of};
ghost use Rattle.cells.specs.Cells.{asked_of, held_of, needs_lock, SlotsOnly};

use names::{Cell, EXCLUSIVE_LOCK, Item, Locks, SHARED_LOCK, Slot, Txns};
use rows::LockRow;

// What an update asks for.
#[derive(Clone, Copy, PartialEq, Eq)]
pub enum Asked {
    Read,
    Write,
}

impl Asked {
    // The lock that it wants.
    pub fn lock(self) -> u64
        ensures { result ≡ wanted (asked_of self) }
    {
        match self {
            Asked::Read => SHARED_LOCK,
            Asked::Write => EXCLUSIVE_LOCK,
        }
    }
}

// What a slot holds of an item.
#[derive(Clone, Copy, PartialEq, Eq)]
enum Held {
    Exclusively,
    Shared,
    Nothing,
}

impl Held {
    #[tactic(auto, unfolding(rules::specs::Locks::held_by, rules::specs::Tables::holds_exclusive))]
    fn of(row: LockRow, slot: Slot) -> Self
        requires { slot.0 < base.slots }
        ensures { held_of result ≡ held_by (lock_of row) slot.0 }
    {
        if row.exclusive == slot.0 + 1 {
            return Held::Exclusively;
        }
        if ranks::shares(row, slot) {
            return Held::Shared;
        }
        Held::Nothing
    }
}

// Whether another slot holds a shared lock.
fn another_shares(row: LockRow, slot: Slot) -> bool
    requires { SlotsOnly (lock_of row) × (slot.0 < base.slots) }
    ensures { result ≡ another_shares base (lock_of row) slot.0 }
{
    rows::without_bit(row.shared, slot) != 0
}

// Whether another slot holds the exclusive lock.
fn another_excludes(row: LockRow, slot: Slot) -> bool
    requires { SlotsOnly (lock_of row) × (slot.0 < base.slots) }
    ensures { result ≡ another_excludes base (lock_of row) slot.0 }
{
    (row.exclusive != 0) & (row.exclusive != slot.0 + 1)
}

// Whether another slot waits on the item ahead of a request for the lock `wanted`, in conflict with it.
// Most items have no line, and then no rank is asked for.
#[tactic(auto, using(crate::proofs::Others::ahead_is, crate::proofs::Others::none_ahead))]
fn another_ahead(txns: &Txns, locks: &Locks, wanted: u64, item: Item, slot: Slot) -> bool
    requires { (slot.0 < base.slots) × (item.0 < base.items) }
    ensures { result ≡ another_ahead base txns.now locks.now wanted item.0 slot.0 }
{
    if !ranks::somebody_on(txns, item) {
        return false;
    }
    let rank = ranks::rank_for(txns, locks, slot, item);
    let word = waiting::ahead(txns, wanted, item, rank);
    rows::without_bit(word, slot) != 0
}

// The table: by what is asked and what is held, one arm a cell.
#[tactic(auto, unfolding(rules::specs::Locks::decide))]
fn look_up(asked: Asked, held: Held, shares: bool, excludes: bool, earlier: bool) -> Cell
    ensures { result ≡ decide (asked_of asked) (held_of held) shares excludes earlier }
{
    match (asked, held) {
        (Asked::Read, Held::Exclusively) => Cell::OwnValue,
        (Asked::Read, Held::Shared) => Cell::NewestValue,
        (Asked::Read, Held::Nothing) => {
            if excludes | earlier {
                Cell::Conflict
            } else {
                Cell::TakeShared
            }
        }
        (Asked::Write, Held::Exclusively) => Cell::ReplaceValue,
        (Asked::Write, Held::Shared) => {
            if shares | earlier {
                Cell::Conflict
            } else {
                Cell::ExchangeLock
            }
        }
        (Asked::Write, Held::Nothing) => {
            if shares | (excludes | earlier) {
                Cell::Conflict
            } else {
                Cell::TakeExclusive
            }
        }
    }
}

// Whether a call by one who holds so much needs a further lock: else it asks no line.
fn needs_lock(asked: Asked, held: Held) -> bool
    ensures { result ≡ needs_lock (asked_of asked) (held_of held) }
{
    match held {
        Held::Exclusively => false,
        Held::Shared => asked == Asked::Write,
        Held::Nothing => true,
    }
}

// The cell for an item and a slot.
pub fn decision(asked: Asked, txns: &Txns, locks: &Locks, item: Item, slot: Slot) -> Cell
    requires { (slot.0 < base.slots) × (item.0 < base.items) × SlotsOnly (lock locks.now item.0) }
    ensures { result ≡ decision base (asked_of asked) txns.now locks.now item.0 slot.0 }
{
    let row = rows::lock_at(locks, item);
    let held = Held::of(row, slot);
    let shares = another_shares(row, slot);
    let excludes = another_excludes(row, slot);
    let earlier = needs_lock(asked, held) && another_ahead(txns, locks, asked.lock(), item, slot);
    look_up(asked, held, shares, excludes, earlier)
}

// A lock that the slot shares too.
#[tactic(auto, using(words::proofs::SlotWords::set_is, words::proofs::SlotWords::shifted))]
pub fn shared_too(row: LockRow, slot: Slot) -> LockRow
    requires { slot.0 < base.slots }
    ensures { lock_of result ≡ Step·sharedToo (lock_of row) slot.0 }
{
    LockRow {
        shared: row.shared | (1 << slot.0),
        exclusive: row.exclusive,
        working: row.working,
    }
}

// A lock that the slot holds exclusively, with this working value.
pub fn taken(row: LockRow, slot: Slot, value: u64) -> LockRow
    requires { slot.0 < base.slots }
    ensures { lock_of result ≡ Step·taken (lock_of row) slot.0 value }
{
    LockRow {
        shared: rows::without_bit(row.shared, slot),
        exclusive: slot.0 + 1,
        working: value,
    }
}
