// Who calls, and what stands in its way: the slot of a number, whether it is a query, whether it awaits
// something else, whether its quota is spent, whether it is past its writing, whether another one that
// is holds it back, or is there at all when a relaxed query begins. Proved against `slot_of`,
// `query_kind`, `awaits_other`, `writes_further`, `writes_past`, `held_back` and `meets_settled` of the rules.
#![tactic(auto)]

ghost use Rattle.std.specs.Prelude.{◌≡◌, ◌<◌};
ghost use Rattle.names.specs.Sizes.{base};
ghost use Rattle.rules.specs.Tables.{txn, query_kind, slot_of};
ghost use Rattle.rules.specs.Step.{awaits_other, writes_further, writes_past, held_back, meets_settled};
ghost use Rattle.rows.specs.Founds.{found_at};
ghost use Rattle.callers.specs.Searchable.{Searchable, FreeRows};

use names::{
    Item, Locks, NO_LOCK, Number, QUERY_KIND, QUOTA, RELAXED_KIND, SETTLED_KIND, SLOTS, Slot, Txns,
};

// The slot of the live transaction that a word names.
#[tactic(auto, using(crate::proofs::Founds::impossible, crate::proofs::Founds::possible), unfolding(rows::specs::Founds::found_at))]
pub fn find(txns: &Txns, number: u64) -> Option<Slot>
    requires { Searchable txns.now }
    ensures { result ≡ found_at (slot_of base txns.now number) }
{
    rows::slot_of(txns, Number::of(number)?)
}

// Whether the slot has a query, relaxed or not.
#[tactic(auto, unfolding(rules::specs::Tables::query_kind))]
pub fn is_query(txns: &Txns, slot: Slot) -> bool
    requires { slot.0 < base.slots }
    ensures { result ≡ query_kind (txn txns.now slot.0).kind }
{
    let kind = rows::kind(txns, slot);
    (kind == QUERY_KIND) | (kind == RELAXED_KIND)
}

// Whether one of this kind may not begin, since somebody is past its writing.
#[tactic(auto, unfolding(rules::specs::Step::meets_settled))]
pub fn meets_settled(txns: &Txns, kind: u64) -> bool
    ensures { result ≡ meets_settled base txns.now kind }
{
    if kind != RELAXED_KIND {
        return false;
    }
    notes::some_settled(txns)
}

// Whether the slot awaits, and not this lock on this item.
#[tactic(auto, unfolding(rules::specs::Step::awaits_other))]
pub fn awaits_other(txns: &Txns, slot: Slot, lock: u64, item: u64) -> bool
    requires { slot.0 < base.slots }
    ensures { result ≡ awaits_other txns.now slot.0 lock item }
{
    let awaited = rows::awaited_lock(txns, slot);
    let on = rows::awaited_item(txns, slot);
    !(awaited == NO_LOCK) & !((awaited == lock) & (on == item))
}

// Whether the slot holds as many items exclusively as it may, and this one not.
#[tactic(auto, using(rules::proofs::Quotas::held_not_further), unfolding(rules::specs::Step::writes_further, rules::specs::Tables::holds_exclusive))]
pub fn writes_further(locks: &Locks, slot: Slot, item: Item) -> bool
    requires { (slot.0 < base.slots) × (item.0 < base.items) }
    ensures { result ≡ writes_further base locks.now slot.0 item.0 }
{
    let row = rows::lock_at(locks, item);
    let s = slot.0;
    if row.exclusive == s + 1 {
        return false;
    }
    own_locks::exclusives_of(locks, slot) == QUOTA
}

// Whether the slot is past its writing and does not hold this item exclusively.
#[tactic(auto, unfolding(rules::specs::Step::writes_past, rules::specs::Tables::holds_exclusive))]
pub fn writes_past(txns: &Txns, locks: &Locks, slot: Slot, item: Item) -> bool
    requires { (slot.0 < base.slots) × (item.0 < base.items) }
    ensures { result ≡ writes_past txns.now locks.now slot.0 item.0 }
{
    let kind = rows::kind(txns, slot);
    let row = rows::lock_at(locks, item);
    (kind == SETTLED_KIND) & !(row.exclusive == slot.0 + 1)
}

// Whether another past its writing, whose stamp is at most the slot's start, holds this item exclusively.
// The lock names its one holder.
pub fn held_back(txns: &Txns, locks: &Locks, item: Item, slot: Slot) -> bool
    requires { FreeRows txns.now × (slot.0 < base.slots) × (item.0 < base.items) }
    ensures { result ≡ held_back base txns.now locks.now item.0 slot.0 }
{
    let row = rows::lock_at(locks, item);
    let holder = row.exclusive;
    if holder == 0 {
        return false;
    }
    if holder > SLOTS {
        return false;
    }
    if holder == slot.0 + 1 {
        return false;
    }
    let other = Slot(holder - 1);
    if rows::kind(txns, other) != SETTLED_KIND {
        return false;
    }
    rows::start(txns, other).0 <= rows::start(txns, slot).0
}
