// The lines of waiters: who stands where on an item, and the ranks that move when one comes or goes.
#![tactic(auto)]

ghost use Rattle.std.specs.Prelude.{◌≡◌, ℕ, ◌<◌, ◌≤◌, true, false, ◌&&◌};
ghost use Rattle.names.specs.Sizes.{base};
ghost use Rattle.rules.specs.Tables.{Txn, txn, lock, reranked, holds_shared};
ghost use Rattle.rules.specs.Waits.{awaits_on, waiters_on, exchangers_on, rank_for, raised, lowered, noted, closed_up};
ghost use Rattle.rules.specs.Step.{cleared};
ghost use Rattle.rows.specs.Founds.{lock_of};
ghost use Rattle.ranks.specs.Lines.{RanksSmall, somebody_on};

use names::{Item, Locks, NO_LOCK, SLOTS, Slot, Txns};
use rows::LockRow;

// Whether a slot waits on an item.
#[tactic(auto, unfolding(rules::specs::Waits::awaits_on, rules::specs::Waits::awaits))]
pub fn awaits_on(txns: &Txns, slot: Slot, item: Item) -> bool
    requires { slot.0 < base.slots }
    ensures { result ≡ awaits_on item.0 (txn txns.now slot.0) }
{
    let wanted = rows::awaited_lock(txns, slot);
    let awaited = rows::awaited_item(txns, slot);
    !(wanted == NO_LOCK) & (awaited == item.0)
}

// Whether a slot shares a lock.
#[tactic(auto, unfolding(rules::specs::Tables::holds_shared, rules::specs::Words::bit))]
pub fn shares(row: LockRow, slot: Slot) -> bool
    requires { slot.0 < base.slots }
    ensures { result ≡ holds_shared (lock_of row) slot.0 }
{
    let s = slot.0;
    (row.shared >> s) % 2 == 1
}

// Whether somebody waits on an item: where nobody does, no line need be looked at.
#[tactic(auto, unfolding(crate::specs::Lines::somebody_on))]
pub fn somebody_on(txns: &Txns, item: Item) -> bool
    ensures { result ≡ somebody_on base txns.now item.0 }
{
    words::some_below(SLOTS, |slot| awaits_on(txns, Slot(slot), item))
}

// How many wait on an item.
#[tactic(auto, unfolding(rules::specs::Waits::waiters_on))]
fn waiters_on(txns: &Txns, item: Item) -> u64
    ensures { result ≡ waiters_on base txns.now item.0 }
{
    words::count_below(SLOTS, |slot| awaits_on(txns, Slot(slot), item))
}

// Whether a slot waits on an item that it shares.
fn exchanges(txns: &Txns, locks: &Locks, slot: Slot, item: Item) -> bool
    requires { (slot.0 < base.slots) × (item.0 < base.items) }
    ensures { result ≡ (awaits_on item.0 (txn txns.now slot.0) && holds_shared (lock locks.now item.0) slot.0) }
{
    awaits_on(txns, slot, item) & shares(rows::lock_at(locks, item), slot)
}

// How many wait on an item that they share.
#[tactic(auto, unfolding(rules::specs::Waits::exchangers_on))]
fn exchangers_on(txns: &Txns, locks: &Locks, item: Item) -> u64
    requires { item.0 < base.items }
    ensures { result ≡ exchangers_on base txns.now locks.now item.0 }
{
    words::count_below(SLOTS, |slot| exchanges(txns, locks, Slot(slot), item))
}

// The rank of a slot's request on an item: its own if it waits there already; behind all who wait to
// exchange, if it shares the item; else behind all.
#[tactic(auto, using(crate::proofs::Ranks::exchangers_most, crate::proofs::Ranks::waiters_most), unfolding(rules::specs::Waits::rank_for))]
pub fn rank_for(txns: &Txns, locks: &Locks, slot: Slot, item: Item) -> u64
    requires { (slot.0 < base.slots) × (item.0 < base.items) }
    ensures { result ≡ rank_for base txns.now locks.now slot.0 item.0 }
{
    if awaits_on(txns, slot, item) {
        return rows::rank(txns, slot);
    }
    let row = rows::lock_at(locks, item);
    if shares(row, slot) {
        return exchangers_on(txns, locks, item) + 1;
    }
    waiters_on(txns, item) + 1
}

// Each rank on an item as a move of it makes it, slot by slot.
fn move_line<F: Fn(u64) -> u64>(txns: &mut Txns, item: Item, moved: F)
    requires { (slot : ℕ) → slot < base.slots → F.pre moved (txn txns.old slot).rank }
    ensures { (f : Txn → ℕ) → ((r : Txn) (to : ℕ) → awaits_on item.0 r ≡ true → F.post moved r.rank to → to ≡ f r) → ((r : Txn) → awaits_on item.0 r ≡ false → r.rank ≡ f r) → txns.new ≡ reranked base.slots f txns.old }
{
    for slot in 0..SLOTS {
        let slot = Slot(slot);
        if awaits_on(&*txns, slot, item) {
            let place = rows::rank(&*txns, slot);
            let to = moved(place);
            rows::set_rank(txns, slot, to);
        }
    }
}

// Room for a newcomer at this rank on the item: who stands there or behind moves down by one.
fn raise(txns: &mut Txns, item: Item, from: u64)
    requires { RanksSmall txns.old }
    ensures { txns.new ≡ reranked base.slots (raised item.0 from) txns.old }
{
    move_line(
        txns,
        item,
        |place| if from <= place { place + 1 } else { place },
    );
}

// Nobody stands at this rank on the item any more: who stands behind it moves up by one.
fn lower(txns: &mut Txns, item: Item, behind: u64)
    ensures { txns.new ≡ reranked base.slots (lowered item.0 behind) txns.old }
{
    move_line(
        txns,
        item,
        |place| if behind < place { place - 1 } else { place },
    );
}

// Those who stand behind a slot move up; where it stands in no line, nobody does.
#[tactic(auto, unfolding(rules::specs::Waits::closed_up, rules::specs::Waits::awaits))]
pub fn close_up(txns: &mut Txns, slot: Slot)
    requires { slot.0 < base.slots }
    ensures { txns.new ≡ closed_up base txns.old slot.0 }
{
    let wanted = rows::awaited_lock(&*txns, slot);
    if wanted != NO_LOCK {
        let item = rows::awaited_item(&*txns, slot);
        let place = rows::rank(&*txns, slot);
        lower(txns, Item(item), place);
    }
}

// The wait of a slot for a lock on an item, noted; one that waits there already is.
#[tactic(auto, unfolding(rules::specs::Waits::noted))]
pub fn note(txns: &mut Txns, locks: &Locks, slot: Slot, lock: u64, item: Item)
    requires { (slot.0 < base.slots) × (item.0 < base.items) × RanksSmall txns.old }
    ensures { txns.new ≡ noted base txns.old locks.now slot.0 lock item.0 }
{
    if !awaits_on(&*txns, slot, item) {
        let place = rank_for(&*txns, locks, slot, item);
        raise(txns, item, place);
        rows::set_awaited(txns, slot, lock, item, place);
    }
}

// A slot awaits nothing any more: those who stand behind it move up.
#[tactic(auto, unfolding(rules::specs::Step::cleared))]
pub fn clear(txns: &mut Txns, slot: Slot)
    requires { slot.0 < base.slots }
    ensures { txns.new ≡ cleared base txns.old slot.0 }
{
    close_up(txns, slot);
    rows::set_awaited(txns, slot, NO_LOCK, Item(0), 0);
}
