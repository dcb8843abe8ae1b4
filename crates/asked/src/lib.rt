// What a read or a write comes to on good tables, found by reading alone: why it is refused, or the
// deed, a wait or what the cell of the lock table or the start of the reader says.
#![tactic(auto)]

ghost use Rattle.std.specs.Prelude.{◌≡◌, ◌<◌, IfOk};
ghost use Rattle.std.specs.Option.{ok_or};
ghost use Rattle.names.specs.Sizes.{base};
ghost use Rattle.rules.specs.Tables.{tables, slot_of};
ghost use Rattle.rules.specs.Good.{Good};
ghost use Rattle.rules.specs.Answers.{UnknownTransaction};
ghost use Rattle.rules.specs.Step.{access, conflicted, start_read, read_by, write_by};
ghost use Rattle.rows.specs.Founds.{found_at};
ghost use Rattle.cells.specs.Cells.{asked_of};
ghost use Rattle.callers.specs.Searchable.{Searchable, FreeRows, of_locks};
ghost use Rattle.asked.specs.Asks.{Asks};
ghost use Rattle.asked.specs.Deeds.{deed_of};

use callers::{awaits_other, find, held_back, is_query, writes_further, writes_past};
use cells::Asked;
use names::{
    Cell, Deed, EXCLUSIVE_LOCK, Item, Locks, Refusal, SHARED_LOCK, Slot, Txns, UPDATE_KIND,
    Versions,
};

// The slot of who calls by this number.
pub fn caller(txns: &Txns, number: u64) -> Result<Slot, Refusal>
    requires { Searchable txns.now }
    ensures value { result ≡ ok_or (found_at (slot_of base txns.now number)) UnknownTransaction }
    ensures inside { IfOk result (λ s. s.0 < base.slots) }
{
    find(txns, number).ok_or(Refusal::UnknownTransaction)
}

// A wait, or a deadlock where the wait would close a circle: it is noted in a copy, and the slot is
// searched for from those whom it waits for there. A wait that is noted already closes none.
fn conflict(txns: &Txns, locks: &Locks, slot: Slot, lock: u64, item: Item) -> Result<Deed, Refusal>
    requires { Asks txns.now locks.now slot.0 lock item.0 }
    ensures { deed_of result ≡ conflicted base slot.0 lock item.0 (of_locks txns.now locks.now) }
{
    if ranks::awaits_on(txns, slot, item) {
        return Ok(Deed::Waits(slot, lock, item));
    }
    let mut after = *txns;
    ranks::note(&mut after, locks, slot, lock, item);
    let links = waiting::waits(&after, locks).links;
    if circles::reaches(&links, links[slot.0 as usize], slot) {
        return Err(Refusal::Deadlock);
    }
    Ok(Deed::Waits(slot, lock, item))
}

// What the cell of the lock table comes to, to read or to write this value.
#[tactic(auto, unfolding(rules::specs::Step::access, rules::specs::Step::cell_deed, rules::specs::Step::conflicted))]
fn access(
    txns: &Txns,
    locks: &Locks,
    versions: &Versions,
    slot: Slot,
    item: Item,
    asked: Asked,
    value: u64,
) -> Result<Deed, Refusal>
    requires { Good base (tables txns.now locks.now versions.now) × (slot.0 < base.slots) × (item.0 < base.items) }
    ensures { deed_of result ≡ access base (asked_of asked) slot.0 item.0 value (tables txns.now locks.now versions.now) }
{
    match cells::decision(asked, txns, locks, item, slot) {
        Cell::OwnValue => Ok(Deed::ReadsOwn(slot, item)),
        Cell::NewestValue => Ok(Deed::ReadsNewest(slot, item)),
        Cell::TakeShared => Ok(Deed::TakesShared(slot, item)),
        Cell::ReplaceValue => Ok(Deed::Replaces(slot, item, value)),
        Cell::ExchangeLock | Cell::TakeExclusive => Ok(Deed::TakesExclusive(slot, item, value)),
        Cell::Conflict => conflict(txns, locks, slot, asked.lock(), item),
    }
}

// A read of a version: the own working value, a wait for another past its writing, or the version
// that is chosen by the start, or for a relaxed query by its set. The wait is not noted.
#[tactic(auto, unfolding(rules::specs::Step::start_read, rules::specs::Tables::holds_exclusive))]
fn start_read(txns: &Txns, locks: &Locks, slot: Slot, item: Item) -> Result<Deed, Refusal>
    requires { FreeRows txns.now × (slot.0 < base.slots) × (item.0 < base.items) }
    ensures { deed_of result ≡ start_read base slot.0 item.0 (of_locks txns.now locks.now) }
{
    let row = rows::lock_at(locks, item);
    if row.exclusive == slot.0 + 1 {
        return Ok(Deed::ReadsOwn(slot, item));
    }
    if held_back(txns, locks, item, slot) {
        return Err(Refusal::Wait);
    }
    Ok(Deed::ReadsVersion(slot, item))
}

#[tactic(auto, unfolding(rules::specs::Step::read_by, rules::specs::Step::start_read, rows::specs::Founds::found_at, names::specs::Words::item_of))]
pub fn read_by(
    txns: &Txns,
    locks: &Locks,
    versions: &Versions,
    number: u64,
    item: u64,
) -> Result<Deed, Refusal>
    requires { Good base (tables txns.now locks.now versions.now) }
    ensures { deed_of result ≡ read_by base number item (tables txns.now locks.now versions.now) }
{
    let slot = caller(txns, number)?;
    let x = Item::of(item).ok_or(Refusal::UnknownItem)?;
    if awaits_other(txns, slot, SHARED_LOCK, item) {
        return Err(Refusal::StillWaiting);
    }
    if rows::kind(txns, slot) != UPDATE_KIND {
        return start_read(txns, locks, slot, x);
    }
    access(txns, locks, versions, slot, x, Asked::Read, 0)
}

#[tactic(auto, unfolding(rules::specs::Step::write_by, rows::specs::Founds::found_at, names::specs::Words::item_of))]
pub fn write_by(
    txns: &Txns,
    locks: &Locks,
    versions: &Versions,
    number: u64,
    item: u64,
    value: u64,
) -> Result<Deed, Refusal>
    requires { Good base (tables txns.now locks.now versions.now) }
    ensures { deed_of result ≡ write_by base number item value (tables txns.now locks.now versions.now) }
{
    let slot = caller(txns, number)?;
    let x = Item::of(item).ok_or(Refusal::UnknownItem)?;
    if is_query(txns, slot) {
        return Err(Refusal::QueryMayNotWrite);
    }
    if awaits_other(txns, slot, EXCLUSIVE_LOCK, item) {
        return Err(Refusal::StillWaiting);
    }
    if writes_past(txns, locks, slot, x) {
        return Err(Refusal::PastWriting);
    }
    if writes_further(locks, slot, x) {
        return Err(Refusal::QuotaSpent);
    }
    access(txns, locks, versions, slot, x, Asked::Write, value)
}
