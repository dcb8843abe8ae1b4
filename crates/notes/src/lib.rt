// What relaxed queries need of the transaction rows: who they are, what they have read, and who is in
// their sets of later updates. Proved against the rules' words of slots, `joined`, `read_noted` and
// `forgotten`.
#![tactic(auto)]

ghost use Rattle.std.specs.Prelude.{◌≡◌, ◌+◌, ◌<◌, ◌≤◌, set};
ghost use Rattle.names.specs.Sizes.{base};
ghost use Rattle.names.specs.Layout.{txn_later_for_at};
ghost use Rattle.rules.specs.Words.{bit, without_bit};
ghost use Rattle.rules.specs.Tables.{txn_at, txn, lock, relaxed_in, have_read, some_settled, some_relaxed};
ghost use Rattle.rules.specs.Step.{joined, asking_joins, holder_joins, read_noted, forgotten};
ghost use Rattle.notes.specs.Kinds.{some_as};

use names::{EXCLUSIVE_LOCK, Item, Locks, RELAXED_KIND, SETTLED_KIND, SLOTS, Slot, Txns};

// The slots of the relaxed queries.
#[tactic(auto, unfolding(rules::specs::Tables::relaxed_in, rules::specs::Tables::live_relaxed))]
pub fn relaxed_in(txns: &Txns) -> u64
    ensures { result ≡ relaxed_in base txns.now }
{
    words::those_below(SLOTS, |slot| rows::lives_as(txns, Slot(slot), RELAXED_KIND))
}

// Whether a relaxed query has read an item.
#[tactic(auto, unfolding(rules::specs::Words::bit))]
fn has_read(txns: &Txns, slot: Slot, item: Item) -> bool
    requires { (slot.0 < base.slots) × (item.0 < base.items) }
    ensures { result ≡ bit (txn txns.now slot.0).items_read item.0 }
{
    let x = item.0;
    let word = rows::items_read(txns, slot);
    (word >> x) % 2 == 1
}

// The slots of those that have read an item.
#[tactic(auto, unfolding(rules::specs::Tables::have_read))]
pub fn have_read(txns: &Txns, item: Item) -> u64
    requires { item.0 < base.items }
    ensures { result ≡ have_read base txns.now item.0 }
{
    words::those_below(SLOTS, |slot| has_read(txns, Slot(slot), item))
}

// Whether somebody lives who is of this kind.
#[tactic(auto, unfolding(crate::specs::Kinds::some_as))]
fn some_as(txns: &Txns, kind: u64) -> bool
    ensures { result ≡ some_as base txns.now kind }
{
    words::some_below(SLOTS, |slot| rows::lives_as(txns, Slot(slot), kind))
}

// Whether somebody is past its writing.
#[tactic(auto, unfolding(crate::specs::Kinds::some_as, rules::specs::Tables::some_settled, rules::specs::Tables::live_settled))]
pub fn some_settled(txns: &Txns) -> bool
    ensures { result ≡ some_settled base txns.now }
{
    some_as(txns, SETTLED_KIND)
}

// Whether a relaxed query lives.
#[tactic(auto, unfolding(crate::specs::Kinds::some_as, rules::specs::Tables::some_relaxed, rules::specs::Tables::live_relaxed))]
pub fn some_relaxed(txns: &Txns) -> bool
    ensures { result ≡ some_relaxed base txns.now }
{
    some_as(txns, RELAXED_KIND)
}

// Whose sets one joins who asks for a lock on an item: to write is to be later than those that have
// read it.
#[tactic(auto, unfolding(rules::specs::Step::asking_joins))]
pub fn asking_joins(txns: &Txns, lock: u64, item: Item) -> u64
    requires { item.0 < base.items }
    ensures { result ≡ asking_joins base txns.now lock item.0 }
{
    if lock == EXCLUSIVE_LOCK {
        return have_read(txns, item);
    }
    0
}

// A slot joins sets.
#[tactic(auto, unfolding(rules::specs::Step::joined, rules::specs::Tables::set_later_for))]
pub fn join(txns: &mut Txns, slot: Slot, sets: u64)
    requires { slot.0 < base.slots }
    ensures { txns.new ≡ joined txns.old slot.0 sets }
{
    let word = rows::later_for(&*txns, slot);
    rows::set_later_for(txns, slot, word | sets);
}

// The exclusive holder of an item, its slot plus 1, joins the set of a relaxed query; 0 is nobody.
#[tactic(auto, using(crate::proofs::Words::holder_some, crate::proofs::Words::holder_none, words::proofs::SlotWords::shifted))]
fn holder_joins(txns: &mut Txns, holder: u64, query: Slot)
    requires { (holder ≤ base.slots) × (query.0 < base.slots) }
    ensures { txns.new ≡ holder_joins holder query.0 txns.old }
{
    let q = query.0;
    if holder != 0 {
        join(txns, Slot(holder - 1), 1 << q);
    }
}

// A read by a relaxed query is noted: the item, and that who holds it exclusively is a later one.
#[tactic(auto, using(words::proofs::SlotWords::set_is, words::proofs::SlotWords::shifted), unfolding(rules::specs::Step::read_noted))]
pub fn note_read(txns: &mut Txns, locks: &Locks, slot: Slot, item: Item)
    requires { (slot.0 < base.slots) × (item.0 < base.items) × ((lock locks.now item.0).exclusive ≤ base.slots) }
    ensures { txns.new ≡ read_noted txns.old locks.now slot.0 item.0 }
{
    let kind = rows::kind(&*txns, slot);
    if kind == RELAXED_KIND {
        let x = item.0;
        let word = rows::items_read(&*txns, slot);
        let row = rows::lock_at(locks, item);
        holder_joins(txns, row.exclusive, slot);
        rows::set_items_read(txns, slot, word | (1 << x));
    }
}

// A slot leaves the set of the relaxed query in another.
#[tactic(auto, unfolding(rules::specs::Tables::set_later_for))]
fn forget_row(txns: &mut Txns, slot: Slot, query: Slot)
    requires { (slot.0 < base.slots) × (query.0 < base.slots) }
    ensures { txns.new ≡ set txns.old (txn_at slot.0 + txn_later_for_at) (without_bit (txn txns.old slot.0).later_for query.0) }
{
    let word = rows::later_for(&*txns, slot);
    rows::set_later_for(txns, slot, rows::without_bit(word, query));
}

// Nobody is in the set of the relaxed query in this slot any more.
#[tactic(auto, unfolding(rules::specs::Step::forgotten, rules::specs::Tables::reworded))]
pub fn forget(txns: &mut Txns, query: Slot)
    requires { query.0 < base.slots }
    ensures { txns.new ≡ forgotten base query.0 txns.old }
{
    for slot in 0..SLOTS {
        forget_row(txns, Slot(slot), query);
    }
}
