// What a wait notes: an update's awaited lock and item, its place in the line and the ranks behind
// it, whose sets it joins, and no other word; a reader's wait notes nothing.
ghost use Rattle.std.specs.Prelude.{◌≡◌, ◌<◌};
ghost use Rattle.names.specs.Sizes.{base};
ghost use Rattle.ranks.specs.Lines.{RanksSmall};
ghost use Rattle.tally.specs.Noted.{awaited_by, awaited, ranks_small, waited_in, waited};

use names::{
    Call, EXCLUSIVE_LOCK, Item, LOCK_WORDS, Locks, Number, SHARED_LOCK, SLOTS, Slot, TXN_WORDS,
    Txns, UPDATE_KIND,
};

// Whether no rank is above the number of slots.
#[tactic(auto, unfolding(crate::specs::Noted::ranks_small, crate::specs::Noted::rank_small))]
fn ranks_small(txns: &Txns) -> bool
    ensures { result ≡ ranks_small txns.now }
{
    words::every_below(SLOTS, |slot| rows::rank(txns, Slot(slot)) <= SLOTS)
}

fn awaits_by(txns: &mut Txns, locks: &Locks, slot: Slot, lock: u64, item: Item)
    requires { (slot.0 < base.slots) × (item.0 < base.items) × RanksSmall txns.old }
    ensures { txns.new ≡ awaited_by txns.old locks.now slot.0 lock item.0 }
{
    if rows::kind(txns, slot) == UPDATE_KIND {
        let sets = notes::asking_joins(txns, lock, item);
        ranks::note(txns, locks, slot, lock, item);
        notes::join(txns, slot, sets);
    }
}

#[tactic(auto, unfolding(crate::specs::Noted::awaited, rows::specs::Founds::found_at, names::specs::Words::item_of))]
fn awaits(txns: &mut Txns, locks: &Locks, number: u64, lock: u64, item: u64)
    requires { RanksSmall txns.old }
    ensures { txns.new ≡ awaited txns.old locks.now number lock item }
{
    let Some(slot) = rows::slot_of(txns, Number(number)) else {
        return;
    };
    let Some(item) = Item::of(item) else {
        return;
    };
    awaits_by(txns, locks, slot, lock, item);
}

// The transactions as a call leaves them that waits.
#[tactic(auto, unfolding(crate::specs::Noted::waited_in))]
fn note_in(txns: &mut Txns, locks: &Locks, call: Call)
    requires { RanksSmall txns.old }
    ensures { txns.new ≡ waited_in call txns.old locks.now }
{
    match call {
        Call::Read { number, item } => awaits(txns, locks, number, SHARED_LOCK, item),
        Call::Write { number, item, .. } => awaits(txns, locks, number, EXCLUSIVE_LOCK, item),
        Call::BeginUpdate
        | Call::BeginQuery
        | Call::Commit { .. }
        | Call::Abort { .. }
        | Call::Settle { .. }
        | Call::BeginRelaxed => {}
    }
}

// The same on words of any length and content: where they cannot be good nobody waits.
#[tactic(auto, unfolding(crate::specs::Noted::waited))]
pub fn note(txns: &mut [u64], locks: &[u64], call: Call)
    ensures { txns.new ≡ waited call txns.old locks.now }
{
    let Some(txns) = txns.as_mut_array::<TXN_WORDS>() else {
        return;
    };
    let Some(locks) = locks.as_array::<LOCK_WORDS>() else {
        return;
    };
    if ranks_small(txns) {
        note_in(txns, locks, call);
    }
}
