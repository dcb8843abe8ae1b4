// A read that needs no new lock.
ghost use Rattle.std.specs.Prelude.{◌≡◌, List, ℕ, suc, ◌≤◌, ◌<◌};
ghost use Rattle.names.specs.Sizes.{base};
ghost use Rattle.rules.specs.Tables.{tables, lock, reader_in};
ghost use Rattle.rules.specs.Versions.{versions_of, place, choice};
ghost use Rattle.rules.specs.Answers.{outcome, ReadsVersion, ReadsOwn, ReadsNewest};
ghost use Rattle.rules.specs.Step.{counted, done};
ghost use Rattle.choices.specs.Choosable.{Choosable};
ghost use Rattle.deeds.specs.Asked.{HasNewest};

use choices::Choice;
use names::{Answer, Item, Locks, QUERY_KIND, RELAXED_KIND, Slot, Txns, Versions};

// A query's read is counted; its weight is the number of versions that it looked at.
#[tactic(auto, unfolding(rules::specs::Step::counted, rules::specs::Tables::query_kind))]
fn count(txns: &mut Txns, slot: Slot, looked: u64)
    requires { slot.0 < base.slots }
    ensures { txns.new ≡ counted txns.old slot.0 looked }
{
    let kind = rows::kind(txns, slot);
    if (kind == QUERY_KIND) | (kind == RELAXED_KIND) {
        let reads = names::held_sum(rows::read_count(txns, slot), 1);
        let weights = names::held_sum(rows::weight_sum(txns, slot), looked);
        rows::set_reads(txns, slot, reads, weights);
    }
}

// The version of an item that the one in a slot reads: a relaxed query the newest that is not hidden
// from it, another the newest up to its start.
fn choose(txns: &Txns, versions: &Versions, slot: Slot, item: Item) -> Choice
    requires { (slot.0 < base.slots) × Choosable versions.now item.0 (reader_in txns.now slot.0) }
    ensures value { result.value ≡ (choice (reader_in txns.now slot.0) (versions_of base versions.now item.0)).value }
    ensures looked { result.looked ≡ suc (place (reader_in txns.now slot.0) (versions_of base versions.now item.0)) }
{
    let kind = rows::kind(txns, slot);
    if kind == RELAXED_KIND {
        return choices::chosen_outside(versions, item, slot);
    }
    let start = rows::start(txns, slot);
    choices::chosen(versions, item, start)
}

// A query, or one past its writing, reads a version. What a relaxed query has read is noted, and who
// holds it exclusively joins its set.
#[tactic(auto, unfolding(rules::specs::Step::done, rules::specs::Step::version_read))]
pub fn version(
    txns: &mut Txns,
    locks: &Locks,
    versions: &Versions,
    slot: Slot,
    item: Item,
) -> Answer
    requires { (slot.0 < base.slots) × (item.0 < base.items) × ((lock locks.now item.0).exclusive ≤ base.slots) × Choosable versions.now item.0 (reader_in txns.old slot.0) }
    ensures { outcome result txns.new locks.now versions.now ≡ done base (ReadsVersion slot item) (tables txns.old locks.now versions.now) }
{
    let choice = choose(txns, versions, slot, item);
    let value = choice.value;
    let looked = choice.looked;
    notes::note_read(txns, locks, slot, item);
    count(txns, slot, looked);
    Answer::found(value, looked)
}

// An update reads its own working value.
#[tactic(auto, unfolding(rules::specs::Step::done))]
pub fn own(txns: &mut Txns, locks: &Locks, slot: Slot, item: Item) -> Answer
    requires { (slot.0 < base.slots) × (item.0 < base.items) }
    ensures { (v : List ℕ) → outcome result txns.new locks.now v ≡ done base (ReadsOwn slot item) (tables txns.old locks.now v) }
{
    ranks::clear(txns, slot);
    let row = rows::lock_at(locks, item);
    Answer::found(row.working, 0)
}

// An update reads the newest value, under the lock that it shares.
#[tactic(auto, unfolding(rules::specs::Step::done))]
pub fn newest(txns: &mut Txns, versions: &Versions, slot: Slot, item: Item) -> Answer
    requires { (slot.0 < base.slots) × HasNewest versions.now item.0 }
    ensures { (l : List ℕ) → outcome result txns.new l versions.now ≡ done base (ReadsNewest slot item) (tables txns.old l versions.now) }
{
    ranks::clear(txns, slot);
    Answer::found(choices::newest(versions, item), 1)
}
