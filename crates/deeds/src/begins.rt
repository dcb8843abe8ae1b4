// A begin and a wait: what they write in the transactions. The other tables, whatever they are, stay.
ghost use Rattle.std.specs.Prelude.{◌≡◌, List, ℕ, ◌<◌, ◌≤◌};
ghost use Rattle.names.specs.Sizes.{base, last_word};
ghost use Rattle.rules.specs.Tables.{tables, last_number};
ghost use Rattle.rules.specs.Answers.{outcome, Waits, Begins};
ghost use Rattle.rules.specs.Step.{done};
ghost use Rattle.ranks.specs.Lines.{RanksSmall};
ghost use Rattle.deeds.specs.Asked.{Lockable};

use names::{Answer, Item, Locks, Number, Refusal, Slot, Stamp, Txns};

// The slot gets the next number, and a row of this kind with this start.
#[tactic(auto, unfolding(rules::specs::Step::done, rules::specs::Step::begun))]
pub fn begins(txns: &mut Txns, slot: Slot, kind: u64, start: Stamp) -> Answer
    requires { (slot.0 < base.slots) × (last_number txns.old ≤ last_word) }
    ensures { (l v : List ℕ) → outcome result txns.new l v ≡ done base (Begins slot kind start) (tables txns.old l v) }
{
    let number = rows::last_number(txns) + 1;
    rows::begin(txns, slot, Number(number), kind, start);
    Answer::numbered(number)
}

// The slot awaits a lock of this kind on this item: it takes its place in the line, and joins the sets
// of those that have read what it asks to write.
#[tactic(auto, unfolding(rules::specs::Step::done))]
pub fn waits(txns: &mut Txns, locks: &Locks, slot: Slot, lock: u64, item: Item) -> Answer
    requires { Lockable txns.old locks.now slot.0 item.0 × RanksSmall txns.old }
    ensures { (v : List ℕ) → outcome result txns.new locks.now v ≡ done base (Waits slot lock item) (tables txns.old locks.now v) }
{
    let sets = notes::asking_joins(txns, lock, item);
    ranks::note(txns, locks, slot, lock, item);
    notes::join(txns, slot, sets);
    Answer::refused(Refusal::Wait)
}
