// An update settles, and one past its writing ends.
ghost use Rattle.std.specs.Prelude.{◌≡◌, List, ℕ, ◌≤◌, ◌<◌, T};
ghost use Rattle.names.specs.Sizes.{base, last_word};
ghost use Rattle.rules.specs.Tables.{tables, clock, txn, live_settled};
ghost use Rattle.rules.specs.Good.{Good};
ghost use Rattle.rules.specs.Answers.{outcome, Settles, CommitsSettled, AbortsSettled};
ghost use Rattle.rules.specs.Step.{done};

use super::leaving::leaves;
use names::{Answer, Locks, Slot, Stamp, Txns, Versions};

// An update takes the stamp after the clock and is past its writing: its shared locks go.
#[tactic(auto, unfolding(rules::specs::Step::done, rules::specs::Step::settled))]
pub fn settles(txns: &mut Txns, locks: &mut Locks, slot: Slot) -> Answer
    requires { (slot.0 < base.slots) × (clock txns.old ≤ last_word) }
    ensures { (v : List ℕ) → outcome result txns.new locks.new v ≡ done base (Settles slot) (tables txns.old locks.old v) }
{
    let stamp = rows::clock(txns).0 + 1;
    rows::settle(txns, slot, Stamp(stamp));
    own_locks::unshare(locks, slot);
    Answer::numbered(stamp)
}

// One past its writing commits under its own stamp: it leaves as a reader does, its working values
// become versions, its locks go.
pub fn commits_settled(
    txns: &mut Txns,
    locks: &mut Locks,
    versions: &mut Versions,
    slot: Slot,
) -> Answer
    requires { Good base (tables txns.old locks.old versions.old) × (slot.0 < base.slots) × T (live_settled (txn txns.old slot.0)) }
    ensures { outcome result txns.new locks.new versions.new ≡ done base (CommitsSettled slot) (tables txns.old locks.old versions.old) }
{
    let hidden = rows::later_for(txns, slot);
    let (start, beside) = leaves(txns, versions, slot);
    rewrites::commit_all(versions, locks, slot, start, hidden, beside.below);
    own_locks::release(locks, slot);
    Answer::numbered(start.0)
}

// One past its writing is aborted: it leaves as a reader does, and its locks go.
#[tactic(auto, unfolding(rules::specs::Step::done, rules::specs::Step::settled_aborted))]
pub fn aborts_settled(
    txns: &mut Txns,
    locks: &mut Locks,
    versions: &mut Versions,
    slot: Slot,
) -> Answer
    requires { Good base (tables txns.old locks.old versions.old) × (slot.0 < base.slots) × T (live_settled (txn txns.old slot.0)) }
    ensures { outcome result txns.new locks.new versions.new ≡ done base (AbortsSettled slot) (tables txns.old locks.old versions.old) }
{
    leaves(txns, versions, slot);
    own_locks::release(locks, slot);
    Answer::granted()
}
