// A query's end and an update's commit.
ghost use Rattle.std.specs.Prelude.{◌≡◌, List, ℕ, ◌<◌, T};
ghost use Rattle.names.specs.Sizes.{base};
ghost use Rattle.rules.specs.Tables.{tables, txn, live_update, any_query};
ghost use Rattle.rules.specs.Good.{Good};
ghost use Rattle.rules.specs.Answers.{outcome, Commits, Ends};
ghost use Rattle.rules.specs.Step.{done};
ghost use Rattle.endings.specs.Asked.{Trimmed};

use super::leaving::query_leaves;
use names::{Answer, Locks, Slot, Stamp, Txns, Versions};

// A query ends: its row goes, and its set, if it has one; the versions go that none but it read.
// Answered are the sum of the weights of its reads, and their count.
#[tactic(auto, unfolding(rules::specs::Step::done, rules::specs::Step::ended))]
pub fn ends(txns: &mut Txns, versions: &mut Versions, slot: Slot) -> Answer
    requires { Trimmed txns.old versions.old × (slot.0 < base.slots) × T (any_query (txn txns.old slot.0)) }
    ensures { (l : List ℕ) → outcome result txns.new l versions.new ≡ done base (Ends slot) (tables txns.old l versions.old) }
{
    let reads = rows::read_count(txns, slot);
    let weights = rows::weight_sum(txns, slot);
    query_leaves(txns, versions, slot);
    Answer::found(weights, reads)
}

// An update commits under the stamp after the clock: its working values become versions, its locks
// and its row go.
pub fn commits(txns: &mut Txns, locks: &mut Locks, versions: &mut Versions, slot: Slot) -> Answer
    requires { Good base (tables txns.old locks.old versions.old) × (slot.0 < base.slots) × T (live_update (txn txns.old slot.0)) }
    ensures { outcome result txns.new locks.new versions.new ≡ done base (Commits slot) (tables txns.old locks.old versions.old) }
{
    let stamp = rows::clock(txns).0 + 1;
    let hidden = rows::later_for(txns, slot);
    rows::set_clock(txns, Stamp(stamp));
    rows::leave(txns, slot);
    let beside = starts::beside(txns, stamp);
    rewrites::commit_all(versions, locks, slot, Stamp(stamp), hidden, beside.below);
    own_locks::release(locks, slot);
    Answer::numbered(stamp)
}
