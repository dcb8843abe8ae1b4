// An update's abort, and the commit of one that wrote nothing.
ghost use Rattle.std.specs.Prelude.{◌≡◌, List, ℕ, ◌<◌};
ghost use Rattle.names.specs.Sizes.{base};
ghost use Rattle.rules.specs.Tables.{tables};
ghost use Rattle.rules.specs.Answers.{outcome, Aborts, CommitsEmpty};
ghost use Rattle.rules.specs.Step.{done};

use names::{Answer, Locks, Slot, Txns};

// An update is aborted: its locks, its row and its place in a line go.
#[tactic(auto, unfolding(rules::specs::Step::done, rules::specs::Step::aborted))]
pub fn aborts(txns: &mut Txns, locks: &mut Locks, slot: Slot) -> Answer
    requires { slot.0 < base.slots }
    ensures { (v : List ℕ) → outcome result txns.new locks.new v ≡ done base (Aborts slot) (tables txns.old locks.old v) }
{
    ranks::close_up(txns, slot);
    rows::leave(txns, slot);
    own_locks::release(locks, slot);
    Answer::granted()
}

// An update that holds no item exclusively commits: the same goes, and the clock is answered.
#[tactic(auto, unfolding(rules::specs::Step::done))]
pub fn commits_empty(txns: &mut Txns, locks: &mut Locks, slot: Slot) -> Answer
    requires { slot.0 < base.slots }
    ensures { (v : List ℕ) → outcome result txns.new locks.new v ≡ done base (CommitsEmpty slot) (tables txns.old locks.old v) }
{
    let clock = rows::clock(txns);
    aborts(txns, locks, slot);
    Answer::numbered(clock.0)
}
