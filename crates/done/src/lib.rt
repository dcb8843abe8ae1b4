// Each deed done by its own function of `deeds` or `endings`: its answer, and the tables that are lent
// as they are afterwards. Proved equal to `done` of the rules, on good tables and for a deed that they
// allow, as a judged one is.
#![tactic(auto)]

ghost use Rattle.std.specs.Prelude.{◌≡◌};
ghost use Rattle.names.specs.Sizes.{base};
ghost use Rattle.rules.specs.Tables.{tables};
ghost use Rattle.rules.specs.Good.{Good};
ghost use Rattle.rules.specs.Answers.{outcome};
ghost use Rattle.rules.specs.Step.{done};
ghost use Rattle.done.specs.Able.{Able};

use deeds::{begins, grants, reads};
use endings::{aborts, ends, settles};
use names::{Answer, Deed, Locks, Txns, Versions};

#[tactic(auto, unfolding(rules::specs::Step::done))]
pub fn done(deed: Deed, txns: &mut Txns, locks: &mut Locks, versions: &mut Versions) -> Answer
    requires { Good base (tables txns.old locks.old versions.old) × Able (tables txns.old locks.old versions.old) deed }
    ensures { outcome result txns.new locks.new versions.new ≡ done base deed (tables txns.old locks.old versions.old) }
{
    match deed {
        Deed::Refused(why) => Answer::refused(why),
        Deed::Waits(slot, lock, item) => begins::waits(txns, locks, slot, lock, item),
        Deed::Begins(slot, kind, start) => begins::begins(txns, slot, kind, start),
        Deed::ReadsVersion(slot, item) => { reads::version(txns, locks, versions, slot, item) }
        Deed::ReadsOwn(slot, item) => reads::own(txns, locks, slot, item),
        Deed::ReadsNewest(slot, item) => reads::newest(txns, versions, slot, item),
        Deed::TakesShared(slot, item) => { grants::takes_shared(txns, locks, versions, slot, item) }
        Deed::Replaces(slot, item, value) => grants::replaces(txns, locks, slot, item, value),
        Deed::TakesExclusive(slot, item, value) => {
            grants::takes_exclusive(txns, locks, versions, slot, item, value)
        }
        Deed::Commits(slot) => ends::commits(txns, locks, versions, slot),
        Deed::CommitsEmpty(slot) => aborts::commits_empty(txns, locks, slot),
        Deed::Ends(slot) => ends::ends(txns, versions, slot),
        Deed::Aborts(slot) => aborts::aborts(txns, locks, slot),
        Deed::Settles(slot) => settles::settles(txns, locks, slot),
        Deed::CommitsSettled(slot) => settles::commits_settled(txns, locks, versions, slot),
        Deed::AbortsSettled(slot) => settles::aborts_settled(txns, locks, versions, slot),
    }
}
