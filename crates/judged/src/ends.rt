// A commit, an abort and a settle.
ghost use Rattle.std.specs.Prelude.{◌≡◌, ◌<◌};
ghost use Rattle.names.specs.Sizes.{base};
ghost use Rattle.rules.specs.Step.{commit_update, commit_by, abort_by, settle_by};
ghost use Rattle.asked.specs.Deeds.{deed_of};
ghost use Rattle.callers.specs.Searchable.{Searchable, of_txns, of_locks};

use asked::caller;
use callers::is_query;
use names::{Deed, Locks, NO_LOCK, Refusal, SETTLED_KIND, Slot, Txns};

// An update that still writes: without an exclusive lock it needs no stamp.
#[tactic(auto, unfolding(rules::specs::Step::commit_update, names::specs::Words::next_stamp))]
fn commit_update(txns: &Txns, locks: &Locks, slot: Slot) -> Result<Deed, Refusal>
    requires { Searchable txns.now × (slot.0 < base.slots) }
    ensures { deed_of result ≡ commit_update base slot.0 (of_locks txns.now locks.now) }
{
    if !own_locks::holds_some(locks, slot) {
        return Ok(Deed::CommitsEmpty(slot));
    }
    rows::clock(txns).next().ok_or(Refusal::ClockSpent)?;
    Ok(Deed::Commits(slot))
}

#[tactic(auto, unfolding(rules::specs::Step::commit_by, rows::specs::Founds::found_at))]
pub fn commit_by(txns: &Txns, locks: &Locks, number: u64) -> Result<Deed, Refusal>
    requires { Searchable txns.now }
    ensures { deed_of result ≡ commit_by base number (of_locks txns.now locks.now) }
{
    let slot = caller(txns, number)?;
    if rows::awaited_lock(txns, slot) != NO_LOCK {
        return Err(Refusal::StillWaiting);
    }
    if is_query(txns, slot) {
        return Ok(Deed::Ends(slot));
    }
    if rows::kind(txns, slot) == SETTLED_KIND {
        return Ok(Deed::CommitsSettled(slot));
    }
    commit_update(txns, locks, slot)
}

// Waiting or not.
#[tactic(auto, unfolding(rules::specs::Step::abort_by, rows::specs::Founds::found_at))]
pub fn abort_by(txns: &Txns, number: u64) -> Result<Deed, Refusal>
    requires { Searchable txns.now }
    ensures { deed_of result ≡ abort_by base number (of_txns txns.now) }
{
    let slot = caller(txns, number)?;
    if is_query(txns, slot) {
        return Ok(Deed::Ends(slot));
    }
    if rows::kind(txns, slot) == SETTLED_KIND {
        return Ok(Deed::AbortsSettled(slot));
    }
    Ok(Deed::Aborts(slot))
}

#[tactic(auto, unfolding(rules::specs::Step::settle_by, rows::specs::Founds::found_at, names::specs::Words::next_stamp))]
pub fn settle_by(txns: &Txns, number: u64) -> Result<Deed, Refusal>
    requires { Searchable txns.now }
    ensures { deed_of result ≡ settle_by base number (of_txns txns.now) }
{
    let slot = caller(txns, number)?;
    if is_query(txns, slot) {
        return Err(Refusal::QueryMayNotWrite);
    }
    if rows::kind(txns, slot) == SETTLED_KIND {
        return Err(Refusal::PastWriting);
    }
    if rows::awaited_lock(txns, slot) != NO_LOCK {
        return Err(Refusal::StillWaiting);
    }
    rows::clock(txns).next().ok_or(Refusal::ClockSpent)?;
    if notes::some_relaxed(txns) {
        return Err(Refusal::KeptApart);
    }
    Ok(Deed::Settles(slot))
}
