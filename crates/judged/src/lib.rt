// What a call comes to on good tables, found by reading alone: a refusal, or a deed with the slot and
// the item that it needs. Proved equal to `judged` of the rules, test by test in their order.
#![tactic(auto)]

ghost use Rattle.std.specs.Prelude.{◌≡◌};
ghost use Rattle.names.specs.Sizes.{base};
ghost use Rattle.rules.specs.Tables.{tables};
ghost use Rattle.rules.specs.Good.{Good};
ghost use Rattle.rules.specs.Step.{judged};
ghost use Rattle.asked.specs.Deeds.{deed_of};

use names::{
    Call, Deed, Locks, QUERY_KIND, RELAXED_KIND, Refusal, Stamp, Txns, UPDATE_KIND, Versions,
};

mod begins;
mod ends;

// The deed, or why the call is refused.
#[tactic(auto, unfolding(rules::specs::Step::judged, rules::specs::Step::begin_by, rules::specs::Step::commit_by, rules::specs::Step::commit_update, rules::specs::Step::abort_by, rules::specs::Step::settle_by))]
fn found(call: Call, txns: &Txns, locks: &Locks, versions: &Versions) -> Result<Deed, Refusal>
    requires { Good base (tables txns.now locks.now versions.now) }
    ensures { deed_of result ≡ judged base call (tables txns.now locks.now versions.now) }
{
    match call {
        Call::BeginUpdate => begins::begin_by(txns, UPDATE_KIND, Stamp::FIRST),
        Call::BeginQuery => begins::begin_by(txns, QUERY_KIND, rows::clock(txns)),
        Call::Read { number, item } => asked::read_by(txns, locks, versions, number, item),
        Call::Write {
            number,
            item,
            value,
        } => asked::write_by(txns, locks, versions, number, item, value),
        Call::Commit { number } => ends::commit_by(txns, locks, number),
        Call::Abort { number } => ends::abort_by(txns, number),
        Call::Settle { number } => ends::settle_by(txns, number),
        Call::BeginRelaxed => begins::begin_by(txns, RELAXED_KIND, Stamp::FIRST),
    }
}

// A refusal is a deed too: one that changes nothing.
pub fn judged(call: Call, txns: &Txns, locks: &Locks, versions: &Versions) -> Deed
    requires { Good base (tables txns.now locks.now versions.now) }
    ensures { result ≡ judged base call (tables txns.now locks.now versions.now) }
{
    found(call, txns, locks, versions).unwrap_or_else(Deed::Refused)
}
