// The stamps of those past their writing: no two have one, and each is above every version of the items
// that its owner holds.
//
// Every function is proved equal to its definition, for rows of versions that each have one.
#![tactic(auto)]

ghost use Rattle.std.specs.Prelude.{◌≡◌, ◌<◌, ◌&&◌, not, eqb};
ghost use Rattle.names.specs.Sizes.{base};
ghost use Rattle.rules.specs.Words.{bit};
ghost use Rattle.rules.specs.Tables.{tables, txn, live_settled};
ghost use Rattle.rules.specs.Tested.{settled_good};
ghost use Rattle.stamps.specs.Stamped.{Stamped, Versioned, apart_from, apart_at, all_apart, above_at, all_above};

use names::{
    ITEMS, LOCK_EXCLUSIVE_AT, LOCK_ROW, Locks, SLOTS, TXN_HEAD, TXN_ROW, TXN_START_AT, Txns,
    VERSION_ROW, VERSION_STAMP_AT, Versions,
};

// Whether the slot is past its writing; `settled` holds the slots of these.
#[tactic(auto, unfolding(rules::specs::Words::bit))]
fn is_settled(settled: u64, slot: u64) -> bool
    requires { slot < base.slots }
    ensures { result ≡ bit settled slot }
{
    (settled >> slot) % 2 == 1
}

// The slot has not this stamp, or is not past its writing.

fn differs(txns: &Txns, settled: u64, slot: u64, stamp: u64) -> bool
    requires { Stamped txns.now settled × (slot < base.slots) }
    ensures { result ≡ not (live_settled (txn txns.now slot) && eqb (txn txns.now slot).start stamp) }
{
    let other = txns[TXN_HEAD + TXN_ROW * (slot as usize) + TXN_START_AT];
    !(is_settled(settled, slot) & (other == stamp))
}

// Nobody past its writing in a slot below has this stamp.
#[tactic(auto, unfolding(crate::specs::Stamped::apart_from))]
fn apart(txns: &Txns, settled: u64, slot: u64, stamp: u64) -> bool
    requires { Stamped txns.now settled × (slot < base.slots) }
    ensures { result ≡ apart_from txns.now slot stamp }
{
    words::every_below(slot, |below| differs(txns, settled, below, stamp))
}

// If the slot is past its writing, nobody below is with its stamp.
fn apart_at(txns: &Txns, settled: u64, slot: u64) -> bool
    requires { Stamped txns.now settled × (slot < base.slots) }
    ensures { result ≡ apart_at txns.now slot }
{
    if !is_settled(settled, slot) {
        return true;
    }
    apart(
        txns,
        settled,
        slot,
        txns[TXN_HEAD + TXN_ROW * (slot as usize) + TXN_START_AT],
    )
}

// No two have one stamp.
#[tactic(auto, unfolding(crate::specs::Stamped::all_apart))]
fn all_apart(txns: &Txns, settled: u64) -> bool
    requires { Stamped txns.now settled }
    ensures { result ≡ all_apart txns.now }
{
    words::every_below(SLOTS, |slot| apart_at(txns, settled, slot))
}

// If an item is held exclusively by one past its writing, the newest version of it has a lower stamp. A
// holder that is no slot is not looked for.
fn above_at(txns: &Txns, locks: &Locks, versions: &Versions, settled: u64, item: u64) -> bool
    requires { Stamped txns.now settled × Versioned locks.now versions.now × (item < base.items) }
    ensures { result ≡ above_at (tables txns.now locks.now versions.now) item }
{
    let exclusive = locks[LOCK_ROW * (item as usize) + LOCK_EXCLUSIVE_AT];
    if exclusive == 0 {
        return true;
    }
    if exclusive > SLOTS {
        return true;
    }
    let slot = exclusive - 1;
    if !is_settled(settled, slot) {
        return true;
    }
    versions[VERSION_ROW * (item as usize) + VERSION_STAMP_AT]
        < txns[TXN_HEAD + TXN_ROW * (slot as usize) + TXN_START_AT]
}

// Each stamp is above the versions of the items that its owner holds.
#[tactic(auto, unfolding(crate::specs::Stamped::all_above))]
fn all_above(txns: &Txns, locks: &Locks, versions: &Versions, settled: u64) -> bool
    requires { Stamped txns.now settled × Versioned locks.now versions.now }
    ensures { result ≡ all_above (tables txns.now locks.now versions.now) }
{
    words::every_below(ITEMS, |item| above_at(txns, locks, versions, settled, item))
}

// The rules' test of those past their writing.
pub fn stamps_pass(txns: &Txns, locks: &Locks, versions: &Versions, settled: u64) -> bool
    requires { Stamped txns.now settled × Versioned locks.now versions.now }
    ensures { result ≡ settled_good base (tables txns.now locks.now versions.now) }
{
    if !all_apart(txns, settled) {
        return false;
    }
    all_above(txns, locks, versions, settled)
}
