// The waits: whom each slot waits for, that who awaits a lock does not hold it already, and that each
// stands where it may in its line.
//
// Good tables can be read so, as proofs/Handed says.
#![tactic(auto)]

ghost use Rattle.std.specs.Prelude.{◌≡◌, ◌&&◌, ℕ, ◌<◌, ◌≤◌, ◌^◌};
ghost use Rattle.names.specs.Sizes.{base};
ghost use Rattle.rules.specs.Tables.{txn};
ghost use Rattle.rules.specs.Waits.{no_circle, ahead};
ghost use Rattle.rules.specs.Tested.{ranks_good};
ghost use Rattle.waiting.specs.Waiting.{Readable, Awaiting, Holders, Ahead, Blockers, Links, awaiters_good, awaiter_ok};

use names::{
    EXCLUSIVE_LOCK, Item, Locks, NO_LOCK, SHARED_LOCK, SLOTS, Slot, TXN_HEAD, TXN_ITEM_AT,
    TXN_LOCK_AT, TXN_RANK_AT, TXN_ROW, Txns,
};

// What one pass over the rows that await a lock sees: whether each may await it; whom each slot waits
// for, as a word of slots.
// Stays: `ok` is no Option: the contract of `waits` says whom each waits for where one may not await, too.
#[derive(Drop)]
pub struct Waiters {
    pub ok: bool,
    pub links: [u64; SLOTS as usize],
}

// Who awaits a lock does not hold it exclusively, nor shared if it is a shared one.
fn awaiter_ok(shared: u64, exclusive: u64, wanted: u64, slot: u64) -> bool
    requires { slot < base.slots }
    ensures { result ≡ awaiter_ok shared exclusive wanted slot }
{
    !(exclusive == slot + 1) & (!(wanted == SHARED_LOCK) | ((shared >> slot) % 2 == 0))
}

// The word of the slots whose hold on a lock conflicts with a request for the lock `wanted`; `shared`
// and `exclusive` say who holds it.
fn holders(shared: u64, exclusive: u64, wanted: u64) -> u64
    requires { (shared < 2 ^ base.slots) × (exclusive ≤ base.slots) }
    ensures { (working : ℕ) → Holders (record { shared = shared; exclusive = exclusive; working = working }) wanted result }
{
    let mut all: u64 = 0;
    if exclusive != 0 {
        all = 1 << (exclusive - 1);
    }
    if wanted == EXCLUSIVE_LOCK {
        all = all | shared;
    }
    all
}

// Whether a slot waits on an item before a rank, and its wait conflicts with a request for the lock
// `wanted`.
#[tactic(auto, unfolding(rules::specs::Waits::ahead, rules::specs::Waits::awaits_on, rules::specs::Waits::awaits, rules::specs::Tables::txn))]
fn is_ahead(txns: &Txns, slot: u64, wanted: u64, item: Item, rank: u64) -> bool
    requires { slot < base.slots }
    ensures { result ≡ ahead item.0 wanted rank (txn txns.now slot) }
{
    let x = item.0;
    let at = TXN_HEAD + TXN_ROW * (slot as usize);
    let lock = txns[at + TXN_LOCK_AT];
    let awaited = txns[at + TXN_ITEM_AT];
    let place = txns[at + TXN_RANK_AT];
    (!(lock == NO_LOCK) & (awaited == x))
        & ((place < rank) & ((wanted == EXCLUSIVE_LOCK) | (lock == EXCLUSIVE_LOCK)))
}

// The word of the slots that wait on an item before a rank, in conflict with a request for the lock
// `wanted`.
pub fn ahead(txns: &Txns, wanted: u64, item: Item, rank: u64) -> u64
    ensures { Ahead txns.now wanted item.0 rank result }
{
    words::those_below(SLOTS, |slot| is_ahead(txns, slot, wanted, item, rank))
}

// The word of the slots that block a request, at this rank, by `slot` for the lock `wanted` on an item.
fn blockers(txns: &Txns, locks: &Locks, wanted: u64, item: Item, rank: u64, slot: Slot) -> u64
    requires { Readable txns.now locks.now × (item.0 < base.items) × (slot.0 < base.slots) }
    ensures { Blockers txns.now locks.now wanted item.0 rank slot.0 result }
{
    let row = rows::lock_at(locks, item);
    let held = holders(row.shared, row.exclusive, wanted);
    let first = ahead(txns, wanted, item, rank);
    let all = held | first;
    all ^ (all & (1 << slot.0))
}

// One pass over the rows that await a lock: whether each may, and whom each slot waits for.
pub fn waits(txns: &Txns, locks: &Locks) -> Waiters
    requires { Readable txns.now locks.now }
    ensures { (result.ok ≡ awaiters_good base txns.now locks.now) × Links txns.now locks.now result.links }
{
    let mut links = [0u64; SLOTS as usize];
    let mut ok = true;
    for slot in 0..SLOTS {
        let at = TXN_HEAD + TXN_ROW * (slot as usize);
        let wanted = txns[at + TXN_LOCK_AT];
        if wanted != NO_LOCK {
            let item = txns[at + TXN_ITEM_AT];
            let rank = txns[at + TXN_RANK_AT];
            let row = rows::lock_at(locks, Item(item));
            ok = awaiter_ok(row.shared, row.exclusive, wanted, slot) & ok;
            links[slot as usize] = blockers(txns, locks, wanted, Item(item), rank, Slot(slot));
        }
    }
    Waiters { ok, links }
}

// Whether each who awaits a lock may, each stands where it may in its line, and nobody waits in a
// circle; `waiting` holds those who await.
pub fn waits_pass(txns: &Txns, locks: &Locks, waiting: u64) -> bool
    requires { Readable txns.now locks.now × Awaiting txns.now waiting }
    ensures { result ≡ (awaiters_good base txns.now locks.now && (ranks_good base txns.now locks.now && no_circle base txns.now locks.now)) }
{
    let Waiters { ok, links } = waits(txns, locks);
    let free = circles::no_circle(&links, waiting);
    ok & (ranked::ranks_ok(txns, locks) & free)
}
