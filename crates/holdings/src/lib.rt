// The locks: who shares one is a live update, who holds one exclusively may be past its writing, no lock is held both ways, a working value stands only
// where one is held exclusively, and nobody holds more of these than the quota.
//
// Every function is proved equal to its definition.
#![tactic(auto)]

ghost use Rattle.std.specs.Prelude.{◌≡◌, ◌&&◌, ◌<◌, ◌^◌, get_or, true, false, IfSome, IfNone};
ghost use Rattle.names.specs.Sizes.{base};
ghost use Rattle.rules.specs.Tables.{txn};
ghost use Rattle.shapes.specs.Shape.{updates_in, settled_in};
ghost use Rattle.holdings.specs.Holding.{locks_good, quotas_good, lock_ok, locks_ok, nothing_held, Counted, quota_ok, quotas_ok};

use names::{
    EXCLUSIVE_LOCK, ITEMS, LOCK_EXCLUSIVE_AT, LOCK_ROW, LOCK_WORDS, LOCK_WORKING_AT, Locks, QUOTA,
    SLOTS, TXN_HEAD, TXN_LOCK_AT, TXN_ROW, Txns,
};

// A number for each slot.
type Counts = [u64; SLOTS as usize];

// What one pass over the locks sees where each is as the rules ask: how many items each slot holds
// exclusively; a word that no count is above.
#[derive(Drop)]
struct Holdings {
    counts: Counts,
    most: u64,
}

// The bits of a word: a shift is by less.
const WIDTH: u64 = 64;

// One lock, where `updates` holds the slots of the live updates and `holders` those of all who may hold
// exclusively.
#[tactic(auto, unfolding(crate::specs::Holding::lock_ok))]
fn lock_ok(shared: u64, exclusive: u64, working: u64, updates: u64, holders: u64) -> bool
    requires { holders < 2 ^ base.slots }
    ensures { result ≡ lock_ok updates holders (record { shared = shared; exclusive = exclusive; working = working }) }
{
    if exclusive == 0 {
        return (working == 0) & ((shared & updates) == shared);
    }
    (shared == 0) & (exclusive <= SLOTS) & (((holders * 2) >> (exclusive % WIDTH)) % 2 == 1)
}

// One pass over the locks; nothing where one is not as the rules ask. A holder that is no slot fails the
// test of its lock and is not counted. `most` is the or of all counts: none is above it, and it is below
// the quota, a power of two, as long as they are.
fn locks_ok(locks: &Locks, updates: u64, holders: u64) -> Option<Holdings>
    requires { holders < 2 ^ base.slots }
    ensures counted { IfSome result (λ h. (locks_ok updates holders locks.now ≡ true) × Counted locks.now h.counts h.most) }
    ensures refused { IfNone result (locks_ok updates holders locks.now ≡ false) }
{
    let mut counts = [0u64; SLOTS as usize];
    let mut most = 0;
    let mut ok = true;
    for item in 0..ITEMS as usize {
        let at = LOCK_ROW * item;
        let exclusive = locks[at + LOCK_EXCLUSIVE_AT];
        ok = lock_ok(
            locks[at],
            exclusive,
            locks[at + LOCK_WORKING_AT],
            updates,
            holders,
        ) & ok;
        if exclusive != 0 {
            if exclusive <= SLOTS {
                let holder = (exclusive - 1) as usize;
                let held = counts[holder] + 1;
                counts[holder] = held;
                most |= held;
            }
        }
    }
    if ok {
        Some(Holdings { counts, most })
    } else {
        None
    }
}

// One slot, by its count: it holds no more than the quota, and at the quota it awaits no exclusive lock.
#[tactic(auto, unfolding(rules::specs::Tables::txn))]
fn quota_ok(txns: &Txns, counts: &Counts, slot: u64) -> bool
    requires { slot < base.slots }
    ensures { result ≡ quota_ok (get_or counts.now slot 0) (txn txns.now slot).awaited_lock }
{
    let held = counts[slot as usize];
    let wanted = txns[TXN_HEAD + TXN_ROW * (slot as usize) + TXN_LOCK_AT];
    (held <= QUOTA) & !((held == QUOTA) & (wanted == EXCLUSIVE_LOCK))
}

// Each slot, by the counts.
#[tactic(auto, unfolding(crate::specs::Holding::quotas_ok))]
fn quotas_ok(txns: &Txns, counts: &Counts) -> bool
    ensures { result ≡ quotas_ok txns.now counts.now }
{
    words::every_below(SLOTS, |slot| quota_ok(txns, counts, slot))
}

// No lock word is set.
#[tactic(auto, unfolding(crate::specs::Holding::nothing_held, words::specs::Zeros::zero_words))]
fn none_held(locks: &Locks) -> bool
    ensures { result ≡ nothing_held locks.now }
{
    words::zeros(locks, 0, LOCK_WORDS)
}

// Whether each lock is as the rules ask and what each slot holds keeps to the quota; `updates` holds the
// live updates, `settled` those past their writing. With neither, no lock word may be set; with every count below the quota, none is tried.
pub fn locks_pass(txns: &Txns, locks: &Locks, updates: u64, settled: u64) -> bool
    requires { (updates < 2 ^ base.slots) × (settled < 2 ^ base.slots) }
    ensures { updates ≡ updates_in base txns.now → settled ≡ settled_in base txns.now → result ≡ (locks_good base txns.now locks.now && quotas_good base txns.now locks.now) }
{
    let holders = updates | settled;
    if holders == 0 {
        return none_held(locks);
    }
    let Some(held) = locks_ok(locks, updates, holders) else {
        return false;
    };
    if held.most < QUOTA {
        return true;
    }
    quotas_ok(txns, &held.counts)
}
