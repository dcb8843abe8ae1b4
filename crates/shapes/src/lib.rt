// The transaction rows: their shape, who is a live update, who of these waits, who is past its
// writing, who is a relaxed query, which sets there are, and that no two live transactions have one
// number.
//
// Every function is proved equal to its definition.
#![tactic(auto)]

ghost use Rattle.std.specs.Prelude.{◌≡◌, ◌<◌};
ghost use Rattle.names.specs.Sizes.{base};
ghost use Rattle.rules.specs.Tables.{txn};
ghost use Rattle.rules.specs.Tested.{distinct};
ghost use Rattle.shapes.specs.Shape.{txn_of, free_ok, update_ok, query_ok, settled_ok, relaxed_ok, seen, apart_from, distinct_at};

use names::{
    CLOCK_AT, EXCLUSIVE_LOCK, LAST_NUMBER_AT, NO_LOCK, QUERY_KIND, RELAXED_KIND, SETTLED_KIND,
    SLOTS, TXN_COUNT_AT, TXN_HEAD, TXN_ITEM_AT, TXN_ITEMS_READ_AT, TXN_KIND_AT, TXN_LATER_FOR_AT,
    TXN_LOCK_AT, TXN_RANK_AT, TXN_ROW, TXN_START_AT, TXN_SUM_AT, Txns, UPDATE_KIND,
};

// A word with a bit for each item.
const EVERY_ITEM: u64 = 18446744073709551615;

// What one pass over the transaction rows sees: whether each is as the rules ask, but for what the
// locks have a part in; the slots of the live updates; the slots of those that await a lock; the slots
// of those past their writing; the slots of the relaxed queries; and whose sets there are.
// Stays: `ok` is no Option: the contract of `rows` says the words of rows that are not as asked, too.
#[derive(Clone, Copy)]
pub struct Seen {
    pub ok: bool,
    pub updates: u64,
    pub waiting: u64,
    pub settled: u64,
    pub relaxed: u64,
    pub later: u64,
}

// The words of a transaction's row.
#[derive(Clone, Copy)]
struct Row {
    number: u64,
    kind: u64,
    start: u64,
    wanted: u64,
    item: u64,
    rank: u64,
    count: u64,
    sum: u64,
    read: u64,
    later: u64,
}

#[tactic(auto, unfolding(rules::specs::Tables::txn))]
fn row_at(txns: &Txns, slot: u64) -> Row
    requires { slot < base.slots }
    ensures { txn_of result ≡ txn txns.now slot }
{
    let at = TXN_HEAD + TXN_ROW * (slot as usize);
    Row {
        number: txns[at],
        kind: txns[at + TXN_KIND_AT],
        start: txns[at + TXN_START_AT],
        wanted: txns[at + TXN_LOCK_AT],
        item: txns[at + TXN_ITEM_AT],
        rank: txns[at + TXN_RANK_AT],
        count: txns[at + TXN_COUNT_AT],
        sum: txns[at + TXN_SUM_AT],
        read: txns[at + TXN_ITEMS_READ_AT],
        later: txns[at + TXN_LATER_FOR_AT],
    }
}

// A free row is all zeros.
fn free_ok(free: Row) -> bool
    ensures { result ≡ free_ok (txn_of free) }
{
    (free.kind == 0)
        & (free.start == 0)
        & (free.wanted == 0)
        & ((free.item == 0) & (free.rank == 0))
        & ((free.count == 0) & (free.sum == 0))
        & ((free.read == 0) & (free.later == 0))
}

// A live update has a number that was given and no start; it may await a lock on an item, with a
// rank there. Its reads are neither counted nor noted; it may be in sets.
fn update_ok(last: u64, update: Row) -> bool
    ensures { result ≡ update_ok last (txn_of update) }
{
    (update.number <= last)
        & (update.start == 0)
        & (update.wanted <= EXCLUSIVE_LOCK)
        & (update.item < names::ITEMS)
        & (!(update.wanted == NO_LOCK) | ((update.item == 0) & (update.rank == 0)))
        & ((update.count == 0) & (update.sum == 0) & (update.read == 0))
}

// A live query has a number that was given and a start that was; it awaits nothing. The count of its
// reads and the sum of their weights are held at the last word; what it reads is not noted, and it is
// in no set.
fn query_ok(last: u64, clock: u64, query: Row) -> bool
    ensures { result ≡ query_ok last clock (txn_of query) }
{
    (query.number <= last)
        & (query.kind == QUERY_KIND)
        & (query.start <= clock)
        & (query.wanted == NO_LOCK)
        & ((query.item == 0) & (query.rank == 0))
        & ((query.count <= names::LAST_WORD)
            & (query.sum <= names::LAST_WORD)
            & ((query.read == 0) & (query.later == 0)))
}

// A relaxed query has a number that was given and no start; it awaits nothing. Its reads are counted
// and weighed as a query's are, what it has read are items, and it is in no set.
fn relaxed_ok(last: u64, relaxed: Row) -> bool
    ensures { result ≡ relaxed_ok last (txn_of relaxed) }
{
    (relaxed.number <= last)
        & (relaxed.start == 0)
        & (relaxed.wanted == NO_LOCK)
        & ((relaxed.item == 0) & (relaxed.rank == 0))
        & ((relaxed.count <= names::LAST_WORD)
            & (relaxed.sum <= names::LAST_WORD)
            & ((relaxed.read <= EVERY_ITEM) & (relaxed.later == 0)))
}

// One past its writing has a number and a stamp that were given; it awaits nothing, its reads are
// neither counted nor noted, and it is in no set.
fn settled_ok(last: u64, clock: u64, settled: Row) -> bool
    ensures { result ≡ settled_ok last clock (txn_of settled) }
{
    (settled.number <= last)
        & ((1 <= settled.start) & (settled.start <= clock))
        & (settled.wanted == NO_LOCK)
        & ((settled.item == 0) & (settled.rank == 0))
        & ((settled.count == 0) & (settled.sum == 0) & ((settled.read == 0) & (settled.later == 0)))
}

// One pass over the transaction rows.
pub fn rows(txns: &Txns) -> Seen
    ensures { result ≡ seen base txns.now }
{
    let last = txns[LAST_NUMBER_AT];
    let clock = txns[CLOCK_AT];
    let mut seen = Seen {
        ok: (last <= names::LAST_WORD) & (clock <= names::LAST_WORD),
        updates: 0,
        waiting: 0,
        settled: 0,
        relaxed: 0,
        later: 0,
    };
    for slot in 0..SLOTS {
        let row = row_at(txns, slot);
        if row.number == 0 {
            seen.ok &= free_ok(row);
        } else {
            match row.kind {
                UPDATE_KIND => {
                    seen.ok &= update_ok(last, row);
                    seen.updates |= 1 << slot;
                    if row.wanted != NO_LOCK {
                        seen.waiting |= 1 << slot;
                    }
                }
                SETTLED_KIND => {
                    seen.ok &= settled_ok(last, clock, row);
                    seen.settled |= 1 << slot;
                }
                RELAXED_KIND => {
                    seen.ok &= relaxed_ok(last, row);
                    seen.relaxed |= 1 << slot;
                }
                _ => seen.ok &= query_ok(last, clock, row),
            }
        }
        seen.later |= row.later;
    }
    seen
}

// No slot below `slot` has this number.
#[tactic(auto, unfolding(crate::specs::Shape::apart_from, rules::specs::Tables::txn))]
fn apart(txns: &Txns, slot: u64, number: u64) -> bool
    requires { slot < base.slots }
    ensures { result ≡ apart_from txns.now slot number }
{
    words::every_below(slot, |below| {
        txns[TXN_HEAD + TXN_ROW * (below as usize)] != number
    })
}

// If the slot is live, no slot below has its number.
fn distinct_at(txns: &Txns, slot: u64) -> bool
    requires { slot < base.slots }
    ensures { result ≡ distinct_at txns.now slot }
{
    let number = txns[TXN_HEAD + TXN_ROW * (slot as usize)];
    if number == 0 {
        return true;
    }
    apart(txns, slot, number)
}

// No two live transactions have one number.
#[tactic(auto, unfolding(rules::specs::Tested::distinct, crate::specs::Shape::distinct_at))]
pub fn distinct(txns: &Txns) -> bool
    ensures { result ≡ distinct base txns.now }
{
    words::every_below(SLOTS, |slot| distinct_at(txns, slot))
}
