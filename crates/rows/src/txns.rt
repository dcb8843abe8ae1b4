// The transaction table: its head, and a row for each slot.
//
// Stays: Kinds and locks are numbers, not enums, and a slot is below the number of slots by a `requires`, not by its type: any
// word may stand in a table, and the rules (`Txn`, `Deed`, `awaits_other`, `begin_by`, `item_of`) speak of words.
ghost use Rattle.std.specs.Prelude.{◌≡◌, ◌+◌, ◌<◌, get_or, set, eqb, ◌&&◌, not};
ghost use Rattle.names.specs.Sizes.{base};
ghost use Rattle.names.specs.Layout.{txn_row, txn_rank_at};
ghost use Rattle.rules.specs.Tables.{last_number, clock, txn_at, txn, set_txn, set_awaited, set_reads, set_items_read, set_later_for, no_txn, live, slot_of, free_slot, new_txn, a_settled};
ghost use Rattle.rows.specs.Founds.{found_at};

use names::{
    CLOCK_AT, Item, LAST_NUMBER_AT, Number, SETTLED_KIND, SLOTS, Slot, Stamp, TXN_COUNT_AT,
    TXN_HEAD, TXN_ITEM_AT, TXN_ITEMS_READ_AT, TXN_KIND_AT, TXN_LATER_FOR_AT, TXN_LOCK_AT,
    TXN_RANK_AT, TXN_ROW, TXN_START_AT, TXN_SUM_AT, Txns,
};

// The last number given.
pub fn last_number(txns: &Txns) -> u64
    ensures { result ≡ last_number txns.now }
{
    txns[LAST_NUMBER_AT]
}

// The stamp that was given last.
pub fn clock(txns: &Txns) -> Stamp
    ensures { result.0 ≡ clock txns.now }
{
    Stamp(txns[CLOCK_AT])
}

// Whether the transaction in a slot lives and has this number.
fn named(txns: &Txns, slot: Slot, number: Number) -> bool
    requires { slot.0 < base.slots }
    ensures { result ≡ (live (txn txns.now slot.0) && eqb (txn txns.now slot.0).number number.0) }
{
    let word = txns[TXN_HEAD + TXN_ROW * (slot.0 as usize)];
    (word != 0) & (word == number.0)
}

// The slot of the live transaction with this number.
#[tactic(auto, unfolding(crate::specs::Founds::found_at, rules::specs::Tables::slot_of, words::specs::Below::found_below))]
pub fn slot_of(txns: &Txns, number: Number) -> Option<Slot>
    ensures { result ≡ found_at (slot_of base txns.now number.0) }
{
    words::first_below(SLOTS, |slot| named(txns, Slot(slot), number)).map(Slot)
}

// Whether a slot has no transaction.
fn free(txns: &Txns, slot: Slot) -> bool
    requires { slot.0 < base.slots }
    ensures { result ≡ not (live (txn txns.now slot.0)) }
{
    txns[TXN_HEAD + TXN_ROW * (slot.0 as usize)] == 0
}

// The lowest free slot.
#[tactic(auto, unfolding(crate::specs::Founds::found_at, rules::specs::Tables::free_slot, words::specs::Below::found_below))]
pub fn free_slot(txns: &Txns) -> Option<Slot>
    ensures { result ≡ found_at (free_slot base txns.now) }
{
    words::first_below(SLOTS, |slot| free(txns, Slot(slot))).map(Slot)
}

// One word of the row of a slot.
fn row_word(txns: &Txns, slot: Slot, k: usize) -> u64
    requires { (slot.0 < base.slots) × (k < txn_row) }
    ensures { result ≡ get_or txns.now (txn_at slot.0 + k) 0 }
{
    let at = TXN_HEAD + TXN_ROW * (slot.0 as usize);
    txns[at + k]
}

// Update, query, update past its writing, or relaxed query.
pub fn kind(txns: &Txns, slot: Slot) -> u64
    requires { slot.0 < base.slots }
    ensures { result ≡ (txn txns.now slot.0).kind }
{
    row_word(txns, slot, TXN_KIND_AT)
}

// The start of a query; the stamp of one past its writing.
pub fn start(txns: &Txns, slot: Slot) -> Stamp
    requires { slot.0 < base.slots }
    ensures { result.0 ≡ (txn txns.now slot.0).start }
{
    Stamp(row_word(txns, slot, TXN_START_AT))
}

// The lock that is awaited, or 0.
pub fn awaited_lock(txns: &Txns, slot: Slot) -> u64
    requires { slot.0 < base.slots }
    ensures { result ≡ (txn txns.now slot.0).awaited_lock }
{
    row_word(txns, slot, TXN_LOCK_AT)
}

// The word of the item that is awaited.
pub fn awaited_item(txns: &Txns, slot: Slot) -> u64
    requires { slot.0 < base.slots }
    ensures { result ≡ (txn txns.now slot.0).awaited_item }
{
    row_word(txns, slot, TXN_ITEM_AT)
}

// The rank on the awaited item, or 0.
pub fn rank(txns: &Txns, slot: Slot) -> u64
    requires { slot.0 < base.slots }
    ensures { result ≡ (txn txns.now slot.0).rank }
{
    row_word(txns, slot, TXN_RANK_AT)
}

// The rank, written.
pub fn set_rank(txns: &mut Txns, slot: Slot, rank: u64)
    requires { slot.0 < base.slots }
    ensures { txns.new ≡ set txns.old (txn_at slot.0 + txn_rank_at) rank }
{
    let at = TXN_HEAD + TXN_ROW * (slot.0 as usize);
    txns[at + TXN_RANK_AT] = rank;
}

// The awaited lock and item of a slot, and its rank there; where nothing is awaited, the item 0 and
// the rank 0.
pub fn set_awaited(txns: &mut Txns, slot: Slot, lock: u64, item: Item, rank: u64)
    requires { slot.0 < base.slots }
    ensures { txns.new ≡ set_awaited txns.old slot.0 lock item.0 rank }
{
    let at = TXN_HEAD + TXN_ROW * (slot.0 as usize);
    txns[at + TXN_LOCK_AT] = lock;
    txns[at + TXN_ITEM_AT] = item.0;
    txns[at + TXN_RANK_AT] = rank;
}

// How many reads of a query were counted.
pub fn read_count(txns: &Txns, slot: Slot) -> u64
    requires { slot.0 < base.slots }
    ensures { result ≡ (txn txns.now slot.0).read_count }
{
    row_word(txns, slot, TXN_COUNT_AT)
}

// The sum of the weights of these reads.
pub fn weight_sum(txns: &Txns, slot: Slot) -> u64
    requires { slot.0 < base.slots }
    ensures { result ≡ (txn txns.now slot.0).weight_sum }
{
    row_word(txns, slot, TXN_SUM_AT)
}

// The count and the sum, written.
pub fn set_reads(txns: &mut Txns, slot: Slot, count: u64, sum: u64)
    requires { slot.0 < base.slots }
    ensures { txns.new ≡ set_reads txns.old slot.0 count sum }
{
    let at = TXN_HEAD + TXN_ROW * (slot.0 as usize);
    txns[at + TXN_COUNT_AT] = count;
    txns[at + TXN_SUM_AT] = sum;
}

// The items that a relaxed query has read.
pub fn items_read(txns: &Txns, slot: Slot) -> u64
    requires { slot.0 < base.slots }
    ensures { result ≡ (txn txns.now slot.0).items_read }
{
    row_word(txns, slot, TXN_ITEMS_READ_AT)
}

// The items read, written.
pub fn set_items_read(txns: &mut Txns, slot: Slot, word: u64)
    requires { slot.0 < base.slots }
    ensures { txns.new ≡ set_items_read txns.old slot.0 word }
{
    let at = TXN_HEAD + TXN_ROW * (slot.0 as usize);
    txns[at + TXN_ITEMS_READ_AT] = word;
}

// The relaxed queries for which an update is a later one.
pub fn later_for(txns: &Txns, slot: Slot) -> u64
    requires { slot.0 < base.slots }
    ensures { result ≡ (txn txns.now slot.0).later_for }
{
    row_word(txns, slot, TXN_LATER_FOR_AT)
}

// These, written.
pub fn set_later_for(txns: &mut Txns, slot: Slot, word: u64)
    requires { slot.0 < base.slots }
    ensures { txns.new ≡ set_later_for txns.old slot.0 word }
{
    let at = TXN_HEAD + TXN_ROW * (slot.0 as usize);
    txns[at + TXN_LATER_FOR_AT] = word;
}

// Whether a slot has a live transaction of this kind.
pub fn lives_as(txns: &Txns, slot: Slot, kind: u64) -> bool
    requires { slot.0 < base.slots }
    ensures { result ≡ (live (txn txns.now slot.0) && eqb (txn txns.now slot.0).kind kind) }
{
    let at = TXN_HEAD + TXN_ROW * (slot.0 as usize);
    !(txns[at] == 0) & (txns[at + TXN_KIND_AT] == kind)
}

// The row of a slot goes: each of its words becomes 0.
pub fn leave(txns: &mut Txns, slot: Slot)
    requires { slot.0 < base.slots }
    ensures { txns.new ≡ set_txn txns.old slot.0 no_txn }
{
    let at = TXN_HEAD + TXN_ROW * (slot.0 as usize);
    txns[at..at + TXN_ROW].fill(0);
}

// A new row: the number, the kind and the start; its other words are 0.
#[tactic(auto, using(rules::proofs::Views::set_txn_new))]
fn put_row(txns: &mut Txns, slot: Slot, number: Number, kind: u64, start: Stamp)
    requires { slot.0 < base.slots }
    ensures { txns.new ≡ set_txn txns.old slot.0 (new_txn number.0 kind start.0) }
{
    let n = number.0;
    let q = start.0;
    leave(txns, slot);
    let at = TXN_HEAD + TXN_ROW * (slot.0 as usize);
    txns[at] = n;
    txns[at + TXN_KIND_AT] = kind;
    txns[at + TXN_START_AT] = q;
}

// The row of one that begins: its number is now the last one given.
pub fn begin(txns: &mut Txns, slot: Slot, number: Number, kind: u64, start: Stamp)
    requires { slot.0 < base.slots }
    ensures { txns.new ≡ set_txn (set txns.old 0 number.0) slot.0 (new_txn number.0 kind start.0) }
{
    let n = number.0;
    txns[LAST_NUMBER_AT] = n;
    put_row(txns, slot, number, kind, start);
}

// The clock, written.
pub fn set_clock(txns: &mut Txns, stamp: Stamp)
    ensures { txns.new ≡ set txns.old 1 stamp.0 }
{
    let c = stamp.0;
    txns[CLOCK_AT] = c;
}

// An update takes its stamp, which is now the clock, and is past its writing.
pub fn settle(txns: &mut Txns, slot: Slot, stamp: Stamp)
    requires { slot.0 < base.slots }
    ensures { txns.new ≡ set_txn (set txns.old 1 stamp.0) slot.0 (new_txn (txn txns.old slot.0).number a_settled stamp.0) }
{
    let n = row_word(&*txns, slot, 0);
    set_clock(txns, stamp);
    put_row(txns, slot, Number(n), SETTLED_KIND, stamp);
}
