// Rows of the transaction table and of the lock table, read and written: the code that knows where
// a word stands, and in a word of slots a slot. Every function is proved equal to the rules' view of its row, and decides nothing.
#![tactic(auto, unfolding(rules::specs::Tables::txn, rules::specs::Tables::live, rules::specs::Tables::lock, rules::specs::Tables::set_lock, rules::specs::Tables::set_awaited, rules::specs::Tables::set_reads, rules::specs::Tables::set_items_read, rules::specs::Tables::set_later_for))]

mod locks;
mod slots;
mod txns;

pub use locks::{LockRow, lock_at, set_lock};
pub use slots::without_bit;
pub use txns::{
    awaited_item, awaited_lock, begin, clock, free_slot, items_read, kind, last_number, later_for,
    leave, lives_as, rank, read_count, set_awaited, set_clock, set_items_read, set_later_for,
    set_rank, set_reads, settle, slot_of, start, weight_sum,
};
