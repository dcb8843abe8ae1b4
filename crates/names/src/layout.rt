// How the three tables are laid out: where each word of a head or a row stands, how many words a row
// has, and how many a table. specs/Layout says the same for the definitions; the proofs of the
// crates above hold the two together.
use super::{ITEMS, PLACES, SLOTS};

// Transactions: a head of two words, then a row for each slot.
pub const LAST_NUMBER_AT: usize = 0;

pub const CLOCK_AT: usize = 1;

pub const TXN_HEAD: usize = 2;

// A row begins with the number of the transaction; the other words stand behind it.
pub const TXN_KIND_AT: usize = 1;

pub const TXN_START_AT: usize = 2;

pub const TXN_LOCK_AT: usize = 3;

pub const TXN_ITEM_AT: usize = 4;

pub const TXN_RANK_AT: usize = 5;

pub const TXN_COUNT_AT: usize = 6;

pub const TXN_SUM_AT: usize = 7;

pub const TXN_ITEMS_READ_AT: usize = 8;

pub const TXN_LATER_FOR_AT: usize = 9;

pub const TXN_ROW: usize = 10;

pub const TXN_WORDS: usize = TXN_HEAD + TXN_ROW * (SLOTS as usize);

pub type Txns = [u64; TXN_WORDS];

// The kinds of transactions. Stays: numbers, since a table that C lends may have any word in their place.
pub const UPDATE_KIND: u64 = 0;

pub const QUERY_KIND: u64 = 1;

pub const SETTLED_KIND: u64 = 2;

pub const RELAXED_KIND: u64 = 3;

// The locks that are awaited. Stays: numbers, as the kinds are.
pub const NO_LOCK: u64 = 0;

pub const SHARED_LOCK: u64 = 1;

pub const EXCLUSIVE_LOCK: u64 = 2;

// Locks: a row for each item. A row begins with the word of the shared holders.
pub const LOCK_EXCLUSIVE_AT: usize = 1;

pub const LOCK_WORKING_AT: usize = 2;

pub const LOCK_ROW: usize = 3;

pub const LOCK_WORDS: usize = LOCK_ROW * (ITEMS as usize);

pub type Locks = [u64; LOCK_WORDS];

// Versions: a row for each item, of a count, pairs of stamp and value, and then a word for each pair
// that says from whom it is hidden. The places are those of the first pair and of the first such
// word; the next pair stands a pair's words further.
pub const VERSION_COUNT_AT: usize = 0;

pub const VERSION_STAMP_AT: usize = 1;

pub const VERSION_VALUE_AT: usize = 2;

pub const VERSION_PAIR: usize = 2;

pub const VERSION_HIDDEN_AT: usize = VERSION_STAMP_AT + VERSION_PAIR * (PLACES as usize);

pub const VERSION_ROW: usize = VERSION_HIDDEN_AT + (PLACES as usize);

pub const VERSION_WORDS: usize = VERSION_ROW * (ITEMS as usize);

pub type Versions = [u64; VERSION_WORDS];
