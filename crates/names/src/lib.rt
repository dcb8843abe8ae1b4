// The words of the keeper: transaction numbers, stamps, items and slots, each a struct of its own
// so that none can stand in for another, a call, what it comes to, the four numbers of its answer,
// the sizes, and how the tables are laid out.
//
// Every function is proved against a definition of specs/, and none has a `requires`.
#![tactic(auto, unfolding(crate::specs::Words::next_stamp, crate::specs::Words::item_of, crate::specs::Words::number_of, crate::specs::Words::held_at_last))]

mod calls;
mod deeds;
mod layout;

ghost use Rattle.std.specs.Prelude.{◌≡◌, ◌+◌};
ghost use Rattle.names.specs.Sizes.{base};
ghost use Rattle.names.specs.Answers.{refusal, plain, numbered, found};
ghost use Rattle.names.specs.Words.{next_stamp, item_of, number_of, held_at_last};

pub use calls::Call;
pub use deeds::{Cell, Deed, Refusal};
pub use layout::{
    CLOCK_AT, EXCLUSIVE_LOCK, LAST_NUMBER_AT, LOCK_EXCLUSIVE_AT, LOCK_ROW, LOCK_WORDS,
    LOCK_WORKING_AT, Locks, NO_LOCK, QUERY_KIND, RELAXED_KIND, SETTLED_KIND, SHARED_LOCK,
    TXN_COUNT_AT, TXN_HEAD, TXN_ITEM_AT, TXN_ITEMS_READ_AT, TXN_KIND_AT, TXN_LATER_FOR_AT,
    TXN_LOCK_AT, TXN_RANK_AT, TXN_ROW, TXN_START_AT, TXN_SUM_AT, TXN_WORDS, Txns, UPDATE_KIND,
    VERSION_COUNT_AT, VERSION_HIDDEN_AT, VERSION_PAIR, VERSION_ROW, VERSION_STAMP_AT,
    VERSION_VALUE_AT, VERSION_WORDS, Versions,
};

// Live transactions at most, items, and versions an item at most.
pub const SLOTS: u64 = 32;

pub const ITEMS: u64 = 64;

pub const PLACES: u64 = 32;

// Items that one update may hold exclusively at most.
pub const QUOTA: u64 = 32;

// The greatest transaction number and the greatest stamp, and where counts and sums are held.
pub const LAST_WORD: u64 = 4294967295;

// A sum that is held at the last word once there.
pub fn held_sum(a: u64, b: u64) -> u64
    ensures { result ≡ held_at_last (a + b) }
{
    a.saturating_add(b).min(LAST_WORD)
}

// The sizes that the definitions go by.
#[derive(Clone, Copy)]
pub struct Sizes {
    pub slots: u64,
    pub items: u64,
    pub places: u64,
    pub quota: u64,
}

impl Sizes {
    // The appliance's sizes: what ties the constants of this file to the definitions.
    pub fn base() -> Self
        ensures { result ≡ base }
    {
        Sizes {
            slots: SLOTS,
            items: ITEMS,
            places: PLACES,
            quota: QUOTA,
        }
    }
}

// The number of a transaction, from 1 to the last word; it is never given twice.
#[derive(Clone, Copy)]
pub struct Number(pub u64);

// When an update committed.
#[derive(Clone, Copy)]
pub struct Stamp(pub u64);

// One of the items.
#[derive(Clone, Copy)]
pub struct Item(pub u64);

// The place of a live transaction.
// Stays: the rules' `item_of` and `found_at` make an item and a slot of a word by a test,
// so neither type has an invariant, and a function asks for the bound that it needs.
#[derive(Clone, Copy)]
pub struct Slot(pub u64);

// The four numbers of an answer.
#[repr(C)]
#[derive(Clone, Copy, PartialEq, Eq)]
pub struct Answer {
    pub code: u64,
    pub value: u64,
    pub number: u64,
    pub looked: u64,
}

impl Answer {
    pub fn refused(why: Refusal) -> Self
        ensures { result ≡ refusal why }
    {
        Answer {
            code: why.code(),
            value: 0,
            number: 0,
            looked: 0,
        }
    }

    // Granted, with nothing to name.
    pub fn granted() -> Self
        ensures { result ≡ plain }
    {
        Answer::found(0, 0)
    }

    // Granted: a new number, or a stamp.
    pub fn numbered(number: u64) -> Self
        ensures { result ≡ numbered number }
    {
        Answer {
            code: 0,
            value: 0,
            number,
            looked: 0,
        }
    }

    // Granted: a value, and at how many versions one looked for it.
    pub fn found(value: u64, looked: u64) -> Self
        ensures { result ≡ found value looked }
    {
        Answer {
            code: 0,
            value,
            number: 0,
            looked,
        }
    }
}

impl Stamp {
    pub const FIRST: Stamp = Stamp(0);

    pub const LAST: Stamp = Stamp(LAST_WORD);

    // The stamp after this one, if there is one.
    pub fn next(self) -> Option<Stamp>
        ensures { result ≡ next_stamp self }
    {
        let stamp = self.0;
        if stamp < Stamp::LAST.0 {
            Some(Stamp(stamp + 1))
        } else {
            None
        }
    }
}

impl Item {
    // A word of a call as an item, if it is one.
    pub fn of(word: u64) -> Option<Item>
        ensures { result ≡ item_of word }
    {
        if word < ITEMS { Some(Item(word)) } else { None }
    }
}

impl Number {
    // A word of a call as a transaction's number, if one can have it.
    pub fn of(word: u64) -> Option<Number>
        ensures { result ≡ number_of word }
    {
        if word == 0 {
            return None;
        }
        if LAST_WORD < word {
            return None;
        }
        Some(Number(word))
    }
}
