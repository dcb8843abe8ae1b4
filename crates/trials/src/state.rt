// The three tables of a trial, by value: what a call gets and what it leaves.
//
// Each has a word to spare, and says how many of its words are lent to a call, so that tables of
// wrong sizes are tried like others.
ghost use Rattle.std.specs.Prelude.{◌≡◌, ◌+◌, ◌≤◌};
ghost use Rattle.tally.specs.Counts.{differing};

use names::{Answer, Call, ITEMS, LOCK_WORDS, SLOTS, TXN_WORDS, VERSION_WORDS};
use tally::WAIT;

// Where the words stand.
const TXN_HEAD: u64 = names::TXN_HEAD as u64;

const TXN_ROW: u64 = names::TXN_ROW as u64;

const LOCK_ROW: u64 = names::LOCK_ROW as u64;

const VERSION_ROW: u64 = names::VERSION_ROW as u64;

// Room for each table, with a word to spare.
const TXN_ROOM: usize = TXN_WORDS + 1;

const LOCK_ROOM: usize = LOCK_WORDS + 1;

const VERSION_ROOM: usize = VERSION_WORDS + 1;

// A table by its name; the two words before the transactions' rows are the head.
#[derive(Clone, Copy, PartialEq, Eq)]
pub enum Table {
    Head,
    Txns,
    Locks,
    Versions,
}

impl Table {
    // The table whose name begins with a letter; that of the versions, if it is no other's.
    pub fn of(letter: Option<u8>) -> Table {
        match letter {
            Some(b'h') => Table::Head,
            Some(b't') => Table::Txns,
            Some(b'l') => Table::Locks,
            _ => Table::Versions,
        }
    }
}

// How many words of each table are lent.
#[derive(Clone, Copy)]
pub struct Lent {
    txns: usize,
    locks: usize,
    versions: usize,
}

#[derive(Clone, Copy)]
pub struct Tables {
    txns: [u64; TXN_ROOM],
    locks: [u64; LOCK_ROOM],
    versions: [u64; VERSION_ROOM],
    lent: Lent,
}

// So many words of a table, or all that there are.
fn at_most(words: &mut [u64], count: usize) -> &mut [u64] {
    let end = count.min(words.len());
    &mut words[..end]
}

// Where a word of a row stands in its table.
pub fn place(table: Table, row: u64, word: u64) -> u64 {
    match table {
        Table::Head => word % TXN_HEAD,
        Table::Txns => TXN_HEAD + TXN_ROW * (row % SLOTS) + word % TXN_ROW,
        Table::Locks => LOCK_ROW * (row % ITEMS) + word % LOCK_ROW,
        Table::Versions => VERSION_ROW * (row % ITEMS) + word % VERSION_ROW,
    }
}

impl Tables {
    pub fn fresh() -> Tables {
        let mut txns = [0; TXN_ROOM];
        let mut locks = [0; LOCK_ROOM];
        let mut versions = [0; VERSION_ROOM];
        fresh::fresh(
            &mut txns[..TXN_WORDS],
            &mut locks[..LOCK_WORDS],
            &mut versions[..VERSION_WORDS],
        );
        Tables {
            txns,
            locks,
            versions,
            lent: Lent {
                txns: TXN_WORDS,
                locks: LOCK_WORDS,
                versions: VERSION_WORDS,
            },
        }
    }

    // A call on what is lent.
    pub fn call(&mut self, call: Call) -> Answer {
        keeper::call(
            call,
            at_most(&mut self.txns, self.lent.txns),
            at_most(&mut self.locks, self.lent.locks),
            at_most(&mut self.versions, self.lent.versions),
        )
    }

    // A word of a table.
    pub fn word(&self, table: Table, at: u64) -> u64 {
        match table {
            Table::Head | Table::Txns => tally::word(&self.txns, at as usize),
            Table::Locks => tally::word(&self.locks, at as usize),
            Table::Versions => tally::word(&self.versions, at as usize),
        }
    }

    // A word of a table set.
    pub fn put(&mut self, table: Table, at: u64, value: u64) {
        match table {
            Table::Head | Table::Txns => tally::put(&mut self.txns, at as usize, value),
            Table::Locks => tally::put(&mut self.locks, at as usize, value),
            Table::Versions => tally::put(&mut self.versions, at as usize, value),
        }
    }

    // So many words lent.
    pub fn lend(&mut self, txns: u64, locks: u64, versions: u64) {
        self.lent = Lent {
            txns: txns as usize,
            locks: locks as usize,
            versions: versions as usize,
        };
    }

    // What an answer notes in the tables: a wait what is awaited, and a refusal nothing.
    pub fn note(&mut self, code: u64, call: Call) {
        if code == WAIT {
            tally::note(
                at_most(&mut self.txns, self.lent.txns),
                at_most(&mut self.locks, self.lent.locks),
                call,
            );
        }
    }

    // How many words differ from those of other tables.
    pub fn changed(&self, others: &Tables) -> usize
        ensures { result ≡ differing self.now.txns others.now.txns + differing self.now.locks others.now.locks + differing self.now.versions others.now.versions }
    {
        tally::changed(
            &self.txns,
            &self.locks,
            &self.versions,
            &others.txns,
            &others.locks,
            &others.versions,
        )
    }
}
