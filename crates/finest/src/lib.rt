// Request E10: the finest cut of whole programs, after source document 004, section 4.
//
// An operation is a row of four words: the number of its program, the item, 0 for a read or 1 for a
// write, and 1 where it may roll back or 0 elsewhere. A program's order is that of its own rows.
#![tactic(auto)]

ghost use Rattle.std.specs.Prelude.{◌≡◌, []};
ghost use Rattle.finest.specs.Rows.{some_unknown, some_malformed, rows_cut, shows, said};

mod links;
mod naming;

use naming::names_of;

// How many operations may be cut, and how many items there are.
pub const MOST: usize = 32;

const ITEMS: u64 = 64;

// What is found of the rows.
#[derive(Clone, Copy)]
pub enum Finding {
    TooManyOperations,
    UnknownItem,
    Malformed,
    Cut,
}

// The answer: what was found, and for each of `count` operations the place of the least operation of its
// piece, counted from 0; zeros behind them.
// Stays: Fixed memory, no heap; the definitions `shows` and `said` give these three fields.
#[derive(Drop)]
pub struct Named {
    pub finding: Finding,
    pub count: usize,
    pub names: [u64; MOST],
}

// An answer that names no piece.
fn plain(finding: Finding) -> Named
    ensures { result ≡ shows finding [] }
{
    Named {
        finding,
        count: 0,
        names: [0; MOST],
    }
}

// Whether some row has an item above 63.
#[tactic(auto, unfolding(crate::specs::Rows::some_unknown))]
fn some_unknown(words: &[u64]) -> bool
    ensures { result ≡ some_unknown words.now }
{
    words::some_below(
        words.len() as u64 / 4,
        |at| ITEMS <= words[at as usize * 4 + 1],
    )
}

// Whether some row is not whole, or has a mode or a mark other than 0 and 1.
#[tactic(auto, unfolding(crate::specs::Rows::some_malformed))]
fn some_malformed(words: &[u64]) -> bool
    ensures { result ≡ some_malformed words.now }
{
    let found = words::some_below(words.len() as u64 / 4, |i| {
        let at = i as usize;
        (1 < words[at * 4 + 2]) | (1 < words[at * 4 + 3])
    });
    (words.len() % 4 != 0) | found
}

// The finest cut of the operations that stand in rows of four words.
pub fn finest(words: &[u64]) -> Named
    ensures { result ≡ said (rows_cut words.now) }
{
    let count = words.len() / 4;
    if MOST < count {
        return plain(Finding::TooManyOperations);
    }
    if some_unknown(words) {
        return plain(Finding::UnknownItem);
    }
    if some_malformed(words) {
        return plain(Finding::Malformed);
    }
    let names = names_of(words);
    Named {
        finding: Finding::Cut,
        count,
        names,
    }
}
