// What sets the tables, and tries nothing.
//
//     put head 0 1: 7           a word, by its table, its row and its place in the row, set
//     bit locks 2 0: 1          in such a word the bit of a slot set
//     holder locks 1 1: 1       such a word set to a slot as the exclusive holder
//     lend 321 192 6208          so many words of each table are lent from now on
//     fresh                     the tables are fresh again
ghost use Rattle.std.specs.Prelude.{◌<◌};

use crate::line::Line;
use crate::state::{Table, Tables, place};
use names::{ITEMS, SLOTS};

const PUT: u8 = b'p';

const BIT: u8 = b'b';

const HOLDER: u8 = b'h';

const LEND: u8 = b'l';

// What a text damages: nothing, as a trial; words that stand in no row; or the row of a slot or an item.
#[derive(Clone, Copy, PartialEq, Eq)]
pub enum Damaged {
    Nothing,
    NoRow,
    Slot(u64),
    Item(u64),
}

// What is damaged, and the slot from which a text counts slots.
#[derive(Clone, Copy)]
pub struct Rows {
    pub damaged: Damaged,
    pub from: u64,
}

// A slot that a text names: a place in a word of bits.
fn slot(rows: Rows, row: u64) -> u64
    ensures { result < 64 }
{
    (rows.from % SLOTS + row % SLOTS) % SLOTS
}

// A row that a text names, as it stands in its table: a text that damages items counts them from
// the one that is damaged.
fn row_of(rows: Rows, table: Table, row: u64) -> u64 {
    match (table, rows.damaged) {
        (Table::Txns, _) => slot(rows, row),
        (Table::Locks | Table::Versions, Damaged::Item(damaged)) => {
            (damaged % ITEMS + row % ITEMS) % ITEMS
        }
        _ => row,
    }
}

pub fn set(tables: &mut Tables, rows: Rows, line: &Line) {
    let [row, word, _, value, ..] = line.numbers;
    let table = Table::of(line.second);
    let at = place(table, row_of(rows, table, row), word);
    match line.kind {
        Some(PUT) => tables.put(table, at, value),
        Some(BIT) => {
            let bits = tables.word(table, at);
            tables.put(table, at, bits | (1 << slot(rows, value)));
        }
        Some(HOLDER) => tables.put(table, at, slot(rows, value) + 1),
        Some(LEND) => tables.lend(line.numbers[0], line.numbers[1], line.numbers[2]),
        _ => *tables = Tables::fresh(),
    }
}
