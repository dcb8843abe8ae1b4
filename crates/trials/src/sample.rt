// Good tables with something for every part of good: what is damaged.
//
// Six live transactions stand in rows that follow one another, from any row on, the first row
// coming after the last; the other rows are free. The text of a damage counts rows from there.
//
//     0  update 11, which holds nothing
//     1  update 12, which holds item 1 exclusively, and shares items 2 and 3
//     2  update 50, the last number given, which awaits item 1 shared, shares item 2 and holds
//        item 4 exclusively
//     3  query 14, at stamp 3
//     4  query 15, at stamp 10, which is the clock
//     5  update 16, which holds item 5 exclusively
//
// Item 9 has two versions: the later query reads the newer and the earlier query the older one.
use crate::line::{LINE_END, Line};
use crate::set::{Damaged, Rows, set};
use crate::state::Tables;
use names::SLOTS;

// The slot from which a text counts, so that what it calls a row is the row that is damaged.
pub fn first_row(damaged: Damaged, row: u64) -> u64 {
    match damaged {
        Damaged::Slot(slot) => (slot % SLOTS + (SLOTS - row % SLOTS)) % SLOTS,
        _ => 0,
    }
}

// Fresh tables as a text sets them.
fn made(from: u64, text: &[u8]) -> Tables {
    let rows = Rows {
        damaged: Damaged::NoRow,
        from,
    };
    let mut tables = Tables::fresh();
    let mut line = Line::default();
    for &byte in text {
        if byte == LINE_END {
            set(&mut tables, rows, &line);
            line = Line::default();
        } else {
            line.push(byte);
        }
    }
    tables
}

pub fn sample(from: u64) -> Tables {
    made(
        from,
        b"put head 0 0: 50
put head 0 1: 10
put transactions 0 0: 11
put transactions 1 0: 12
put transactions 2 0: 50
put transactions 2 3: 1
put transactions 2 4: 1
put transactions 2 5: 1
put transactions 3 0: 14
put transactions 3 1: 1
put transactions 3 2: 3
put transactions 4 0: 15
put transactions 4 1: 1
put transactions 4 2: 10
put transactions 5 0: 16
holder locks 1 1: 1
put locks 1 2: 77
bit locks 2 0: 1
bit locks 2 0: 2
bit locks 3 0: 1
holder locks 4 1: 2
holder locks 5 1: 5
put locks 5 2: 5
put versions 9 0: 2
put versions 9 1: 9
put versions 9 2: 900
put versions 9 3: 2
put versions 9 4: 200
",
    )
}
