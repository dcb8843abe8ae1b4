// Tables tried whole: bad ones by all eight calls, which must answer 10, and good ones by those of
// nobody, which must be refused for that. No call may change a word.
use crate::say;
use crate::set::Damaged;
use crate::state::Tables;
use names::{Answer, Call};
use tally::{Score, Tally};

// Stays: the expected codes are a test's values, written as document 01 has them.
const BAD_TABLES: u64 = 10;

const UNKNOWN_TRANSACTION: u64 = 3;

// The number of an update of the sample.
const SOMEBODY: u64 = 11;

const NOBODY: u64 = 0;

// A call on the tables as they are.
fn tried(tables: &Tables, call: Call, wanted: Answer, score: Score) -> Score {
    let mut after = *tables;
    let found = after.call(call);
    score.plus(found == wanted, after.changed(tables) as u64)
}

// The calls that name a transaction.
fn naming(number: u64) -> [Call; 5] {
    [
        Call::Read { number, item: 0 },
        Call::Write {
            number,
            item: 0,
            value: 1,
        },
        Call::Commit { number },
        Call::Abort { number },
        Call::Settle { number },
    ]
}

fn scored(tables: &Tables, bad: bool, wanted: Answer) -> Score {
    let mut score = Score {
        calls: 0,
        changed: 0,
    };
    if bad {
        for call in [Call::BeginUpdate, Call::BeginQuery, Call::BeginRelaxed] {
            score = tried(tables, call, wanted, score);
        }
    }
    for call in naming(if bad { SOMEBODY } else { NOBODY }) {
        score = tried(tables, call, wanted, score);
    }
    score
}

fn say_row(rt: &HostRuntime, damaged: Damaged) {
    match damaged {
        Damaged::Slot(row) => {
            say::say(rt, b", transaction row ");
            say::number(rt, row);
        }
        Damaged::Item(row) => {
            say::say(rt, b", item ");
            say::number(rt, row);
        }
        Damaged::Nothing | Damaged::NoRow => {}
    }
}

// The end of a line that has said what is damaged, or is still good.
pub fn judge(
    rt: &HostRuntime,
    tables: &Tables,
    bad: bool,
    damaged: Damaged,
    tally: Tally,
) -> Tally {
    let (calls, code) = if bad {
        (8, BAD_TABLES)
    } else {
        (5, UNKNOWN_TRANSACTION)
    };
    let wanted = Answer {
        code,
        value: 0,
        number: 0,
        looked: 0,
    };
    say_row(rt, damaged);
    say::say(rt, b": expected ");
    say::number(rt, calls);
    say::say(rt, b" calls with code ");
    say::number(rt, code);
    say::say(rt, b" and 0 words changed, found ");
    let found = scored(tables, bad, wanted);
    say::number(rt, found.calls);
    say::say(rt, b" and ");
    say::number(rt, found.changed);
    let ok = found.calls == calls && found.changed == 0;
    say::end(rt, ok);
    tally.counted(ok)
}
