// A text played: each line is a step on the tables that the line before it left.
//
//     trial C: a reader waits   a trial begins, on fresh tables
//     read 2 5: 0 0 0 1         a call, and the four numbers that document 01 wants for an answer
//     view locks 9 1: 1         a word, by its table, its row and its place in the row, and the
//                               value that is wanted
//     on 6                      the sample anew, its row 6 being the row that is damaged
//     damage: a row is free     the tables are bad: every call answers 10
//     good: a row is free       the tables are good
//
// and the lines of `set`, which try nothing. A line is written out as it is read, and its end is
// what was found; of the sample and its changes nothing is written.
use crate::damage::judge;
use crate::letters::{is_call, lettered};
use crate::line::{LINE_END, Line};
use crate::sample::{first_row, sample};
use crate::say;
use crate::set::{Damaged, Rows, set};
use crate::state::{Table, Tables, place};
use crate::steps::{expect, head};
use names::{Answer, Call};
use tally::Tally;

const TRIAL: u8 = b't';

const VIEW: u8 = b'v';

const ON: u8 = b'o';

const DAMAGE: u8 = b'd';

const GOOD: u8 = b'g';

#[derive(Clone, Copy)]
pub struct Stage {
    tables: Tables,
    tally: Tally,
    rows: Rows,
}

impl Stage {
    // A byte of a line, written out: before the first the head of the line, after the colon what comes.
    fn echo(&self, rt: &HostRuntime, line: &Line, byte: u8) {
        let kind = line.kind.unwrap_or(byte);
        let tries = is_call(kind) || kind == VIEW;
        let damages = kind == DAMAGE || kind == GOOD;
        if self.rows.damaged == Damaged::Nothing || damages {
            if line.kind.is_none() && tries {
                head(rt, self.tally);
            }
            say::byte(rt, byte);
            if byte == b':' && tries {
                say::say(rt, b" expected");
            }
        }
    }

    fn made(&mut self, rt: &HostRuntime, line: &Line, call: Call) {
        let [_, _, _, code, value, number, looked, _] = line.numbers;
        let wanted = Answer {
            code,
            value,
            number,
            looked,
        };
        let mut noted = self.tables;
        noted.note(code, call);
        let found = self.tables.call(call);
        let others = self.tables.changed(&noted);
        self.tally = expect(rt, self.tally, found, others as u64, wanted);
    }

    fn view(&mut self, rt: &HostRuntime, line: &Line) {
        let [row, word, _, wanted, ..] = line.numbers;
        let table = Table::of(line.second);
        let found = self.tables.word(table, place(table, row, word));
        say::say(rt, b", found ");
        say::number(rt, found);
        let ok = found == wanted;
        say::end(rt, ok);
        self.tally = self.tally.counted(ok);
    }

    // A line that tries no call: what sets the tables, a new trial, the sample anew.
    fn change(&mut self, rt: &HostRuntime, line: &Line) {
        if self.rows.damaged == Damaged::Nothing {
            say::end(rt, true);
        }
        match line.kind {
            Some(TRIAL) => {
                self.tables = Tables::fresh();
                self.tally = self.tally.begin(line.second.unwrap_or(0));
            }
            Some(ON) => {
                self.rows.from = first_row(self.rows.damaged, line.numbers[0]);
                self.tables = sample(self.rows.from);
            }
            _ => set(&mut self.tables, self.rows, line),
        }
    }

    // What a line says.
    fn step(&mut self, rt: &HostRuntime, line: &Line) {
        let [number, item, value, ..] = line.numbers;
        let kind = line.kind.unwrap_or(0);
        if let Some(call) = lettered(kind, number, item, value) {
            return self.made(rt, line, call);
        }
        match kind {
            VIEW => self.view(rt, line),
            DAMAGE | GOOD => {
                self.tally = judge(
                    rt,
                    &self.tables,
                    kind == DAMAGE,
                    self.rows.damaged,
                    self.tally,
                );
            }
            _ => self.change(rt, line),
        }
    }
}

// All lines of a text.
pub fn play(rt: &HostRuntime, damaged: Damaged, text: &[u8], tally: Tally) -> Tally {
    let mut stage = Stage {
        tables: Tables::fresh(),
        tally,
        rows: Rows { damaged, from: 0 },
    };
    let mut line = Line::default();
    for &byte in text {
        if byte == LINE_END {
            stage.step(rt, &line);
            line = Line::default();
        } else {
            stage.echo(rt, &line, byte);
            line.push(byte);
        }
    }
    stage.tally
}
