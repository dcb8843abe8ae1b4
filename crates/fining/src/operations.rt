// The operations so far, as they are cut.
ghost use Rattle.std.specs.Prelude.{◌≡◌, List, [], ◌∷◌, ◌++◌, ◌+◌, ◌*◌, ◌≤◌, length};
ghost use Rattle.texts.specs.Written.{written};
ghost use Rattle.line_words.specs.Said.{Name};
ghost use Rattle.op_lines.specs.Says.{Operation};
ghost use Rattle.op_lines.specs.Held.{KeepsOperation};
ghost use Rattle.fining.specs.Life.{word_for, Holds};

use finest::MOST;
use op_lines::Noted;
use texts::put_text;
use told_lines::{Names, WIDE, place};

// How many there are: one more than the most where there are too many. Whether some item is unknown.
// Their programs' names, and their rows: program, item, 1 for a write, 1 where it may roll back.
#[derive(Drop)]
pub struct Operations {
    pub count: usize,
    pub unknown: bool,
    pub names: Names,
    pub rows: [u64; 128],
}

// How many items there are.
const ITEMS: u64 = 64;

impl Operations {
    pub fn new() -> Self
        ensures { Holds [] result }
    {
        Operations {
            count: 0,
            unknown: false,
            names: [0; 1024],
            rows: [0; 128],
        }
    }

    // An operation more.
    pub fn add(&mut self, noted: Noted)
        ensures { (os : List Operation) (o : Operation) → Holds os self.old → KeepsOperation o noted → Name o.name → Holds (os ++ (o ∷ [])) self.new }
    {
        let at = self.count;
        self.unknown |= (ITEMS <= noted.item);
        if MOST <= at {
            self.count = MOST + 1;
            return;
        }
        let name = noted.name;
        let program = place(&self.names, at, &name);
        put_text(&mut self.names, at * WIDE, &name);
        put_row(
            &mut self.rows,
            at,
            program,
            noted.item,
            word(noted.writes),
            word(noted.marked),
        );
        self.count = at + 1;
    }
}

fn word(yes: bool) -> u64
    ensures { result ≡ word_for yes }
{
    if yes {
        return 1;
    }
    0
}

// A row's four words put at its place.
fn put_row(rows: &mut [u64], at: usize, program: u64, item: u64, writes: u64, marked: u64)
    requires { (at * 4 + 4 ≤ length rows.old) × (length rows.old ≤ 128) }
    ensures { rows.new ≡ written rows.old (at * 4) (program ∷ item ∷ writes ∷ marked ∷ []) }
{
    let from = at * 4;
    rows[from] = program;
    rows[from + 1] = item;
    rows[from + 2] = writes;
    rows[from + 3] = marked;
}
