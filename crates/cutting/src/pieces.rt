// The pieces so far, as they are judged.
ghost use Rattle.std.specs.Prelude.{◌≡◌, List, [], ◌∷◌, ◌++◌, ◌+◌, ◌*◌, ◌≤◌, length};
ghost use Rattle.texts.specs.Written.{written};
ghost use Rattle.piece_lines.specs.Says.{Piece};
ghost use Rattle.line_words.specs.Said.{Name};
ghost use Rattle.piece_lines.specs.Held.{KeepsPiece};
ghost use Rattle.cutting.specs.Life.{Holds};

use chop::MOST;
use piece_lines::Noted;
use texts::put_text;
use told_lines::{Names, WIDE, place};

// How many there are: one more than the most where there are too many. Whether some item is unknown.
// Their names, and their rows: transaction, items read, items written.
#[derive(Drop)]
pub struct Pieces {
    pub count: usize,
    pub unknown: bool,
    pub names: Names,
    pub rows: [u64; 96],
}

impl Pieces {
    pub fn new() -> Self
        ensures { Holds [] result }
    {
        Pieces {
            count: 0,
            unknown: false,
            names: [0; 1024],
            rows: [0; 96],
        }
    }

    // A piece more.
    pub fn add(&mut self, noted: Noted)
        ensures { (ps : List Piece) (p : Piece) → Holds ps self.old → KeepsPiece p noted → Name p.name → Holds (ps ++ (p ∷ [])) self.new }
    {
        let at = self.count;
        self.unknown |= noted.unknown;
        if MOST <= at {
            self.count = MOST + 1;
            return;
        }
        let name = noted.name;
        let transaction = place(&self.names, at, &name);
        put_text(&mut self.names, at * WIDE, &name);
        put_row(&mut self.rows, at, transaction, noted.reads, noted.writes);
        self.count = at + 1;
    }
}

// A row's three words put at its place.
fn put_row(rows: &mut [u64], at: usize, transaction: u64, reads: u64, writes: u64)
    requires { (at * 3 + 3 ≤ length rows.old) × (length rows.old ≤ 96) }
    ensures { rows.new ≡ written rows.old (at * 3) (transaction ∷ reads ∷ writes ∷ []) }
{
    let from = at * 3;
    rows[from] = transaction;
    rows[from + 1] = reads;
    rows[from + 2] = writes;
}
