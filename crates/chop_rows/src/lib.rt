// The judge on rows of four words: transaction, piece, item, and 0 for a read or 1 for a write.
//
// A piece is a distinct pair of a transaction and a piece's number, and pieces stand in the order of
// their first rows.
#![tactic(auto)]

ghost use Rattle.std.specs.Prelude.{◌≡◌, map, ◌*◌, ◌/◌, ◌<◌, ◌≤◌, length, take};
ghost use Rattle.chop.specs.Pieces.{most, pieces_of};
ghost use Rattle.chop.specs.Verdicts.{said};
ghost use Rattle.chop_rows.specs.RowPieces.{row_at, with_item, begun as begunBy, noting as notingRow, place_in, piece_of, some_unknown, some_malformed, rows_judgement};
ghost use Rattle.chop_rows.specs.Notes.{OneMore, NotesOf};
ghost use Rattle.words.specs.Below.{found_below};

use chop::{Finding, Judged, MOST, judge, plain};

// How many items there are; how an item is touched.
const ITEMS: u64 = 64;

const READ: u64 = 0;

const WRITE: u64 = 1;

// Room for the words of all pieces.
const WORDS: usize = 96;

// A row by its words.
// Stays: `mode` is a word and not an enum: what is neither 0 nor 1 is malformed, and the definition `row_at` gives the word.
#[derive(Clone, Copy)]
pub struct Row {
    pub transaction: u64,
    pub number: u64,
    pub item: u64,
    pub mode: u64,
}

// A piece that is being put together.
#[derive(Clone, Copy)]
pub struct Noted {
    pub transaction: u64,
    pub number: u64,
    pub reads: u64,
    pub writes: u64,
}

// How many pieces there are so far, and those that have room, in the front of the array.
// Stays: Fixed memory, no heap; and the count goes one past the room, where a list of at most MOST could not.
#[derive(Drop)]
pub struct Notes {
    pub count: usize,
    pub pieces: [Noted; MOST],
}

fn row_at(words: &[u64], at: usize) -> Row
    requires { at < length words.now / 4 }
    ensures { result ≡ row_at words.now at }
{
    let first = at * 4;
    Row {
        transaction: words[first],
        number: words[first + 1],
        item: words[first + 2],
        mode: words[first + 3],
    }
}

// The place of the row's piece among those.
#[tactic(auto, unfolding(crate::specs::RowPieces::place_in))]
fn place_of(row: Row, pieces: &[Noted]) -> Option<u64>
    ensures { result ≡ found_below (length pieces.now) (place_in row pieces.now) }
{
    words::first_below(pieces.len() as u64, |at| {
        let p = pieces[at as usize];
        (row.transaction == p.transaction) & (row.number == p.number)
    })
}

// The set with the row's item, if the row is of that mode; an unknown item is in no set.
fn with_item(row: Row, mode: u64, set: u64) -> u64
    ensures { result ≡ with_item row mode set }
{
    let item = row.item;
    if item < ITEMS {
        return graph::including(set, item as usize, row.mode == mode);
    }
    set
}

// The piece with the row noted.
fn noting(row: Row, p: Noted) -> Noted
    ensures { result ≡ notingRow row p }
{
    let reads = with_item(row, READ, p.reads);
    let writes = with_item(row, WRITE, p.writes);
    Noted {
        transaction: p.transaction,
        number: p.number,
        reads,
        writes,
    }
}

// The piece that begins with the row.
fn begun(row: Row) -> Noted
    ensures { result ≡ begunBy row }
{
    let first = Noted {
        transaction: row.transaction,
        number: row.number,
        reads: 0,
        writes: 0,
    };
    noting(row, first)
}

// The notes with one row more. A piece that has no room is counted only.
fn note(row: Row, notes: Notes) -> Notes
    requires { (notes.count ≤ most) × (length notes.pieces ≡ most) }
    ensures { OneMore row (take notes.count notes.pieces) result }
{
    let count = notes.count;
    let mut pieces = notes.pieces;
    if let Some(at) = place_of(row, &pieces[..count]) {
        let piece = &mut pieces[at as usize];
        *piece = noting(row, *piece);
        return Notes { count, pieces };
    }
    if count < MOST {
        pieces[count] = begun(row);
        return Notes {
            count: count + 1,
            pieces,
        };
    }
    Notes {
        count: count + 1,
        pieces,
    }
}

// The pieces of all rows, or of so many rows that there are too many.
fn notes_of(words: &[u64]) -> Notes
    ensures { NotesOf words.now result }
{
    let none = Noted {
        transaction: 0,
        number: 0,
        reads: 0,
        writes: 0,
    };
    let mut notes = Notes {
        count: 0,
        pieces: [none; MOST],
    };
    for at in 0..words.len() / 4 {
        notes = note(row_at(words, at), notes);
        if MOST < notes.count {
            return notes;
        }
    }
    notes
}

// Whether some row has an item above 63.
#[tactic(auto, unfolding(crate::specs::RowPieces::some_unknown))]
fn some_unknown(words: &[u64]) -> bool
    ensures { result ≡ some_unknown words.now }
{
    words::some_below(
        words.len() as u64 / 4,
        |at| ITEMS <= row_at(words, at as usize).item,
    )
}

// Whether some row is not whole, or neither reads nor writes.
#[tactic(auto, unfolding(crate::specs::RowPieces::some_malformed))]
fn some_malformed(words: &[u64]) -> bool
    ensures { result ≡ some_malformed words.now }
{
    let found = words::some_below(
        words.len() as u64 / 4,
        |at| WRITE < row_at(words, at as usize).mode,
    );
    (words.len() % 4 != 0) | found
}

// The pieces as rows of three words, in the front of the array.
fn words_of(pieces: [Noted; MOST], count: usize) -> [u64; WORDS]
    requires { count ≤ most }
    ensures { (length result ≡ 96) × (pieces_of (take (count * 3) result) ≡ map piece_of (take count pieces)) }
{
    let mut out: [u64; WORDS] = [0; WORDS];
    for at in 0..count {
        let p = pieces[at];
        let first = at * 3;
        out[first] = p.transaction;
        out[first + 1] = p.reads;
        out[first + 2] = p.writes;
    }
    out
}

// The judgement on rows of four words.
pub fn judge_rows(words: &[u64]) -> Judged
    ensures { result ≡ said (rows_judgement words.now) }
{
    let notes = notes_of(words);
    let count = notes.count;
    if MOST < count {
        return plain(Finding::TooManyPieces);
    }
    if some_unknown(words) {
        return plain(Finding::UnknownItem);
    }
    if some_malformed(words) {
        return plain(Finding::Malformed);
    }
    let pieces = notes.pieces;
    let table = words_of(pieces, count);
    let end = count * 3;
    judge(&table[..end])
}
