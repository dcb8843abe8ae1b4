// The piece of each operation, by the place of its least operation.
ghost use Rattle.std.specs.Prelude.{◌≡◌, ◌++◌, ◌-◌, ◌/◌, ◌<◌, ◌≤◌, length, replicate};
ghost use Rattle.graph.specs.Sets.{those, lowest};
ghost use Rattle.finest.specs.Operations.{most, may_undo, same_program};
ghost use Rattle.finest.specs.Finest.{all as all_of, piece_at, finest_cut};
ghost use Rattle.finest.specs.Rows.{operations_in};

use crate::MOST;
use crate::links::{links_for, undoable};

// So many operations, all of them.
#[tactic(auto, unfolding(crate::specs::Finest::all))]
fn all(count: usize) -> u64
    requires { count ≤ most }
    ensures { result ≡ all_of count }
{
    graph::those_below(count, |_| true)
}

// The operations of the program of operation i.
#[tactic(auto, using(crate::proofs::InRows::same_test))]
fn program_of(words: &[u64], i: usize) -> u64
    requires { (i < length words.now / 4) × (length words.now / 4 ≤ most) }
    ensures { result ≡ those (length words.now / 4) (same_program (operations_in words.now) i) }
{
    graph::those_below(words.len() / 4, |at| words[i * 4] == words[at * 4])
}

// The place of the least operation of the piece of operation i.
fn name_of(words: &[u64], undo: u64, i: usize) -> u64
    requires { (i < length words.now / 4) × (length words.now / 4 ≤ most) × (undo ≡ those (length words.now / 4) (may_undo (operations_in words.now))) }
    ensures { result ≡ lowest (piece_at (operations_in words.now) i) }
{
    let count = words.len() / 4;
    let links = links_for(words, undo, words[i * 4]);
    let reached = graph::joined(&links[..count], all(count), i as u64);
    graph::lowest(program_of(words, i) & reached)
}

// The place of the least operation of its piece, for each operation; zeros behind them.
pub fn names_of(words: &[u64]) -> [u64; MOST]
    requires { length words.now / 4 ≤ most }
    ensures { result ≡ finest_cut (operations_in words.now) ++ replicate (most - length words.now / 4) 0 }
{
    let undo = undoable(words);
    let mut out = [0; MOST];
    for at in 0..words.len() / 4 {
        out[at] = name_of(words, undo, at);
    }
    out
}
