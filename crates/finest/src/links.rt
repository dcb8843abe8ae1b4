// Which operations are linked when one program is in blocks and the others are whole.
ghost use Rattle.std.specs.Prelude.{◌≡◌, ◌/◌, ◌<◌, ◌≤◌, length, take};
ghost use Rattle.graph.specs.Sets.{those};
ghost use Rattle.finest.specs.Operations.{most, may_undo, conflicting as conflictingIn};
ghost use Rattle.finest.specs.Finest.{linked_for, links_for};
ghost use Rattle.finest.specs.Rows.{operations_in};

use crate::MOST;

// Whether operations i and j, of different programs, touch one item that one of them writes.
fn conflicting(words: &[u64], i: usize, j: usize) -> bool
    requires { (i < length words.now / 4) × (j < length words.now / 4) }
    ensures { result ≡ conflictingIn (operations_in words.now) i j }
{
    let apart = !(words[i * 4] == words[j * 4]);
    let common = words[i * 4 + 1] == words[j * 4 + 1];
    let written = (words[i * 4 + 2] == 1) | (words[j * 4 + 2] == 1);
    apart & (common & written)
}

// Whether operation i, or one behind it in its program, is marked.
#[tactic(auto, using(crate::proofs::InRows::undone), unfolding(crate::specs::Operations::may_undo))]
fn may_undo(words: &[u64], i: usize) -> bool
    requires { i < length words.now / 4 }
    ensures { result ≡ may_undo (operations_in words.now) i }
{
    words::some_below(words.len() as u64 / 4, |j| {
        let at = j as usize;
        let same = words[i * 4] == words[at * 4];
        let marked = words[at * 4 + 3] == 1;
        (i <= at) & (same & marked)
    })
}

// All such operations.
pub fn undoable(words: &[u64]) -> u64
    requires { length words.now / 4 ≤ most }
    ensures { result ≡ those (length words.now / 4) (may_undo (operations_in words.now)) }
{
    graph::those_below(words.len() / 4, |at| may_undo(words, at))
}

// Whether i and j are in conflict, or of one block of program t, or of one other program.
fn linked(words: &[u64], undo: u64, t: u64, i: usize, j: usize) -> bool
    requires { (i < length words.now / 4) × (j < length words.now / 4) × (length words.now / 4 ≤ most) × (undo ≡ those (length words.now / 4) (may_undo (operations_in words.now))) }
    ensures { result ≡ linked_for (operations_in words.now) t i j }
{
    let clash = conflicting(words, i, j);
    let same = words[i * 4] == words[j * 4];
    let other = !(words[i * 4] == t);
    let undo_i = (undo >> i) % 2 == 1;
    let undo_j = (undo >> j) % 2 == 1;
    clash | (same & (other | ((i == j) | (same & (undo_i & undo_j)))))
}

// All that operation i is linked with.
fn links_at(words: &[u64], undo: u64, t: u64, i: usize) -> u64
    requires { (i < length words.now / 4) × (length words.now / 4 ≤ most) × (undo ≡ those (length words.now / 4) (may_undo (operations_in words.now))) }
    ensures { result ≡ those (length words.now / 4) (linked_for (operations_in words.now) t i) }
{
    graph::those_below(words.len() / 4, |at| linked(words, undo, t, i, at))
}

// For each operation all that it is linked with, in the front of the array.
pub fn links_for(words: &[u64], undo: u64, t: u64) -> [u64; MOST]
    requires { (length words.now / 4 ≤ most) × (undo ≡ those (length words.now / 4) (may_undo (operations_in words.now))) }
    ensures { take (length words.now / 4) result ≡ links_for (operations_in words.now) t }
{
    let mut out = [0; MOST];
    for at in 0..words.len() / 4 {
        out[at] = links_at(words, undo, t, at);
    }
    out
}
