// Which pieces are siblings, which are in conflict, and all links among them as words of pieces.
ghost use Rattle.std.specs.Prelude.{◌≡◌, ◌/◌, ◌<◌, ◌≤◌, length, take};
ghost use Rattle.chop.specs.Pieces.{most, pieces_of, siblings, conflict};
ghost use Rattle.chop.specs.Judgement.{siblings_of, conflicts_of, links_of, others as othersThan};

use crate::MOST;

// Whether pieces a and b are two, of one transaction.
fn are_siblings(words: &[u64], a: usize, b: usize) -> bool
    requires { (a < length words.now / 3) × (b < length words.now / 3) }
    ensures { result ≡ siblings (pieces_of words.now) a b }
{
    !(a == b) & (words[a * 3] == words[b * 3])
}

// Whether pieces a and b, of different transactions, touch a common item that one of them writes.
fn are_conflicting(words: &[u64], a: usize, b: usize) -> bool
    requires { (a < length words.now / 3) × (b < length words.now / 3) }
    ensures { result ≡ conflict (pieces_of words.now) a b }
{
    let reads_a = words[a * 3 + 1];
    let writes_a = words[a * 3 + 2];
    let reads_b = words[b * 3 + 1];
    let writes_b = words[b * 3 + 2];
    let common = (reads_a | writes_a) & (reads_b | writes_b);
    !(words[a * 3] == words[b * 3]) & !((common & (writes_a | writes_b)) == 0)
}

// The siblings of piece b.
#[tactic(auto, using(crate::proofs::InRows::in_rows), unfolding(crate::specs::Judgement::siblings_of))]
pub fn siblings_of(words: &[u64], b: usize) -> u64
    requires { (b < length words.now / 3) × (length words.now / 3 ≤ most) }
    ensures { result ≡ siblings_of (pieces_of words.now) b }
{
    graph::those_below(words.len() / 3, |at| are_siblings(words, b, at))
}

// The pieces in conflict with piece b.
#[tactic(auto, using(crate::proofs::InRows::in_rows), unfolding(crate::specs::Judgement::conflicts_of))]
pub fn conflicts_of(words: &[u64], b: usize) -> u64
    requires { (b < length words.now / 3) × (length words.now / 3 ≤ most) }
    ensures { result ≡ conflicts_of (pieces_of words.now) b }
{
    graph::those_below(words.len() / 3, |at| are_conflicting(words, b, at))
}

// All but b of so many pieces.
#[tactic(auto, unfolding(crate::specs::Judgement::others))]
pub fn others(count: usize, b: usize) -> u64
    requires { count ≤ most }
    ensures { result ≡ othersThan count b }
{
    graph::those_below(count, |at| at != b)
}

// For each piece all that it is joined with, in the front of the array.
pub fn links_of(words: &[u64]) -> [u64; MOST]
    requires { length words.now / 3 ≤ most }
    ensures { take (length words.now / 3) result ≡ links_of (pieces_of words.now) }
{
    let mut out = [0; MOST];
    for at in 0..words.len() / 3 {
        out[at] = siblings_of(words, at) | conflicts_of(words, at);
    }
    out
}
