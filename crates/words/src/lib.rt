// A pass over words: whether they are all zero; and passes over numbers, by the caller's test. The laws of
// loops that test words are in proofs/.
#![tactic(auto)]

mod below;

ghost use Rattle.std.specs.Prelude.{◌≡◌, ◌+◌, ◌≤◌, length};
ghost use Rattle.words.specs.Zeros.{zero_words};

pub use below::{count_below, every_below, first_below, some_below, those_below};

// Whether n words of a slice from a place on are zero.
pub fn zeros(words: &[u64], from: usize, n: usize) -> bool
    requires { from + n ≤ length words.now }
    ensures { result ≡ zero_words words.now from n }
{
    let mut acc = 0;
    for k in 0..n {
        acc = acc | words[from + k];
    }
    acc == 0
}
