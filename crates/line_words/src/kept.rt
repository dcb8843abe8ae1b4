// The bytes of a word: as many as the longest name has, zeros behind them, and how many there are.
ghost use Rattle.std.specs.Prelude.{◌≡◌, List, [], ◌∷◌, ◌++◌, ℕ, ◌≤◌, length};
ghost use Rattle.line_words.specs.Words.{longest_name};
ghost use Rattle.line_words.specs.Words.{same as Words·same};
ghost use Rattle.line_words.specs.Held.{KeepsBytes};

// The longest name.
pub const LONGEST: usize = 32;

// The count is one more than the longest name has where there are too many to be kept.
// Stays: Fixed memory, no heap; the definition `KeepsBytes` gives these two fields, and the count may be past the room.
#[derive(Clone, Copy)]
pub struct Kept {
    pub bytes: [u8; 32],
    pub count: usize,
}

impl Kept {
    pub fn new() -> Self
        ensures { KeepsBytes [] result }
    {
        Kept {
            bytes: [0; 32],
            count: 0,
        }
    }

    pub fn push(self, byte: u8) -> Self
        ensures { (w : List ℕ) → KeepsBytes w self → KeepsBytes (w ++ (byte ∷ [])) result }
    {
        let at = self.count;
        let mut bytes = self.bytes;
        if at < LONGEST {
            bytes[at] = byte;
            return Kept {
                bytes,
                count: at + 1,
            };
        }
        Kept {
            bytes,
            count: LONGEST + 1,
        }
    }

    // Whether the word is this one.
    pub fn is(self, word: &[u8]) -> bool
        requires { length word.now ≤ longest_name }
        ensures { (w : List ℕ) → KeepsBytes w self → result ≡ Words·same w word.now }
    {
        let count = self.count;
        let bytes = self.bytes;
        if LONGEST < count {
            return false;
        }
        same(&bytes[..count], word)
    }
}

// Whether two words are the same.
#[tactic(auto, using(crate::proofs::Sameness::same_pointwise))]
pub fn same(a: &[u8], b: &[u8]) -> bool
    ensures { result ≡ Words·same a.now b.now }
{
    a == b
}
