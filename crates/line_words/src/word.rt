// A word that is not ended yet.
ghost use Rattle.std.specs.Prelude.{◌≡◌, List, [], ◌∷◌, ◌++◌, ℕ, eqb, length};
ghost use Rattle.line_words.specs.Words.{is_name, is_item, name_byte};
ghost use Rattle.line_words.specs.Held.{KeepsWord};

use crate::digits::Digits;
use crate::kept::{Kept, LONGEST};

// Its bytes, whether each may stand in a name, and what they are as digits.
#[derive(Clone, Copy)]
pub struct Word {
    pub kept: Kept,
    pub plain: bool,
    pub digits: Digits,
}

fn name_byte(byte: u8) -> bool
    ensures { result ≡ name_byte byte }
{
    ((65 <= byte) & (byte <= 90))
        | ((97 <= byte) & (byte <= 122))
        | ((48 <= byte) & (byte <= 57))
        | (byte == b'_')
        | (byte == b'-')
}

impl Word {
    pub fn new() -> Self
        ensures { KeepsWord [] result }
    {
        let kept = Kept::new();
        let digits = Digits::new();
        Word {
            kept,
            plain: true,
            digits,
        }
    }

    pub fn push(self, byte: u8) -> Self
        ensures { (w : List ℕ) → KeepsWord w self → KeepsWord (w ++ (byte ∷ [])) result }
    {
        let before = self.kept;
        let counted = self.digits;
        let plain = self.plain;
        let kept = before.push(byte);
        let digits = counted.push(byte);
        let allowed = name_byte(byte);
        Word {
            kept,
            plain: plain & allowed,
            digits,
        }
    }

    // Whether it has no byte.
    pub fn empty(self) -> bool
        ensures { (w : List ℕ) → KeepsWord w self → result ≡ eqb (length w) 0 }
    {
        let kept = self.kept;
        let count = kept.count;
        count == 0
    }

    // Whether it is a transaction's name, and whether it is an item.
    pub fn is_name(self) -> bool
        ensures { (w : List ℕ) → KeepsWord w self → result ≡ is_name w }
    {
        let kept = self.kept;
        let count = kept.count;
        let plain = self.plain;
        ((0 < count) & (count <= LONGEST)) & plain
    }

    pub fn is_item(self) -> bool
        ensures { (w : List ℕ) → KeepsWord w self → result ≡ is_item w }
    {
        let kept = self.kept;
        let count = kept.count;
        let digits = self.digits;
        (0 < count) & digits.value.is_some()
    }
}
