// The bytes of a word as digits: what they are worth, where they are all digits of a number that is not
// too great.
ghost use Rattle.std.specs.Prelude.{◌≡◌, List, [], ◌∷◌, ◌++◌, ℕ};
ghost use Rattle.line_words.specs.Held.{KeepsDigits};

use numerals::with_digit;

#[derive(Clone, Copy)]
pub struct Digits {
    pub value: Option<u64>,
}

impl Digits {
    pub fn new() -> Self
        ensures { KeepsDigits [] result }
    {
        Digits { value: Some(0) }
    }

    pub fn push(self, byte: u8) -> Self
        ensures { (w : List ℕ) → KeepsDigits w self → KeepsDigits (w ++ (byte ∷ [])) result }
    {
        let Some(value) = self.value else {
            return self;
        };
        Digits {
            value: with_digit(value, byte),
        }
    }
}
