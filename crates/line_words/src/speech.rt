// The words of a line, byte by byte: a space ends one, and one that begins with `#` begins a comment.
ghost use Rattle.std.specs.Prelude.{◌≡◌, not, ◌&&◌, List, [], ◌∷◌, ◌++◌, ℕ, eqb};
ghost use Rattle.line_words.specs.Held.{KeepsSpeaking, Hears};

use crate::word::Word;

// Whether a comment has begun, and the word that is not ended.
#[derive(Clone, Copy)]
pub struct Speech {
    pub over: bool,
    pub word: Word,
}

impl Speech {
    // No byte yet, or a word that has none.
    pub fn new() -> Self
        ensures { KeepsSpeaking [] result }
    {
        let word = Word::new();
        Speech { over: false, word }
    }

    // Whether a byte ends the word.
    pub fn ends(self, byte: u8) -> bool
        ensures { result ≡ (not self.over && eqb byte 32) }
    {
        let over = self.over;
        !over & (byte == b' ')
    }

    // A byte more.
    pub fn push(self, byte: u8) -> Self
        ensures { (line : List ℕ) → Hears line self → Hears (line ++ (byte ∷ [])) result }
    {
        let over = self.over;
        let before = self.word;
        if over {
            return self;
        }
        if byte == b' ' {
            return Speech::new();
        }
        if before.empty() & (byte == b'#') {
            return Speech {
                over: true,
                word: before,
            };
        }
        let word = before.push(byte);
        Speech { over, word }
    }
}
