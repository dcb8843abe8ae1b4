// The numbers of a line, read byte by byte: decimal, with single spaces between.
//
// What is known of a line stands beside the words that its numbers are kept in, so a line may come in
// any number of chunks.
ghost use Rattle.std.specs.Prelude.{◌≡◌, List, [], false, ℕ, ◌<◌, length};
ghost use Rattle.number_lines.specs.Lines.{reads, after, digit_after, ends, begun, held_by, Goes};

use numerals::with_digit;

// The number that is not ended yet, where it has a digit, and how many numbers are kept; or that the
// line is no list of numbers at all.
#[derive(Clone, Copy)]
pub enum Scan {
    Reads { value: Option<u64>, count: usize },
    Spoilt,
}

// What stands at the end of a line or of the chunk: what was read, and where the line ended the index
// after its byte 10. Where it did not, the chunk is used up, and the line goes on in the next one.
#[derive(Clone, Copy)]
pub struct Next {
    pub scan: Scan,
    pub at: Option<usize>,
}

const LINE_END: u8 = 10;

impl Scan {
    // No byte yet.
    #[tactic(auto, unfolding(crate::specs::Lines::held_by))]
    pub fn new() -> Self
        ensures { (words : List ℕ) → held_by words result ≡ reads [] 0 false }
    {
        Scan::Reads {
            value: None,
            count: 0,
        }
    }

    // Whether the end of input ends a line here.
    pub fn any(self) -> bool
        ensures { (words : List ℕ) → 0 < length words → result ≡ begun (held_by words self) }
    {
        match self {
            Scan::Reads { value, count } => value.is_some() | (0 < count),
            Scan::Spoilt => true,
        }
    }

    // A digit more, or a byte that is none.
    fn digit(self, byte: u8) -> Self
        ensures { (words : List ℕ) → held_by words result ≡ digit_after byte (held_by words self) }
    {
        let Scan::Reads { value, count } = self else {
            return Scan::Spoilt;
        };
        match with_digit(value.unwrap_or(0), byte) {
            Some(value) => Scan::Reads {
                value: Some(value),
                count,
            },
            None => Scan::Spoilt,
        }
    }

    // The number ends here: it is kept where it has a digit and there is room.
    pub fn ended(self, words: &mut [u64]) -> Self
        ensures { held_by words.new result ≡ ends (length words.old) (held_by words.old self) }
    {
        let Scan::Reads { value, count } = self else {
            return Scan::Spoilt;
        };
        let Some(value) = value else {
            return Scan::Spoilt;
        };
        if words.len() <= count {
            return Scan::Spoilt;
        }
        words[count] = value;
        Scan::Reads {
            value: None,
            count: count + 1,
        }
    }

    // A byte more.
    #[tactic(auto, unfolding(crate::specs::Lines::after))]
    fn push(self, byte: u8, words: &mut [u64]) -> Self
        ensures { held_by words.new result ≡ after (length words.old) (held_by words.old self) byte }
    {
        if byte == b' ' {
            self.ended(words)
        } else {
            self.digit(byte)
        }
    }

    // Goes along a chunk from an index to the end of a line.
    pub fn next(self, chunk: &[u8], from: usize, words: &mut [u64]) -> Next
        ensures { Goes (length words.old) (held_by words.old self) chunk.now from words.new result }
    {
        let mut scan = self;
        for k in from..chunk.len() {
            let byte = chunk[k];
            if byte == LINE_END {
                return Next {
                    scan,
                    at: Some(k + 1),
                };
            }
            scan = scan.push(byte, words);
        }
        Next { scan, at: None }
    }
}
