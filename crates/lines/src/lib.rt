// Input cut into lines, chunk by chunk.
//
// What a line says is for those above: here a line is its bytes, or too long to be kept.
#![tactic(auto)]

ghost use Rattle.std.specs.Prelude.{◌≡◌, []};
ghost use Rattle.lines.specs.Lines.{short, more, begun, held_by, Goes};

// The bytes of the line that is not ended yet, and how many there are: one more than the longest
// line has where there are too many to be kept.
// Stays: no heap: a line's bytes stand in the struct, and their count beside them.
#[derive(Clone, Copy)]
pub struct Lines {
    pub bytes: [u8; 80],
    pub count: usize,
}

// What stands at the end of a line or of the chunk: the line, and where it ended the index after its
// byte 10. Where it did not, the chunk is used up, and the line goes on in the next one.
#[derive(Clone, Copy)]
pub struct Next {
    pub lines: Lines,
    pub at: Option<usize>,
}

// The longest line that is kept.
pub const LONGEST: usize = 80;

const LINE_END: u8 = 10;

impl Lines {
    // No byte yet: the start of the input, or of a line.
    #[tactic(auto, unfolding(crate::specs::Lines::held_by))]
    pub fn new() -> Self
        ensures { held_by result ≡ short [] }
    {
        Lines {
            bytes: [0; 80],
            count: 0,
        }
    }

    // A byte more.
    #[tactic(auto, using(crate::proofs::Holding::push_short, crate::proofs::Holding::push_long))]
    pub fn push(self, byte: u8) -> Self
        ensures { held_by result ≡ more (held_by self) byte }
    {
        let at = self.count;
        let mut bytes = self.bytes;
        if at < LONGEST {
            bytes[at] = byte;
            return Lines {
                bytes,
                count: at + 1,
            };
        }
        Lines {
            bytes,
            count: LONGEST + 1,
        }
    }

    // Whether the end of input ends a line here.
    #[tactic(auto, using(crate::proofs::Holding::begun_is))]
    pub fn begun(self) -> bool
        ensures { result ≡ begun (held_by self) }
    {
        0 < self.count
    }

    // Goes along a chunk from an index to the end of a line.
    pub fn next(self, chunk: &[u8], from: usize) -> Next
        ensures { Goes (held_by self) chunk.now from result }
    {
        let mut lines = self;
        for k in from..chunk.len() {
            let byte = chunk[k];
            if byte == LINE_END {
                return Next {
                    lines,
                    at: Some(k + 1),
                };
            }
            lines = lines.push(byte);
        }
        Next { lines, at: None }
    }
}
