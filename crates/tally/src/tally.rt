// The count of what was tried, and of what was as expected.
ghost use Rattle.std.specs.Prelude.{◌≡◌};
ghost use Rattle.tally.specs.Counts.{as_expected};
ghost use Rattle.tally.specs.Counts.{more as one·more, counted as tally·counted};

use names::Answer;

// From this code on an answer is a refusal, which changes no word; the code before it is a wait.
pub const REFUSED: u64 = 2;

pub const WAIT: u64 = 1;

const GRANTED: u64 = 0;

// The trial that is played, the number of its next step, and how many steps of all trials were
// tried and were as expected.
#[derive(Clone, Copy, Default)]
pub struct Tally {
    pub letter: u8,
    pub step: u64,
    pub tried: u64,
    pub right: u64,
}

pub fn more(n: u64) -> u64
    ensures { result ≡ one·more n }
{
    n.wrapping_add(1)
}

// Whether an answer is the expected one, and but for a grant no word is other than it must be.
pub fn as_expected(found: Answer, others: u64, wanted: Answer) -> bool
    ensures { result ≡ as_expected found others wanted }
{
    (found == wanted) & ((wanted.code == GRANTED) | (others == 0))
}

impl Tally {
    pub fn new() -> Tally {
        Tally::default()
    }

    // A trial begins.
    pub fn begin(self, letter: u8) -> Tally {
        Tally {
            letter,
            step: 1,
            ..self
        }
    }

    // A step was tried.
    pub fn counted(self, ok: bool) -> Tally
        ensures { result ≡ tally·counted self ok }
    {
        Tally {
            step: more(self.step),
            tried: more(self.tried),
            right: if ok { more(self.right) } else { self.right },
            ..self
        }
    }
}
