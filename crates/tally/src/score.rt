// The count of a call on tables that are tried whole.
ghost use Rattle.std.specs.Prelude.{◌≡◌};
ghost use Rattle.tally.specs.Counts.{scored as score·scored};

use crate::tally::more;

// How many calls answered as they must, and how many words all of them changed.
#[derive(Clone, Copy, Default)]
pub struct Score {
    pub calls: u64,
    pub changed: u64,
}

impl Score {
    // A call more.
    pub fn plus(self, ok: bool, changed: u64) -> Score
        ensures { result ≡ score·scored self ok changed }
    {
        Score {
            calls: if ok { more(self.calls) } else { self.calls },
            changed: self.changed.wrapping_add(changed),
        }
    }
}
