// What stands on either side of a stamp among the starts of those who read by one.
ghost use Rattle.std.specs.Prelude.{◌≡◌, List, [], ◌∷◌, ◌++◌, ℕ};
ghost use Rattle.names.specs.Sizes.{base};
ghost use Rattle.starts.specs.Starts.{starts};
ghost use Rattle.starts.specs.Beside.{Beside};

use super::{GUARD, SLOTS, start_in};
use names::Txns;

// One more than the greatest start below the stamp, 0 where none is below it; and the least start
// from the stamp on, the greatest word where there is none.
#[derive(Clone, Copy)]
pub struct Neighbours {
    pub below: u64,
    pub next: u64,
}

// The neighbours where one start more is there.
fn met(known: Neighbours, stamp: u64, start: u64) -> Neighbours
    ensures { (qs : List ℕ) → Beside qs stamp known.below known.next → Beside (qs ++ (start ∷ [])) stamp result.below result.next }
{
    if start < stamp {
        if start < known.below {
            return known;
        }
        return Neighbours {
            below: start + 1,
            next: known.next,
        };
    }
    if known.next <= start {
        return known;
    }
    Neighbours {
        below: known.below,
        next: start,
    }
}

// The neighbours of a stamp among the starts of those who read by one.
pub fn beside(txns: &Txns, stamp: u64) -> Neighbours
    ensures { Beside (starts base txns.now) stamp result.below result.next }
{
    let mut known = Neighbours {
        below: 0,
        next: GUARD,
    };
    for i in 0..SLOTS {
        if let Some(start) = start_in(txns, i) {
            known = met(known, stamp, start);
        }
    }
    known
}
