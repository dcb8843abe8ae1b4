// Circles among the waits of the slots: whether there is one, and whether a slot can be reached.
//
// The waits come as one word of slots for each slot: bit b of `waits[a]` says that slot a waits for
// slot b. A walk goes from a slot to one that it waits for, and so on; a circle is a walk that ends
// where it began. Every function is proved in both directions against the walks of the rules.
#![tactic(auto)]

ghost use Rattle.std.specs.Prelude.{◌≡◌, ◌↔◌, ℕ, ◌<◌, ◌^◌, T};
ghost use Rattle.names.specs.Sizes.{base};
ghost use Rattle.rules.specs.Words.{bit};
ghost use Rattle.circles.specs.Links.{LinkWords, Waiting, NoCircle, Leads};
ghost use Rattle.circles.specs.Peel.{peeled, Swept};
ghost use Rattle.circles.specs.Visits.{Open};

use names::Slot;

// How many slots there are, as an index.
const SLOTS: usize = names::SLOTS as usize;

// The slots of `left` without `slot`, if that waits for none of them: such a slot is on no circle
// among them.
fn peel(waits: &[u64; SLOTS], left: u64, slot: usize) -> u64
    requires { LinkWords waits.now × (slot < base.slots) }
    ensures { result ≡ peeled waits.now left slot }
{
    if (waits[slot] & left) == 0 {
        return left ^ (left & (1 << slot));
    }
    left
}

// What is left once each slot was peeled, in the order in which `slot_at` names them.
fn peel_all<F: Fn(usize) -> usize>(waits: &[u64; SLOTS], left: u64, slot_at: F) -> u64
    requires links { LinkWords waits.now }
    requires callable { (k : ℕ) → k < base.slots → F.pre slot_at k }
    requires within { (k slot : ℕ) → k < base.slots → F.post slot_at k slot → slot < base.slots }
    requires all { (slot : ℕ) → slot < base.slots → (k : ℕ) × (k < base.slots) × ((s : ℕ) → F.post slot_at k s → s ≡ slot) }
    ensures { Swept waits.now left result }
{
    let mut rest = left;
    for k in 0..SLOTS {
        rest = peel(waits, rest, slot_at(k));
    }
    rest
}

// Is there no circle among the waits? `waiting` holds the slots that wait for somebody, and may
// hold more. Slots that are on no circle are peeled off, upward and downward by turns, since waits
// that lead one way are gone after one turn; what resists a turn has a circle.
pub fn no_circle(waits: &[u64; SLOTS], waiting: u64) -> bool
    requires { LinkWords waits.now × Waiting waits.now waiting }
    ensures { T result ↔ NoCircle waits.now }
{
    let mut left = waiting;
    while left != 0 {
        let rest = peel_all(waits, left, |k| k);
        if rest == 0 {
            return true;
        }
        if rest == left {
            return false;
        }
        left = peel_all(waits, rest, |k| SLOTS - 1 - k);
    }
    true
}

// The lowest slot of a word that has one.
fn lowest(word: u64) -> u64
    requires { (0 < word) × (word < 2 ^ base.slots) }
    ensures { (result < base.slots) × T (bit word result) }
{
    word.trailing_zeros() as u64
}

// Is a slot of `todo` the goal, or leads to it? `done` holds the slots that were visited. Each call
// visits one slot more, so there are at most as many as there are slots, and one.
fn search(waits: &[u64; SLOTS], done: u64, todo: u64, goal: u64) -> bool
    requires { LinkWords waits.now × Open waits.now done todo goal }
    ensures { T result ↔ Leads waits.now todo goal }
{
    if todo == 0 {
        return false;
    }
    let slot = lowest(todo);
    if slot == goal {
        return true;
    }
    let at = slot as usize;
    let seen = done | (1 << slot);
    let met = todo | waits[at];
    search(waits, seen, met ^ (met & seen), goal)
}

// Is a slot of `from` the goal, or can one walk from it to the goal? Where `from` holds whom the
// goal would wait for, this says whether that wait would close a circle.
pub fn reaches(waits: &[u64; SLOTS], from: u64, goal: Slot) -> bool
    requires { LinkWords waits.now × (from < 2 ^ base.slots) }
    ensures { T result ↔ Leads waits.now from goal.0 }
{
    search(waits, 0, from, goal.0)
}
