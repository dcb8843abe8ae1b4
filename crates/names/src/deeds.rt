// What a call comes to: refused, and why; or a deed, with the slot, the item and the stamp that it
// needs. The rules say which deed a call is, and what each deed answers and changes.
ghost use Rattle.std.specs.Prelude.{◌≡◌};
ghost use Rattle.names.specs.Answers.{code};

use super::{Item, Slot, Stamp};

// Why a call is refused, with its code.
#[derive(Clone, Copy)]
pub enum Refusal {
    Wait = 1,
    Deadlock = 2,
    UnknownTransaction = 3,
    UnknownItem = 4,
    QueryMayNotWrite = 5,
    StillWaiting = 6,
    NoSlot = 7,
    NumbersSpent = 8,
    ClockSpent = 9,
    BadTables = 10,
    QuotaSpent = 11,
    PastWriting = 12,
    KeptApart = 13,
}

impl Refusal {
    pub fn code(self) -> u64
        ensures { result ≡ code self }
    {
        self as u64
    }
}

// What the lock table's cell says of an update's read or write.
#[derive(Clone, Copy)]
pub enum Cell {
    OwnValue,
    ReplaceValue,
    NewestValue,
    ExchangeLock,
    TakeShared,
    TakeExclusive,
    Conflict,
}

// Stays: a kind and a lock are words here, as the rules' `judged` and `done` have them.
#[derive(Clone, Copy)]
pub enum Deed {
    // Nothing is done.
    Refused(Refusal),
    // A wait for a lock of this kind is noted down.
    Waits(Slot, u64, Item),
    // A transaction of this kind begins, with this start.
    Begins(Slot, u64, Stamp),
    // A query, or one past its writing, reads the newest version up to its start; a relaxed query the
    // newest that is not hidden from it. A query's read is counted, and a relaxed query's is noted.
    ReadsVersion(Slot, Item),
    // An update reads: its own working value, the newest value, or that under a new shared lock. Its own
    // working value is read past its writing too.
    ReadsOwn(Slot, Item),
    ReadsNewest(Slot, Item),
    TakesShared(Slot, Item),
    // An update writes a value: over its working value, or under a new exclusive lock.
    Replaces(Slot, Item, u64),
    TakesExclusive(Slot, Item, u64),
    // An update commits, under the stamp after the clock; or without one, where it holds no item
    // exclusively.
    Commits(Slot),
    CommitsEmpty(Slot),
    // A query ends, relaxed or not.
    Ends(Slot),
    // An update is aborted.
    Aborts(Slot),
    // An update ends its writing, under the stamp after the clock.
    Settles(Slot),
    // One past its writing commits under its stamp, or is aborted.
    CommitsSettled(Slot),
    AbortsSettled(Slot),
}
