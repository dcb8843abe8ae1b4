// Every part of good that speaks of a transaction's row, broken alone; beside a limit stands what is
// still good.
use crate::play::play;
use crate::set::Damaged;
use tally::Tally;

// Free rows, numbers, kinds and awaited locks.
fn numbers(rt: &HostRuntime, row: u64, tally: Tally) -> Tally {
    play(
        rt,
        Damaged::Slot(row),
        b"on 0
good: the sample, tried at the row of an update
on 6
put transactions 6 1: 1
damage: a free row has a kind
on 6
put transactions 6 2: 1
damage: a free row has a start
on 6
put transactions 6 3: 1
damage: a free row awaits a lock
on 6
put transactions 6 4: 1
damage: a free row awaits an item
on 6
put transactions 6 5: 1
damage: a free row has a rank
on 0
put transactions 0 0: 15
damage: an update has the number of a query
on 0
put transactions 0 0: 12
damage: an update has the number of another
on 3
put transactions 3 0: 15
damage: a query has the number of another
on 0
put transactions 0 0: 51
damage: an update has a number above the last given
on 4
put transactions 4 0: 51
damage: a query has a number above the last given
on 0
put transactions 0 0: 18446744073709551615
damage: an update has the greatest word as its number
on 0
put transactions 0 0: 1
good: an update has the number 1
on 2
good: an update has the last number given
on 0
put transactions 0 1: 4
damage: the kind is 4
on 0
put transactions 0 1: 18446744073709551615
damage: the kind is the greatest word
on 0
put transactions 0 3: 3
put transactions 0 5: 1
damage: the awaited lock is 3
on 0
put transactions 0 3: 18446744073709551615
put transactions 0 5: 1
damage: the awaited lock is the greatest word
on 0
put transactions 0 3: 2
put transactions 0 5: 1
good: an update awaits an item that nobody holds
",
        tally,
    )
}

// Starts, awaited items, and waits.
fn waits(rt: &HostRuntime, row: u64, tally: Tally) -> Tally {
    play(
        rt,
        Damaged::Slot(row),
        b"on 0
put transactions 0 2: 1
damage: an update has the start 1
on 0
put transactions 0 2: 18446744073709551615
damage: an update has the greatest word as its start
on 4
put transactions 4 2: 11
damage: a query has a start above the clock
on 4
put transactions 4 2: 18446744073709551615
damage: a query has the greatest word as its start
on 4
good: a query has the clock as its start
on 4
put transactions 4 3: 1
put transactions 4 5: 1
damage: a query awaits a shared lock
on 4
put transactions 4 3: 2
put transactions 4 5: 1
damage: a query awaits an exclusive lock
on 2
put transactions 2 4: 64
damage: the awaited item is 64
on 2
put transactions 2 4: 18446744073709551615
damage: the awaited item is the greatest word
on 2
put transactions 2 4: 63
good: the awaited item is 63
on 0
put transactions 0 4: 1
damage: an update awaits no lock, but an item
on 4
put transactions 4 4: 63
damage: a query awaits no lock, but an item
on 2
put transactions 2 3: 0
put transactions 2 5: 0
damage: an update awaits no lock any more, but its item
on 2
put transactions 2 4: 2
damage: an update awaits shared what it shares
on 2
put transactions 2 4: 4
damage: an update awaits shared what it holds exclusively
on 2
put transactions 2 3: 2
put transactions 2 4: 4
damage: an update awaits exclusively what it holds so
on 2
put transactions 2 3: 2
put transactions 2 4: 2
good: an update awaits exclusively what it shares
on 1
put transactions 1 3: 1
put transactions 1 4: 4
put transactions 1 5: 1
damage: two updates wait for each other
on 1
put transactions 1 3: 2
put transactions 1 4: 2
put transactions 1 5: 1
damage: two updates wait for each other, one of them to write what both share
on 1
put transactions 1 3: 1
put transactions 1 4: 5
put transactions 1 5: 1
put transactions 5 3: 2
put transactions 5 4: 4
put transactions 5 5: 1
damage: three updates wait in a circle
on 0
put transactions 0 3: 1
put transactions 0 4: 1
put transactions 0 5: 2
put transactions 1 3: 1
put transactions 1 4: 4
put transactions 1 5: 1
damage: two updates wait for each other, and this one for them
on 1
put transactions 1 3: 1
put transactions 1 4: 5
put transactions 1 5: 1
good: three updates wait in a row
",
        tally,
    )
}

// Ranks (request E4).
fn ranks(rt: &HostRuntime, row: u64, tally: Tally) -> Tally {
    play(
        rt,
        Damaged::Slot(row),
        b"on 0
put transactions 0 5: 1
damage: an update awaits nothing, but has a rank
on 4
put transactions 4 5: 1
damage: a query has a rank
on 2
put transactions 2 3: 0
put transactions 2 4: 0
damage: an update awaits nothing any more, but has its rank
on 2
put transactions 2 5: 0
damage: who waits has the rank 0
on 2
put transactions 2 5: 2
damage: who waits alone has the rank 2
on 2
put transactions 2 5: 33
damage: the rank is 33
on 2
put transactions 2 5: 18446744073709551615
damage: the rank is the greatest word
on 0
put transactions 0 3: 1
put transactions 0 4: 1
put transactions 0 5: 1
damage: two who wait on one item have the same rank
on 0
put transactions 0 3: 1
put transactions 0 4: 1
put transactions 0 5: 3
damage: the ranks of two who wait on one item have a gap
on 0
put transactions 0 3: 1
put transactions 0 4: 1
put transactions 0 5: 2
good: two wait in line
on 0
put transactions 0 3: 1
put transactions 0 4: 1
put transactions 0 5: 1
put transactions 2 5: 2
good: the same two, the other one first
on 0
put transactions 0 3: 1
put transactions 0 4: 7
put transactions 0 5: 1
good: two wait on two items, each first
on 2
put transactions 2 3: 2
put transactions 2 4: 2
put transactions 2 5: 2
put transactions 0 3: 1
put transactions 0 4: 2
put transactions 0 5: 1
damage: who shares the item waits behind one that does not
on 2
put transactions 2 3: 2
put transactions 2 4: 2
put transactions 2 5: 1
put transactions 0 3: 1
put transactions 0 4: 2
put transactions 0 5: 2
good: who shares the item waits ahead of one that does not
on 5
put transactions 0 3: 2
put transactions 0 4: 3
put transactions 0 5: 1
put transactions 5 3: 1
put transactions 5 4: 3
put transactions 5 5: 2
put transactions 1 3: 1
put transactions 1 4: 5
put transactions 1 5: 1
damage: three wait in a circle, one of them for an earlier waiter alone
on 5
put transactions 0 3: 2
put transactions 0 4: 3
put transactions 0 5: 2
put transactions 5 3: 1
put transactions 5 4: 3
put transactions 5 5: 1
put transactions 1 3: 1
put transactions 1 4: 5
put transactions 1 5: 1
good: the same three, that one ahead
",
        tally,
    )
}

// In the first row, a middle one and the last.
pub fn slots(rt: &HostRuntime, tally: Tally) -> Tally {
    let mut t = numbers(rt, 0, tally);
    t = waits(rt, 0, t);
    t = ranks(rt, 0, t);
    t = numbers(rt, 15, t);
    t = waits(rt, 15, t);
    t = ranks(rt, 15, t);
    t = numbers(rt, 31, t);
    t = waits(rt, 31, t);
    ranks(rt, 31, t)
}
