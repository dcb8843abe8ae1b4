// Every part of good that speaks of an item's row of locks or of versions, broken alone; beside a limit
// stands what is still good.
use crate::play::play;
use crate::set::Damaged;
use tally::Tally;

// Holders and working values.
fn holders(rt: &HostRuntime, row: u64, tally: Tally) -> Tally {
    play(
        rt,
        Damaged::Item(row),
        b"on 0
put locks 0 0: 64
damage: a free slot shares
on 0
put locks 0 0: 2147483648
damage: the last slot shares, which is free
on 0
put locks 0 0: 65536
damage: the seventeenth slot shares, which is free
on 0
put transactions 0 0: 0
put locks 0 0: 1
damage: the first slot shares, which is free
on 0
put locks 0 0: 8
damage: a query shares
on 0
put locks 0 0: 4294967296
damage: the slot after the last shares
on 0
put locks 0 0: 9223372036854775810
damage: an update shares, and bit 63
on 0
put locks 0 0: 39
good: four updates share
on 0
put locks 0 1: 7
damage: a free slot holds exclusively
on 0
put locks 0 1: 32
damage: the last slot holds exclusively, which is free
on 0
put transactions 0 0: 0
put locks 0 1: 1
damage: the first slot holds exclusively, which is free
on 0
put locks 0 1: 4
damage: a query holds exclusively
on 0
put locks 0 1: 17
damage: the seventeenth slot holds exclusively, which is free
on 0
put locks 0 1: 33
damage: the exclusive holder is 33
on 0
put locks 0 1: 64
damage: the exclusive holder is 64
on 0
put locks 0 1: 4294967297
damage: the exclusive holder is 4294967297
on 0
put locks 0 1: 18446744073709551615
damage: the exclusive holder is the greatest word
on 0
put locks 0 1: 1
put locks 0 2: 18446744073709551615
good: an update holds exclusively, with the greatest word as its value
on 0
put locks 0 0: 2
put locks 0 1: 1
put locks 0 2: 5
damage: one update shares and another holds exclusively
on 0
put locks 0 0: 1
put locks 0 1: 1
put locks 0 2: 5
damage: an update shares and holds exclusively
on 0
put locks 0 2: 1
damage: a working value, and no holder
on 0
put locks 0 0: 2
put locks 0 2: 18446744073709551615
damage: a working value, and a shared holder
",
        tally,
    )
}

// Counts and unused pairs.
fn counts(rt: &HostRuntime, row: u64, tally: Tally) -> Tally {
    play(
        rt,
        Damaged::Item(row),
        b"on 0
put versions 0 0: 0
damage: the count is 0
on 0
put versions 0 0: 33
damage: the count is 33
on 0
put versions 0 0: 4294967297
damage: the count is 4294967297
on 0
put versions 0 0: 18446744073709551615
damage: the count is the greatest word
on 0
put versions 0 3: 1
damage: the first unused stamp is 1
on 0
put versions 0 4: 1
damage: the first unused value is 1
on 0
put versions 0 33: 1
damage: the seventeenth stamp, which is unused, is 1
on 0
put versions 0 63: 1
damage: the last unused stamp is 1
on 0
put versions 0 64: 18446744073709551615
damage: the last unused value is the greatest word
on 0
put versions 0 0: 2
put versions 0 1: 10
put versions 0 2: 1
put versions 0 3: 3
put versions 0 4: 2
put versions 0 5: 1
damage: the first unused stamp after two versions is 1
",
        tally,
    )
}

// Stamps, and versions that nobody reads.
fn stamps(rt: &HostRuntime, row: u64, tally: Tally) -> Tally {
    play(
        rt,
        Damaged::Item(row),
        b"on 0
put versions 0 0: 2
put versions 0 1: 3
put versions 0 2: 1
put versions 0 3: 3
put versions 0 4: 2
damage: two stamps are the same
on 0
put versions 0 0: 2
put versions 0 1: 2
put versions 0 2: 1
put versions 0 3: 3
put versions 0 4: 2
damage: the second stamp is above the first
on 0
put versions 0 0: 3
put versions 0 1: 2
put versions 0 2: 1
put versions 0 3: 10
put versions 0 4: 2
put versions 0 5: 3
put versions 0 6: 3
damage: the second of three stamps is above the first
on 0
put versions 0 0: 3
put versions 0 1: 11
put versions 0 2: 1
put versions 0 3: 4
put versions 0 4: 2
put versions 0 5: 2
put versions 0 6: 3
damage: the first stamp is above the clock
on 0
put versions 0 0: 3
put versions 0 1: 18446744073709551615
put versions 0 2: 1
put versions 0 3: 4
put versions 0 4: 2
put versions 0 5: 2
put versions 0 6: 3
damage: the first stamp is the greatest word
on 0
put versions 0 0: 1
put versions 0 1: 4
put versions 0 2: 1
damage: the only stamp is above the start of a query
on 0
put versions 0 0: 1
put versions 0 1: 10
put versions 0 2: 1
damage: the only stamp is the clock, above the start of a query
on 0
put transactions 6 0: 13
put transactions 6 1: 1
put transactions 6 2: 8
put versions 0 0: 2
put versions 0 1: 10
put versions 0 2: 1
put versions 0 3: 4
put versions 0 4: 2
damage: the last of two stamps is above the start of a query
on 0
put versions 0 0: 2
put versions 0 1: 3
put versions 0 2: 1
put versions 0 3: 2
put versions 0 4: 2
damage: nobody reads the second of two versions
on 0
put versions 0 0: 2
put versions 0 1: 3
put versions 0 2: 1
put versions 0 3: 0
put versions 0 4: 0
damage: nobody reads the second of two versions, which is zeros
on 0
put versions 0 0: 3
put versions 0 1: 9
put versions 0 2: 1
put versions 0 3: 8
put versions 0 4: 2
put versions 0 5: 2
put versions 0 6: 3
damage: nobody reads the second of three versions
on 0
put versions 0 0: 3
put versions 0 1: 9
put versions 0 2: 1
put versions 0 3: 3
put versions 0 4: 2
put versions 0 5: 2
put versions 0 6: 3
damage: nobody reads the last of three versions
on 0
put versions 0 0: 2
put versions 0 1: 10
put versions 0 2: 1
put versions 0 3: 3
put versions 0 4: 2
good: each query reads one of two versions, at the greatest stamps
on 0
put versions 0 0: 2
put versions 0 1: 4
put versions 0 2: 1
put versions 0 3: 0
put versions 0 4: 2
good: each query reads one of two versions, at the least stamps
on 0
put versions 0 0: 1
put versions 0 1: 3
put versions 0 2: 1
good: the only stamp is the start of a query
",
        tally,
    )
}

// In the first row, a middle one and the last.
pub fn items(rt: &HostRuntime, tally: Tally) -> Tally {
    let mut t = holders(rt, 0, tally);
    t = counts(rt, 0, t);
    t = stamps(rt, 0, t);
    t = holders(rt, 31, t);
    t = counts(rt, 31, t);
    t = stamps(rt, 31, t);
    t = holders(rt, 63, t);
    t = counts(rt, 63, t);
    stamps(rt, 63, t)
}
