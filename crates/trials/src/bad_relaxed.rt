// Every part of good that speaks of relaxed queries, broken alone; beside a limit stands what is
// still good. The relaxed query stands behind the rows of the sample.
use crate::play::play;
use crate::set::Damaged;
use tally::Tally;

pub fn relaxed(rt: &HostRuntime, row: u64, tally: Tally) -> Tally {
    play(
        rt,
        Damaged::Slot(row),
        b"on 6
put transactions 6 0: 17
put transactions 6 1: 3
good: a relaxed query has read nothing
on 6
put transactions 6 0: 17
put transactions 6 1: 3
put transactions 6 2: 1
damage: a relaxed query has a start
on 6
put transactions 6 0: 17
put transactions 6 1: 3
put transactions 6 3: 1
put transactions 6 4: 1
put transactions 6 5: 2
damage: a relaxed query awaits a lock
on 6
put transactions 6 0: 17
put transactions 6 1: 3
put transactions 6 4: 1
damage: a relaxed query awaits an item
on 6
put transactions 6 0: 17
put transactions 6 1: 3
put transactions 6 5: 1
damage: a relaxed query has a rank
on 6
put transactions 6 0: 17
put transactions 6 1: 3
bit locks 3 0: 6
damage: a relaxed query shares an item
on 6
put transactions 6 0: 17
put transactions 6 1: 3
holder locks 6 1: 6
damage: a relaxed query holds an item exclusively
on 6
put transactions 6 0: 17
put transactions 6 1: 3
put transactions 6 8: 32
bit transactions 5 9: 6
good: a relaxed query has read an item, and who holds it is in its set
on 6
put transactions 6 0: 17
put transactions 6 1: 3
put transactions 6 8: 32
damage: who holds what a relaxed query has read is not in its set
on 6
put transactions 6 0: 17
put transactions 6 1: 3
put transactions 6 8: 9223372036854775808
good: a relaxed query has read the last item
on 6
put transactions 6 0: 17
put transactions 6 1: 3
put transactions 6 8: 8
good: a relaxed query has read what is only shared
on 6
put transactions 6 0: 17
put transactions 6 1: 3
put transactions 5 8: 1
damage: an update has read an item, as a relaxed query has
on 6
put transactions 6 0: 17
put transactions 6 1: 3
put transactions 4 8: 1
damage: a query has read an item, as a relaxed one has
on 6
put transactions 6 0: 17
put transactions 6 1: 3
bit transactions 0 9: 6
good: an update that holds nothing is in a set
on 6
put transactions 6 0: 17
put transactions 6 1: 3
bit transactions 4 9: 6
damage: a query is in a set
on 6
put transactions 6 0: 17
put transactions 6 1: 3
bit transactions 6 9: 6
damage: a relaxed query is in its own set
on 6
put transactions 6 0: 17
put transactions 6 1: 3
bit transactions 0 9: 4
damage: an update is in the set of a query
on 6
put transactions 6 0: 17
put transactions 6 1: 3
bit transactions 0 9: 7
damage: an update is in the set of a free slot
on 6
put transactions 6 0: 17
put transactions 6 1: 3
put transactions 0 9: 4294967296
damage: an update is in the set of a slot that there is not
on 6
put transactions 6 0: 17
put transactions 6 1: 3
put transactions 5 1: 2
put transactions 5 2: 8
damage: one is past its writing beside a relaxed query
on 6
put transactions 6 0: 17
put transactions 6 1: 3
bit versions 9 65: 6
good: a version is hidden from a relaxed query
on 6
put transactions 6 0: 17
put transactions 6 1: 3
bit versions 9 65: 6
bit versions 9 66: 6
damage: the last version is hidden too
on 6
put transactions 6 0: 17
put transactions 6 1: 3
put versions 9 0: 3
put versions 9 5: 0
put versions 9 6: 20
put transactions 7 0: 18
put transactions 7 1: 1
put transactions 7 2: 1
bit versions 9 65: 6
bit versions 9 66: 6
good: two versions are hidden from a relaxed query
on 6
put transactions 6 0: 17
put transactions 6 1: 3
put versions 9 0: 3
put versions 9 5: 0
put versions 9 6: 20
put transactions 7 0: 18
put transactions 7 1: 1
put transactions 7 2: 1
bit versions 9 66: 6
damage: a version is hidden and a newer one is not
on 6
put transactions 6 0: 17
put transactions 6 1: 3
bit versions 9 65: 4
damage: a version is hidden from a query
on 6
put transactions 6 0: 17
put transactions 6 1: 3
bit versions 9 65: 7
damage: a version is hidden from a free slot
on 6
put transactions 6 0: 17
put transactions 6 1: 3
put versions 9 65: 4294967296
damage: a version is hidden from a slot that there is not
on 6
put transactions 6 0: 17
put transactions 6 1: 3
bit versions 9 67: 6
damage: an unused place is hidden
on 6
put transactions 6 0: 17
put transactions 6 1: 3
put versions 6 0: 2
put versions 6 1: 2
put versions 6 2: 600
put versions 6 3: 0
put versions 6 4: 60
bit versions 6 65: 6
good: a version is kept for a relaxed query
on 6
put transactions 6 0: 17
put transactions 6 1: 3
put versions 6 0: 2
put versions 6 1: 2
put versions 6 2: 600
put versions 6 3: 0
put versions 6 4: 60
damage: a version is kept that no relaxed query reads
on 6
put transactions 6 0: 17
put transactions 6 1: 3
put versions 5 0: 2
put versions 5 1: 2
put versions 5 2: 600
put versions 5 3: 0
put versions 5 4: 60
bit versions 5 65: 6
bit transactions 5 9: 6
good: who holds an item exclusively is in the set from which its newest version is hidden
on 6
put transactions 6 0: 17
put transactions 6 1: 3
put versions 5 0: 2
put versions 5 1: 2
put versions 5 2: 600
put versions 5 3: 0
put versions 5 4: 60
bit versions 5 65: 6
damage: who holds it exclusively is not
on 6
put transactions 6 0: 17
put transactions 6 1: 3
put versions 3 0: 2
put versions 3 1: 2
put versions 3 2: 600
put versions 3 3: 0
put versions 3 4: 60
bit versions 3 65: 6
bit transactions 1 9: 6
good: who shares an item is in the set from which its newest version is hidden
on 6
put transactions 6 0: 17
put transactions 6 1: 3
put versions 3 0: 2
put versions 3 1: 2
put versions 3 2: 600
put versions 3 3: 0
put versions 3 4: 60
bit versions 3 65: 6
damage: who shares it is not
",
        tally,
    )
}
