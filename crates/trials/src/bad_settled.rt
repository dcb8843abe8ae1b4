// Every part of good that speaks of an update past its writing, broken alone; beside a limit stands
// what is still good. It stands behind the rows of the sample, and holds item 6 exclusively.
use crate::play::play;
use crate::set::Damaged;
use tally::Tally;

pub fn settled(rt: &HostRuntime, row: u64, tally: Tally) -> Tally {
    play(
        rt,
        Damaged::Slot(row),
        b"on 6
put transactions 6 0: 17
put transactions 6 1: 2
put transactions 6 2: 8
holder locks 6 1: 6
put locks 6 2: 66
good: an update is past its writing
on 6
put transactions 6 0: 17
put transactions 6 1: 2
put transactions 6 2: 8
holder locks 6 1: 6
put locks 6 2: 66
put transactions 6 2: 0
damage: one past its writing has the stamp 0
on 6
put transactions 6 0: 17
put transactions 6 1: 2
put transactions 6 2: 8
holder locks 6 1: 6
put locks 6 2: 66
put transactions 6 2: 11
damage: one past its writing has a stamp above the clock
on 6
put transactions 6 0: 17
put transactions 6 1: 2
put transactions 6 2: 8
holder locks 6 1: 6
put locks 6 2: 66
put transactions 6 2: 10
good: one past its writing has the clock as its stamp, which is the start of a query
on 6
put versions 9 0: 3
put versions 9 5: 0
put versions 9 6: 20
put transactions 6 0: 17
put transactions 6 1: 2
put transactions 6 2: 8
holder locks 6 1: 6
put locks 6 2: 66
put transactions 6 2: 1
good: one past its writing has the stamp 1
on 6
put transactions 6 0: 17
put transactions 6 1: 2
put transactions 6 2: 8
holder locks 6 1: 6
put locks 6 2: 66
put transactions 6 3: 1
put transactions 6 4: 1
put transactions 6 5: 2
damage: one past its writing awaits a lock
on 6
put transactions 6 0: 17
put transactions 6 1: 2
put transactions 6 2: 8
holder locks 6 1: 6
put locks 6 2: 66
put transactions 6 4: 1
damage: one past its writing awaits an item
on 6
put transactions 6 0: 17
put transactions 6 1: 2
put transactions 6 2: 8
holder locks 6 1: 6
put locks 6 2: 66
put transactions 6 5: 1
damage: one past its writing has a rank
on 6
put transactions 6 0: 17
put transactions 6 1: 2
put transactions 6 2: 8
holder locks 6 1: 6
put locks 6 2: 66
bit locks 3 0: 6
damage: one past its writing shares an item
on 6
put transactions 6 0: 17
put transactions 6 1: 2
put transactions 6 2: 8
holder locks 6 1: 6
put locks 6 2: 66
put transactions 5 1: 2
put transactions 5 2: 8
damage: two past their writing have one stamp
on 6
put transactions 6 0: 17
put transactions 6 1: 2
put transactions 6 2: 8
holder locks 6 1: 6
put locks 6 2: 66
put transactions 5 1: 2
put transactions 5 2: 7
good: two are past their writing
on 6
put transactions 6 0: 17
put transactions 6 1: 2
put transactions 6 2: 8
holder locks 6 1: 6
put locks 6 2: 66
put versions 6 0: 2
put versions 6 1: 7
put versions 6 2: 600
put versions 6 3: 2
put versions 6 4: 60
good: the newest version of its item is older than its stamp
on 6
put transactions 6 0: 17
put transactions 6 1: 2
put transactions 6 2: 8
holder locks 6 1: 6
put locks 6 2: 66
put versions 6 0: 2
put versions 6 1: 8
put versions 6 2: 600
put versions 6 3: 2
put versions 6 4: 60
damage: a version of its item has its stamp
on 6
put transactions 6 0: 17
put transactions 6 1: 2
put transactions 6 2: 8
holder locks 6 1: 6
put locks 6 2: 66
put versions 6 0: 2
put versions 6 1: 9
put versions 6 2: 600
put versions 6 3: 2
put versions 6 4: 60
damage: a version of its item is newer than its stamp
",
        tally,
    )
}
