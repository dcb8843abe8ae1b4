// Every part of good that speaks of the read count and the weight sum of a row, broken alone; beside
// a limit stands what is still good. Row 6 is free, or that of one past its writing.
use crate::play::play;
use crate::set::Damaged;
use tally::Tally;

pub fn reads(rt: &HostRuntime, row: u64, tally: Tally) -> Tally {
    play(
        rt,
        Damaged::Slot(row),
        b"on 6
put transactions 6 6: 1
damage: a free row has a read count
on 6
put transactions 6 7: 1
damage: a free row has a weight sum
on 0
put transactions 0 6: 1
damage: an update has a read count
on 0
put transactions 0 7: 1
damage: an update has a weight sum
on 2
put transactions 2 6: 4294967295
put transactions 2 7: 4294967295
damage: an update that waits has a count and a sum at the limit
on 6
put transactions 6 0: 17
put transactions 6 1: 2
put transactions 6 2: 8
put transactions 6 6: 1
damage: one past its writing has a read count
on 6
put transactions 6 0: 17
put transactions 6 1: 2
put transactions 6 2: 8
put transactions 6 7: 1
damage: one past its writing has a weight sum
on 4
put transactions 4 6: 4294967296
damage: a query's read count is 4294967296
on 4
put transactions 4 6: 18446744073709551615
damage: a query's read count is the greatest word
on 4
put transactions 4 7: 4294967296
damage: a query's weight sum is 4294967296
on 4
put transactions 4 7: 18446744073709551615
damage: a query's weight sum is the greatest word
on 4
put transactions 4 6: 4294967295
put transactions 4 7: 4294967295
good: a query's count and sum are 4294967295
on 4
put transactions 4 6: 1
good: a query read once, and that weighs nothing
on 4
put transactions 4 7: 1
good: a query read never, and that weighs 1
",
        tally,
    )
}
