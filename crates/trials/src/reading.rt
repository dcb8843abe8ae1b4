// Trials AB and AC, of request E8: what is counted of a query's reads, and where that is held.
use crate::play::play;
use crate::set::Damaged;
use tally::Tally;

pub fn ab(rt: &HostRuntime, tally: Tally) -> Tally {
    play(
        rt,
        Damaged::Nothing,
        b"trial AB: a query's granted reads are counted and weighed, and nothing else is
update: 0 0 1 0
write 1 5 51: 0 0 0 0
query: 0 0 2 0
view transactions 1 6: 0
view transactions 1 7: 0
read 2 5: 0 0 0 1
view transactions 1 6: 1
view transactions 1 7: 1
read 1 6: 0 0 0 1
read 1 5: 0 51 0 0
settle 1: 0 0 1 0
read 1 6: 0 0 0 1
read 1 5: 0 51 0 0
view transactions 0 6: 0
view transactions 0 7: 0
query: 0 0 3 0
read 3 5: 1 0 0 0
read 3 64: 4 0 0 0
write 3 5 53: 5 0 0 0
settle 3: 5 0 0 0
view transactions 2 6: 0
view transactions 2 7: 0
commit 1: 0 0 1 0
read 3 5: 0 51 0 1
read 2 5: 0 0 0 2
view transactions 1 6: 2
view transactions 1 7: 3
view transactions 2 6: 1
view transactions 2 7: 1
abort 3: 0 1 0 1
view transactions 2 6: 0
view transactions 2 7: 0
query: 0 0 4 0
view transactions 0 6: 0
view transactions 0 7: 0
commit 4: 0 0 0 0
query: 0 0 5 0
abort 5: 0 0 0 0
read 2 63: 0 0 0 1
read 2 5: 0 0 0 2
commit 2: 0 6 0 4
view transactions 1 6: 0
view transactions 1 7: 0
update: 0 0 6 0
read 6 5: 0 51 0 1
commit 6: 0 0 1 0
update: 0 0 7 0
read 7 5: 0 51 0 1
abort 7: 0 0 0 0
commit 2: 3 0 0 0
",
        tally,
    )
}

// Query 1 looks at one version of item 6, and at two of item 5.
pub fn ac(rt: &HostRuntime, tally: Tally) -> Tally {
    play(
        rt,
        Damaged::Nothing,
        b"trial AC: a count and a sum at the limit less two, less one, and at it; a weight that jumps over it
query: 0 0 1 0
update: 0 0 2 0
write 2 5 52: 0 0 0 0
commit 2: 0 0 1 0
put transactions 0 6: 4294967293
put transactions 0 7: 4294967293
read 1 6: 0 0 0 1
view transactions 0 6: 4294967294
view transactions 0 7: 4294967294
read 1 6: 0 0 0 1
view transactions 0 6: 4294967295
view transactions 0 7: 4294967295
read 1 6: 0 0 0 1
view transactions 0 6: 4294967295
view transactions 0 7: 4294967295
read 1 5: 0 0 0 2
view transactions 0 6: 4294967295
view transactions 0 7: 4294967295
put transactions 0 6: 0
put transactions 0 7: 4294967293
read 1 5: 0 0 0 2
view transactions 0 7: 4294967295
put transactions 0 7: 4294967294
read 1 5: 0 0 0 2
view transactions 0 6: 2
view transactions 0 7: 4294967295
put transactions 0 6: 4294967294
put transactions 0 7: 0
read 1 5: 0 0 0 2
read 1 5: 0 0 0 2
view transactions 0 6: 4294967295
view transactions 0 7: 4
put transactions 0 7: 4294967294
commit 1: 0 4294967294 0 4294967295
query: 0 0 3 0
put transactions 0 6: 4294967296
read 3 5: 10 0 0 0
commit 3: 10 0 0 0
put transactions 0 6: 4294967295
put transactions 0 7: 4294967296
read 3 5: 10 0 0 0
abort 3: 10 0 0 0
put transactions 0 7: 4294967295
abort 3: 0 4294967295 0 4294967295
",
        tally,
    )
}
