// Trials A to H: what is granted, who waits, and what is refused. Of the items that document 01 calls x
// and y any two are taken; T1 and T2 are the transactions 1 and 2.
use crate::play::play;
use crate::set::Damaged;
use tally::Tally;

// Reads, writes, and waits.
pub fn a_to_e(rt: &HostRuntime, tally: Tally) -> Tally {
    play(
        rt,
        Damaged::Nothing,
        b"trial A: the run of document 01
update: 0 0 1 0
write 1 5 77: 0 0 0 0
query: 0 0 2 0
read 2 5: 0 0 0 1
commit 1: 0 0 1 0
read 2 5: 0 0 0 2
commit 2: 0 3 0 2
read 2 5: 3 0 0 0
trial B: the first item, the last, and the one after it
query: 0 0 1 0
read 1 0: 0 0 0 1
read 1 63: 0 0 0 1
read 1 64: 4 0 0 0
update: 0 0 2 0
read 2 63: 0 0 0 1
read 2 64: 4 0 0 0
write 2 63 5: 0 0 0 0
write 2 64 5: 4 0 0 0
trial C: a reader waits for the writer of its item, and for that of no other
update: 0 0 1 0
update: 0 0 2 0
write 1 7 42: 0 0 0 0
read 2 8: 0 0 0 1
read 2 7: 1 0 0 0
view transactions 1 3: 1
view transactions 1 4: 7
view transactions 1 5: 1
read 2 7: 1 0 0 0
commit 1: 0 0 1 0
read 2 7: 0 42 0 1
view transactions 1 3: 0
view transactions 1 4: 0
view transactions 1 5: 0
trial D: the own shared lock is exchanged for the exclusive one
update: 0 0 1 0
read 1 9: 0 0 0 1
view locks 9 0: 1
write 1 9 5: 0 0 0 0
view locks 9 0: 0
view locks 9 1: 1
view locks 9 2: 5
read 1 9: 0 5 0 0
write 1 9 6: 0 0 0 0
read 1 9: 0 6 0 0
commit 1: 0 0 1 0
trial E: two readers both want to write, a circle of two
update: 0 0 1 0
update: 0 0 2 0
read 1 3: 0 0 0 1
read 2 3: 0 0 0 1
write 1 3 8: 1 0 0 0
view transactions 0 3: 2
view transactions 0 4: 3
view transactions 0 5: 1
write 2 3 9: 2 0 0 0
read 2 3: 0 0 0 1
abort 2: 0 0 0 0
write 1 3 8: 0 0 0 0
read 1 3: 0 8 0 0
commit 1: 0 0 1 0
",
        tally,
    )
}

// What is refused.
pub fn f_to_h(rt: &HostRuntime, tally: Tally) -> Tally {
    play(
        rt,
        Damaged::Nothing,
        b"trial F: who awaits may only repeat its call or abort, first a read, then a write
update: 0 0 1 0
update: 0 0 2 0
write 1 3 8: 0 0 0 0
read 2 3: 1 0 0 0
view transactions 1 5: 1
commit 2: 6 0 0 0
read 2 4: 6 0 0 0
write 2 3 1: 6 0 0 0
write 2 4 1: 6 0 0 0
read 2 64: 4 0 0 0
read 2 3: 1 0 0 0
abort 2: 0 0 0 0
commit 2: 3 0 0 0
fresh
update: 0 0 1 0
update: 0 0 2 0
read 1 3: 0 0 0 1
write 2 3 5: 1 0 0 0
commit 2: 6 0 0 0
write 2 4 5: 6 0 0 0
read 2 3: 6 0 0 0
read 2 4: 6 0 0 0
write 2 3 6: 1 0 0 0
commit 1: 0 0 0 0
read 2 3: 6 0 0 0
write 2 3 7: 0 0 0 0
read 2 3: 0 7 0 0
commit 2: 0 0 1 0
trial G: as many live as there are slots, and one more
update: 0 0 1 0
update: 0 0 2 0
update: 0 0 3 0
update: 0 0 4 0
update: 0 0 5 0
update: 0 0 6 0
update: 0 0 7 0
update: 0 0 8 0
update: 0 0 9 0
update: 0 0 10 0
update: 0 0 11 0
update: 0 0 12 0
update: 0 0 13 0
update: 0 0 14 0
update: 0 0 15 0
update: 0 0 16 0
update: 0 0 17 0
update: 0 0 18 0
update: 0 0 19 0
update: 0 0 20 0
update: 0 0 21 0
update: 0 0 22 0
update: 0 0 23 0
update: 0 0 24 0
update: 0 0 25 0
update: 0 0 26 0
update: 0 0 27 0
update: 0 0 28 0
update: 0 0 29 0
update: 0 0 30 0
update: 0 0 31 0
update: 0 0 32 0
update: 7 0 0 0
query: 7 0 0 0
abort 5: 0 0 0 0
query: 0 0 33 0
view transactions 4 0: 33
update: 7 0 0 0
commit 33: 0 0 0 0
update: 0 0 34 0
query: 7 0 0 0
commit 32: 0 0 0 0
query: 0 0 35 0
view transactions 31 0: 35
update: 7 0 0 0
trial H: a query may not write, an update may
query: 0 0 1 0
write 1 0 8: 5 0 0 0
write 1 63 8: 5 0 0 0
write 1 64 8: 4 0 0 0
write 2 64 8: 3 0 0 0
read 1 63: 0 0 0 1
update: 0 0 2 0
write 2 63 8: 0 0 0 0
write 2 64 8: 4 0 0 0
",
        tally,
    )
}
