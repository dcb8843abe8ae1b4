// Trials S to V, of request E4, and W, of request E5: those who wait on an item stand in a line.
use crate::play::play;
use crate::set::Damaged;
use tally::Tally;

pub fn s_to_v(rt: &HostRuntime, tally: Tally) -> Tally {
    play(
        rt,
        Damaged::Nothing,
        b"trial S: readers pass a waiting writer no more
update: 0 0 1 0
update: 0 0 2 0
update: 0 0 3 0
read 1 5: 0 0 0 1
write 2 5 52: 1 0 0 0
read 3 5: 1 0 0 0
view transactions 1 5: 1
view transactions 2 5: 2
read 1 5: 0 0 0 1
commit 1: 0 0 0 0
read 3 5: 1 0 0 0
write 2 5 52: 0 0 0 0
view transactions 1 5: 0
view transactions 2 5: 1
commit 2: 0 0 1 0
read 3 5: 0 52 0 1
view transactions 2 5: 0
trial T: who shares the item and asks to write it stands ahead
update: 0 0 1 0
update: 0 0 2 0
update: 0 0 3 0
read 1 5: 0 0 0 1
read 2 5: 0 0 0 1
write 3 5 53: 1 0 0 0
view transactions 2 5: 1
write 1 5 51: 1 0 0 0
view transactions 0 5: 1
view transactions 2 5: 2
write 2 5 52: 2 0 0 0
view transactions 1 5: 0
abort 2: 0 0 0 0
write 3 5 53: 1 0 0 0
write 1 5 51: 0 0 0 0
view transactions 0 5: 0
view transactions 2 5: 1
commit 1: 0 0 1 0
write 3 5 53: 0 0 0 0
trial U: who leaves a line in its middle lets those behind it move up
update: 0 0 1 0
update: 0 0 2 0
update: 0 0 3 0
update: 0 0 4 0
write 1 5 51: 0 0 0 0
read 2 5: 1 0 0 0
read 3 5: 1 0 0 0
read 4 5: 1 0 0 0
view transactions 3 5: 3
abort 3: 0 0 0 0
view transactions 1 5: 1
view transactions 2 5: 0
view transactions 3 5: 2
commit 1: 0 0 1 0
read 4 5: 0 51 0 1
view transactions 1 5: 1
read 2 5: 0 51 0 1
trial V: a circle that is there only through an earlier waiter
update: 0 0 1 0
update: 0 0 2 0
update: 0 0 3 0
read 1 5: 0 0 0 1
write 2 5 52: 1 0 0 0
write 3 6 63: 0 0 0 0
read 3 5: 1 0 0 0
write 1 6 61: 2 0 0 0
view transactions 0 5: 0
abort 2: 0 0 0 0
read 3 5: 0 0 0 1
write 1 6 61: 1 0 0 0
",
        tally,
    )
}

// As long a line as there can be.
pub fn w(rt: &HostRuntime, tally: Tally) -> Tally {
    play(
        rt,
        Damaged::Nothing,
        b"trial W: as many wait in one line as there are slots
update: 0 0 1 0
update: 0 0 2 0
update: 0 0 3 0
update: 0 0 4 0
update: 0 0 5 0
update: 0 0 6 0
update: 0 0 7 0
update: 0 0 8 0
update: 0 0 9 0
update: 0 0 10 0
update: 0 0 11 0
update: 0 0 12 0
update: 0 0 13 0
update: 0 0 14 0
update: 0 0 15 0
update: 0 0 16 0
update: 0 0 17 0
update: 0 0 18 0
update: 0 0 19 0
update: 0 0 20 0
update: 0 0 21 0
update: 0 0 22 0
update: 0 0 23 0
update: 0 0 24 0
update: 0 0 25 0
update: 0 0 26 0
update: 0 0 27 0
update: 0 0 28 0
update: 0 0 29 0
update: 0 0 30 0
update: 0 0 31 0
update: 0 0 32 0
write 1 5 51: 0 0 0 0
write 2 5 52: 1 0 0 0
write 3 5 53: 1 0 0 0
write 4 5 54: 1 0 0 0
write 5 5 55: 1 0 0 0
write 6 5 56: 1 0 0 0
write 7 5 57: 1 0 0 0
write 8 5 58: 1 0 0 0
write 9 5 59: 1 0 0 0
write 10 5 60: 1 0 0 0
write 11 5 61: 1 0 0 0
write 12 5 62: 1 0 0 0
write 13 5 63: 1 0 0 0
write 14 5 64: 1 0 0 0
write 15 5 65: 1 0 0 0
write 16 5 66: 1 0 0 0
write 17 5 67: 1 0 0 0
write 18 5 68: 1 0 0 0
write 19 5 69: 1 0 0 0
write 20 5 70: 1 0 0 0
write 21 5 71: 1 0 0 0
write 22 5 72: 1 0 0 0
write 23 5 73: 1 0 0 0
write 24 5 74: 1 0 0 0
write 25 5 75: 1 0 0 0
write 26 5 76: 1 0 0 0
write 27 5 77: 1 0 0 0
write 28 5 78: 1 0 0 0
write 29 5 79: 1 0 0 0
write 30 5 80: 1 0 0 0
write 31 5 81: 1 0 0 0
write 32 5 82: 1 0 0 0
view transactions 1 5: 1
view transactions 16 5: 16
view transactions 31 5: 31
abort 1: 0 0 0 0
update: 0 0 33 0
read 33 5: 1 0 0 0
view transactions 0 5: 32
write 32 5 82: 1 0 0 0
abort 17: 0 0 0 0
view transactions 15 5: 15
view transactions 16 5: 0
view transactions 17 5: 16
view transactions 0 5: 31
write 2 5 52: 0 0 0 0
view transactions 0 5: 30
view transactions 31 5: 29
commit 2: 0 0 1 0
read 33 5: 1 0 0 0
write 3 5 53: 0 0 0 0
",
        tally,
    )
}
