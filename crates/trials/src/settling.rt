// Trials X to Z, of request E6: updates that end their writing, and then only check.
use crate::play::play;
use crate::set::Damaged;
use tally::Tally;

pub fn x_and_y(rt: &HostRuntime, tally: Tally) -> Tally {
    play(
        rt,
        Damaged::Nothing,
        b"trial X: an update ends its writing, reads by its stamp, and a query waits for it
update: 0 0 1 0
write 1 5 51: 0 0 0 0
read 1 6: 0 0 0 1
view locks 6 0: 1
settle 1: 0 0 1 0
view head 0 1: 1
view transactions 0 1: 2
view transactions 0 2: 1
view locks 6 0: 0
view locks 5 1: 1
view locks 5 2: 51
update: 0 0 2 0
write 2 6 62: 0 0 0 0
commit 2: 0 0 2 0
view versions 6 0: 2
read 1 6: 0 0 0 2
view locks 6 0: 0
read 1 5: 0 51 0 0
write 1 5 55: 0 0 0 0
read 1 5: 0 55 0 0
write 1 6 66: 12 0 0 0
write 1 64 66: 4 0 0 0
read 1 64: 4 0 0 0
settle 1: 12 0 0 0
query: 0 0 3 0
read 3 6: 0 62 0 1
read 3 5: 1 0 0 0
read 3 7: 0 0 0 1
read 3 5: 1 0 0 0
update: 0 0 4 0
read 4 5: 1 0 0 0
view transactions 2 5: 1
settle 4: 6 0 0 0
commit 1: 0 0 1 0
view head 0 1: 2
view versions 5 0: 1
view versions 5 1: 1
view versions 5 2: 55
view versions 6 0: 1
view locks 5 1: 0
read 3 5: 0 55 0 1
read 4 5: 0 55 0 1
settle 3: 5 0 0 0
commit 3: 0 3 0 3
commit 4: 0 0 2 0
trial Y: two past their writing, the later commits first and the earlier aborts
update: 0 0 1 0
update: 0 0 2 0
write 1 5 51: 0 0 0 0
write 2 6 62: 0 0 0 0
settle 1: 0 0 1 0
query: 0 0 3 0
settle 2: 0 0 2 0
read 2 5: 1 0 0 0
read 1 6: 0 0 0 1
read 3 6: 0 0 0 1
read 3 5: 1 0 0 0
read 2 7: 0 0 0 1
write 2 6 63: 0 0 0 0
commit 2: 0 0 2 0
view versions 6 0: 2
view versions 6 1: 2
read 1 6: 0 0 0 2
query: 0 0 4 0
read 4 6: 0 63 0 1
read 4 5: 1 0 0 0
commit 3: 0 1 0 1
view versions 6 0: 2
abort 1: 0 0 0 0
view versions 6 0: 1
view versions 5 0: 1
view locks 5 2: 0
read 4 5: 0 0 0 1
update: 0 0 5 0
settle 5: 0 0 3 0
read 5 6: 0 63 0 1
write 5 6 1: 12 0 0 0
commit 5: 0 0 3 0
view head 0 1: 3
view versions 6 1: 2
",
        tally,
    )
}

// The order of the refusals; 12 before 11.
pub fn z(rt: &HostRuntime, tally: Tally) -> Tally {
    play(
        rt,
        Damaged::Nothing,
        b"trial Z: what settling is refused for, one before the other, and writing behind it with 32 items
settle 1: 3 0 0 0
query: 0 0 1 0
settle 1: 5 0 0 0
update: 0 0 2 0
write 2 0 7: 0 0 0 0
write 2 1 7: 0 0 0 0
write 2 2 7: 0 0 0 0
write 2 3 7: 0 0 0 0
write 2 4 7: 0 0 0 0
write 2 5 7: 0 0 0 0
write 2 6 7: 0 0 0 0
write 2 7 7: 0 0 0 0
write 2 8 7: 0 0 0 0
write 2 9 7: 0 0 0 0
write 2 10 7: 0 0 0 0
write 2 11 7: 0 0 0 0
write 2 12 7: 0 0 0 0
write 2 13 7: 0 0 0 0
write 2 14 7: 0 0 0 0
write 2 15 7: 0 0 0 0
write 2 16 7: 0 0 0 0
write 2 17 7: 0 0 0 0
write 2 18 7: 0 0 0 0
write 2 19 7: 0 0 0 0
write 2 20 7: 0 0 0 0
write 2 21 7: 0 0 0 0
write 2 22 7: 0 0 0 0
write 2 23 7: 0 0 0 0
write 2 24 7: 0 0 0 0
write 2 25 7: 0 0 0 0
write 2 26 7: 0 0 0 0
write 2 27 7: 0 0 0 0
write 2 28 7: 0 0 0 0
write 2 29 7: 0 0 0 0
write 2 30 7: 0 0 0 0
write 2 31 7: 0 0 0 0
write 2 32 7: 11 0 0 0
update: 0 0 3 0
read 3 31: 1 0 0 0
settle 3: 6 0 0 0
put head 0 1: 4294967294
settle 2: 0 0 4294967295 0
write 2 32 7: 12 0 0 0
write 2 64 7: 4 0 0 0
write 2 31 8: 0 0 0 0
settle 3: 6 0 0 0
update: 0 0 4 0
settle 4: 9 0 0 0
settle 2: 12 0 0 0
settle 1: 5 0 0 0
settle 5: 3 0 0 0
read 1 31: 0 0 0 1
query: 0 0 5 0
read 5 31: 1 0 0 0
commit 2: 0 0 4294967295 0
view versions 31 1: 4294967295
view versions 31 2: 8
read 5 31: 0 8 0 1
read 1 31: 0 0 0 2
read 3 31: 0 8 0 1
settle 3: 9 0 0 0
write 3 31 9: 0 0 0 0
commit 3: 9 0 0 0
",
        tally,
    )
}
