// Trials AG to AI, of request E11: relaxed queries, each way to join, and code 13, which is tested last.
use crate::play::play;
use crate::set::Damaged;
use tally::Tally;

pub fn ag(rt: &HostRuntime, tally: Tally) -> Tally {
    play(
        rt,
        Damaged::Nothing,
        b"trial AG: an update joins when it asks to write, granted or waiting, when it is read under, when it reads and when it overwrites
Relaxed: 0 0 1 0
view transactions 0 1: 3
view transactions 0 2: 0
read 1 5: 0 0 0 1
view transactions 0 8: 32
update: 0 0 2 0
write 2 5 52: 0 0 0 0
view transactions 1 9: 1
update: 0 0 3 0
write 3 5 53: 1 0 0 0
view transactions 2 9: 1
update: 0 0 4 0
write 4 6 64: 0 0 0 0
view transactions 3 9: 0
read 1 6: 0 0 0 1
view transactions 3 9: 1
view transactions 0 8: 96
update: 0 0 5 0
write 5 7 75: 0 0 0 0
commit 5: 0 0 1 0
view versions 7 65: 0
read 1 7: 0 75 0 1
commit 4: 0 0 2 0
view versions 6 0: 2
view versions 6 65: 1
view versions 6 66: 0
update: 0 0 6 0
read 6 6: 0 64 0 1
view transactions 3 9: 1
write 6 8 86: 0 0 0 0
commit 6: 0 0 3 0
view versions 8 65: 1
update: 0 0 7 0
write 7 8 87: 0 0 0 0
view transactions 3 9: 1
read 1 8: 0 0 0 2
commit 7: 0 0 4 0
view versions 8 0: 2
view versions 8 65: 1
read 1 8: 0 0 0 2
commit 2: 0 0 5 0
write 3 5 53: 0 0 0 0
abort 3: 0 0 0 0
write 1 9 1: 5 0 0 0
read 1 64: 4 0 0 0
commit 1: 0 7 0 5
view versions 8 0: 1
view versions 8 65: 0
view versions 5 0: 1
view versions 5 65: 0
",
        tally,
    )
}

// The order of the refusals; 13 behind all.
pub fn ah_and_ai(rt: &HostRuntime, tally: Tally) -> Tally {
    play(
        rt,
        Damaged::Nothing,
        b"trial AH: relaxed queries and those past their writing are kept apart, and that is tested last
update: 0 0 1 0
write 1 5 51: 0 0 0 0
Relaxed: 0 0 2 0
settle 1: 13 0 0 0
settle 2: 5 0 0 0
settle 3: 3 0 0 0
update: 0 0 3 0
read 3 5: 1 0 0 0
settle 3: 6 0 0 0
put head 0 1: 4294967295
settle 1: 9 0 0 0
put head 0 1: 4294967294
settle 1: 13 0 0 0
abort 2: 0 0 0 0
settle 1: 0 0 4294967295 0
settle 1: 12 0 0 0
Relaxed: 13 0 0 0
put head 0 0: 4294967295
Relaxed: 8 0 0 0
put head 0 0: 3
Relaxed: 13 0 0 0
commit 1: 0 0 4294967295 0
Relaxed: 0 0 4 0
read 4 5: 0 51 0 1
abort 4: 0 1 0 1
trial AI: no slot is free, before that
update: 0 0 1 0
settle 1: 0 0 1 0
update: 0 0 2 0
update: 0 0 3 0
update: 0 0 4 0
update: 0 0 5 0
update: 0 0 6 0
update: 0 0 7 0
update: 0 0 8 0
update: 0 0 9 0
update: 0 0 10 0
update: 0 0 11 0
update: 0 0 12 0
update: 0 0 13 0
update: 0 0 14 0
update: 0 0 15 0
update: 0 0 16 0
update: 0 0 17 0
update: 0 0 18 0
update: 0 0 19 0
update: 0 0 20 0
update: 0 0 21 0
update: 0 0 22 0
update: 0 0 23 0
update: 0 0 24 0
update: 0 0 25 0
update: 0 0 26 0
update: 0 0 27 0
update: 0 0 28 0
update: 0 0 29 0
update: 0 0 30 0
update: 0 0 31 0
update: 0 0 32 0
Relaxed: 7 0 0 0
abort 2: 0 0 0 0
Relaxed: 13 0 0 0
commit 1: 0 0 1 0
Relaxed: 0 0 33 0
",
        tally,
    )
}
