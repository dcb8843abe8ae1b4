// Trial AA, of request E7: updates that wrote nothing commit without a stamp.
use crate::play::play;
use crate::set::Damaged;
use tally::Tally;

pub fn aa(rt: &HostRuntime, tally: Tally) -> Tally {
    play(
        rt,
        Damaged::Nothing,
        b"trial AA: who wrote nothing commits and takes no stamp, beside those past their writing and at the last stamp
update: 0 0 1 0
commit 1: 0 0 0 0
view head 0 1: 0
update: 0 0 2 0
read 2 5: 0 0 0 1
read 2 63: 0 0 0 1
update: 0 0 3 0
write 3 5 53: 1 0 0 0
update: 0 0 4 0
read 4 5: 1 0 0 0
commit 3: 6 0 0 0
commit 2: 0 0 0 0
commit 2: 3 0 0 0
view head 0 0: 4
view head 0 1: 0
view transactions 0 0: 0
view transactions 1 5: 1
view transactions 2 5: 2
view locks 5 0: 0
view locks 63 0: 0
view versions 5 0: 1
write 3 5 53: 0 0 0 0
commit 3: 0 0 1 0
read 4 5: 0 53 0 1
commit 4: 0 0 1 0
view head 0 1: 1
view versions 5 0: 1
view versions 5 1: 1
update: 0 0 5 0
write 5 6 65: 0 0 0 0
settle 5: 0 0 2 0
update: 0 0 6 0
read 6 5: 0 53 0 1
commit 6: 0 0 2 0
update: 0 0 7 0
write 7 7 77: 0 0 0 0
settle 7: 0 0 3 0
update: 0 0 8 0
commit 8: 0 0 3 0
commit 7: 0 0 3 0
commit 5: 0 0 2 0
view versions 6 1: 2
view versions 7 1: 3
update: 0 0 9 0
settle 9: 0 0 4 0
update: 0 0 10 0
write 10 0 8: 0 0 0 0
commit 10: 0 0 5 0
commit 9: 0 0 4 0
view head 0 1: 5
put head 0 1: 4294967295
update: 0 0 11 0
update: 0 0 12 0
read 11 0: 0 8 0 1
write 12 63 9: 0 0 0 0
commit 12: 9 0 0 0
commit 11: 0 0 4294967295 0
commit 12: 9 0 0 0
update: 0 0 13 0
write 13 0 9: 0 0 0 0
commit 13: 9 0 0 0
update: 0 0 14 0
commit 14: 0 0 4294967295 0
view head 0 1: 4294967295
",
        tally,
    )
}
