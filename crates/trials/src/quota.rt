// Trials Q and R, of request E2: an update with 31, 32 and 33 items; and the two parts of good that
// speak of that, each broken alone, with what is still good beside it.
use crate::play::play;
use crate::set::Damaged;
use tally::Tally;

// The 32nd item, and the 33rd.
pub fn q(rt: &HostRuntime, tally: Tally) -> Tally {
    play(
        rt,
        Damaged::Nothing,
        b"trial Q: an update holds 32 items exclusively, and writes a 33rd; then two with 32 each
update: 0 0 1 0
write 1 0 7: 0 0 0 0
write 1 1 7: 0 0 0 0
write 1 2 7: 0 0 0 0
write 1 3 7: 0 0 0 0
write 1 4 7: 0 0 0 0
write 1 5 7: 0 0 0 0
write 1 6 7: 0 0 0 0
write 1 7 7: 0 0 0 0
write 1 8 7: 0 0 0 0
write 1 9 7: 0 0 0 0
write 1 10 7: 0 0 0 0
write 1 11 7: 0 0 0 0
write 1 12 7: 0 0 0 0
write 1 13 7: 0 0 0 0
write 1 14 7: 0 0 0 0
write 1 15 7: 0 0 0 0
write 1 16 7: 0 0 0 0
write 1 17 7: 0 0 0 0
write 1 18 7: 0 0 0 0
write 1 19 7: 0 0 0 0
write 1 20 7: 0 0 0 0
write 1 21 7: 0 0 0 0
write 1 22 7: 0 0 0 0
write 1 23 7: 0 0 0 0
write 1 24 7: 0 0 0 0
write 1 25 7: 0 0 0 0
write 1 26 7: 0 0 0 0
write 1 27 7: 0 0 0 0
write 1 28 7: 0 0 0 0
write 1 29 7: 0 0 0 0
write 1 30 7: 0 0 0 0
view locks 31 1: 0
write 1 31 7: 0 0 0 0
view locks 31 1: 1
write 1 32 5: 11 0 0 0
write 1 63 5: 11 0 0 0
write 1 64 5: 4 0 0 0
write 1 0 9: 0 0 0 0
write 1 31 9: 0 0 0 0
read 1 0: 0 9 0 0
read 1 40: 0 0 0 1
write 1 40 5: 11 0 0 0
view locks 40 0: 1
view locks 40 1: 0
update: 0 0 2 0
write 2 32 8: 0 0 0 0
write 2 33 8: 0 0 0 0
write 2 34 8: 0 0 0 0
write 2 35 8: 0 0 0 0
write 2 36 8: 0 0 0 0
write 2 37 8: 0 0 0 0
write 2 38 8: 0 0 0 0
write 2 39 8: 0 0 0 0
write 2 41 8: 0 0 0 0
write 2 42 8: 0 0 0 0
write 2 43 8: 0 0 0 0
write 2 44 8: 0 0 0 0
write 2 45 8: 0 0 0 0
write 2 46 8: 0 0 0 0
write 2 47 8: 0 0 0 0
write 2 48 8: 0 0 0 0
write 2 49 8: 0 0 0 0
write 2 50 8: 0 0 0 0
write 2 51 8: 0 0 0 0
write 2 52 8: 0 0 0 0
write 2 53 8: 0 0 0 0
write 2 54 8: 0 0 0 0
write 2 55 8: 0 0 0 0
write 2 56 8: 0 0 0 0
write 2 57 8: 0 0 0 0
write 2 58 8: 0 0 0 0
write 2 59 8: 0 0 0 0
write 2 60 8: 0 0 0 0
write 2 61 8: 0 0 0 0
write 2 62 8: 0 0 0 0
write 2 63 8: 0 0 0 0
write 2 40 8: 1 0 0 0
write 2 40 8: 1 0 0 0
write 1 32 5: 11 0 0 0
commit 1: 0 0 1 0
write 2 40 8: 0 0 0 0
write 2 0 8: 11 0 0 0
read 2 0: 0 9 0 1
write 2 0 8: 11 0 0 0
update: 0 0 3 0
write 3 0 6: 1 0 0 0
write 3 32 6: 6 0 0 0
commit 2: 0 0 2 0
write 3 0 6: 0 0 0 0
write 3 32 6: 0 0 0 0
read 3 33: 0 8 0 1
",
        tally,
    )
}

// The 32nd item and the 33rd, held by another.
pub fn r(rt: &HostRuntime, tally: Tally) -> Tally {
    play(
        rt,
        Damaged::Nothing,
        b"trial R: the 33rd item is held by another: refused before the conflict, with 31 items not
update: 0 0 1 0
write 1 0 7: 0 0 0 0
write 1 1 7: 0 0 0 0
write 1 2 7: 0 0 0 0
write 1 3 7: 0 0 0 0
write 1 4 7: 0 0 0 0
write 1 5 7: 0 0 0 0
write 1 6 7: 0 0 0 0
write 1 7 7: 0 0 0 0
write 1 8 7: 0 0 0 0
write 1 9 7: 0 0 0 0
write 1 10 7: 0 0 0 0
write 1 11 7: 0 0 0 0
write 1 12 7: 0 0 0 0
write 1 13 7: 0 0 0 0
write 1 14 7: 0 0 0 0
write 1 15 7: 0 0 0 0
write 1 16 7: 0 0 0 0
write 1 17 7: 0 0 0 0
write 1 18 7: 0 0 0 0
write 1 19 7: 0 0 0 0
write 1 20 7: 0 0 0 0
write 1 21 7: 0 0 0 0
write 1 22 7: 0 0 0 0
write 1 23 7: 0 0 0 0
write 1 24 7: 0 0 0 0
write 1 25 7: 0 0 0 0
write 1 26 7: 0 0 0 0
write 1 27 7: 0 0 0 0
write 1 28 7: 0 0 0 0
write 1 29 7: 0 0 0 0
write 1 30 7: 0 0 0 0
update: 0 0 2 0
write 2 50 8: 0 0 0 0
write 1 50 7: 1 0 0 0
view transactions 0 3: 2
view transactions 0 4: 50
view transactions 0 5: 1
write 1 50 7: 1 0 0 0
write 1 51 7: 6 0 0 0
read 2 0: 2 0 0 0
commit 2: 0 0 1 0
write 1 50 7: 0 0 0 0
view transactions 0 3: 0
write 1 51 7: 11 0 0 0
update: 0 0 3 0
write 3 60 8: 0 0 0 0
write 1 60 7: 11 0 0 0
view transactions 0 3: 0
read 3 0: 1 0 0 0
write 1 60 7: 11 0 0 0
read 1 60: 2 0 0 0
read 1 61: 0 0 0 1
abort 3: 0 0 0 0
write 1 60 7: 11 0 0 0
read 1 60: 0 0 0 1
update: 0 0 4 0
write 4 62 8: 0 0 0 0
read 1 62: 1 0 0 0
write 1 62 7: 6 0 0 0
write 1 0 7: 6 0 0 0
abort 1: 0 0 0 0
write 4 0 8: 0 0 0 0
",
        tally,
    )
}

// How many items an update holds, and what it awaits then.
pub fn held(rt: &HostRuntime, row: u64, tally: Tally) -> Tally {
    play(
        rt,
        Damaged::Slot(row),
        b"on 0
holder locks 10 1: 0
holder locks 11 1: 0
holder locks 12 1: 0
holder locks 13 1: 0
holder locks 14 1: 0
holder locks 15 1: 0
holder locks 16 1: 0
holder locks 17 1: 0
holder locks 18 1: 0
holder locks 19 1: 0
holder locks 20 1: 0
holder locks 21 1: 0
holder locks 22 1: 0
holder locks 23 1: 0
holder locks 24 1: 0
holder locks 25 1: 0
holder locks 26 1: 0
holder locks 27 1: 0
holder locks 28 1: 0
holder locks 29 1: 0
holder locks 30 1: 0
holder locks 31 1: 0
holder locks 32 1: 0
holder locks 33 1: 0
holder locks 34 1: 0
holder locks 35 1: 0
holder locks 36 1: 0
holder locks 37 1: 0
holder locks 38 1: 0
holder locks 39 1: 0
holder locks 40 1: 0
put transactions 0 3: 2
put transactions 0 4: 1
put transactions 0 5: 2
good: an update holds 31 items exclusively, and awaits one more so
holder locks 41 1: 0
damage: an update holds 32 items exclusively, and awaits one more so
put transactions 0 3: 1
good: an update holds 32 items exclusively, and awaits one more shared
put transactions 0 3: 0
put transactions 0 4: 0
put transactions 0 5: 0
good: an update holds 32 items exclusively
bit locks 2 0: 0
bit locks 3 0: 0
good: an update holds 32 items exclusively, and shares two more
holder locks 42 1: 0
damage: an update holds 33 items exclusively
put locks 10 1: 0
good: an update holds 32 other items exclusively
holder locks 63 1: 0
damage: an update holds 33 items exclusively, the last item among them
",
        tally,
    )
}
