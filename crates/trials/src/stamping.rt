// Trials I to L: versions, the clock, aborted writes and counts. In the transactions' head word 1 is the
// clock; in a row of versions word 0 is the count.
use crate::play::play;
use crate::set::Damaged;
use tally::Tally;

// A full row.
pub fn i(rt: &HostRuntime, tally: Tally) -> Tally {
    play(
        rt,
        Damaged::Nothing,
        b"trial I: a query at each stamp, the row is full, then one write more and the ends of two queries
query: 0 0 1 0
update: 0 0 2 0
write 2 0 100: 0 0 0 0
commit 2: 0 0 1 0
query: 0 0 3 0
update: 0 0 4 0
write 4 0 101: 0 0 0 0
commit 4: 0 0 2 0
query: 0 0 5 0
update: 0 0 6 0
write 6 0 102: 0 0 0 0
commit 6: 0 0 3 0
query: 0 0 7 0
update: 0 0 8 0
write 8 0 103: 0 0 0 0
commit 8: 0 0 4 0
query: 0 0 9 0
update: 0 0 10 0
write 10 0 104: 0 0 0 0
commit 10: 0 0 5 0
query: 0 0 11 0
update: 0 0 12 0
write 12 0 105: 0 0 0 0
commit 12: 0 0 6 0
query: 0 0 13 0
update: 0 0 14 0
write 14 0 106: 0 0 0 0
commit 14: 0 0 7 0
query: 0 0 15 0
update: 0 0 16 0
write 16 0 107: 0 0 0 0
commit 16: 0 0 8 0
query: 0 0 17 0
update: 0 0 18 0
write 18 0 108: 0 0 0 0
commit 18: 0 0 9 0
query: 0 0 19 0
update: 0 0 20 0
write 20 0 109: 0 0 0 0
commit 20: 0 0 10 0
query: 0 0 21 0
update: 0 0 22 0
write 22 0 110: 0 0 0 0
commit 22: 0 0 11 0
query: 0 0 23 0
update: 0 0 24 0
write 24 0 111: 0 0 0 0
commit 24: 0 0 12 0
query: 0 0 25 0
update: 0 0 26 0
write 26 0 112: 0 0 0 0
commit 26: 0 0 13 0
query: 0 0 27 0
update: 0 0 28 0
write 28 0 113: 0 0 0 0
commit 28: 0 0 14 0
query: 0 0 29 0
update: 0 0 30 0
write 30 0 114: 0 0 0 0
commit 30: 0 0 15 0
query: 0 0 31 0
update: 0 0 32 0
write 32 0 115: 0 0 0 0
commit 32: 0 0 16 0
query: 0 0 33 0
update: 0 0 34 0
write 34 0 116: 0 0 0 0
commit 34: 0 0 17 0
query: 0 0 35 0
update: 0 0 36 0
write 36 0 117: 0 0 0 0
commit 36: 0 0 18 0
query: 0 0 37 0
update: 0 0 38 0
write 38 0 118: 0 0 0 0
commit 38: 0 0 19 0
query: 0 0 39 0
update: 0 0 40 0
write 40 0 119: 0 0 0 0
commit 40: 0 0 20 0
query: 0 0 41 0
update: 0 0 42 0
write 42 0 120: 0 0 0 0
commit 42: 0 0 21 0
query: 0 0 43 0
update: 0 0 44 0
write 44 0 121: 0 0 0 0
commit 44: 0 0 22 0
query: 0 0 45 0
update: 0 0 46 0
write 46 0 122: 0 0 0 0
commit 46: 0 0 23 0
query: 0 0 47 0
update: 0 0 48 0
write 48 0 123: 0 0 0 0
commit 48: 0 0 24 0
query: 0 0 49 0
update: 0 0 50 0
write 50 0 124: 0 0 0 0
commit 50: 0 0 25 0
query: 0 0 51 0
update: 0 0 52 0
write 52 0 125: 0 0 0 0
commit 52: 0 0 26 0
query: 0 0 53 0
update: 0 0 54 0
write 54 0 126: 0 0 0 0
commit 54: 0 0 27 0
query: 0 0 55 0
update: 0 0 56 0
write 56 0 127: 0 0 0 0
commit 56: 0 0 28 0
query: 0 0 57 0
update: 0 0 58 0
write 58 0 128: 0 0 0 0
commit 58: 0 0 29 0
query: 0 0 59 0
update: 0 0 60 0
write 60 0 129: 0 0 0 0
commit 60: 0 0 30 0
view versions 0 0: 31
read 1 0: 0 0 0 31
query: 0 0 61 0
update: 0 0 62 0
write 62 0 130: 0 0 0 0
commit 62: 0 0 31 0
view versions 0 0: 32
read 1 0: 0 0 0 32
read 3 0: 0 100 0 31
read 5 0: 0 101 0 30
read 7 0: 0 102 0 29
read 9 0: 0 103 0 28
read 11 0: 0 104 0 27
read 13 0: 0 105 0 26
read 15 0: 0 106 0 25
read 17 0: 0 107 0 24
read 19 0: 0 108 0 23
read 21 0: 0 109 0 22
read 23 0: 0 110 0 21
read 25 0: 0 111 0 20
read 27 0: 0 112 0 19
read 29 0: 0 113 0 18
read 31 0: 0 114 0 17
read 33 0: 0 115 0 16
read 35 0: 0 116 0 15
read 37 0: 0 117 0 14
read 39 0: 0 118 0 13
read 41 0: 0 119 0 12
read 43 0: 0 120 0 11
read 45 0: 0 121 0 10
read 47 0: 0 122 0 9
read 49 0: 0 123 0 8
read 51 0: 0 124 0 7
read 53 0: 0 125 0 6
read 55 0: 0 126 0 5
read 57 0: 0 127 0 4
read 59 0: 0 128 0 3
read 61 0: 0 129 0 2
update: 0 0 63 0
read 63 0: 0 130 0 1
write 63 0 500: 0 0 0 0
commit 63: 0 0 32 0
view versions 0 0: 32
read 1 0: 0 0 0 32
commit 33: 0 16 0 1
view versions 0 0: 31
read 1 0: 0 0 0 31
read 31 0: 0 114 0 16
read 35 0: 0 116 0 15
abort 1: 0 126 0 4
view versions 0 0: 30
",
        tally,
    )
}

// The clock, aborted writes, and counts.
pub fn j_to_l(rt: &HostRuntime, tally: Tally) -> Tally {
    play(
        rt,
        Damaged::Nothing,
        b"trial J: the last stamp is given, then none, and who awaits is told so first
put head 0 1: 4294967294
update: 0 0 1 0
query: 0 0 2 0
write 1 0 5: 0 0 0 0
commit 1: 0 0 4294967295 0
view head 0 1: 4294967295
read 2 0: 0 0 0 2
update: 0 0 3 0
query: 0 0 4 0
write 3 0 6: 0 0 0 0
commit 3: 9 0 0 0
read 3 0: 0 6 0 0
read 4 0: 0 5 0 1
commit 2: 0 2 0 1
commit 4: 0 1 0 1
commit 3: 9 0 0 0
update: 0 0 5 0
read 5 0: 1 0 0 0
commit 5: 6 0 0 0
abort 3: 0 0 0 0
commit 3: 3 0 0 0
read 5 0: 0 5 0 1
write 5 0 7: 0 0 0 0
commit 5: 9 0 0 0
trial K: an aborted write is never read, a committed one is, by a query that begins later
update: 0 0 1 0
write 1 3 8: 0 0 0 0
update: 0 0 2 0
read 2 3: 1 0 0 0
query: 0 0 3 0
read 3 3: 0 0 0 1
abort 1: 0 0 0 0
view locks 3 1: 0
view locks 3 2: 0
read 2 3: 0 0 0 1
read 3 3: 0 0 0 1
commit 2: 0 0 0 0
query: 0 0 4 0
read 4 3: 0 0 0 1
view versions 3 0: 1
update: 0 0 5 0
write 5 3 9: 0 0 0 0
commit 5: 0 0 1 0
query: 0 0 6 0
read 6 3: 0 9 0 1
read 4 3: 0 0 0 2
read 3 3: 0 0 0 2
view versions 3 0: 2
trial L: a count of zero, one of seventeen, and of one again, in three rows
put versions 0 0: 0
update: 10 0 0 0
query: 10 0 0 0
read 1 0: 10 0 0 0
write 1 0 5: 10 0 0 0
commit 1: 10 0 0 0
abort 1: 10 0 0 0
put versions 0 0: 17
update: 10 0 0 0
query: 10 0 0 0
read 1 0: 10 0 0 0
write 1 0 5: 10 0 0 0
commit 1: 10 0 0 0
abort 1: 10 0 0 0
put versions 0 0: 1
update: 0 0 1 0
read 1 0: 0 0 0 1
put versions 31 0: 0
update: 10 0 0 0
query: 10 0 0 0
read 1 0: 10 0 0 0
write 1 0 5: 10 0 0 0
commit 1: 10 0 0 0
abort 1: 10 0 0 0
put versions 31 0: 17
update: 10 0 0 0
query: 10 0 0 0
read 1 0: 10 0 0 0
write 1 0 5: 10 0 0 0
commit 1: 10 0 0 0
abort 1: 10 0 0 0
put versions 31 0: 1
update: 0 0 2 0
read 2 31: 0 0 0 1
put versions 63 0: 0
update: 10 0 0 0
query: 10 0 0 0
read 1 0: 10 0 0 0
write 1 0 5: 10 0 0 0
commit 1: 10 0 0 0
abort 1: 10 0 0 0
put versions 63 0: 17
update: 10 0 0 0
query: 10 0 0 0
read 1 0: 10 0 0 0
write 1 0 5: 10 0 0 0
commit 1: 10 0 0 0
abort 1: 10 0 0 0
put versions 63 0: 1
update: 0 0 3 0
read 3 63: 0 0 0 1
",
        tally,
    )
}
