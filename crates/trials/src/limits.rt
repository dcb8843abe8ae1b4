// Trials M to O, and words up to the greatest: document 01 has no trial P. In the transactions' head
// word 0 is the last number.
use crate::play::play;
use crate::set::Damaged;
use tally::Tally;

// Numbers and sizes.
pub fn m_and_n(rt: &HostRuntime, tally: Tally) -> Tally {
    play(
        rt,
        Damaged::Nothing,
        b"trial M: the last number is given, then none, and with every slot taken there is none first
put head 0 0: 4294967294
update: 0 0 4294967295 0
update: 8 0 0 0
query: 8 0 0 0
commit 4294967295: 0 0 0 0
update: 8 0 0 0
query: 8 0 0 0
fresh
update: 0 0 1 0
update: 0 0 2 0
update: 0 0 3 0
update: 0 0 4 0
update: 0 0 5 0
update: 0 0 6 0
update: 0 0 7 0
update: 0 0 8 0
update: 0 0 9 0
update: 0 0 10 0
update: 0 0 11 0
update: 0 0 12 0
update: 0 0 13 0
update: 0 0 14 0
update: 0 0 15 0
update: 0 0 16 0
update: 0 0 17 0
update: 0 0 18 0
update: 0 0 19 0
update: 0 0 20 0
update: 0 0 21 0
update: 0 0 22 0
update: 0 0 23 0
update: 0 0 24 0
update: 0 0 25 0
update: 0 0 26 0
update: 0 0 27 0
update: 0 0 28 0
update: 0 0 29 0
update: 0 0 30 0
update: 0 0 31 0
update: 0 0 32 0
put head 0 0: 4294967295
update: 7 0 0 0
query: 7 0 0 0
abort 1: 0 0 0 0
update: 8 0 0 0
query: 8 0 0 0
trial N: a transaction table of one word less, one more, and the right size
update: 0 0 1 0
lend 321 192 6208
update: 10 0 0 0
query: 10 0 0 0
read 1 0: 10 0 0 0
write 1 0 5: 10 0 0 0
commit 1: 10 0 0 0
abort 1: 10 0 0 0
lend 323 192 6208
update: 10 0 0 0
query: 10 0 0 0
read 1 0: 10 0 0 0
write 1 0 5: 10 0 0 0
commit 1: 10 0 0 0
abort 1: 10 0 0 0
lend 322 192 6208
update: 0 0 2 0
read 1 0: 0 0 0 1
write 1 0 5: 0 0 0 0
commit 1: 0 0 1 0
abort 2: 0 0 0 0
",
        tally,
    )
}

// Circles.
pub fn o(rt: &HostRuntime, tally: Tally) -> Tally {
    play(
        rt,
        Damaged::Nothing,
        b"trial O: three updates in a circle, one outside that waits for them, then as many as there are slots in a circle
update: 0 0 1 0
update: 0 0 2 0
update: 0 0 3 0
update: 0 0 4 0
write 1 1 10: 0 0 0 0
write 2 2 20: 0 0 0 0
write 3 3 30: 0 0 0 0
read 1 2: 1 0 0 0
read 2 3: 1 0 0 0
read 4 1: 1 0 0 0
read 3 1: 2 0 0 0
write 3 1 31: 2 0 0 0
read 3 0: 0 0 0 1
view transactions 2 3: 0
abort 3: 0 0 0 0
read 2 3: 0 0 0 1
commit 2: 0 0 1 0
read 1 2: 0 20 0 1
commit 1: 0 0 2 0
read 4 1: 0 10 0 1
fresh
update: 0 0 1 0
update: 0 0 2 0
update: 0 0 3 0
update: 0 0 4 0
update: 0 0 5 0
update: 0 0 6 0
update: 0 0 7 0
update: 0 0 8 0
update: 0 0 9 0
update: 0 0 10 0
update: 0 0 11 0
update: 0 0 12 0
update: 0 0 13 0
update: 0 0 14 0
update: 0 0 15 0
update: 0 0 16 0
update: 0 0 17 0
update: 0 0 18 0
update: 0 0 19 0
update: 0 0 20 0
update: 0 0 21 0
update: 0 0 22 0
update: 0 0 23 0
update: 0 0 24 0
update: 0 0 25 0
update: 0 0 26 0
update: 0 0 27 0
update: 0 0 28 0
update: 0 0 29 0
update: 0 0 30 0
update: 0 0 31 0
update: 0 0 32 0
write 1 1 1: 0 0 0 0
write 2 2 2: 0 0 0 0
write 3 3 3: 0 0 0 0
write 4 4 4: 0 0 0 0
write 5 5 5: 0 0 0 0
write 6 6 6: 0 0 0 0
write 7 7 7: 0 0 0 0
write 8 8 8: 0 0 0 0
write 9 9 9: 0 0 0 0
write 10 10 10: 0 0 0 0
write 11 11 11: 0 0 0 0
write 12 12 12: 0 0 0 0
write 13 13 13: 0 0 0 0
write 14 14 14: 0 0 0 0
write 15 15 15: 0 0 0 0
write 16 16 16: 0 0 0 0
write 17 17 17: 0 0 0 0
write 18 18 18: 0 0 0 0
write 19 19 19: 0 0 0 0
write 20 20 20: 0 0 0 0
write 21 21 21: 0 0 0 0
write 22 22 22: 0 0 0 0
write 23 23 23: 0 0 0 0
write 24 24 24: 0 0 0 0
write 25 25 25: 0 0 0 0
write 26 26 26: 0 0 0 0
write 27 27 27: 0 0 0 0
write 28 28 28: 0 0 0 0
write 29 29 29: 0 0 0 0
write 30 30 30: 0 0 0 0
write 31 31 31: 0 0 0 0
write 32 32 32: 0 0 0 0
read 1 2: 1 0 0 0
read 2 3: 1 0 0 0
read 3 4: 1 0 0 0
read 4 5: 1 0 0 0
read 5 6: 1 0 0 0
read 6 7: 1 0 0 0
read 7 8: 1 0 0 0
read 8 9: 1 0 0 0
read 9 10: 1 0 0 0
read 10 11: 1 0 0 0
read 11 12: 1 0 0 0
read 12 13: 1 0 0 0
read 13 14: 1 0 0 0
read 14 15: 1 0 0 0
read 15 16: 1 0 0 0
read 16 17: 1 0 0 0
read 17 18: 1 0 0 0
read 18 19: 1 0 0 0
read 19 20: 1 0 0 0
read 20 21: 1 0 0 0
read 21 22: 1 0 0 0
read 22 23: 1 0 0 0
read 23 24: 1 0 0 0
read 24 25: 1 0 0 0
read 25 26: 1 0 0 0
read 26 27: 1 0 0 0
read 27 28: 1 0 0 0
read 28 29: 1 0 0 0
read 29 30: 1 0 0 0
read 30 31: 1 0 0 0
read 31 32: 1 0 0 0
read 32 1: 2 0 0 0
write 32 1 1: 2 0 0 0
read 32 0: 0 0 0 1
abort 32: 0 0 0 0
read 31 32: 0 0 0 1
",
        tally,
    )
}

// Every word that is no number is answered 3, and every one that is no item 4.
pub fn p(rt: &HostRuntime, tally: Tally) -> Tally {
    play(
        rt,
        Damaged::Nothing,
        b"trial P: numbers, items and values up to the greatest word, on good tables
update: 0 0 1 0
query: 0 0 2 0
read 0 0: 3 0 0 0
read 3 0: 3 0 0 0
read 4294967295 0: 3 0 0 0
read 4294967296 0: 3 0 0 0
read 4294967297 0: 3 0 0 0
read 18446744073709551615 0: 3 0 0 0
write 0 0 5: 3 0 0 0
write 3 0 5: 3 0 0 0
write 4294967295 0 5: 3 0 0 0
write 4294967296 0 5: 3 0 0 0
write 4294967297 0 5: 3 0 0 0
write 18446744073709551615 0 5: 3 0 0 0
commit 0: 3 0 0 0
commit 3: 3 0 0 0
commit 4294967295: 3 0 0 0
commit 4294967296: 3 0 0 0
commit 4294967297: 3 0 0 0
commit 18446744073709551615: 3 0 0 0
abort 0: 3 0 0 0
abort 3: 3 0 0 0
abort 4294967295: 3 0 0 0
abort 4294967296: 3 0 0 0
abort 4294967297: 3 0 0 0
abort 18446744073709551615: 3 0 0 0
read 18446744073709551615 18446744073709551615: 3 0 0 0
write 18446744073709551615 18446744073709551615 18446744073709551615: 3 0 0 0
read 1 64: 4 0 0 0
write 1 64 5: 4 0 0 0
read 2 64: 4 0 0 0
write 2 64 5: 4 0 0 0
read 1 65: 4 0 0 0
write 1 65 5: 4 0 0 0
read 2 65: 4 0 0 0
write 2 65 5: 4 0 0 0
read 1 4294967296: 4 0 0 0
write 1 4294967296 5: 4 0 0 0
read 2 4294967296: 4 0 0 0
write 2 4294967296 5: 4 0 0 0
read 1 9223372036854775808: 4 0 0 0
write 1 9223372036854775808 5: 4 0 0 0
read 2 9223372036854775808: 4 0 0 0
write 2 9223372036854775808 5: 4 0 0 0
read 1 18446744073709551615: 4 0 0 0
write 1 18446744073709551615 5: 4 0 0 0
read 2 18446744073709551615: 4 0 0 0
write 2 18446744073709551615 5: 4 0 0 0
write 1 0 18446744073709551615: 0 0 0 0
read 1 0: 0 18446744073709551615 0 0
write 1 63 18446744073709551614: 0 0 0 0
commit 1: 0 0 1 0
query: 0 0 3 0
read 3 0: 0 18446744073709551615 0 1
read 3 63: 0 18446744073709551614 0 1
read 2 0: 0 0 0 2
",
        tally,
    )
}
