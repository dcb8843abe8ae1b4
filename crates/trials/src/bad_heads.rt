// Every part of good that speaks of no row, broken alone: the sizes, the last number and the clock.
use crate::play::play;
use crate::set::Damaged;
use tally::Tally;

// Beside a limit stands what is still good.
pub fn heads(rt: &HostRuntime, tally: Tally) -> Tally {
    play(
        rt,
        Damaged::NoRow,
        b"on 0
good: the sample
on 0
put head 0 0: 4294967296
damage: the last number is 4294967296
on 0
put head 0 0: 18446744073709551615
damage: the last number is the greatest word
on 0
put head 0 0: 49
damage: the last number is below that of an update
on 0
put head 0 0: 4294967295
good: the last number is 4294967295
on 0
put head 0 1: 4294967296
damage: the clock is 4294967296
on 0
put head 0 1: 18446744073709551615
damage: the clock is the greatest word
on 0
put head 0 1: 9
damage: the clock is below the start of a query
on 0
put head 0 1: 4294967295
good: the clock is 4294967295
on 0
lend 0 192 6208
damage: no words of transactions
on 0
lend 321 192 6208
damage: 321 words of transactions
on 0
lend 323 192 6208
damage: 323 words of transactions
on 0
lend 322 0 6208
damage: no words of locks
on 0
lend 322 191 6208
damage: 191 words of locks
on 0
lend 322 193 6208
damage: 193 words of locks
on 0
lend 322 192 0
damage: no words of versions
on 0
lend 322 192 6207
damage: 6207 words of versions
on 0
lend 322 192 6209
damage: 6209 words of versions
on 0
lend 0 0 0
damage: no words at all
on 0
lend 322 192 6208
good: 322, 192 and 6208 words
",
        tally,
    )
}
