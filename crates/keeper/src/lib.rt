// The keeper: one door over three lent tables, transactions, locks and versions.
//
// `call` makes any call; the eight routines are its names. None has a `requires`: each says, for every
// input whatever, its four answer numbers and every word of the three tables afterwards, by one
// equation with the rules' `step`. All tables are tested, then the call is judged without changing a
// word, then the deed is done.
#![tactic(auto)]

ghost use Rattle.std.specs.Prelude.{◌≡◌};
ghost use Rattle.names.specs.Sizes.{base};
ghost use Rattle.rules.specs.Tables.{tables};
ghost use Rattle.rules.specs.Answers.{outcome, BeginUpdate, BeginQuery, Read, Write, Commit, Abort, Settle, BeginRelaxed};
ghost use Rattle.rules.specs.Good.{Good};
ghost use Rattle.rules.specs.Step.{step};

use names::{Answer, LOCK_WORDS, Locks, Refusal, TXN_WORDS, Txns, VERSION_WORDS, Versions};

// Makes a call on good tables: what it comes to is judged, then done.
fn call_on_good(
    call: names::Call,
    txns: &mut Txns,
    locks: &mut Locks,
    versions: &mut Versions,
) -> Answer
    requires { Good base (tables txns.old locks.old versions.old) }
    ensures { outcome result txns.new locks.new versions.new ≡ step base call (tables txns.old locks.old versions.old) }
{
    let deed = judged::judged(call, txns, locks, versions);
    done::done(deed, txns, locks, versions)
}

// Makes a call.
pub fn call(call: names::Call, txns: &mut [u64], locks: &mut [u64], versions: &mut [u64]) -> Answer
    ensures { outcome result txns.new locks.new versions.new ≡ step base call (tables txns.old locks.old versions.old) }
{
    if !tables::good(txns, locks, versions) {
        return Answer::refused(Refusal::BadTables);
    }
    // Good tables have their sizes.
    let Some(txns) = txns.as_mut_array::<TXN_WORDS>() else {
        unreachable!();
    };
    let Some(locks) = locks.as_mut_array::<LOCK_WORDS>() else {
        unreachable!();
    };
    let Some(versions) = versions.as_mut_array::<VERSION_WORDS>() else {
        unreachable!();
    };
    call_on_good(call, txns, locks, versions)
}

// Begins an update: the answer's number is its number.
pub fn begin_update(txns: &mut [u64], locks: &mut [u64], versions: &mut [u64]) -> Answer
    ensures { outcome result txns.new locks.new versions.new ≡ step base BeginUpdate (tables txns.old locks.old versions.old) }
{
    call(names::Call::BeginUpdate, txns, locks, versions)
}

// Begins a query, which reads the newest versions stamped up to the clock of now.
pub fn begin_query(txns: &mut [u64], locks: &mut [u64], versions: &mut [u64]) -> Answer
    ensures { outcome result txns.new locks.new versions.new ≡ step base BeginQuery (tables txns.old locks.old versions.old) }
{
    call(names::Call::BeginQuery, txns, locks, versions)
}

// Reads an item.
pub fn read(
    txns: &mut [u64],
    locks: &mut [u64],
    versions: &mut [u64],
    number: u64,
    item: u64,
) -> Answer
    ensures { outcome result txns.new locks.new versions.new ≡ step base (Read number item) (tables txns.old locks.old versions.old) }
{
    call(names::Call::Read { number, item }, txns, locks, versions)
}

// Writes an item.
pub fn write(
    txns: &mut [u64],
    locks: &mut [u64],
    versions: &mut [u64],
    number: u64,
    item: u64,
    value: u64,
) -> Answer
    ensures { outcome result txns.new locks.new versions.new ≡ step base (Write number item value) (tables txns.old locks.old versions.old) }
{
    call(
        names::Call::Write {
            number,
            item,
            value,
        },
        txns,
        locks,
        versions,
    )
}

// Commits an update, past its writing or not; the answer's number is its stamp, or the clock where it
// has written nothing and not settled. Ends a query.
pub fn commit(txns: &mut [u64], locks: &mut [u64], versions: &mut [u64], number: u64) -> Answer
    ensures { outcome result txns.new locks.new versions.new ≡ step base (Commit number) (tables txns.old locks.old versions.old) }
{
    call(names::Call::Commit { number }, txns, locks, versions)
}

// Aborts an update, past its writing or not; ends a query.
pub fn abort(txns: &mut [u64], locks: &mut [u64], versions: &mut [u64], number: u64) -> Answer
    ensures { outcome result txns.new locks.new versions.new ≡ step base (Abort number) (tables txns.old locks.old versions.old) }
{
    call(names::Call::Abort { number }, txns, locks, versions)
}

// Settles an update: it is past its writing, its stamp is the answer's number, and its shared locks go.
pub fn settle(txns: &mut [u64], locks: &mut [u64], versions: &mut [u64], number: u64) -> Answer
    ensures { outcome result txns.new locks.new versions.new ≡ step base (Settle number) (tables txns.old locks.old versions.old) }
{
    call(names::Call::Settle { number }, txns, locks, versions)
}

// Begins a relaxed query, which reads the newest version of an item whose creator is not in its set of
// later updates.
pub fn begin_relaxed(txns: &mut [u64], locks: &mut [u64], versions: &mut [u64]) -> Answer
    ensures { outcome result txns.new locks.new versions.new ≡ step base BeginRelaxed (tables txns.old locks.old versions.old) }
{
    call(names::Call::BeginRelaxed, txns, locks, versions)
}
