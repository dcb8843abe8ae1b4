// The keeper for C and Rust: fresh tables and the eight calls under plain names, in a static library.
//
// A slice is a pointer and a length. Each call has the contract of the keeper's routine that it
// makes: no `requires`, and one equation with the rules' `step`. include/keeper.h says for C what a
// caller may rely on, and what it must see to itself.
#![tactic(auto)]

ghost use Rattle.std.specs.Prelude.{◌≡◌};
ghost use Rattle.names.specs.Sizes.{base};
ghost use Rattle.rules.specs.Tables.{tables};
ghost use Rattle.rules.specs.Answers.{outcome, BeginUpdate, BeginQuery, Read, Write, Commit, Abort, Settle, BeginRelaxed};
ghost use Rattle.rules.specs.Step.{step};
ghost use Rattle.rules.specs.Tested.{sizes_exact};
ghost use Rattle.fresh.specs.Made.{freshened};

use names::Answer;

// Fills the three tables fresh if their sizes are exact, which it answers; else changes nothing.
#[unsafe(no_mangle)]
pub extern "C" fn keeper_fresh(txns: &mut [u64], locks: &mut [u64], versions: &mut [u64]) -> bool
    ensures value { result ≡ sizes_exact base (tables txns.old locks.old versions.old) }
    ensures versions_after { tables txns.new locks.new versions.new ≡ freshened base (tables txns.old locks.old versions.old) }
{
    fresh::fresh(txns, locks, versions)
}

// Begins an update.
#[unsafe(no_mangle)]
pub extern "C" fn keeper_begin_update(
    txns: &mut [u64],
    locks: &mut [u64],
    versions: &mut [u64],
) -> Answer
    ensures { outcome result txns.new locks.new versions.new ≡ step base BeginUpdate (tables txns.old locks.old versions.old) }
{
    keeper::begin_update(txns, locks, versions)
}

// Begins a query.
#[unsafe(no_mangle)]
pub extern "C" fn keeper_begin_query(
    txns: &mut [u64],
    locks: &mut [u64],
    versions: &mut [u64],
) -> Answer
    ensures { outcome result txns.new locks.new versions.new ≡ step base BeginQuery (tables txns.old locks.old versions.old) }
{
    keeper::begin_query(txns, locks, versions)
}

// Reads an item.
#[unsafe(no_mangle)]
pub extern "C" fn keeper_read(
    txns: &mut [u64],
    locks: &mut [u64],
    versions: &mut [u64],
    number: u64,
    item: u64,
) -> Answer
    ensures { outcome result txns.new locks.new versions.new ≡ step base (Read number item) (tables txns.old locks.old versions.old) }
{
    keeper::read(txns, locks, versions, number, item)
}

// Writes an item.
#[unsafe(no_mangle)]
pub extern "C" fn keeper_write(
    txns: &mut [u64],
    locks: &mut [u64],
    versions: &mut [u64],
    number: u64,
    item: u64,
    value: u64,
) -> Answer
    ensures { outcome result txns.new locks.new versions.new ≡ step base (Write number item value) (tables txns.old locks.old versions.old) }
{
    keeper::write(txns, locks, versions, number, item, value)
}

// Commits an update, past its writing or not; ends a query.
#[unsafe(no_mangle)]
pub extern "C" fn keeper_commit(
    txns: &mut [u64],
    locks: &mut [u64],
    versions: &mut [u64],
    number: u64,
) -> Answer
    ensures { outcome result txns.new locks.new versions.new ≡ step base (Commit number) (tables txns.old locks.old versions.old) }
{
    keeper::commit(txns, locks, versions, number)
}

// Aborts an update, past its writing or not; ends a query.
#[unsafe(no_mangle)]
pub extern "C" fn keeper_abort(
    txns: &mut [u64],
    locks: &mut [u64],
    versions: &mut [u64],
    number: u64,
) -> Answer
    ensures { outcome result txns.new locks.new versions.new ≡ step base (Abort number) (tables txns.old locks.old versions.old) }
{
    keeper::abort(txns, locks, versions, number)
}

// Settles an update: it is past its writing, and its stamp is the answer's number.
#[unsafe(no_mangle)]
pub extern "C" fn keeper_settle(
    txns: &mut [u64],
    locks: &mut [u64],
    versions: &mut [u64],
    number: u64,
) -> Answer
    ensures { outcome result txns.new locks.new versions.new ≡ step base (Settle number) (tables txns.old locks.old versions.old) }
{
    keeper::settle(txns, locks, versions, number)
}

// Begins a relaxed query.
#[unsafe(no_mangle)]
pub extern "C" fn keeper_begin_relaxed(
    txns: &mut [u64],
    locks: &mut [u64],
    versions: &mut [u64],
) -> Answer
    ensures { outcome result txns.new locks.new versions.new ≡ step base BeginRelaxed (tables txns.old locks.old versions.old) }
{
    keeper::begin_relaxed(txns, locks, versions)
}
