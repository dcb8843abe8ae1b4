// The test of all tables: sizes, transaction rows, locks, waits, versions, sets and stamps, as the
// rules ask.
//
// Every function is proved against the rules of the crate `rules`. The test itself has no
// `requires`: it answers for slices of any length and words of any value. Its parts take what the
// parts before them found, so that each is made on tables that it can read.
#![tactic(auto)]

ghost use Rattle.std.specs.Prelude.{◌≡◌};
ghost use Rattle.names.specs.Sizes.{base};
ghost use Rattle.rules.specs.Tables.{tables};
ghost use Rattle.rules.specs.Tested.{good};

use holdings::locks_pass;
use names::{CLOCK_AT, LOCK_WORDS, Locks, TXN_WORDS, Txns, VERSION_WORDS, Versions};
use sets::sets_pass;
use shapes::{Seen, distinct, rows};
use stamps::stamps_pass;
use waiting::waits_pass;

// The parts of the test, for tables of the exact sizes.
fn parts_good(txns: &Txns, locks: &Locks, versions: &Versions) -> bool
    ensures { result ≡ good base (tables txns.now locks.now versions.now) }
{
    let Seen {
        ok,
        updates,
        waiting,
        settled,
        relaxed,
        later,
    } = rows(txns);
    if !ok {
        return false;
    }
    if !locks_pass(txns, locks, updates, settled) {
        return false;
    }
    if !distinct(txns) {
        return false;
    }
    if waiting != 0 {
        if !waits_pass(txns, locks, waiting) {
            return false;
        }
    }
    let starts = starts::starts_in_order(txns);
    if !versions::all_good(versions, txns[CLOCK_AT], &starts, relaxed) {
        return false;
    }
    if !sets_pass(txns, locks, versions, settled, relaxed, later) {
        return false;
    }
    if settled == 0 {
        return true;
    }
    stamps_pass(txns, locks, versions, settled)
}

// The test of all tables.
pub fn good(txns: &[u64], locks: &[u64], versions: &[u64]) -> bool
    ensures { result ≡ good base (tables txns.now locks.now versions.now) }
{
    let Some(txns) = txns.as_array::<TXN_WORDS>() else {
        return false;
    };
    let Some(locks) = locks.as_array::<LOCK_WORDS>() else {
        return false;
    };
    let Some(versions) = versions.as_array::<VERSION_WORDS>() else {
        return false;
    };
    parts_good(txns, locks, versions)
}
