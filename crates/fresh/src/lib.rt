// Fresh tables: the state that the keeper starts from.
//
// Zeros, but each version row has count 1 with the pair (0, 0).
#![tactic(auto)]

ghost use Rattle.std.specs.Prelude.{◌≡◌, length, replicate};
ghost use Rattle.names.specs.Sizes.{base};
ghost use Rattle.rules.specs.Tables.{tables, version_words, with_counts};
ghost use Rattle.rules.specs.Tested.{sizes_exact};
ghost use Rattle.fresh.specs.Made.{freshened};

use names::{ITEMS, LOCK_WORDS, TXN_WORDS, VERSION_ROW, VERSION_WORDS, Versions};

// The count of every version row becomes 1.
fn count(versions: &mut Versions)
    ensures { versions.new ≡ with_counts base versions.old }
{
    for x in 0..ITEMS as usize {
        versions[VERSION_ROW * x] = 1;
    }
}

// Fills the three tables fresh if their sizes are exact, which it answers; else changes nothing.
#[tactic(auto, unfolding(crate::specs::Made::freshened, rules::specs::Tested::sizes_exact))]
pub fn fresh(txns: &mut [u64], locks: &mut [u64], versions: &mut [u64]) -> bool
    ensures value { result ≡ sizes_exact base (tables txns.old locks.old versions.old) }
    ensures versions_after { tables txns.new locks.new versions.new ≡ freshened base (tables txns.old locks.old versions.old) }
{
    let Some(txns) = txns.as_mut_array::<TXN_WORDS>() else {
        return false;
    };
    let Some(locks) = locks.as_mut_array::<LOCK_WORDS>() else {
        return false;
    };
    let Some(versions) = versions.as_mut_array::<VERSION_WORDS>() else {
        return false;
    };
    txns.fill(0);
    locks.fill(0);
    versions.fill(0);
    count(versions);
    true
}
