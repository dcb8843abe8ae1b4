// Words of a lent table: read, set and compared, at any place whatever.
ghost use Rattle.std.specs.Prelude.{◌≡◌, ◌+◌, ◌≤◌, length, set, slice_index, slice_set};
ghost use Rattle.tally.specs.Counts.{differing};

// A word, or 0 beyond the end.
pub fn word(words: &[u64], at: usize) -> u64
    ensures { result ≡ slice_index words.now at }
{
    words.get(at).copied().unwrap_or(0)
}

// Sets a word, and none beyond the end.
pub fn put(words: &mut [u64], at: usize, value: u64)
    ensures { words.new ≡ slice_set words.old at value }
{
    if at < words.len() {
        words[at] = value;
    }
}

// How many words differ from those that another table has in their place.
pub fn differing(words: &[u64], others: &[u64]) -> usize
    ensures value { result ≡ differing words.now others.now }
    ensures upper_bound { result ≤ length words.now }
{
    let mut n = 0;
    for (k, x) in words.iter().enumerate() {
        if *x != word(others, k) {
            n += 1;
        }
    }
    n
}

// How many words of three tables differ from those of three others.
pub fn changed<'a>(
    txns: &'a [u64],
    locks: &'a [u64],
    versions: &'a [u64],
    other_txns: &'a [u64],
    other_locks: &'a [u64],
    other_versions: &'a [u64],
) -> usize
    ensures { result ≡ differing txns.now other_txns.now + differing locks.now other_locks.now + differing versions.now other_versions.now }
{
    differing(txns, other_txns)
        + differing(locks, other_locks)
        + differing(versions, other_versions)
}
