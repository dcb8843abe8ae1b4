// The four points, from a file's size, its two counts and the first wrong call.
//
// Counts may say anything up to the greatest word, so records are counted by division.
ghost use Rattle.std.specs.Prelude.{◌≡◌};
ghost use Rattle.judge.specs.Pieces.{calls_stand, spoken};

use crate::Verdict;

// The bytes of the two counts, and of a record.
const COUNTS: u64 = 2 * journal::WORD as u64;

const RECORD: u64 = journal::RECORD as u64;

// Whether the calls and the second count stand in so many bytes.
pub fn calls_stand(size: u64, n: u64) -> bool
    ensures { result ≡ calls_stand size n }
{
    if size < COUNTS {
        return false;
    }
    n <= (size - COUNTS) / RECORD
}

// The verdict: the first point that fails.
pub fn spoken(size: u64, n: u64, m: u64, wrong: u64) -> Verdict
    ensures { result ≡ spoken size n m wrong }
{
    if !calls_stand(size, n) {
        return Verdict::Short;
    }
    let rest = size - COUNTS - RECORD * n;
    if rest / RECORD < m {
        return Verdict::Short;
    }
    if n != m {
        return Verdict::Unequal;
    }
    if RECORD * m < rest {
        return Verdict::LeftOver;
    }
    if wrong == 0 {
        return Verdict::Accepted;
    }
    Verdict::Wrong(wrong)
}
