// The calls and their answers, a record of each at a time.
ghost use Rattle.std.specs.Prelude.{◌≡◌, cond, ◌+◌, ◌*◌, ◌/◌, ◌≤◌, min, length, drop};
ghost use Rattle.journal.specs.Format.{record_size};
ghost use Rattle.judge.specs.Pieces.{progress, unseen, one_more, seen_one, seen_all, seen_piece};

use crate::Judge;
use call_words::Fields;
use journal::RECORD;
use names::Answer;

impl Judge {
    // Nothing is seen yet.
    pub fn new() -> Self
        ensures { result ≡ unseen }
    {
        Judge { seen: 0, wrong: 0 }
    }
}

#[tactic(auto, unfolding(crate::specs::Pieces::one_more))]
fn one_more(k: u64) -> u64
    ensures { result ≡ one_more k }
{
    k.saturating_add(1)
}

// The number of a call if it is wrong, else 0.
fn unless(same: bool, seen: u64) -> u64
    ensures { result ≡ cond same 0 seen }
{
    if same { 0 } else { seen }
}

// A call and the answer that the file has for it. After the first wrong call the others are counted
// only, and what is no call is not made.
pub fn one(
    judge: Judge,
    fields: Fields,
    answer: Answer,
    txns: &mut [u64],
    locks: &mut [u64],
    versions: &mut [u64],
) -> Judge
    ensures { progress result txns.new locks.new versions.new ≡ seen_one fields answer (progress judge txns.old locks.old versions.old) }
{
    let seen = one_more(judge.seen);
    let wrong = judge.wrong;
    if wrong != 0 {
        return Judge { seen, wrong };
    }
    let Some(call) = call_words::call_of(fields) else {
        return Judge { seen, wrong: seen };
    };
    let given = keeper::call(call, txns, locks, versions);
    Judge {
        seen,
        wrong: unless(answer == given, seen),
    }
}

// So many calls from one place on and answers from another on. All of them are seen, also those
// behind a wrong one.
pub(crate) fn all(
    judge: Judge,
    calls: &[u8],
    from: usize,
    answers: &[u8],
    to: usize,
    count: usize,
    txns: &mut [u64],
    locks: &mut [u64],
    versions: &mut [u64],
) -> Judge
    requires { (from + record_size * count ≤ length calls.now) × (to + record_size * count ≤ length answers.now) }
    ensures { progress result txns.new locks.new versions.new ≡ seen_all count (drop from calls.now) (drop to answers.now) (progress judge txns.old locks.old versions.old) }
{
    let mut kept = judge;
    for k in 0..count {
        let passed = RECORD * k;
        let fields = journal::call(calls, from + passed);
        let answer = journal::answer(answers, to + passed);
        kept = one(kept, fields, answer, txns, locks, versions);
    }
    kept
}

// How many records two pieces both have whole.
fn both_have(calls: usize, answers: usize) -> usize
    ensures { result ≡ min calls answers / record_size }
{
    calls.min(answers) / RECORD
}

// A piece of the calls and a piece of the answers: the records that both have whole.
#[tactic(auto, unfolding(crate::specs::Pieces::seen_piece))]
pub fn piece(
    judge: Judge,
    calls: &[u8],
    answers: &[u8],
    txns: &mut [u64],
    locks: &mut [u64],
    versions: &mut [u64],
) -> Judge
    ensures { progress result txns.new locks.new versions.new ≡ seen_piece calls.now answers.now (progress judge txns.old locks.old versions.old) }
{
    let count = both_have(calls.len(), answers.len());
    all(judge, calls, 0, answers, 0, count, txns, locks, versions)
}
