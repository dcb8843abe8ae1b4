// A file's size and its two counts.
ghost use Rattle.std.specs.Prelude.{◌≡◌, List, ℕ, ◌<◌, length};
ghost use Rattle.journal.specs.Words.{word_size};
ghost use Rattle.journal.specs.Format.{call_count, answer_count};
ghost use Rattle.judge.specs.Pieces.{spoken};
ghost use Rattle.judging.specs.Counted.{wanted, place, part, Counted, records_by};

use judge::Verdict;

// The bytes of a count, of both, and of a record.
const ONE: u64 = journal::WORD as u64;

const BOTH: u64 = 2 * journal::WORD as u64;

const RECORD: u64 = journal::RECORD as u64;

// How many counts are still asked for, where the next one stands, and those that were handed over.
#[derive(Clone, Copy)]
pub struct Counts {
    size: u64,
    wanted: u64,
    place: u64,
    first: u64,
    second: u64,
}

impl Counts {
    // Of a file of so many bytes. Where there is no room for two counts, none is asked for.
    pub fn new(size: u64) -> Self
        ensures { (file : List ℕ) → size ≡ length file → Counted file result }
    {
        if size < BOTH {
            return Counts {
                size,
                wanted: 0,
                place: 0,
                first: 0,
                second: 0,
            };
        }
        Counts {
            size,
            wanted: 2,
            place: 0,
            first: 0,
            second: 0,
        }
    }

    // How many counts are still asked for.
    pub fn asks(self) -> u64
        ensures { result ≡ wanted self }
    {
        self.wanted
    }

    // Where the next one stands.
    pub fn at(self) -> u64
        ensures { result ≡ place self }
    {
        self.place
    }

    // The first count. The second is asked for where it stands.
    fn first_is(self, n: u64) -> Self
        ensures result_bound { wanted result < 2 }
        ensures by_index { (file : List ℕ) → Counted file self → n ≡ call_count file → Counted file result }
    {
        let size = self.size;
        if !judge::calls_stand(size, n) {
            return Counts {
                size,
                wanted: 0,
                place: 0,
                first: n,
                second: 0,
            };
        }
        let place = ONE + RECORD * n;
        Counts {
            size,
            wanted: 1,
            place,
            first: n,
            second: 0,
        }
    }

    // The second count.
    fn second_is(self, m: u64) -> Self
        ensures result_value { wanted result ≡ 0 }
        ensures by_index { (file : List ℕ) → Counted file self → wanted self ≡ 1 → m ≡ answer_count file → Counted file result }
    {
        Counts {
            size: self.size,
            wanted: 0,
            place: 0,
            first: self.first,
            second: m,
        }
    }

    // The count that was asked for, as it stands in the file.
    pub fn count(self, word: &[u8]) -> Self
        requires { (0 < wanted self) × (length word.now ≡ word_size) }
        ensures result_bound { wanted result < wanted self }
        ensures by_index { (file : List ℕ) → Counted file self → word.now ≡ part file (place self) word_size → Counted file result }
    {
        let count = journal::word(word, 0);
        let wanted = self.wanted;
        if wanted == 2 {
            return self.first_is(count);
        }
        self.second_is(count)
    }

    // How many records are asked for: those of a file of which points 1 to 3 hold.
    #[tactic(auto, unfolding(crate::specs::Counted::records_by))]
    pub(crate) fn records(self) -> u64
        ensures { result ≡ records_by (spoken self.size self.first self.second 0) self.first }
    {
        let Verdict::Accepted = judge::spoken(self.size, self.first, self.second, 0) else {
            return 0;
        };
        self.first
    }

    // What is said, where this is the first wrong call, or 0.
    pub(crate) fn say(self, wrong: u64) -> Verdict
        ensures { result ≡ spoken self.size self.first self.second wrong }
    {
        judge::spoken(self.size, self.first, self.second, wrong)
    }
}
