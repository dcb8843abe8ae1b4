// The answers to lines of cases, as a machine.
//
// The input is taken in pieces of any length, and a line may be longer than any of them. Nothing is
// read or written here: input is handed in, and each call's output stands at the front of a lent
// buffer, with room for all of it. `new` is the only way to one.
#![tactic(auto)]

mod pieces;

ghost use Rattle.std.specs.Prelude.{◌≡◌, ◌≤◌, length, take};
ghost use Rattle.cases.specs.Cases.{longest_answer};
ghost use Rattle.case_lines.specs.Answers.{unread};
ghost use Rattle.answering.specs.Life.{state_of, answers_in, left, answers_at_end, room_for};

use crate::pieces::{answer_line, answer_piece};
use number_lines::Scan;

// The numbers of the longest case, and the bytes of its answer: each number has 20 digits at most
// and a byte beside it.
const NUMBERS: usize = cases::HEAD + cases::TXNS + cases::LOCKS + cases::VERSIONS;

// What is kept of the numbers of a line.
pub(crate) type Words = [u64; NUMBERS];

pub const NUMBER_BYTES: usize = 21;

pub const LONGEST_ANSWER: usize = NUMBER_BYTES * NUMBERS;

#[derive(Drop)]
pub struct Answerer {
    scan: Scan,
    words: Words,
}

// What a piece leaves: the machine, and how many bytes are put out.
#[derive(Drop)]
pub struct Taken {
    pub answerer: Answerer,
    pub used: usize,
}

impl Answerer {
    pub fn new() -> Answerer
        ensures { state_of result ≡ unread }
    {
        let scan = Scan::new();
        let words = [0; NUMBERS];
        Answerer { scan, words }
    }

    // A piece of the input.
    pub fn take(self, piece: &[u8], out: &mut [u8]) -> Taken
        requires { room_for (length piece.now) ≤ length out.old }
        ensures answerer_value { state_of result.answerer ≡ left (state_of self) piece.now }
        ensures used_in_bounds { result.used ≤ length out.old }
        ensures out_after { take result.used out.new ≡ answers_in (state_of self) piece.now }
    {
        let scan = self.scan;
        let mut words = self.words;
        let answered = answer_piece(scan, piece, &mut words, out);
        let rest = answered.scan;
        let answerer = Answerer { scan: rest, words };
        Taken {
            answerer,
            used: answered.used,
        }
    }

    // The end of the input: how many bytes are put out.
    pub fn end(self, out: &mut [u8]) -> usize
        requires { longest_answer ≤ length out.old }
        ensures upper_bound { result ≤ length out.old }
        ensures out_after { take result out.new ≡ answers_at_end (state_of self) }
    {
        let scan = self.scan;
        if !scan.any() {
            return 0;
        }
        let mut words = self.words;
        answer_line(scan, &mut words, out, 0)
    }
}
