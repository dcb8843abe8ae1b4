// The first pass: the calls of the input.
ghost use Rattle.std.specs.Prelude.{◌≡◌, List, [], ◌++◌, ℕ, ◌*◌, ◌≤◌, length, take};
ghost use Rattle.journal.specs.Format.{record_size, call_records};
ghost use Rattle.recorder.specs.First.{input_calls, Took};
ghost use Rattle.recorder.specs.Second.{Answered};

use crate::second::Answering;
use lines::Lines;

// The line that is not ended yet, and how many calls were put out.
#[derive(Drop)]
pub struct Taking {
    lines: Lines,
    count: u64,
}

// What a chunk leaves: the machine, and how many bytes were put out.
#[derive(Drop)]
pub struct AfterChunk {
    pub taking: Taking,
    pub used: usize,
}

// The same at the end of the input.
#[derive(Drop)]
pub struct AfterInput {
    pub answering: Answering,
    pub used: usize,
}

impl Taking {
    // Nothing is read yet.
    pub fn new() -> Self
        ensures { Took [] [] result }
    {
        Taking {
            lines: Lines::new(),
            count: 0,
        }
    }

    // A chunk more of the input: the records of the calls of the lines that end in it.
    pub fn chunk(self, chunk: &[u8], out: &mut [u8]) -> AfterChunk
        requires { record_size * length chunk.now ≤ length out.old }
        ensures used_in_bounds { result.used ≤ length out.old }
        ensures by_index { (input put : List ℕ) → Took input put self → Took (input ++ chunk.now) (put ++ take result.used out.new) result.taking }
    {
        let count = self.count;
        let taken = recording::take_chunk(self.lines, chunk, out);
        let used = taken.used;
        let lines = taken.lines;
        AfterChunk {
            taking: Taking {
                lines,
                count: recording::count_with(count, used),
            },
            used,
        }
    }

    // The end of the input: the record of the call of a line that it ends.
    pub fn end(self, out: &mut [u8]) -> AfterInput
        requires { record_size ≤ length out.old }
        ensures used_in_bounds { result.used ≤ length out.old }
        ensures by_index { (input put : List ℕ) → Took input put self → (put ++ take result.used out.new ≡ call_records (input_calls input)) × Answered input [] [] result.answering }
    {
        let count = self.count;
        let used = recording::take_last(self.lines, out);
        AfterInput {
            answering: Answering::new(recording::count_with(count, used)),
            used,
        }
    }
}
