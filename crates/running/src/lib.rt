// The runner as a machine: it is born with fresh tables, takes the input in pieces of any length,
// and puts out the replies to the lines that end in them; at the end of input the last one.
//
// It reads and writes nothing itself: input is handed in, and each call's output stands at the front
// of a lent buffer, with room for all of it. `new` is the only way to a runner.
#![tactic(auto)]

mod pieces;
mod replies;

ghost use Rattle.std.specs.Prelude.{◌≡◌, ◌*◌, ◌≤◌, length, take};
ghost use Rattle.running.specs.Replies.{longest_reply};
ghost use Rattle.running.specs.Life.{state_of, born, replies_in, after_piece, replies_at_end};

use crate::pieces::answer_piece;
use crate::replies::respond;
use lines::Lines;
use names::{LOCK_WORDS, Locks, TXN_WORDS, Txns, VERSION_WORDS, Versions};

// The longest reply. A line takes a byte of the input at least, so as many times the length of a
// piece is room for its replies.
pub const LONGEST_REPLY: usize = 84;

#[derive(Drop)]
pub struct Runner {
    lines: Lines,
    txns: Txns,
    locks: Locks,
    versions: Versions,
}

// What a piece leaves: the runner, and how many bytes are put out.
#[derive(Drop)]
pub struct Taken {
    pub runner: Runner,
    pub used: usize,
}

impl Runner {
    pub fn new() -> Runner
        ensures { state_of result ≡ born }
    {
        let mut txns = [0; TXN_WORDS];
        let mut locks = [0; LOCK_WORDS];
        let mut versions = [0; VERSION_WORDS];
        fresh::fresh(&mut txns, &mut locks, &mut versions);
        let lines = Lines::new();
        Runner {
            lines,
            txns,
            locks,
            versions,
        }
    }

    // A piece of the input.
    pub fn take(self, piece: &[u8], out: &mut [u8]) -> Taken
        requires { longest_reply * length piece.now ≤ length out.old }
        ensures runner_value { state_of result.runner ≡ after_piece piece.now (state_of self) }
        ensures used_in_bounds { result.used ≤ length out.old }
        ensures out_after { take result.used out.new ≡ replies_in piece.now (state_of self) }
    {
        let lines = self.lines;
        let mut txns = self.txns;
        let mut locks = self.locks;
        let mut versions = self.versions;
        let answered = answer_piece(lines, piece, &mut txns, &mut locks, &mut versions, out);
        let rest = answered.lines;
        let runner = Runner {
            lines: rest,
            txns,
            locks,
            versions,
        };
        Taken {
            runner,
            used: answered.used,
        }
    }

    // The end of the input: how many bytes are put out.
    pub fn end(self, out: &mut [u8]) -> usize
        requires { longest_reply ≤ length out.old }
        ensures upper_bound { result ≤ length out.old }
        ensures out_after { take result out.new ≡ replies_at_end (state_of self) }
    {
        let lines = self.lines;
        if !lines.begun() {
            return 0;
        }
        let mut txns = self.txns;
        let mut locks = self.locks;
        let mut versions = self.versions;
        let parsed = script::read_as(lines);
        respond(parsed, &mut txns, &mut locks, &mut versions, out, 0)
    }
}
