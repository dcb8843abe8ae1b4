// The lines that end in a piece of the input, answered one after another.
ghost use Rattle.std.specs.Prelude.{◌≡◌, ◌+◌, ◌≤◌, length};
ghost use Rattle.texts.specs.Written.{Wrote};
ghost use Rattle.number_lines.specs.Lines.{held_by};
ghost use Rattle.cases.specs.Cases.{longest_answer};
ghost use Rattle.case_lines.specs.Answers.{answer_at_end};
ghost use Rattle.answering.specs.Life.{answers_in, left, room_for};

use crate::Words;
use case_lines::respond;
use number_lines::Scan;

// What is read of the line that is not ended yet, and how many bytes of answers.
#[derive(Clone, Copy)]
pub(crate) struct Answered {
    pub scan: Scan,
    pub used: usize,
}

// A line that ends, answered behind `used` bytes of the output; how many are used then.
pub(crate) fn answer_line(scan: Scan, words: &mut Words, out: &mut [u8], used: usize) -> usize
    requires { used + longest_answer ≤ length out.old }
    ensures { Wrote out.old used (answer_at_end (held_by words.old scan)) out.new result }
{
    let line = scan.ended(words);
    respond(line, &words[..], out, used)
}

pub(crate) fn answer_piece(scan: Scan, piece: &[u8], words: &mut Words, out: &mut [u8]) -> Answered
    requires { room_for (length piece.now) ≤ length out.old }
    ensures scan_after { held_by words.new result.scan ≡ left (held_by words.old scan) piece.now }
    ensures used_in_bounds { result.used ≤ length out.old }
    ensures wrote { Wrote out.old 0 (answers_in (held_by words.old scan) piece.now) out.new result.used }
{
    let mut held = scan;
    let mut used: usize = 0;
    let mut at: usize = 0;
    while at < piece.len() {
        let next = held.next(piece, at, words);
        let Some(end) = next.at else {
            return Answered {
                scan: next.scan,
                used,
            };
        };
        used = answer_line(next.scan, words, out, used);
        held = Scan::new();
        at = end;
    }
    Answered { scan: held, used }
}
