// The one line that is put out.
ghost use Rattle.std.specs.Prelude.{◌≤◌, List, length};
ghost use Rattle.texts.specs.Written.{Wrote};
ghost use Rattle.piece_lines.specs.Says.{Piece};
ghost use Rattle.line_words.specs.Said.{Said};
ghost use Rattle.finding_lines.specs.Lines.{longest_line};
ghost use Rattle.cutting.specs.Told.{line_of};
ghost use Rattle.cutting.specs.Life.{Counts};

use crate::tally::Tally;
use chop::{Finding, MOST};
use finding_lines::print;
use told_lines::say_bad;

// What all lines have come to: a bad line, else what the pieces are.
pub(crate) fn say(tally: Tally, out: &mut [u8]) -> usize
    requires { longest_line ≤ length out.old }
    ensures upper_bound { result ≤ length out.old }
    ensures wrote { (ss : List (Said Piece)) → Counts ss tally → Wrote out.old 0 (line_of ss) out.new result }
{
    let pieces = tally.pieces;
    let count = pieces.count;
    let unknown = pieces.unknown;
    let rows = pieces.rows;
    if let Some(bad) = tally.bad {
        return say_bad(bad, out);
    }
    if MOST < count {
        return print(chop::plain(Finding::TooManyPieces), out);
    }
    if unknown {
        return print(chop::plain(Finding::UnknownItem), out);
    }
    let end = count * 3;
    let judged = chop::judge(&rows[..end]);
    print(judged, out)
}
