// What is put out.
ghost use Rattle.std.specs.Prelude.{List, ◌≤◌, length};
ghost use Rattle.texts.specs.Written.{Wrote};
ghost use Rattle.line_words.specs.Said.{Said};
ghost use Rattle.op_lines.specs.Says.{Operation};
ghost use Rattle.cut_lines.specs.Given.{longest_text};
ghost use Rattle.fining.specs.Told.{text_of};
ghost use Rattle.fining.specs.Life.{Counts};

use crate::tally::Tally;
use cut_lines::print_cut;
use finest::MOST;
use texts::put_text;
use told_lines::say_bad;

// What all lines have come to: a bad line, else what is found of the operations, else the pieces.
pub(crate) fn say(tally: Tally, out: &mut [u8]) -> usize
    requires { longest_text ≤ length out.old }
    ensures upper_bound { result ≤ length out.old }
    ensures wrote { (ss : List (Said Operation)) → Counts ss tally → Wrote out.old 0 (text_of ss) out.new result }
{
    let operations = tally.operations;
    let count = operations.count;
    let unknown = operations.unknown;
    let names = operations.names;
    let rows = operations.rows;
    if let Some(bad) = tally.bad {
        return say_bad(bad, out);
    }
    if MOST < count {
        return put_text(out, 0, b"too many operations\n");
    }
    if unknown {
        return put_text(out, 0, b"unknown item\n");
    }
    let end = count * 4;
    let named = finest::finest(&rows[..end]);
    let cut = named.names;
    print_cut(&names, &rows[..end], &cut[..count], out)
}
