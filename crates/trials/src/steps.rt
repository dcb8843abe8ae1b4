// A step's line: its head, and its end with what was found.
ghost use Rattle.std.specs.Prelude.{◌≡◌};
ghost use Rattle.tally.specs.Counts.{as_expected, counted};

use crate::say;
use names::Answer;
use tally::{REFUSED, Tally, as_expected};

// After a refusal the line says how many words are others.
fn say_changed(rt: &HostRuntime, code: u64, changed: u64) {
    if REFUSED <= code {
        say::say(rt, b", ");
        say::number(rt, changed);
        say::say(rt, b" words changed");
    }
}

// The start of a line that tries something.
pub fn head(rt: &HostRuntime, tally: Tally) {
    say::byte(rt, tally.letter);
    say::next(rt, tally.step);
    say::say(rt, b" ");
}

// The answer to a call: its line, which has said what was expected, ends with what was found, after
// a refusal with how many words of the tables are others too.
pub fn expect(rt: &HostRuntime, tally: Tally, found: Answer, others: u64, wanted: Answer) -> Tally
    ensures { result ≡ counted tally (as_expected found others wanted) }
{
    say::say(rt, b", found ");
    say::answer(rt, found);
    say_changed(rt, wanted.code, others);
    let ok = as_expected(found, others, wanted);
    say::end(rt, ok);
    tally.counted(ok)
}
