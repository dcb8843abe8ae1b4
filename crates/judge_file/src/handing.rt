// A file's bytes, handed over as they are asked for. What is asked for, and what is said at the end,
// is the machine's (`judging`): here nothing is decided, but that a file that cannot be read has no
// verdict.
ghost use Rattle.std.specs.Prelude.{◌≡◌, length, IfOk};
ghost use Rattle.judging.specs.Counted.{wanted};
ghost use Rattle.judging.specs.Handed.{left};

use crate::fault::Fault;
use crate::file::{fill, move_to, size_of};
use journal::WORD;
use judging::{Counts, Judging};
use std::fs::File;

fn large_buffer() -> [u8; 65536]
    ensures { 65536 ≡ length result }
{
    [0; 65536]
}

// Reads each count that is asked for where it stands.
fn read_counts(size: u64, file: &mut File) -> Result<Counts, Fault>
    ensures { IfOk result (λ counts. wanted counts ≡ 0) }
{
    let mut word = [0; WORD];
    let mut counts = Counts::new(size);
    while counts.asks() > 0 {
        move_to(file, counts.at())?;
        fill(file, &mut word)?;
        counts = counts.count(&word);
    }
    Ok(counts)
}

// Reads calls and answers on, as many as are asked for, from where they stand. After a wrong call it
// goes on, since a file that cannot be read to its end has no verdict.
fn read_records(counts: Counts, calls: &mut File, answers: &mut File) -> Result<Judging, Fault>
    requires { wanted counts ≡ 0 }
    ensures { IfOk result (λ judging. left judging ≡ 0) }
{
    let mut from = large_buffer();
    let mut to = large_buffer();
    let mut judging = Judging::new(counts);
    while judging.asks() > 0 {
        let bytes = judging.bytes();
        fill(calls, &mut from[..bytes])?;
        fill(answers, &mut to[..bytes])?;
        judging = judging.records(&from[..bytes], &to[..bytes]);
    }
    Ok(judging)
}

fn say(rt: &impl Print, judging: Judging)
    requires { left judging ≡ 0 }
{
    let mut out = [0; verdict_lines::LONGEST];
    let used = judging.line(&mut out);
    let _ = rt.write_all(&out[..used]);
}

// Judges the file of this name and says its verdict. It is opened at two places: the calls begin behind
// the first count, and the answers behind the second, which is the last that is read there.
pub(crate) fn judge_path(rt: &HostRuntime, path: &str) -> Result<(), Fault> {
    let mut calls = File::open(rt, path)?;
    let mut answers = File::open(rt, path)?;
    let size = size_of(&mut calls)?;
    let counts = read_counts(size, &mut answers)?;
    move_to(&mut calls, WORD as u64)?;
    let judging = read_records(counts, &mut calls, &mut answers)?;
    say(rt, judging);
    Ok(())
}
