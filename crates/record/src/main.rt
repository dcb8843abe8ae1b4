// The recorder: a script on standard input, and its journal in the file that the first argument
// names.
//
// The calls stand before their answers, so the input is gone through once: its calls are written
// down, then read back piece by piece and made from fresh tables on. The memory that this takes
// does not grow with the script. What is written, and how much is read back, is said by the machine
// (`recorder`): here bytes are handed over and written as they are put out. Until all is written
// the first count is the greatest word, so that an unfinished journal is judged short. Whatever
// fails is said on standard error, and then nothing is written to standard output; of a file that
// is let go the library says nothing.
#![tactic(auto)]

mod fault;

ghost use Rattle.std.specs.Prelude.{◌≡◌, length, IfOk};
ghost use Rattle.recorder.specs.Second.{left};

use fault::Fault;
use journal::{RECORD, WORD};
use recorder::{Answering, Taking};
use std::env::{Env, FillError};
use std::fmt::Display;
use std::fs::File;
use std::io::{Read as _, Write as _};
use std::os::unix::fs::FileExt;
use std::str;

// Room for the input: a line takes a byte at least and its record 32, so that the calls of what is
// read at a time fit a large buffer.
fn input_buffer() -> [u8; 2048]
    ensures { 2048 ≡ length result }
{
    [0; 2048]
}

fn large_buffer() -> [u8; 65536]
    ensures { 65536 ≡ length result }
{
    [0; 65536]
}

// Hands standard input over, and writes the calls. Nothing says that it ends, so the turns are
// counted, to a number that no run uses up.
fn take_all(rt: &HostRuntime, file: &mut File) -> Result<Taking, Fault> {
    let mut input = input_buffer();
    let mut output = large_buffer();
    let mut taking = Taking::new();
    for _ in 0..u64::MAX {
        let n = rt.stdin().read(&mut input).map_err(Fault::Input)?;
        if n == 0 {
            break;
        }
        let after = taking.chunk(&input[..n], &mut output);
        let used = after.used;
        file.write_all(&output[..used])?;
        taking = after.taking;
    }
    Ok(taking)
}

// Hands the calls over that are asked for, from where a file stands, and writes the answers.
fn answer_from(answering: &mut Answering, back: &mut File, file: &mut File) -> Result<(), Fault>
    ensures { IfOk result (λ u. left answering.new ≡ 0) }
{
    let mut input = large_buffer();
    let mut output = large_buffer();
    while answering.asks() > 0 {
        let size = answering.bytes();
        back.read_exact(&mut input[..size])?;
        *answering = answering.answer(&input[..size], &mut output);
        file.write_all(&output[..size])?;
    }
    Ok(())
}

// The same with the calls behind the first count of the file of this name.
fn answer_all(
    rt: &HostRuntime,
    answering: &mut Answering,
    file: &mut File,
    path: &str,
) -> Result<(), Fault>
    ensures { IfOk result (λ u. left answering.new ≡ 0) }
{
    let mut back = File::open(rt, path)?;
    let mut head = [0; WORD];
    back.read_exact(&mut head)?;
    answer_from(answering, &mut back, file)
}

fn print(rt: &HostRuntime, answering: &Answering) -> Result<(), Fault> {
    let mut out = [0; 4096];
    let used = answering.line(&mut out);
    rt.stdout().write_all(&out[..used]).map_err(Fault::Output)
}

// The whole journal of this name: its calls, the second count, the answers; its first count is set once
// all is written.
fn fill(rt: &HostRuntime, path: &str) -> Result<(), Fault> {
    let mut file = File::create(rt, path)?;
    file.write_all(&recorder::unfinished())?;
    let taking = take_all(rt, &mut file)?;
    let mut last = [0; RECORD];
    let mut ended = taking.end(&mut last);
    file.write_all(&last[..ended.used])?;
    file.write_all(&ended.answering.second())?;
    answer_all(rt, &mut ended.answering, &mut file, path)?;
    file.write_all_at(&ended.answering.first(), 0)?;
    print(rt, &ended.answering)
}

// Says what failed, and why.
fn complain(rt: &impl Eprint, what: &str, why: impl Display + Drop) {
    let _ = eprintln!(rt; "{what}: {why}");
}

fn main(rt: HostRuntime) {
    let mut name = [0; 4096];
    let length = match rt.arg(1, &mut name) {
        Ok(length) => length,
        Err(FillError::NotPresent) => {
            return complain(&rt, "the journal's name", "Invalid argument");
        }
        Err(FillError::TooLong) => return complain(&rt, "the journal's name", "File name too long"),
    };
    match str::from_utf8(&name[..length]) {
        Ok(path) => {
            if let Err(e) = fill(&rt, path) {
                complain(&rt, e.place(path), e);
            }
        }
        Err(e) => complain(&rt, "the journal's name", e),
    }
}
