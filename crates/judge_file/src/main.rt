// The judge as a program: says of the journal that its argument names whether it is accepted, on
// one line of standard output.
//
// The file is opened twice, one place at the calls and one at the answers, and both are read in
// pieces of whole records, so that its size does not matter. What cannot be read is told on standard
// error, and then standard output stays empty.
#![tactic(auto)]

mod fault;
mod file;
mod handing;

use std::env::{Env, FillError};
use std::fmt::Display;
use std::str;

fn complain(rt: &impl Eprint, what: &str, why: impl Display + Drop) {
    let _ = eprintln!(rt; "{what}: {why}");
}

fn main(rt: HostRuntime) {
    let mut name = [0; 4096];
    let n = match rt.arg(1, &mut name) {
        Ok(n) => n,
        Err(FillError::NotPresent) => {
            return complain(&rt, "the journal's name", "Invalid argument");
        }
        Err(FillError::TooLong) => return complain(&rt, "the journal's name", "File name too long"),
    };
    match str::from_utf8(&name[..n]) {
        Ok(path) => {
            if let Err(e) = handing::judge_path(&rt, path) {
                complain(&rt, path, e);
            }
        }
        Err(e) => complain(&rt, "the journal's name", e),
    }
}
