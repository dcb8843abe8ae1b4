// The finest cut: reads operations of whole programs from standard input, one a line, and writes the pieces
// to standard output, one a line, or one line that says why there are none.
//
// All that it does is proved in `fining`. Here the bytes that are read are handed over, piece by
// piece and in their order, and what is put out is written. Input that cannot be read to its end is
// not cut: that is said on standard error, and then standard output stays empty.
#![tactic(auto)]

ghost use Rattle.std.specs.Prelude.{◌≡◌, length};
ghost use Rattle.cut_lines.specs.Given.{longest_text};

use fining::{Fining, LONGEST_TEXT};
use std::io::Read;

// The longest piece.
const PIECE: usize = 8192;

fn input_buffer() -> [u8; PIECE]
    ensures { 8192 ≡ length result }
{
    [0; PIECE]
}

fn output_buffer() -> [u8; LONGEST_TEXT]
    ensures { longest_text ≡ length result }
{
    [0; LONGEST_TEXT]
}

// Nothing says that the input ends, so the turns are counted, to a number that no run uses up.
fn main(rt: HostRuntime) {
    let mut input = input_buffer();
    let mut output = output_buffer();
    let mut fining = Fining::new();
    for _ in 0..u64::MAX {
        let n = match rt.stdin().read(&mut input) {
            Ok(n) => n,
            Err(e) => {
                let _ = eprintln!(rt; "standard input: {e}");
                return;
            }
        };
        if n == 0 {
            break;
        }
        fining = fining.take(&input[..n]);
    }
    let used = fining.end(&mut output);
    if let Err(e) = rt.write_all(&output[..used]) {
        let _ = eprintln!(rt; "standard output: {e}");
    }
}
