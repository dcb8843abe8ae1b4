// The script runner: reads calls from standard input, one a line, and answers each on a line of
// standard output, from fresh tables on.
//
// All that it does is proved in `running`. Here the bytes that are read are handed over, piece by
// piece and in their order, and what is put out is written.
#![tactic(auto)]

ghost use Rattle.std.specs.Prelude.{◌≡◌, ◌*◌, length};
ghost use Rattle.running.specs.Replies.{longest_reply};

use running::{LONGEST_REPLY, Runner};
use std::io::Read;

// The longest piece.
const PIECE: usize = 8192;

fn input_buffer() -> [u8; PIECE]
    ensures { 8192 ≡ length result }
{
    [0; PIECE]
}

// Room for the replies to any piece.
fn output_buffer() -> [u8; LONGEST_REPLY * PIECE]
    ensures { longest_reply * 8192 ≡ length result }
{
    [0; LONGEST_REPLY * PIECE]
}

// Nothing says that the input ends, so the turns are counted, to a number that no run uses up. What
// cannot be read is taken for the end of the input.
fn main(rt: HostRuntime) {
    let mut input = input_buffer();
    let mut output = output_buffer();
    let mut runner = Runner::new();
    for _ in 0..u64::MAX {
        let n = rt.stdin().read(&mut input).unwrap_or(0);
        if n == 0 {
            break;
        }
        let taken = runner.take(&input[..n], &mut output);
        let used = taken.used;
        let _ = rt.write_all(&output[..used]);
        runner = taken.runner;
    }
    let used = runner.end(&mut output);
    let _ = rt.write_all(&output[..used]);
}
