// Calls on any tables: each line of standard input is a call with the words of three tables, of
// any content, and its line of standard output is the answer with the words as the call left them.
//
// So tables that no run of calls leads to, damaged ones among them, can be held against a second
// keeper. All that it does is proved in `answering`. Here the bytes that are read are handed over, piece
// by piece and in their order, and what is put out is written.
#![tactic(auto)]

ghost use Rattle.std.specs.Prelude.{◌≡◌, length};
ghost use Rattle.answering.specs.Life.{room_for};

use answering::{Answerer, LONGEST_ANSWER, NUMBER_BYTES};
use std::io::Read;

// The longest piece.
const PIECE: usize = 32768;

// Room for the answers in any piece.
const ROOM: usize = LONGEST_ANSWER + LONGEST_ANSWER + NUMBER_BYTES * PIECE;

fn input_buffer() -> [u8; PIECE]
    ensures { 32768 ≡ length result }
{
    [0; PIECE]
}

fn output_buffer() -> [u8; ROOM]
    ensures { room_for 32768 ≡ length result }
{
    [0; ROOM]
}

// Nothing says that the input ends, so the turns are counted, to a number that no run uses up. What
// cannot be read is taken for the end of the input.
fn main(rt: HostRuntime) {
    let mut input = input_buffer();
    let mut output = output_buffer();
    let mut answerer = Answerer::new();
    for _ in 0..u64::MAX {
        let n = rt.stdin().read(&mut input).unwrap_or(0);
        if n == 0 {
            break;
        }
        let taken = answerer.take(&input[..n], &mut output);
        let used = taken.used;
        let _ = rt.write_all(&output[..used]);
        answerer = taken.answerer;
    }
    let used = answerer.end(&mut output);
    let _ = rt.write_all(&output[..used]);
}
