// Text in lent bytes, put at a place.
//
// What stands from a place on, and the laws of text behind text, are in proofs/.
#![tactic(auto)]

ghost use Rattle.std.specs.Prelude.{[], ◌∷◌, ◌+◌, ◌<◌, ◌≤◌, length};
ghost use Rattle.texts.specs.Written.{Wrote};

// Writes a byte, and answers the index after it.
#[tactic(auto, using(crate::proofs::Written::wrote_byte))]
pub fn put(out: &mut [u8], at: usize, byte: u8) -> usize
    requires { at < length out.old }
    ensures { Wrote out.old at (byte ∷ []) out.new result }
{
    out[at] = byte;
    at + 1
}

// Writes a text, and answers the index after it.
pub fn put_text(out: &mut [u8], at: usize, text: &[u8]) -> usize
    requires { at + length text.now ≤ length out.old }
    ensures { Wrote out.old at text.now out.new result }
{
    let mut end = at;
    for &byte in text {
        end = put(out, end, byte);
    }
    end
}
