// The words of a line, read byte by byte, whatever they say: a space ends a word, and one that begins
// with `#` begins a comment.
//
// A line may have any length, so it is not kept: `Speech` knows the word that is not ended, as far as it
// can be a name or a number.
#![tactic(auto)]

mod digits;
mod kept;
mod speech;
mod word;

pub use kept::same;
pub use speech::Speech;
pub use word::Word;
