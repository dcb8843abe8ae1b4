// The pieces of a cut as lines, in request E9's form.
//
// The operations come as rows of four words, as `finest` takes them; the cut has the piece of each, as
// `finest` names it; and the names of their programs come as rows of 32 bytes.
#![tactic(auto)]

mod prints;
mod sets;

pub use prints::print_cut;

// Room for the text of any cut.
pub const LONGEST_TEXT: usize = 16896;
