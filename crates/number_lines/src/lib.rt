// Lines of numbers, decimal and with single spaces between: read byte by byte, and printed.
#![tactic(auto)]

mod scan;
mod spaced;

pub use scan::{Next, Scan};
pub use spaced::print_words;
