// The recorder without its input and output: two machines, one for each pass.
//
// `Taking` is born with nothing read; it is handed the input chunk by chunk, and puts out the records
// of its calls. At the input's end it turns into `Answering`, with fresh tables and the count; that
// asks for the calls again, as they were put out, and puts out the records of their answers. Neither
// can be had in another way. Each step is proved of all bytes that were handed over and put out so
// far, and the last one says that what was put out is the journal of the run.
#![tactic(auto)]

mod first;
mod second;

pub use first::{AfterChunk, AfterInput, Taking};
pub use second::{Answering, unfinished};
