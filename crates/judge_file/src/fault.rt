// Why a file has no verdict.
use std::error::Error;
use std::{fmt, io};

#[derive(Debug, Drop)]
pub(crate) enum Fault {
    // It cannot be opened, or one cannot move about in it.
    System(io::Error),
    // A device, or a file that grows.
    NoSize,
    CutShort,
}

impl fmt::Display for Fault {
    fn fmt<W: fmt::Write>(&self, f: &mut fmt::Formatter<W>) -> fmt::Result {
        match self {
            Fault::System(e) => write!(f, "{e}"),
            Fault::NoSize => write!(f, "no file of a known size"),
            Fault::CutShort => write!(f, "cannot be read to its end"),
        }
    }
}

impl Error for Fault {}

impl From<io::Error> for Fault {
    fn from(e: io::Error) -> Self {
        Fault::System(e)
    }
}
