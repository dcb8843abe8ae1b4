// Why no journal was made.
use std::error::Error;
use std::{fmt, io};

#[derive(Debug, Drop)]
pub(crate) enum Fault {
    // Of the journal's file.
    Journal(io::Error),
    // Of standard input, and of standard output.
    Input(io::Error),
    Output(io::Error),
}

// What a fault of a journal's file was of, by the file's name.
impl Fault {
    pub(crate) fn place<'a>(&self, path: &'a str) -> &'a str {
        match self {
            Fault::Journal(_) => path,
            Fault::Input(_) => "standard input",
            Fault::Output(_) => "standard output",
        }
    }
}

impl fmt::Display for Fault {
    fn fmt<W: fmt::Write>(&self, f: &mut fmt::Formatter<W>) -> fmt::Result {
        match self {
            Fault::Journal(e) | Fault::Input(e) | Fault::Output(e) => write!(f, "{e}"),
        }
    }
}

impl Error for Fault {}

// What fails is the journal's file, where nothing else is said.
impl From<io::Error> for Fault {
    fn from(e: io::Error) -> Self {
        Fault::Journal(e)
    }
}
