//! Why a command ends early: what is printed on standard error before the program ends with status 1.
use crate::HELP;
use refusal::Refusal;
use std::alloc::AllocError;
use std::error::Error;
use std::{fmt, io};

/// Why a command failed. A name that it tells is one of the command's words.
#[derive(Clone, Copy, Debug)]
pub enum Failure<'a> {
    /// The command's words make no sense.
    Usage,
    /// A key has not 16 bytes. The help is printed after it.
    KeySize,
    /// Something is wrong with the file of that name.
    File { name: &'a str, fault: Fault },
    /// There is no memory left.
    Memory(AllocError),
    /// The arguments, the clock, standard output or standard error failed.
    System(io::Error),
}

/// What is wrong with a file.
#[derive(Clone, Copy, Debug)]
pub enum Fault {
    /// It could not be read or written.
    Io(io::Error),
    /// A library refuses what it holds.
    Refused(Refusal),
    /// Its line of that number, counted from 1, is not a line of a recipe.
    Line(usize),
}

/// Says which file an error is about.
pub trait InFile<T> {
    fn in_file(self, name: &str) -> Result<T, Failure<'_>>;
}

impl<T, E: Into<Fault>> InFile<T> for Result<T, E> {
    fn in_file(self, name: &str) -> Result<T, Failure<'_>> {
        self.map_err(|error| Failure::File {
            name,
            fault: error.into(),
        })
    }
}

impl fmt::Display for Failure<'_> {
    fn fmt<W: fmt::Write>(&self, f: &mut fmt::Formatter<W>) -> fmt::Result {
        match self {
            Failure::Usage => f.write_str(HELP),
            Failure::KeySize => {
                f.write_str("lochgrater: a key has 16 bytes, which are 32 hexadecimal digits")
            }
            Failure::File { name, fault } => write!(f, "lochgrater: {name}: {fault}"),
            Failure::Memory(error) => write!(f, "lochgrater: {error}"),
            Failure::System(error) => write!(f, "lochgrater: {error}"),
        }
    }
}

impl fmt::Display for Fault {
    fn fmt<W: fmt::Write>(&self, f: &mut fmt::Formatter<W>) -> fmt::Result {
        match self {
            Fault::Io(error) => write!(f, "{error}"),
            Fault::Refused(refusal) => write!(f, "{refusal}"),
            Fault::Line(number) => write!(f, "line {number} is not a line of a recipe"),
        }
    }
}

impl Error for Failure<'_> {}

impl Error for Fault {}

impl From<AllocError> for Failure<'_> {
    fn from(error: AllocError) -> Self {
        Failure::Memory(error)
    }
}

impl From<io::Error> for Failure<'_> {
    fn from(error: io::Error) -> Self {
        Failure::System(error)
    }
}

impl From<io::Error> for Fault {
    fn from(error: io::Error) -> Fault {
        Fault::Io(error)
    }
}

impl From<Refusal> for Fault {
    fn from(refusal: Refusal) -> Fault {
        Fault::Refused(refusal)
    }
}
