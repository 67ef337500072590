//! Why the words couldn't be read at all.
use std::alloc::{AllocError, AllocFailed};
use std::io::ErrorKind;
use std::{fmt, io};

/// The words need memory that isn't there, or one of them isn't UTF-8.
#[derive(Clone, Copy, Debug, PartialEq, Eq)]
pub enum Unread {
    NoMemory,
    NotUtf8,
}

impl Unread {
    /// The exit status.
    pub fn status(self) -> u8 {
        match self {
            Unread::NotUtf8 => 2,
            Unread::NoMemory => 3,
        }
    }
}

impl fmt::Display for Unread {
    fn fmt<W: fmt::Write>(&self, f: &mut fmt::Formatter<W>) -> fmt::Result {
        match self {
            Unread::NotUtf8 => writeln!(f, "error: a word is not UTF-8"),
            Unread::NoMemory => writeln!(f, "no memory"),
        }
    }
}

impl From<io::Error> for Unread {
    fn from(error: io::Error) -> Unread {
        match error.kind() {
            ErrorKind::OutOfMemory => Unread::NoMemory,
            _ => Unread::NotUtf8,
        }
    }
}

impl From<AllocError> for Unread {
    fn from(_error: AllocError) -> Unread {
        Unread::NoMemory
    }
}

impl<T: Drop> From<AllocFailed<T>> for Unread {
    fn from(_error: AllocFailed<T>) -> Unread {
        Unread::NoMemory
    }
}
