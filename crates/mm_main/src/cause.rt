//! Why the system refused a read or a write.
use std::{fmt, io};

/// The system's error, if there was one, as the end of a line.
#[derive(Clone, Copy, Debug)]
pub struct Cause(pub Option<io::Error>);

impl fmt::Display for Cause {
    fn fmt<W: fmt::Write>(&self, f: &mut fmt::Formatter<W>) -> fmt::Result {
        match &self.0 {
            Some(error) => write!(f, ": {error}"),
            None => Ok(()),
        }
    }
}
