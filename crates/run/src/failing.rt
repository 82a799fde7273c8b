// Why a run ended before the end of its input.
use std::error::Error;
use std::{fmt, io};

#[derive(Debug, Drop)]
pub enum Failure {
    Reading(io::Error),
    Writing(io::Error),
}

impl fmt::Display for Failure {
    fn fmt<W: fmt::Write>(&self, f: &mut fmt::Formatter<W>) -> fmt::Result {
        match self {
            Failure::Reading(error) => write!(f, "reading: {error}"),
            Failure::Writing(error) => write!(f, "writing: {error}"),
        }
    }
}

impl Error for Failure {}
