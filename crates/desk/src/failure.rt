// Why a call of the console gave no answer.
use commands::command::Malformed;
use std::alloc::{AllocError, AllocFailed};
use std::io;
use values::refusals::{Reason, Refused};

#[derive(Drop)]
pub enum Failure {
    Malformed(Malformed),
    Refused(Refused),
    Io(io::Error),
}

impl From<Malformed> for Failure {
    fn from(malformed: Malformed) -> Failure {
        Failure::Malformed(malformed)
    }
}

impl From<Refused> for Failure {
    fn from(refused: Refused) -> Failure {
        Failure::Refused(refused)
    }
}

// A lookup of one field or value gives its reason alone: its place is the call's only one.
impl From<Reason> for Failure {
    fn from(reason: Reason) -> Failure {
        Failure::Refused(reason.at(0))
    }
}

impl From<io::Error> for Failure {
    fn from(error: io::Error) -> Failure {
        Failure::Io(error)
    }
}

// Want of memory has two types, as a call hands back what it was to store or not.
impl<T: Drop> From<AllocFailed<T>> for Failure {
    fn from(failed: AllocFailed<T>) -> Failure {
        Failure::Io(io::Error::from(failed))
    }
}

impl From<AllocError> for Failure {
    fn from(error: AllocError) -> Failure {
        Failure::Io(io::Error::from(error))
    }
}
