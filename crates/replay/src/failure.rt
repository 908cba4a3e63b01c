// Why a case has no plain answer.
use std::alloc::{AllocError, AllocFailed};
use values::refusals::{Reason, Refused};

#[derive(Drop)]
pub enum Failure {
    // the line is no case
    NotACase,
    // one of our own calls refused, and that is its answer
    Refused(Reason),
    NoMemory(AllocError),
}

impl From<Reason> for Failure {
    fn from(reason: Reason) -> Failure {
        Failure::Refused(reason)
    }
}

impl From<Refused> for Failure {
    fn from(refused: Refused) -> Failure {
        Failure::Refused(refused.reason)
    }
}

impl From<AllocError> for Failure {
    fn from(error: AllocError) -> Failure {
        Failure::NoMemory(error)
    }
}

impl<T: Drop> From<AllocFailed<T>> for Failure {
    fn from(failed: AllocFailed<T>) -> Failure {
        Failure::NoMemory(AllocError::from(failed))
    }
}
