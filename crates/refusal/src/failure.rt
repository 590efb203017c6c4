// Why a call that needs memory has no answer.
ghost use Rattle.std.specs.Prelude.{◌≡◌, alloc_error};
ghost use Rattle.refusal.specs.Text.{failure_text};
ghost use Rattle.refusal.specs.declared.failure.Failure.TheVariants.{Refused, NoMemory};

use crate::Refusal;
use std::alloc::{AllocError, AllocFailed};
use std::error::Error;
use std::fmt;

// It refused, or memory was wanting.
#[derive(Clone, Copy, Debug)]
pub enum Failure {
    Refused(Refusal),
    NoMemory(AllocError),
}

impl From<Refusal> for Failure {
    ghost from_gives = { λ refusal failure. failure ≡ Refused refusal };

    fn from(refusal: Refusal) -> Failure {
        Failure::Refused(refusal)
    }
}

impl From<AllocError> for Failure {
    ghost from_gives = { λ error failure. failure ≡ NoMemory error };

    fn from(no_memory: AllocError) -> Failure {
        Failure::NoMemory(no_memory)
    }
}

impl<T: Drop> From<AllocFailed<T>> for Failure {
    ghost from_gives = { λ _ failure. failure ≡ NoMemory alloc_error };

    fn from(failed: AllocFailed<T>) -> Failure {
        Failure::NoMemory(AllocError::from(failed))
    }
}

impl fmt::Display for Failure {
    ghost output = { failure_text };

    fn fmt<W: fmt::Write>(&self, f: &mut fmt::Formatter<W>) -> fmt::Result {
        match self {
            Failure::Refused(refusal) => write!(f, "{refusal}"),
            Failure::NoMemory(error) => write!(f, "{error}"),
        }
    }
}

impl Error for Failure {}
