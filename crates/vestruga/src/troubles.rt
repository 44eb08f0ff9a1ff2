// Why a command was not carried out: one line that says so.
use super::command::Misuse;
use images::refusals::ImageRefusal;
use memory::refusals::MemoryRefusal;
use program::refusals::LoadRefusal;
use questions::failures::Failure;
use std::alloc::AllocError;
use std::io;
use thiserror::Error;

#[derive(Debug, Drop, Error)]
pub(super) enum Trouble {
    #[error(transparent)]
    Misused(#[from] Misuse),
    #[error("refused, {0}")]
    Refused(#[from] ImageRefusal),
    #[error("refused, {0}")]
    NotLoaded(#[from] LoadRefusal),
    #[error("refused, {refusal} (address {address})")]
    Memory {
        address: usize,
        refusal: MemoryRefusal,
    },
    #[error("there is not memory enough")]
    OutOfMemory,
    #[error("{path} cannot be read: {error}")]
    NotRead {
        path: String,
        error: io::Error,
    },
    #[error("{path} cannot be written: {error}")]
    NotWritten {
        path: String,
        error: io::Error,
    },
    // What is printed is all that a command writes by itself: files go by their own cases.
    #[error("standard output cannot be written: {0}")]
    Output(#[from] io::Error),
}

impl From<AllocError> for Trouble {
    fn from(_error: AllocError) -> Trouble {
        Trouble::OutOfMemory
    }
}

impl<R: Into<Trouble> + Drop> From<Failure<R>> for Trouble {
    fn from(failure: Failure<R>) -> Trouble {
        match failure {
            Failure::Refused(refusal) => refusal.into(),
            Failure::OutOfMemory => Trouble::OutOfMemory,
        }
    }
}
