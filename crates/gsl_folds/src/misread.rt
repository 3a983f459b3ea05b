use gsl_base::Memory;
use std::alloc::AllocError;

/// Why a line has no answer.
#[derive(Clone, Copy, Debug, PartialEq, Eq)]
pub enum Misread {
    /// It has not the form.
    Form,
    Memory,
}

impl From<Memory> for Misread {
    fn from(_error: Memory) -> Misread {
        Misread::Memory
    }
}

impl From<AllocError> for Misread {
    fn from(_error: AllocError) -> Misread {
        Misread::Memory
    }
}
