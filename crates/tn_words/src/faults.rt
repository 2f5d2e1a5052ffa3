use std::alloc::{AllocError, AllocFailed};

/// There is no memory for what is read of words.
#[derive(Clone, Copy)]
pub struct NoMemory;

impl From<clap::Error> for NoMemory {
    fn from(_error: clap::Error) -> NoMemory {
        NoMemory
    }
}

impl<T: Drop> From<AllocFailed<T>> for NoMemory {
    fn from(_failed: AllocFailed<T>) -> NoMemory {
        NoMemory
    }
}

impl From<AllocError> for NoMemory {
    fn from(_error: AllocError) -> NoMemory {
        NoMemory
    }
}
