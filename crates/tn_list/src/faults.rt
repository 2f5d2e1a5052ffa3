ghost use Rattle.std.specs.Prelude.{◌≡◌};
ghost use Rattle.tn_list.specs.declared.faults.ListFault.TheVariants.{Out, NoMemory};

use std::alloc::{AllocError, AllocFailed};
use tn_text::PutRefused;

/// Memory cannot be had.
#[derive(Clone, Copy)]
pub(crate) struct NoMemory;

impl<T: Drop> From<AllocFailed<T>> for NoMemory {
    fn from(_failed: AllocFailed<T>) -> NoMemory {
        NoMemory
    }
}

impl From<AllocError> for NoMemory {
    fn from(_error: AllocError) -> NoMemory {
        NoMemory
    }
}

/// Why a text was not printed.
#[derive(Clone, Copy)]
pub enum ListFault {
    /// The output did not take all of it.
    Out,
    NoMemory,
}

impl From<AllocError> for ListFault {
    ghost from_gives = { λ _ fault. fault ≡ NoMemory };

    fn from(_fault: AllocError) -> ListFault {
        ListFault::NoMemory
    }
}

impl From<PutRefused> for ListFault {
    ghost from_gives = { λ _ fault. fault ≡ Out };

    fn from(_fault: PutRefused) -> ListFault {
        ListFault::Out
    }
}
