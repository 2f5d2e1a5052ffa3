ghost use Rattle.tn_stream.specs.declared.faults.StreamFault.TheVariants.{Out, NoMemory};
ghost use Rattle.std.specs.Prelude.{◌≡◌};

use std::alloc::AllocError;
use thiserror::Error;
use tn_io::OutFault;

/// Why a stream was not emitted.
#[derive(Clone, Copy, Debug, Error)]
pub enum StreamFault {
    /// The output did not take all of it.
    #[error("the stream cannot be written")]
    Out,
    #[error("no memory")]
    NoMemory,
}

impl From<AllocError> for StreamFault {
    ghost from_gives = { λ _ fault. fault ≡ NoMemory };

    fn from(_fault: AllocError) -> StreamFault {
        StreamFault::NoMemory
    }
}

impl From<OutFault> for StreamFault {
    ghost from_gives = { λ _ fault. fault ≡ Out };

    fn from(_fault: OutFault) -> StreamFault {
        StreamFault::Out
    }
}
