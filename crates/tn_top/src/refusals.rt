ghost use Rattle.std.specs.Prelude.{◌≡◌};
ghost use Rattle.tn_top.specs.Refusals.{end_status};

use crate::statuses::Status;
use std::alloc::{AllocError, AllocFailed};
use tn_text::limits::Limit;
use tn_text::{Fault, FileName};

/// Why a command ends without having done what it was asked for. It carries all that its line tells.
#[derive(Drop)]
pub enum Refusal {
    /// The file has this fault, the first of all.
    Fault(FileName, Fault),
    /// This limit is passed, by this count.
    Limit(Limit, u64),
    /// The file cannot be read.
    Unread(FileName),
    /// The file cannot be written.
    Unwritten(FileName),
    /// The output cannot be printed to.
    Unprinted,
    /// What this line of the file asks for, by its tokens, is not enabled.
    NotEnabled(FileName, u32, Vec<u8>),
    NoMemory,
}

/// The status that a command ends with.
pub fn status_of(ended: &Result<(), Refusal>) -> Status
    ensures { result ≡ end_status ended.now }
{
    match ended {
        Ok(()) => Status::Done,
        Err(Refusal::Fault(_, _)) => Status::Fault,
        Err(Refusal::Limit(_, _)) => Status::Limit,
        Err(Refusal::Unread(_)) => Status::ReadFault,
        Err(Refusal::Unwritten(_)) => Status::WriteFault,
        Err(Refusal::Unprinted) => Status::OutFault,
        Err(Refusal::NotEnabled(_, _, _)) => Status::NotEnabled,
        Err(Refusal::NoMemory) => Status::NoMemory,
    }
}

impl<T: Drop> From<AllocFailed<T>> for Refusal {
    ghost use Rattle.std.specs.Prelude.{◌≡◌};
    ghost use Rattle.tn_top.specs.declared.refusals.Refusal.TheVariants.{NoMemory};

    ghost from_gives = { λ _ refusal. refusal ≡ NoMemory };

    fn from(_failed: AllocFailed<T>) -> Refusal {
        Refusal::NoMemory
    }
}

impl From<tn_module::NoMemory> for Refusal {
    ghost use Rattle.std.specs.Prelude.{◌≡◌};
    ghost use Rattle.tn_top.specs.declared.refusals.Refusal.TheVariants.{NoMemory};

    ghost from_gives = { λ _ refusal. refusal ≡ NoMemory };

    fn from(_want: tn_module::NoMemory) -> Refusal {
        Refusal::NoMemory
    }
}

impl From<tn_system::NoMemory> for Refusal {
    ghost use Rattle.std.specs.Prelude.{◌≡◌};
    ghost use Rattle.tn_top.specs.declared.refusals.Refusal.TheVariants.{NoMemory};

    ghost from_gives = { λ _ refusal. refusal ≡ NoMemory };

    fn from(_want: tn_system::NoMemory) -> Refusal {
        Refusal::NoMemory
    }
}

impl From<AllocError> for Refusal {
    ghost use Rattle.std.specs.Prelude.{◌≡◌};
    ghost use Rattle.tn_top.specs.declared.refusals.Refusal.TheVariants.{NoMemory};

    ghost from_gives = { λ _ refusal. refusal ≡ NoMemory };

    fn from(_error: AllocError) -> Refusal {
        Refusal::NoMemory
    }
}
