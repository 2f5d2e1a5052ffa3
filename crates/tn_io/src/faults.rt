ghost use Rattle.std.specs.Prelude.{◌≡◌, ◌+◌, ◌-◌, ◌^◌, ◌≤◌, min};
ghost use Rattle.tn_text.specs.Counts.{Rose};

use thiserror::Error;

/// Why a store did not read a file.
#[derive(Clone, Copy, Debug, Error)]
pub enum GetFault {
    /// The file is not there, or the device failed.
    #[error("the file cannot be read")]
    Failed,
    /// The file has more bytes than the limit of the call, which is one less than this number.
    #[error("the file has {0} bytes or more")]
    TooLong(u64),
    #[error("no memory")]
    NoMemory,
}

/// Why a store did not create, write or close a file.
#[derive(Clone, Copy, Debug, Error)]
pub enum PutFault {
    /// No file is open, or the device failed.
    #[error("the file cannot be written")]
    Failed,
    #[error("no memory")]
    NoMemory,
}

/// Which refusal of a store came last to an output over its open file.
#[derive(Clone, Copy)]
pub enum PutKind {
    /// No file was open, or the device failed.
    Failed,
    /// There was no memory.
    NoMemory,
}

/// An output did not take all of a piece.
#[derive(Clone, Copy, Debug, Error)]
#[error("the output cannot be written")]
pub struct OutFault;

/// Counts one fault more, up to the greatest value of 64 bits.
pub fn count_fault(faults: &mut u64)
    ensures rose { Rose faults.old faults.new }
    ensures no_less { faults.old ≤ faults.new }
    ensures counted { faults.new ≡ min (faults.old + 1) (2 ^ 64 - 1) }
{
    *faults = faults.saturating_add(1);
}
