ghost use Rattle.std.specs.Prelude.{◌≡◌};
ghost use Rattle.tn_layout.specs.declared.pieces.LayoutFault.TheVariants.{NoMemory};

use std::alloc::AllocError;
use thiserror::Error;

/// A piece of code. A place is the index of the piece that starts there, and the number of pieces
/// is the place where the last one ends.
#[derive(Clone, Copy)]
pub enum Piece {
    /// So many bytes.
    Fixed(u8),
    /// An instruction whose operand is the position of a place less that of its own end.
    Rel { to: u32 },
    /// An instruction whose operand is the position of one place less that of another.
    Diff { high: u32, low: u32 },
}

/// Why pieces got no sizes.
#[derive(Clone, Copy, Debug, Error)]
pub enum LayoutFault {
    /// The total of the least sizes, which is above the limit.
    #[error("the code has {0} bytes")]
    TooLong(u64),
    #[error("no memory")]
    NoMemory,
}

impl From<AllocError> for LayoutFault {
    ghost from_gives = { λ _ fault. fault ≡ NoMemory };

    fn from(_fault: AllocError) -> LayoutFault {
        LayoutFault::NoMemory
    }
}
