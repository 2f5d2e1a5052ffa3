ghost use Rattle.std.specs.Prelude.{◌≡◌, ℕ, ◌≤◌, ◌^◌, length, MatchOption};
ghost use Rattle.tn_link.specs.PieceLookUps.{AreAdjacent, IsPieceAt, HasNoPiece, begins};

use crate::linking::{Linked, Placed};

impl Linked {
    /// The index in `placed` of the item that has bytes and begins at an address. `None` exactly where
    /// there is none. Each entry of `placed` begins where the one before it ends, as those that `link`
    /// answers do, so that a binary search finds it.
    pub fn piece_at(&self, address: u32) -> Option<u32>
        requires adjacent { AreAdjacent self.now.placed.items }
        requires few { length self.now.placed.items ≤ 2 ^ 32 }
        ensures { MatchOption result (HasNoPiece self.now.placed.items address) (λ i. IsPieceAt self.now.placed.items address i) }
    {
        let placed: &[Placed] = &self.placed;
        let behind = placed.partition_point(|piece| piece.address <= address);
        if behind == 0 {
            return None;
        }
        let last = behind - 1;
        if begins(&placed[last], address) {
            Some(last as u32)
        } else {
            None
        }
    }
}

/// Whether an item has bytes and begins at an address.
fn begins(piece: &Placed, address: u32) -> bool
    ensures { result ≡ begins piece.now address }
{
    piece.size > 0 && piece.address == address
}
