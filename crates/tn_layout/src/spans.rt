ghost use Rattle.std.specs.Prelude.{◌≡◌, ℕ, ◌+◌, ◌*◌, ◌%◌, ◌^◌, ◌<◌, ◌≤◌, ◌++◌, [], List, length, map, IfOk};
ghost use Rattle.tn_layout.specs.Sizes.{piece_at, AreNamed, NamesUpTo};
ghost use Rattle.tn_layout.specs.Spans.{span_from, span_to, references};
ghost use Rattle.tn_layout.specs.Inner.Orders.{is_reference, sort_key, IsOrder};
ghost use Rattle.tn_text.specs.declared.limits.TheConstants.{ITEM_LIMIT};

use crate::pieces::Piece;
use std::alloc::{AllocError, Global};
use tn_text::limits::ITEM_LIMIT;

/// The places between which the operand of the piece at a place is the distance: the lower and the higher.
/// Those of a fixed piece are 0.
pub fn span(i: usize, piece: &Piece) -> (u32, u32)
    requires { i < ITEM_LIMIT }
    ensures from { result.0 ≡ span_from i piece.now }
    ensures to { result.1 ≡ span_to i piece.now }
{
    match *piece {
        Piece::Fixed(_) => (0, 0),
        Piece::Rel { to } => {
            let end = i as u32 + 1;
            (end.min(to), end.max(to))
        }
        Piece::Diff { high, low } => (high.min(low), high.max(low)),
    }
}

/// The places of the references, in the order of the beginnings of their spans.
pub fn references(alloc: Global, pieces: &[Piece]) -> Result<Vec<u32>, AllocError>
    requires short { length pieces.now ≤ ITEM_LIMIT }
    requires named { AreNamed pieces.now }
    ensures { IfOk result (λ order. IsOrder pieces.now order.items) }
{
    let mut keys = sort_keys(alloc, pieces)?;
    keys.sort_unstable();
    places_of(alloc, &keys)
}

/// The numbers by which the references are sorted, in the order of their places.
fn sort_keys(alloc: Global, pieces: &[Piece]) -> Result<Vec<u64>, AllocError>
    requires short { length pieces.now ≤ ITEM_LIMIT }
    requires named { AreNamed pieces.now }
    ensures { IfOk result (λ keys. keys.items ≡ map (λ i. sort_key pieces.now i) (references pieces.now)) }
{
    let mut keys = Vec::new(alloc);
    for (i, piece) in pieces.iter().enumerate() {
        if is_reference(piece) {
            keys.push(u64::from(span(i, piece).0) * (1 << 32) + i as u64)?;
        }
    }
    Ok(keys)
}

/// Whether a piece is a reference.
fn is_reference(piece: &Piece) -> bool
    ensures { result ≡ is_reference piece.now }
{
    match *piece {
        Piece::Fixed(_) => false,
        Piece::Rel { .. } | Piece::Diff { .. } => true,
    }
}

/// The places in numbers by which references are sorted.
fn places_of(alloc: Global, keys: &[u64]) -> Result<Vec<u32>, AllocError>
    ensures { IfOk result (λ places. places.items ≡ map (λ key. key % 2 ^ 32) keys.now) }
{
    keys.iter().map(place_of).collect(alloc)
}

/// The place in a number by which references are sorted.
fn place_of(key: &u64) -> u32
    ensures { result ≡ key.now % 2 ^ 32 }
{
    (*key % (1 << 32)) as u32
}
