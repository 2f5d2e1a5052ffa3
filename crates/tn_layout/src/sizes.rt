ghost use Rattle.std.specs.Prelude.{◌≡◌, ◌+◌, ◌*◌, ◌<◌, ◌≤◌, List, length, map};
ghost use Rattle.std.specs.Prelude.{IfOk, IfErr};
ghost use Rattle.std.specs.List.{sum};
ghost use Rattle.tn_layout.specs.declared.pieces.Piece.{Piece};
ghost use Rattle.tn_layout.specs.Sizes.{Least, IsExact, OneIsLeast, AreNamed, IsLayoutFault};
ghost use Rattle.tn_layout.specs.Spans.{references, pairs};
ghost use Rattle.tn_layout.specs.Inner.Positions.{first_size};

use crate::layouts::Layout;
use crate::pieces::{LayoutFault, Piece};
use crate::steps::Steps;
use std::alloc::{AllocError, Global};
use std::marker::Brand;
use std::sync::ledger::{Blank, Ledger};
use tn_text::limits::{CODE_LIMIT, ITEM_LIMIT};

/// The least sizes, in bytes, that keep each fixed piece and hold the operand of each reference.
/// Each reference then has exactly the length of its operand: no size can be less, since the
/// order of the pieces fixes the sign of each operand, and no size that grows brings one nearer to 0.
#[tactic(auto, using(crate::proofs::LeastSizes::one_is_least))]
pub fn settle(alloc: Global, pieces: &[Piece]) -> Result<Vec<u8>, LayoutFault>
    requires short { length pieces.now ≤ ITEM_LIMIT }
    requires named { AreNamed pieces.now }
    // One list of sizes is the least, whatever the pieces. It is answered, or its total is above the
    // limit.
    ensures one { (pieces : List Piece) → OneIsLeast pieces }
    ensures least { IfOk result (λ sizes. Least pieces.now sizes.items) }
    ensures exact { IfOk result (λ sizes. IsExact pieces.now sizes.items) }
    ensures total { IfOk result (λ sizes. sum sizes.items ≤ CODE_LIMIT) }
    ensures fault { IfErr result (λ fault. IsLayoutFault pieces.now fault) }
{
    settle_uncounted::<Brand>(alloc, pieces, Blank::new(1))
}

/// The sizes of `settle`, with steps that nothing reads.
fn settle_uncounted<L: Ledger>(
    alloc: Global,
    pieces: &[Piece],
    blank: Blank,
) -> Result<Vec<u8>, LayoutFault>
    requires short { length pieces.now ≤ ITEM_LIMIT }
    requires named { AreNamed pieces.now }
    requires name { blank.name ≡ L.name }
    requires parts { blank.parts ≡ L.parts }
    requires some { 0 < blank.parts }
    ensures least { IfOk result (λ sizes. Least pieces.now sizes.items) }
    ensures exact { IfOk result (λ sizes. IsExact pieces.now sizes.items) }
    ensures total { IfOk result (λ sizes. sum sizes.items ≤ CODE_LIMIT) }
    ensures fault { IfErr result (λ fault. IsLayoutFault pieces.now fault) }
{
    let mut steps = Steps::<L>::new(blank);
    settle_counted(alloc, pieces, &mut steps)
}

/// The sizes of `settle`, and how many lengths of operands it computes: one for each reference, and seven
/// for each pair of a reference and a reference within its span, at most, whatever it answers.
#[tactic(auto, using(crate::proofs::LeastSizes::one_is_least))]
pub fn settle_counted<L: Ledger>(
    alloc: Global,
    pieces: &[Piece],
    steps: &mut Steps<L>,
) -> Result<Vec<u8>, LayoutFault>
    requires short { length pieces.now ≤ ITEM_LIMIT }
    requires named { AreNamed pieces.now }
    ensures one { (pieces : List Piece) → OneIsLeast pieces }
    ensures least { IfOk result (λ sizes. Least pieces.now sizes.items) }
    ensures exact { IfOk result (λ sizes. IsExact pieces.now sizes.items) }
    ensures total { IfOk result (λ sizes. sum sizes.items ≤ CODE_LIMIT) }
    ensures fault { IfErr result (λ fault. IsLayoutFault pieces.now fault) }
    ensures cost { steps.new ≤ steps.old + length (references pieces.now) + 7 * pairs pieces.now }
{
    let sizes = grown(alloc, pieces, steps)?;
    let total = total(&sizes);
    if total as usize > CODE_LIMIT {
        return Err(LayoutFault::TooLong(u64::from(total)));
    }
    Ok(sizes)
}

/// The first sizes, grown until each reference has what it needs.
fn grown<L: Ledger>(
    alloc: Global,
    pieces: &[Piece],
    steps: &mut Steps<L>,
) -> Result<Vec<u8>, AllocError>
    requires short { length pieces.now ≤ ITEM_LIMIT }
    requires named { AreNamed pieces.now }
    ensures least { IfOk result (λ sizes. Least pieces.now sizes.items) }
    ensures exact { IfOk result (λ sizes. IsExact pieces.now sizes.items) }
    ensures cost { steps.new ≤ steps.old + length (references pieces.now) + 7 * pairs pieces.now }
{
    let mut layout = Layout::begin(alloc, pieces)?;
    'looks: while layout.look(pieces, steps)? {}
    Ok(layout.into_sizes())
}

/// A size for each piece that is no larger than any that is right.
pub fn first_sizes(alloc: Global, pieces: &[Piece]) -> Result<Vec<u8>, AllocError>
    ensures { IfOk result (λ sizes. sizes.items ≡ map (λ piece. first_size piece) pieces.now) }
{
    pieces.iter().map(first_size).collect(alloc)
}

/// The size of a fixed piece, and one byte for a reference.
fn first_size(piece: &Piece) -> u8
    ensures { result ≡ first_size piece.now }
{
    match *piece {
        Piece::Fixed(size) => size,
        Piece::Rel { .. } | Piece::Diff { .. } => 1,
    }
}

/// The sum of all sizes.
fn total(sizes: &[u8]) -> u32
    requires { length sizes.now ≤ ITEM_LIMIT }
    ensures { result ≡ sum sizes.now }
{
    let mut total = 0;
    for size in sizes {
        total += u32::from(*size);
    }
    total
}
