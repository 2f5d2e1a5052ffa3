ghost use Rattle.std.specs.Prelude.{◌≡◌, ℕ, ◌+◌, ◌-◌, ◌*◌, ◌<◌, ◌≤◌, ◌-ℤ◌, pos, List, ◌++◌, length, slice_index, IfOk, OnOk};
ghost use Rattle.std.specs.List.{sum};
ghost use Rattle.tn_text.specs.declared.limits.TheConstants.{ITEM_LIMIT};
ghost use Rattle.tn_layout.specs.Sizes.{position, needed, IsExact};
ghost use Rattle.tn_layout.specs.Inner.Positions.{ArePositions};
ghost use Rattle.tn_link.specs.Programs.{piece, operand_piece, pieces, operand_value, element_bytes, code};
ghost use Rattle.tn_link.specs.Inner.Elements.{NamesUpTo, IsFit, AreFit};

use crate::linking::NoMemory;
use crate::programs::{Element, Reach};
use std::alloc::{AllocError, Global};
use tn_layout::Piece;
use tn_prefix::{encode, length};

/// What the size of each item depends on.
pub(crate) fn pieces(alloc: Global, program: &[Element]) -> Result<Vec<Piece>, AllocError>
    ensures { IfOk result (λ made. made.items ≡ pieces program.now) }
{
    program.iter().map(piece).collect(alloc)
}

fn piece(element: &Element) -> Piece
    ensures { result ≡ piece element.now }
{
    match *element {
        Element::Instruction(_, reach) => operand_piece(reach),
        Element::Byte(_) => Piece::Fixed(1),
        Element::Label => Piece::Fixed(0),
    }
}

fn operand_piece(reach: Reach) -> Piece
    ensures { result ≡ operand_piece reach }
{
    match reach {
        Reach::Number(value) => Piece::Fixed(length(value)),
        Reach::To(place) => Piece::Rel { to: place },
        Reach::Between(high, low) => Piece::Diff { high, low },
    }
}

/// The position of each place of the program: the sum of the sizes before it.
pub(crate) fn positions(alloc: Global, sizes: &[u8]) -> Result<Vec<u32>, NoMemory>
    requires { length sizes.now ≤ ITEM_LIMIT }
    ensures { IfOk result (λ positions. ArePositions sizes.now positions.items) }
{
    let mut positions = Vec::new(alloc);
    let mut end: u32 = 0;
    positions.push(end)?;
    for size in sizes {
        end += u32::from(*size);
        positions.push(end)?;
    }
    Ok(positions)
}

/// The bytes of all items at these positions.
pub(crate) fn code(
    alloc: Global,
    program: &[Element],
    positions: &[u32],
) -> Result<Vec<u8>, NoMemory>
    requires fit { AreFit program.now }
    requires as_many { length positions.now ≡ length program.now + 1 }
    requires bounded { (k : ℕ) → slice_index positions.now k ≤ 255 * ITEM_LIMIT }
    ensures code { IfOk result (λ bytes. (sizes : List ℕ) → ArePositions sizes positions.now → bytes.items ≡ code program.now sizes) }
    ensures long { IfOk result (λ bytes. (sizes : List ℕ) → ArePositions sizes positions.now → IsExact (pieces program.now) sizes
        → length bytes.items ≡ sum sizes) }
{
    let mut bytes = Vec::new(alloc);
    for (i, element) in program.iter().enumerate() {
        add_element(&mut bytes, positions, i, *element)?;
    }
    Ok(bytes)
}

/// Puts the bytes of the item at place `i` to the others.
fn add_element(
    bytes: &mut Vec<u8>,
    positions: &[u32],
    i: usize,
    element: Element,
) -> Result<(), NoMemory>
    requires here { i + 1 < length positions.now }
    requires fit { IsFit (length positions.now - 1) element }
    requires bounded { (k : ℕ) → slice_index positions.now k ≤ 255 * ITEM_LIMIT }
    ensures bytes { OnOk result ((sizes : List ℕ) → ArePositions sizes positions.now
        → bytes.new.items ≡ bytes.old.items ++ element_bytes sizes i element) }
    ensures long { OnOk result ((sizes : List ℕ) → ArePositions sizes positions.now
        → length bytes.new.items ≡ length bytes.old.items + needed sizes i (piece element)) }
{
    match element {
        Element::Instruction(fun, reach) => {
            let coding = encode(fun, operand(positions, i, reach));
            bytes.extend_from_slice(coding.as_slice())?;
        }
        Element::Byte(byte) => bytes.push(byte)?,
        Element::Label => {}
    }
    Ok(())
}

/// The operand of the instruction at place `i`.
fn operand(positions: &[u32], i: usize, reach: Reach) -> i32
    requires here { i + 1 < length positions.now }
    requires named { NamesUpTo (length positions.now - 1) reach }
    requires bounded { (k : ℕ) → slice_index positions.now k ≤ 255 * ITEM_LIMIT }
    ensures { (sizes : List ℕ) → ArePositions sizes positions.now → result ≡ operand_value sizes i reach }
{
    match reach {
        Reach::Number(value) => value,
        Reach::To(place) => distance(positions, place as usize, i + 1),
        Reach::Between(high, low) => distance(positions, high as usize, low as usize),
    }
}

/// How far the position of one place lies behind that of another.
fn distance(positions: &[u32], high: usize, low: usize) -> i32
    requires high { high < length positions.now }
    requires low { low < length positions.now }
    requires bounded { (k : ℕ) → slice_index positions.now k ≤ 255 * ITEM_LIMIT }
    ensures { result ≡ pos (slice_index positions.now high) -ℤ pos (slice_index positions.now low) }
{
    positions[high] as i32 - positions[low] as i32
}
