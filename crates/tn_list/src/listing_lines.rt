ghost use Rattle.std.specs.Prelude.{◌≡◌, ◌<◌, ◌++◌, ◌∷◌, true, [], length, codes, IfOk, OnOk};
ghost use Rattle.std.specs.Fmt.{decimal, signed_decimal, digit_glyph};
ghost use Rattle.tn_text.specs.WordTexts.{word_text};
ghost use Rattle.tn_isa.specs.Mnemonics.{name_of};
ghost use Rattle.tn_modtext.specs.Lines.{operand_text};
ghost use Rattle.tn_list.specs.ListingTexts.{tokens_text, line_of, byte_digits, hex_text, bytes_at, label_text};
ghost use Rattle.tn_list.specs.ListingTexts.{item_tokens, item_line, cell_tokens, cell_line, workspace_line};

use crate::faults::NoMemory;
use std::alloc::Global;
use tn_isa::{Mnemonic, mnemonic_name};
use tn_link::Placed;
use tn_module::{Cell, Item, Operand};
use tn_text::{Name, Region, word_text};

/// A line of a word and a token.
#[tactic(auto, unfolding(crate::specs::ListingTexts::line_of))]
pub(crate) fn token_line(alloc: Global, word: &[u8], token: &[u8]) -> Result<Vec<u8>, NoMemory>
    ensures { IfOk result (λ line. line.items ≡ line_of word.now (token.now ∷ [])) }
{
    let mut line = begun(alloc, word)?;
    add_token(&mut line, token)?;
    line.push(b'\n')?;
    Ok(line)
}

/// The line of a region: a word, its first address, and how many bytes it has.
#[tactic(auto, unfolding(crate::specs::ListingTexts::line_of), using(std::proofs::Common::append_assoc))]
pub(crate) fn extent_line(
    alloc: Global,
    word: &[u8],
    base: u32,
    count: usize,
) -> Result<Vec<u8>, NoMemory>
    ensures { IfOk result (λ line. line.items ≡ line_of word.now (word_text base ∷ decimal count ∷ [])) }
{
    let mut line = begun(alloc, word)?;
    add_word(&mut line, base)?;
    add_count(alloc, &mut line, count)?;
    line.push(b'\n')?;
    Ok(line)
}

/// The line of the workspace, with the workspace pointer.
#[tactic(auto, unfolding(crate::specs::ListingTexts::line_of), using(std::proofs::Common::append_assoc))]
pub(crate) fn workspace_line(
    alloc: Global,
    workspace: Region,
    wptr: u32,
) -> Result<Vec<u8>, NoMemory>
    ensures { IfOk result (λ line. line.items ≡ workspace_line workspace wptr) }
{
    let mut line = begun(alloc, b"workspace")?;
    add_word(&mut line, workspace.from)?;
    add_word(&mut line, wptr)?;
    add_word(&mut line, workspace.to)?;
    line.push(b'\n')?;
    Ok(line)
}

/// The line of an item that lies at a place of the code, which has these bytes from a base on.
#[tactic(auto, unfolding(crate::specs::ListingTexts::line_of, crate::specs::ListingTexts::item_line))]
pub(crate) fn item_line(
    alloc: Global,
    base: u32,
    bytes: &[u8],
    item: &Item,
    place: &Placed,
) -> Result<Vec<u8>, NoMemory>
    ensures { IfOk result (λ line. line.items ≡ item_line base bytes.now item.now place.now) }
{
    let mut line = begun(alloc, &word_text(place.address))?;
    add_item(alloc, &mut line, bytes_at(base, bytes, place), item)?;
    line.push(b'\n')?;
    Ok(line)
}

/// The line of a cell that lies at a place of the cells.
#[tactic(auto, unfolding(crate::specs::ListingTexts::line_of, crate::specs::ListingTexts::cell_line))]
pub(crate) fn cell_line(
    alloc: Global,
    base: u32,
    bytes: &[u8],
    cell: &Cell,
    place: &Placed,
) -> Result<Vec<u8>, NoMemory>
    ensures { IfOk result (λ line. line.items ≡ cell_line base bytes.now cell.now place.now) }
{
    let mut line = begun(alloc, &word_text(place.address))?;
    add_cell(alloc, &mut line, bytes_at(base, bytes, place), cell)?;
    line.push(b'\n')?;
    Ok(line)
}

/// The bytes at a place, among these from a base on.
fn bytes_at<'a>(base: u32, bytes: &'a [u8], place: &Placed) -> &'a [u8]
    ensures { result.now ≡ bytes_at base bytes.now place.now }
{
    let from = (place.address.saturating_sub(base) as usize).min(bytes.len());
    let behind = &bytes[from..];
    let count = (place.size as usize).min(behind.len());
    &behind[..count]
}

/// Puts what stands behind the address of an item, which has these bytes.
#[tactic(auto, using(std::proofs::Common::append_assoc))]
fn add_item(alloc: Global, line: &mut Vec<u8>, bytes: &[u8], item: &Item) -> Result<(), NoMemory>
    ensures { OnOk result (line.new.items ≡ line.old.items ++ tokens_text (item_tokens bytes.now item.now)) }
{
    match item {
        Item::Direct(fun, operand) => {
            add_bytes(line, bytes)?;
            add_direct(alloc, line, Mnemonic::Direct(*fun), operand)
        }
        Item::Plain(op) => {
            add_bytes(line, bytes)?;
            add_token(line, mnemonic_name(Mnemonic::Plain(*op)).as_bytes())
        }
        Item::Byte(byte) => {
            add_bytes(line, bytes)?;
            add_number(alloc, line, b"byte", u32::from(*byte))
        }
        Item::Label(name) => add_label(line, name),
    }
}

/// Puts what stands behind the address of a cell, which has these bytes.
#[tactic(auto, using(std::proofs::Common::append_assoc))]
fn add_cell(alloc: Global, line: &mut Vec<u8>, bytes: &[u8], cell: &Cell) -> Result<(), NoMemory>
    ensures { OnOk result (line.new.items ≡ line.old.items ++ tokens_text (cell_tokens bytes.now cell.now)) }
{
    match cell {
        Cell::Word(word) => {
            add_bytes(line, bytes)?;
            add_number(alloc, line, b"word", *word)
        }
        Cell::Address(name) => {
            add_bytes(line, bytes)?;
            add_tokens(line, b"address", name.bytes())
        }
        Cell::Byte(byte) => {
            add_bytes(line, bytes)?;
            add_number(alloc, line, b"byte", u32::from(*byte))
        }
        Cell::Space(count) => add_number(alloc, line, b"space", *count),
        Cell::Align => add_token(line, b"align"),
        Cell::Label(name) => add_label(line, name),
    }
}

/// Puts a blank, and the name of a label and a colon.
#[tactic(auto, using(std::proofs::Common::append_assoc))]
fn add_label(line: &mut Vec<u8>, name: &Name) -> Result<(), NoMemory>
    ensures { OnOk result (line.new.items ≡ line.old.items ++ 32 ∷ label_text name.now) }
{
    add_token(line, name.bytes())?;
    line.push(b':')?;
    Ok(())
}

/// Puts the name of a function and its operand.
#[tactic(auto, using(std::proofs::Common::append_assoc))]
fn add_direct(
    alloc: Global,
    line: &mut Vec<u8>,
    mnemonic: Mnemonic,
    operand: &Operand,
) -> Result<(), NoMemory>
    ensures { OnOk result (line.new.items ≡ line.old.items ++ tokens_text (name_of mnemonic ∷ operand_text operand.now ∷ [])) }
{
    add_token(line, mnemonic_name(mnemonic).as_bytes())?;
    add_operand(alloc, line, operand)
}

/// Puts a blank and an operand, as the text of a module spells it.
#[tactic(auto, using(std::proofs::Common::append_assoc))]
fn add_operand(alloc: Global, line: &mut Vec<u8>, operand: &Operand) -> Result<(), NoMemory>
    ensures { OnOk result (line.new.items ≡ line.old.items ++ 32 ∷ operand_text operand.now) }
{
    match operand {
        Operand::Number(value) => add_signed(alloc, line, *value),
        Operand::To(name) => add_token(line, name.bytes()),
        Operand::Difference(high, low) => add_difference(line, high, low),
        Operand::CellWord(name) => add_cell_word(line, name),
    }
}

#[tactic(auto, using(std::proofs::Common::append_assoc))]
fn add_difference(line: &mut Vec<u8>, high: &Name, low: &Name) -> Result<(), NoMemory>
    ensures { OnOk result (line.new.items ≡ line.old.items ++ 32 ∷ (high.now ++ 45 ∷ low.now)) }
{
    add_token(line, high.bytes())?;
    line.push(b'-')?;
    line.extend_from_slice(low.bytes())?;
    Ok(())
}

#[tactic(auto, using(std::proofs::Common::append_assoc))]
fn add_cell_word(line: &mut Vec<u8>, name: &Name) -> Result<(), NoMemory>
    ensures { OnOk result (line.new.items ≡ line.old.items ++ 32 ∷ 64 ∷ name.now) }
{
    line.extend_from_slice(b" @")?;
    line.extend_from_slice(name.bytes())?;
    Ok(())
}

/// The beginning of a line: its first word.
fn begun(alloc: Global, word: &[u8]) -> Result<Vec<u8>, NoMemory>
    ensures { IfOk result (λ line. line.items ≡ word.now) }
{
    let mut line = Vec::new(alloc);
    line.extend_from_slice(word)?;
    Ok(line)
}

/// Puts a blank and a token.
#[tactic(auto, using(std::proofs::Common::append_assoc))]
fn add_token(line: &mut Vec<u8>, token: &[u8]) -> Result<(), NoMemory>
    ensures { OnOk result (line.new.items ≡ line.old.items ++ 32 ∷ token.now) }
{
    line.push(b' ')?;
    line.extend_from_slice(token)?;
    Ok(())
}

/// Puts two tokens, a blank before each.
#[tactic(auto, using(std::proofs::Common::append_assoc))]
fn add_tokens(line: &mut Vec<u8>, one: &[u8], two: &[u8]) -> Result<(), NoMemory>
    ensures { OnOk result (line.new.items ≡ line.old.items ++ tokens_text (one.now ∷ two.now ∷ [])) }
{
    add_token(line, one)?;
    add_token(line, two)
}

/// Puts a word and a number, a blank before each.
fn add_number(alloc: Global, line: &mut Vec<u8>, word: &[u8], number: u32) -> Result<(), NoMemory>
    ensures { OnOk result (line.new.items ≡ line.old.items ++ tokens_text (word.now ∷ decimal number ∷ [])) }
{
    let text = number.to_string(alloc)?;
    add_tokens(line, word, text.as_bytes())
}

/// Puts a blank and a count.
fn add_count(alloc: Global, line: &mut Vec<u8>, count: usize) -> Result<(), NoMemory>
    ensures { OnOk result (line.new.items ≡ line.old.items ++ 32 ∷ decimal count) }
{
    let text = count.to_string(alloc)?;
    add_token(line, text.as_bytes())
}

/// Puts a blank and a signed number.
fn add_signed(alloc: Global, line: &mut Vec<u8>, number: i32) -> Result<(), NoMemory>
    ensures { OnOk result (line.new.items ≡ line.old.items ++ 32 ∷ signed_decimal number) }
{
    let text = number.to_string(alloc)?;
    add_token(line, text.as_bytes())
}

/// Puts a blank and an address or another word.
fn add_word(line: &mut Vec<u8>, word: u32) -> Result<(), NoMemory>
    ensures { OnOk result (line.new.items ≡ line.old.items ++ 32 ∷ word_text word) }
{
    add_token(line, &word_text(word))
}

/// Puts a blank, and bytes as two hexadecimal digits each.
#[tactic(auto, using(std::proofs::Common::append_assoc))]
fn add_bytes(line: &mut Vec<u8>, bytes: &[u8]) -> Result<(), NoMemory>
    ensures { OnOk result (line.new.items ≡ line.old.items ++ 32 ∷ hex_text bytes.now) }
{
    line.push(b' ')?;
    add_digits(line, bytes)
}

/// Puts the digits of bytes.
fn add_digits(line: &mut Vec<u8>, bytes: &[u8]) -> Result<(), NoMemory>
    ensures { OnOk result (line.new.items ≡ line.old.items ++ hex_text bytes.now) }
{
    for byte in bytes {
        add_byte(line, *byte)?;
    }
    Ok(())
}

/// Puts the two digits of a byte.
#[tactic(auto, using(std::proofs::Common::append_assoc))]
fn add_byte(line: &mut Vec<u8>, byte: u8) -> Result<(), NoMemory>
    ensures { OnOk result (line.new.items ≡ line.old.items ++ byte_digits byte) }
{
    line.push(digit(byte / 16))?;
    line.push(digit(byte % 16))?;
    Ok(())
}

/// An upper-case hexadecimal digit.
fn digit(value: u8) -> u8
    requires { value < 16 }
    ensures { result ≡ digit_glyph true value }
{
    if value < 10 {
        b'0' + value
    } else {
        b'A' + (value - 10)
    }
}
