ghost use Rattle.std.specs.Prelude.{◌≡◌, ◌++◌, ◌∷◌, [], position, OnOk};
ghost use Rattle.tn_module.specs.declared.modules.Operand.TheVariants as operand;
ghost use Rattle.tn_text.specs.Places.{name_at};
ghost use Rattle.tn_text.specs.Reading.{result_then};
ghost use Rattle.tn_modtext.specs.Numerals.{signed_at};
ghost use Rattle.tn_modtext.specs.Operands.{is_minus, operand_at, named_operand_at, cut_operand, difference_at};

use crate::numerals::signed_at;
use tn_module::{Item, NoMemory, Operand};
use tn_text::limits::NAME_LIMIT;
use tn_text::{Cause, FaultCode, begins_number, is_name_spelling, name_at};

/// The operand that a token of a module text is. A token that begins with a digit, `-` or `#` is
/// taken for a number: `BadNumber` comes where it is none.
#[tactic(auto, unfolding(crate::specs::Operands::operand_at))]
pub(crate) fn operand_at(token: &[u8]) -> Result<Operand, Cause>
    ensures { result ≡ operand_at token.now }
{
    if begins_number(token) {
        number_operand(token)
    } else {
        named_operand_at(token)
    }
}

/// The operand that is a number.
fn number_operand(token: &[u8]) -> Result<Operand, Cause>
    ensures { result ≡ result_then (signed_at token.now) (λ v. Ok (operand.Number v)) }
{
    match signed_at(token) {
        Ok(value) => Ok(Operand::Number(value)),
        Err(cause) => Err(cause),
    }
}

/// The operand `NAME`, `NAME-NAME` or `@NAME` that a token is. `NameTooLong` comes where it would be
/// one but that a name is longer than 64 bytes, else `BadLine`.
#[tactic(auto, unfolding(crate::specs::Operands::named_operand_at))]
pub fn named_operand_at(token: &[u8]) -> Result<Operand, Cause>
    ensures { result ≡ named_operand_at token.now }
{
    match token {
        [] => Err(Cause::bare(FaultCode::BadLine)),
        [b'@', name @ ..] => cell_word(name),
        [_, ..] => cut_operand(token),
    }
}

/// The operand `@NAME`, by its name.
fn cell_word(name: &[u8]) -> Result<Operand, Cause>
    ensures { result ≡ result_then (name_at NAME_LIMIT name.now) (λ name. Ok (operand.CellWord name)) }
{
    match name_at(name, NAME_LIMIT) {
        Ok(name) => Ok(Operand::CellWord(name)),
        Err(cause) => Err(cause),
    }
}

/// The operand `NAME`.
fn way_to(name: &[u8]) -> Result<Operand, Cause>
    ensures { result ≡ result_then (name_at NAME_LIMIT name.now) (λ name. Ok (operand.To name)) }
{
    match name_at(name, NAME_LIMIT) {
        Ok(name) => Ok(Operand::To(name)),
        Err(cause) => Err(cause),
    }
}

/// The operand `NAME` or `NAME-NAME`.
fn cut_operand(token: &[u8]) -> Result<Operand, Cause>
    ensures { result ≡ cut_operand token.now (position is_minus token.now) }
{
    match place_of_minus(token) {
        Some(at) => difference_at(&token[..at], &token[at + 1..]),
        None => way_to(token),
    }
}

/// The difference of two names. A name that is none is told before one that is too long.
fn difference_at(high: &[u8], low: &[u8]) -> Result<Operand, Cause>
    ensures { result ≡ difference_at high.now low.now }
{
    if !is_name_spelling(low) {
        return Err(Cause::bare(FaultCode::BadLine));
    }
    Ok(Operand::Difference(name_at(high, NAME_LIMIT)?, name_at(low, NAME_LIMIT)?))
}

/// The place of the first `-`.
fn place_of_minus(token: &[u8]) -> Option<usize>
    ensures { result ≡ position is_minus token.now }
{
    token.iter().position(|c| *c == b'-')
}

/// Puts an item, and so its operand, behind others.
pub(crate) fn push_item(items: &mut Vec<Item>, item: &Item) -> Result<(), NoMemory>
    ensures { OnOk result (items.new.items ≡ items.old.items ++ item.now ∷ []) }
{
    let copy = match item {
        Item::Direct(fun, operand) => Item::Direct(*fun, *operand),
        Item::Plain(op) => Item::Plain(*op),
        Item::Byte(byte) => Item::Byte(*byte),
        Item::Label(name) => Item::Label(*name),
    };
    items.push(copy)?;
    Ok(())
}
