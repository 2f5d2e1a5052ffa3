ghost use Rattle.std.specs.Prelude.{◌≡◌, ◌-◌, ◌^◌, map};
ghost use Rattle.tn_isa.specs.Mnemonics.{mnemonic_named};
ghost use Rattle.tn_text.specs.declared.limits.TheConstants.{NAME_LIMIT};
ghost use Rattle.tn_text.specs.Places.{name_at};
ghost use Rattle.tn_text.specs.Reading.{result_then};
ghost use Rattle.tn_module.specs.declared.modules.Item.TheVariants as item;
ghost use Rattle.tn_modtext.specs.declared.forms.Form.TheVariants as form;
ghost use Rattle.tn_modtext.specs.declared.forms.CellForm.TheVariants as cell_form;
ghost use Rattle.tn_modtext.specs.declared.lines.Line.TheVariants as line;
ghost use Rattle.tn_modtext.specs.Numerals.{natural_at};
ghost use Rattle.tn_modtext.specs.Operands.{operand_at};
ghost use Rattle.tn_modtext.specs.Tokens.{operation_of};
ghost use Rattle.tn_modtext.specs.LinesAt.{no_token, one_token, two_tokens, named};
ghost use Rattle.tn_modtext.specs.LinesAt.{import_said, direct_said, item_said, cell_said, line_said, line_at};

use crate::forms::{CellForm, Form, ItemForm, Section, form_at};
use crate::lines::Line;
use crate::numerals::natural_at;
use crate::operands::operand_at;
use crate::tokens::{function_at, kind_at, operation_at, version_at};
use tn_isa::{Fun, Op};
use tn_module::{Cell, Import, Item, Kind};
use tn_text::limits::NAME_LIMIT;
use tn_text::{Cause, FaultCode, Name, name_at};

/// The line that these tokens are in a section. `BadLine` comes for a first word that names no form
/// of a line that may stand there, and for a number of tokens that is not right; else the fault is
/// that of the first token from the left that is not of its class.
pub(crate) fn line_at(section: Section, words: &[&[u8]]) -> Result<Line, Cause>
    ensures { result ≡ line_at section (map (λ word. word.now) words.now) }
{
    match words {
        [] => Err(Cause::bare(FaultCode::BadLine)),
        [word, args @ ..] => match form_at(section, word) {
            Some(form) => line_said(form, args),
            None => Err(Cause::bare(FaultCode::BadLine)),
        },
    }
}

/// The line of this form whose tokens behind the first word these are.
fn line_said(form: Form, args: &[&[u8]]) -> Result<Line, Cause>
    ensures { result ≡ line_said form (map (λ word. word.now) args.now) }
{
    match form {
        Form::Head => head_said(args),
        Form::Name => match name_said(args) {
            Ok(name) => Ok(Line::Name(name)),
            Err(cause) => Err(cause),
        },
        Form::Import => import_said(args),
        Form::Export => match name_said(args) {
            Ok(name) => Ok(Line::Export(name)),
            Err(cause) => Err(cause),
        },
        Form::Code => alone(args, Line::Code),
        Form::Item(form) => match item_said(form, args) {
            Ok(item) => Ok(Line::Item(item)),
            Err(cause) => Err(cause),
        },
        Form::Data => alone(args, Line::Data),
        Form::Cell(form) => match cell_said(form, args) {
            Ok(cell) => Ok(Line::Cell(cell)),
            Err(cause) => Err(cause),
        },
        Form::End => alone(args, Line::End),
    }
}

/// The line where no token stands behind its first word.
fn alone(args: &[&[u8]], line: Line) -> Result<Line, Cause>
    ensures { result ≡ no_token (map (λ word. word.now) args.now) line }
{
    match args {
        [] => Ok(line),
        _ => Err(Cause::bare(FaultCode::BadLine)),
    }
}

/// The first line, by its version.
fn head_said(args: &[&[u8]]) -> Result<Line, Cause>
    ensures { result ≡ line_said form.Head (map (λ word. word.now) args.now) }
{
    match args {
        [version] => match version_at(version) {
            Ok(()) => Ok(Line::Head),
            Err(cause) => Err(cause),
        },
        _ => Err(Cause::bare(FaultCode::BadLine)),
    }
}

/// The name that is the only token.
fn name_said(args: &[&[u8]]) -> Result<Name, Cause>
    ensures { result ≡ one_token (map (λ word. word.now) args.now) (name_at NAME_LIMIT) }
{
    match args {
        [name] => name_at(name, NAME_LIMIT),
        _ => Err(Cause::bare(FaultCode::BadLine)),
    }
}

/// The word that is the only token.
fn word_said(args: &[&[u8]]) -> Result<u32, Cause>
    ensures { result ≡ one_token (map (λ word. word.now) args.now) (natural_at (2 ^ 32 - 1)) }
{
    match args {
        [word] => natural_at(word, u32::MAX),
        _ => Err(Cause::bare(FaultCode::BadLine)),
    }
}

/// The byte that is the only token.
fn byte_said(args: &[&[u8]]) -> Result<u8, Cause>
    ensures { result ≡ one_token (map (λ word. word.now) args.now) (natural_at 255) }
{
    match args {
        [byte] => match natural_at(byte, 255) {
            Ok(value) => Ok(value as u8),
            Err(cause) => Err(cause),
        },
        _ => Err(Cause::bare(FaultCode::BadLine)),
    }
}

/// The line of an import.
fn import_said(args: &[&[u8]]) -> Result<Line, Cause>
    ensures { result ≡ import_said (map (λ word. word.now) args.now) }
{
    match args {
        [kind, name] => match kind_at(kind) {
            Ok(kind) => import_of(kind, name),
            Err(cause) => Err(cause),
        },
        _ => Err(Cause::bare(FaultCode::BadLine)),
    }
}

/// The line of an import of this kind, by its name.
fn import_of(kind: Kind, name: &[u8]) -> Result<Line, Cause>
    ensures { result ≡ named (λ name. line.Import (record { kind = kind; name = name })) name.now }
{
    match name_at(name, NAME_LIMIT) {
        Ok(name) => Ok(Line::Import(Import { kind, name })),
        Err(cause) => Err(cause),
    }
}

/// The item of a line of code.
fn item_said(form: ItemForm, args: &[&[u8]]) -> Result<Item, Cause>
    ensures { result ≡ item_said form (map (λ word. word.now) args.now) }
{
    match form {
        ItemForm::Function => function_said(args),
        ItemForm::Operation => match operation_said(args) {
            Ok(op) => Ok(Item::Plain(op)),
            Err(cause) => Err(cause),
        },
        ItemForm::Byte => match byte_said(args) {
            Ok(byte) => Ok(Item::Byte(byte)),
            Err(cause) => Err(cause),
        },
        ItemForm::Label => match name_said(args) {
            Ok(name) => Ok(Item::Label(name)),
            Err(cause) => Err(cause),
        },
    }
}

/// The item of two tokens, a function and its operand.
fn function_said(args: &[&[u8]]) -> Result<Item, Cause>
    ensures { result ≡ two_tokens (map (λ word. word.now) args.now) direct_said }
{
    match args {
        [word, operand] => direct_said(word, operand),
        _ => Err(Cause::bare(FaultCode::BadLine)),
    }
}

/// The operation that is the only token.
fn operation_said(args: &[&[u8]]) -> Result<Op, Cause>
    ensures { result ≡ one_token (map (λ word. word.now) args.now) (λ t. operation_of (mnemonic_named t)) }
{
    match args {
        [op] => operation_at(op),
        _ => Err(Cause::bare(FaultCode::BadLine)),
    }
}

/// The item of a function, by its name, and its operand.
fn direct_said(word: &[u8], operand: &[u8]) -> Result<Item, Cause>
    ensures { result ≡ direct_said word.now operand.now }
{
    match function_at(word) {
        Ok(fun) => with_operand(fun, operand),
        Err(cause) => Err(cause),
    }
}

/// The item of a function with the operand that a token is.
fn with_operand(fun: Fun, operand: &[u8]) -> Result<Item, Cause>
    ensures { result ≡ result_then (operand_at operand.now) (λ o. Ok (item.Direct fun o)) }
{
    match operand_at(operand) {
        Ok(operand) => Ok(Item::Direct(fun, operand)),
        Err(cause) => Err(cause),
    }
}

/// The cell of a line of static data.
fn cell_said(form: CellForm, args: &[&[u8]]) -> Result<Cell, Cause>
    ensures { result ≡ cell_said form (map (λ word. word.now) args.now) }
{
    match form {
        CellForm::Word => match word_said(args) {
            Ok(word) => Ok(Cell::Word(word)),
            Err(cause) => Err(cause),
        },
        CellForm::Address => match name_said(args) {
            Ok(name) => Ok(Cell::Address(name)),
            Err(cause) => Err(cause),
        },
        CellForm::Byte => match byte_said(args) {
            Ok(byte) => Ok(Cell::Byte(byte)),
            Err(cause) => Err(cause),
        },
        CellForm::Space => match word_said(args) {
            Ok(count) => Ok(Cell::Space(count)),
            Err(cause) => Err(cause),
        },
        CellForm::Align => align_said(args),
        CellForm::Label => match name_said(args) {
            Ok(name) => Ok(Cell::Label(name)),
            Err(cause) => Err(cause),
        },
    }
}

/// The cell without a token.
fn align_said(args: &[&[u8]]) -> Result<Cell, Cause>
    ensures { result ≡ cell_said cell_form.Align (map (λ word. word.now) args.now) }
{
    match args {
        [] => Ok(Cell::Align),
        _ => Err(Cause::bare(FaultCode::BadLine)),
    }
}
