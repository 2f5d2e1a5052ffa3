ghost use Rattle.std.specs.Prelude.{◌≡◌, ◌∷◌, ◌≤◌, [], map, Ok, IfOk};
ghost use Rattle.std.specs.Result.{result_map_both};
ghost use Rattle.std.specs.Int.{w32, cast_signed};
ghost use Rattle.tn_text.specs.Places.{number_at};
ghost use Rattle.tn_text.specs.Reading.{result_then};
ghost use Rattle.tn_module.specs.declared.modules.Operand.TheVariants as operand;
ghost use Rattle.tn_module.specs.declared.modules.Item.TheVariants as item;
ghost use Rattle.tn_modtext.specs.Tokens.{kind_at};
ghost use Rattle.tn_asm.specs.Said.{limited_at, operand_at, made, as_item, import_said, item_said, cell_said, arguments_said};
ghost use Rattle.tn_asm.specs.Said.{statement_said, both_said, labelled_said, words_said};
ghost use Rattle.tn_asm.specs.Inner.Drafts.{statements_in};

use crate::forms::{CellForm, Form, ItemForm, body_form, form_at, shaped};
use crate::labels::{label_of, label_said};
use crate::statements::{Section, Statement};
use tn_isa::Fun;
use tn_modtext::named_operand_at;
use tn_module::{Cell, Import, Item, Kind, Operand};
use tn_text::limits::NAME_LIMIT;
use tn_text::{Cause, FaultCode, begins_number, name_at, number_at};

/// The most bytes of a space.
const SPACE_LIMIT: u32 = 1_048_576;

/// What the tokens of a line say.
#[derive(Clone, Copy)]
pub enum Said {
    Nothing,
    /// A statement, or a label alone.
    One(Statement),
    /// A label, and a statement behind it.
    Both(Statement, Statement),
}

/// What these tokens of a line say in a section. `BadLine` comes for a first word, behind the label
/// if there is one, that names no form of a statement that may stand there, and for a number of
/// tokens that is not right; else the fault is that of the first token from the left, the label
/// among them, that is not of its class.
#[tactic(auto, unfolding(crate::specs::Said::words_said))]
pub(crate) fn words_said(section: Section, words: &[&[u8]]) -> Result<Said, Cause>
    ensures { result_map_both statements_in (λ cause. cause) result ≡ words_said section (map (λ word. word.now) words.now) }
{
    match words {
        [] => Ok(Said::Nothing),
        [word, args @ ..] => match label_of(word) {
            Some(label) => labelled_said(section, label, args),
            None => alone_said(form_at(section, word), args),
        },
    }
}

/// What a line without a label says.
fn alone_said(form: Option<Form>, args: &[&[u8]]) -> Result<Said, Cause>
    ensures { result_map_both statements_in (λ cause. cause) result
        ≡ result_then (statement_said form (map (λ word. word.now) args.now)) (λ x. Ok (x ∷ [])) }
{
    match statement_said(form, args) {
        Ok(statement) => Ok(Said::One(statement)),
        Err(cause) => Err(cause),
    }
}

/// What a line with this label says.
fn labelled_said(section: Section, label: &[u8], words: &[&[u8]]) -> Result<Said, Cause>
    ensures { result_map_both statements_in (λ cause. cause) result ≡ labelled_said section label.now (map (λ word. word.now) words.now) }
{
    match words {
        [] => match label_said(section, label) {
            Ok(label) => Ok(Said::One(label)),
            Err(cause) => Err(cause),
        },
        [word, args @ ..] => both_said(section, label, body_form(form_at(section, word)), args),
    }
}

/// The statement of this form whose tokens behind the first word these are. `BadLine` comes first,
/// for a first word that names no form or another number of tokens; then the fault of the first
/// token from the left that is not of its class.
fn statement_said(form: Option<Form>, args: &[&[u8]]) -> Result<Statement, Cause>
    ensures { result ≡ statement_said form (map (λ word. word.now) args.now) }
{
    match shaped(form, args) {
        Ok(form) => arguments_said(form, args),
        Err(cause) => Err(cause),
    }
}

/// A label and the statement behind it. The label is the leftmost of the tokens.
fn both_said(
    section: Section,
    label: &[u8],
    form: Option<Form>,
    args: &[&[u8]],
) -> Result<Said, Cause>
    ensures { result_map_both statements_in (λ cause. cause) result
        ≡ result_then (both_said section label.now form (map (λ word. word.now) args.now)) (λ b. Ok (b.0 ∷ b.1 ∷ [])) }
{
    match shaped(form, args) {
        Ok(form) => match label_said(section, label) {
            Ok(label) => match arguments_said(form, args) {
                Ok(statement) => Ok(Said::Both(label, statement)),
                Err(cause) => Err(cause),
            },
            Err(cause) => Err(cause),
        },
        Err(cause) => Err(cause),
    }
}

/// The statement of the tokens behind its first word.
fn arguments_said(form: Form, args: &[&[u8]]) -> Result<Statement, Cause>
    ensures { result ≡ arguments_said form (map (λ word. word.now) args.now) }
{
    match form {
        Form::Module => match args {
            [name] => Ok(Statement::Module(name_at(name, NAME_LIMIT)?)),
            _ => Err(Cause::bare(FaultCode::BadLine)),
        },
        Form::Import => import_said(args),
        Form::Export => match args {
            [name] => Ok(Statement::Export(name_at(name, NAME_LIMIT)?)),
            _ => Err(Cause::bare(FaultCode::BadLine)),
        },
        Form::Code => match args {
            [] => Ok(Statement::Code),
            _ => Err(Cause::bare(FaultCode::BadLine)),
        },
        Form::Data => match args {
            [] => Ok(Statement::Data),
            _ => Err(Cause::bare(FaultCode::BadLine)),
        },
        Form::Item(form) => item_said(form, args),
        Form::Cell(form) => cell_said(form, args),
    }
}

fn import_said(args: &[&[u8]]) -> Result<Statement, Cause>
    ensures { result ≡ import_said (map (λ word. word.now) args.now) }
{
    match args {
        [kind, name] => Ok(Statement::Import(Import {
            kind: kind_at(kind)?,
            name: name_at(name, NAME_LIMIT)?,
        })),
        _ => Err(Cause::bare(FaultCode::BadLine)),
    }
}

/// The statement of code.
fn item_said(form: ItemForm, args: &[&[u8]]) -> Result<Statement, Cause>
    ensures { result ≡ item_said form (map (λ word. word.now) args.now) }
{
    match form {
        ItemForm::Function(fun) => match args {
            [operand] => direct_said(fun, operand),
            _ => Err(Cause::bare(FaultCode::BadLine)),
        },
        ItemForm::Operation(op) => match args {
            [] => Ok(Statement::Item(Item::Plain(op))),
            _ => Err(Cause::bare(FaultCode::BadLine)),
        },
        ItemForm::Byte => match args {
            [byte] => Ok(Statement::Item(Item::Byte(limited_at(byte, 255)? as u8))),
            _ => Err(Cause::bare(FaultCode::BadLine)),
        },
    }
}

/// The function with the operand that a token is.
fn direct_said(fun: Fun, operand: &[u8]) -> Result<Statement, Cause>
    ensures { result ≡ made operand_at (as_item (item.Direct fun)) operand.now }
{
    match operand_at(operand) {
        Ok(operand) => Ok(Statement::Item(Item::Direct(fun, operand))),
        Err(cause) => Err(cause),
    }
}

/// The statement of static data.
fn cell_said(form: CellForm, args: &[&[u8]]) -> Result<Statement, Cause>
    ensures { result ≡ cell_said form (map (λ word. word.now) args.now) }
{
    match form {
        CellForm::Word => match args {
            [word] => Ok(Statement::Cell(Cell::Word(number_at(word)?))),
            _ => Err(Cause::bare(FaultCode::BadLine)),
        },
        CellForm::Address => match args {
            [name] => Ok(Statement::Cell(Cell::Address(name_at(name, NAME_LIMIT)?))),
            _ => Err(Cause::bare(FaultCode::BadLine)),
        },
        CellForm::Byte => match args {
            [byte] => Ok(Statement::Cell(Cell::Byte(limited_at(byte, 255)? as u8))),
            _ => Err(Cause::bare(FaultCode::BadLine)),
        },
        CellForm::Space => match args {
            [count] => Ok(Statement::Cell(Cell::Space(limited_at(count, SPACE_LIMIT)?))),
            _ => Err(Cause::bare(FaultCode::BadLine)),
        },
        CellForm::Align => match args {
            [] => Ok(Statement::Cell(Cell::Align)),
            _ => Err(Cause::bare(FaultCode::BadLine)),
        },
    }
}

/// What an import is of.
fn kind_at(token: &[u8]) -> Result<Kind, Cause>
    ensures { result ≡ kind_at token.now }
{
    if token == b"code".as_slice() {
        Ok(Kind::Code)
    } else if token == b"data".as_slice() {
        Ok(Kind::Cell)
    } else {
        Err(Cause::bare(FaultCode::BadLine))
    }
}

/// The word of the number, of at most `limit` as an unsigned word. `BadNumber` comes where the token
/// is none.
fn limited_at(token: &[u8], limit: u32) -> Result<u32, Cause>
    ensures value { result ≡ limited_at limit token.now }
    ensures bound { IfOk result (λ n. n ≤ limit) }
{
    let word = number_at(token)?;
    if word <= limit {
        Ok(word)
    } else {
        Err(Cause::bare(FaultCode::BadNumber))
    }
}

/// The operand that a token is: a number, taken as a signed word, `NAME`, `NAME-NAME` or `@NAME`. A
/// token that begins with a digit, `-` or `#` is taken for a number: `BadNumber` comes where it is
/// none.
#[tactic(auto, unfolding(crate::specs::Said::operand_at))]
fn operand_at(token: &[u8]) -> Result<Operand, Cause>
    ensures { result ≡ operand_at token.now }
{
    if begins_number(token) {
        number_operand(token)
    } else {
        named_operand_at(token)
    }
}

/// The operand that is a number.
fn number_operand(token: &[u8]) -> Result<Operand, Cause>
    ensures { result ≡ result_then (number_at token.now) (λ word. Ok (operand.Number (cast_signed w32 word))) }
{
    match number_at(token) {
        Ok(word) => Ok(Operand::Number(word.cast_signed())),
        Err(cause) => Err(cause),
    }
}
