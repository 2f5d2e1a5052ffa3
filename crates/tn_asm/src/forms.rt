ghost use Rattle.std.specs.Prelude.{◌≡◌, map};
ghost use Rattle.tn_asm.specs.Forms.{directive_form, mnemonic_form, form_at, body_form, token_count, shaped};

use crate::directives::{Directive, directive_named};
use crate::statements::Section;
use tn_isa::{Fun, Mnemonic, Op, mnemonic_spelled};
use tn_text::{Cause, FaultCode};

/// The form of a statement.
#[derive(Clone, Copy)]
pub enum Form {
    Module,
    Import,
    Export,
    Code,
    Data,
    Item(ItemForm),
    Cell(CellForm),
}

/// The form of a statement of code.
#[derive(Clone, Copy)]
pub enum ItemForm {
    Function(Fun),
    Operation(Op),
    Byte,
}

/// The form of a statement of static data.
#[derive(Clone, Copy)]
pub enum CellForm {
    Word,
    Address,
    Byte,
    Space,
    Align,
}

/// The form that the first word of a statement names in a section. `None` exactly where it names
/// none that may stand there.
pub(crate) fn form_at(section: Section, word: &[u8]) -> Option<Form>
    ensures { result ≡ form_at section word.now }
{
    match directive_named(word) {
        Some(directive) => directive_form(section, directive),
        None => match mnemonic_spelled(word) {
            Some(mnemonic) => mnemonic_form(section, mnemonic),
            None => None,
        },
    }
}

fn directive_form(section: Section, directive: Directive) -> Option<Form>
    ensures { result ≡ directive_form section directive }
{
    match (section, directive) {
        (Section::Head, Directive::Module) => Some(Form::Module),
        (Section::Code | Section::Data, Directive::Import) => Some(Form::Import),
        (Section::Code | Section::Data, Directive::Export) => Some(Form::Export),
        (Section::Code | Section::Data, Directive::Code) => Some(Form::Code),
        (Section::Code | Section::Data, Directive::Data) => Some(Form::Data),
        (Section::Code, Directive::Byte) => Some(Form::Item(ItemForm::Byte)),
        (Section::Data, Directive::Byte) => Some(Form::Cell(CellForm::Byte)),
        (Section::Data, Directive::Word) => Some(Form::Cell(CellForm::Word)),
        (Section::Data, Directive::Address) => Some(Form::Cell(CellForm::Address)),
        (Section::Data, Directive::Space) => Some(Form::Cell(CellForm::Space)),
        (Section::Data, Directive::Align) => Some(Form::Cell(CellForm::Align)),
        _ => None,
    }
}

fn mnemonic_form(section: Section, mnemonic: Mnemonic) -> Option<Form>
    ensures { result ≡ mnemonic_form section mnemonic }
{
    match section {
        Section::Head => None,
        Section::Code => match mnemonic {
            Mnemonic::Direct(fun) => Some(Form::Item(ItemForm::Function(fun))),
            Mnemonic::Plain(op) => Some(Form::Item(ItemForm::Operation(op))),
        },
        Section::Data => None,
    }
}

/// The form, where it is one of code or of static data, which may stand behind a label.
pub(crate) fn body_form(form: Option<Form>) -> Option<Form>
    ensures { result ≡ body_form form }
{
    match form {
        Some(Form::Item(item)) => Some(Form::Item(item)),
        Some(Form::Cell(cell)) => Some(Form::Cell(cell)),
        _ => None,
    }
}

/// The number of tokens behind the first word.
fn token_count(form: Form) -> usize
    ensures { result ≡ token_count form }
{
    match form {
        Form::Module => 1,
        Form::Import => 2,
        Form::Export => 1,
        Form::Code => 0,
        Form::Data => 0,
        Form::Item(ItemForm::Function(_)) => 1,
        Form::Item(ItemForm::Operation(_)) => 0,
        Form::Item(ItemForm::Byte) => 1,
        Form::Cell(CellForm::Word) => 1,
        Form::Cell(CellForm::Address) => 1,
        Form::Cell(CellForm::Byte) => 1,
        Form::Cell(CellForm::Space) => 1,
        Form::Cell(CellForm::Align) => 0,
    }
}

/// The form of a statement, where as many tokens stand behind its first word as it wants.
pub(crate) fn shaped(form: Option<Form>, args: &[&[u8]]) -> Result<Form, Cause>
    ensures { result ≡ shaped form (map (λ word. word.now) args.now) }
{
    match form {
        Some(form) => {
            if args.len() == token_count(form) {
                Ok(form)
            } else {
                Err(Cause::bare(FaultCode::BadLine))
            }
        }
        None => Err(Cause::bare(FaultCode::BadLine)),
    }
}
