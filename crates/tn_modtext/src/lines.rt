ghost use Rattle.std.specs.Prelude.{◌≡◌};
ghost use Rattle.tn_modtext.specs.Lines.{item_form, cell_form, line_form};

use crate::forms::{CellForm, Form, ItemForm};
use tn_module::{Cell, Import, Item};
use tn_text::Name;

/// A line of a module text.
#[derive(Clone, Copy)]
pub enum Line {
    Head,
    Name(Name),
    Import(Import),
    Export(Name),
    Code,
    Item(Item),
    Data,
    Cell(Cell),
    End,
}

impl Line {
    /// The form of the line.
    pub(crate) fn form(&self) -> Form
        ensures { result ≡ line_form self.now }
    {
        match self {
            Line::Head => Form::Head,
            Line::Name(_) => Form::Name,
            Line::Import(_) => Form::Import,
            Line::Export(_) => Form::Export,
            Line::Code => Form::Code,
            Line::Item(item) => Form::Item(item_form(item)),
            Line::Data => Form::Data,
            Line::Cell(cell) => Form::Cell(cell_form(cell)),
            Line::End => Form::End,
        }
    }
}

fn item_form(item: &Item) -> ItemForm
    ensures { result ≡ item_form item.now }
{
    match item {
        Item::Direct(_, _) => ItemForm::Function,
        Item::Plain(_) => ItemForm::Operation,
        Item::Byte(_) => ItemForm::Byte,
        Item::Label(_) => ItemForm::Label,
    }
}

fn cell_form(cell: &Cell) -> CellForm
    ensures { result ≡ cell_form cell.now }
{
    match cell {
        Cell::Word(_) => CellForm::Word,
        Cell::Address(_) => CellForm::Address,
        Cell::Byte(_) => CellForm::Byte,
        Cell::Space(_) => CellForm::Space,
        Cell::Align => CellForm::Align,
        Cell::Label(_) => CellForm::Label,
    }
}
