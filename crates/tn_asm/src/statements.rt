use tn_module::{Cell, Import, Item};
use tn_text::Name;

/// Where a line of a source stands.
#[derive(Clone, Copy)]
pub enum Section {
    /// Before the line that names the module.
    Head,
    Code,
    Data,
}

/// What a line of a source says. A label is an item or a cell.
#[derive(Clone, Copy)]
pub enum Statement {
    Module(Name),
    Import(Import),
    Export(Name),
    /// Code follows.
    Code,
    /// Static data follows.
    Data,
    Item(Item),
    Cell(Cell),
}
