ghost use Rattle.std.specs.Prelude.{◌≡◌, ◌&&◌, find};
ghost use Rattle.std.specs.Str.{bytes_eq};
ghost use Rattle.tn_modtext.specs.Forms.{item_word, cell_word, form_word, stands, form_at, section_after};

/// Where the next line of a module text stands.
#[derive(Clone, Copy)]
pub enum Section {
    /// At the first line.
    Head,
    /// At the module's name.
    Name,
    /// Behind the name, or behind an import.
    Imports,
    /// Behind an export.
    Exports,
    /// In the code.
    Items,
    /// In the static data.
    Cells,
    /// Behind the last line.
    End,
}

/// The form of a line of a module text.
#[derive(Clone, Copy)]
pub enum Form {
    Head,
    Name,
    Import,
    Export,
    Code,
    Item(ItemForm),
    Data,
    Cell(CellForm),
    End,
}

/// The form of a line of code.
#[derive(Clone, Copy)]
pub enum ItemForm {
    Function,
    Operation,
    Byte,
    Label,
}

/// The form of a line of static data.
#[derive(Clone, Copy)]
pub enum CellForm {
    Word,
    Address,
    Byte,
    Space,
    Align,
    Label,
}

/// Each form of a line.
const FORMS: [Form; 17] = [
    Form::Head,
    Form::Name,
    Form::Import,
    Form::Export,
    Form::Code,
    Form::Item(ItemForm::Function),
    Form::Item(ItemForm::Operation),
    Form::Item(ItemForm::Byte),
    Form::Item(ItemForm::Label),
    Form::Data,
    Form::Cell(CellForm::Word),
    Form::Cell(CellForm::Address),
    Form::Cell(CellForm::Byte),
    Form::Cell(CellForm::Space),
    Form::Cell(CellForm::Align),
    Form::Cell(CellForm::Label),
    Form::End,
];

/// The form that the first word of a line names in a section. `None` exactly where it names none
/// that may stand there.
#[tactic(auto, unfolding(crate::specs::Forms::form_at))]
pub(crate) fn form_at(section: Section, word: &[u8]) -> Option<Form>
    ensures { result ≡ form_at section word.now }
{
    first_named(&FORMS, section, word)
}

/// The first form of a table that may stand in a section and has this word.
fn first_named(table: &[Form], section: Section, word: &[u8]) -> Option<Form>
    ensures { result ≡ find (λ f. stands section f && bytes_eq (form_word f) word.now) table.now }
{
    table.iter().copied().find(|f| stands(section, *f) && form_word(*f).as_bytes() == word)
}

/// Whether a line of this form may stand in a section.
fn stands(section: Section, form: Form) -> bool
    ensures { result ≡ stands section form }
{
    match (section, form) {
        (Section::Head, Form::Head) => true,
        (Section::Name, Form::Name) => true,
        (Section::Imports, Form::Import | Form::Export | Form::Code) => true,
        (Section::Exports, Form::Export | Form::Code) => true,
        (Section::Items, Form::Item(_) | Form::Data) => true,
        (Section::Cells, Form::Cell(_) | Form::End) => true,
        _ => false,
    }
}

/// The section behind a line.
pub(crate) fn section_after(form: Form) -> Section
    ensures { result ≡ section_after form }
{
    match form {
        Form::Head => Section::Name,
        Form::Name | Form::Import => Section::Imports,
        Form::Export => Section::Exports,
        Form::Code | Form::Item(_) => Section::Items,
        Form::Data | Form::Cell(_) => Section::Cells,
        Form::End => Section::End,
    }
}

/// The first word of a line.
pub(crate) fn form_word(form: Form) -> &'static str
    ensures { result.now ≡ form_word form }
{
    match form {
        Form::Head => "tmod",
        Form::Name => "name",
        Form::Import => "import",
        Form::Export => "export",
        Form::Code => "code",
        Form::Item(item) => item_word(item),
        Form::Data => "data",
        Form::Cell(cell) => cell_word(cell),
        Form::End => "end",
    }
}

fn item_word(form: ItemForm) -> &'static str
    ensures { result.now ≡ item_word form }
{
    match form {
        ItemForm::Function => "i",
        ItemForm::Operation => "o",
        ItemForm::Byte => "b",
        ItemForm::Label => "l",
    }
}

fn cell_word(form: CellForm) -> &'static str
    ensures { result.now ≡ cell_word form }
{
    match form {
        CellForm::Word => "w",
        CellForm::Address => "a",
        CellForm::Byte => "b",
        CellForm::Space => "s",
        CellForm::Align => "align",
        CellForm::Label => "l",
    }
}
