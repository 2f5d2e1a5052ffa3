ghost use Rattle.std.specs.Prelude.{◌≡◌, ◌+◌, ◌++◌, ◌∷◌, ◌<◌, ◌^◌, [], length, map, OnOk};
ghost use Rattle.std.specs.Result.{result_map_both};
ghost use Rattle.tn_text.specs.Reading.{Gives, placed};
ghost use Rattle.tn_asm.specs.declared.statements.Statement.TheVariants as statement;
ghost use Rattle.tn_asm.specs.Numbered.{line_in};
ghost use Rattle.tn_asm.specs.Assembling.{after, with_all, words_taken, source_line, finish, nothing_gathered, source_read};
ghost use Rattle.tn_asm.specs.Inner.Drafts.{drawn, source_of, lines_held, statements_in, IsPlaceOf};

use crate::said::{Said, words_said};
use crate::statements::{Section, Statement};
use std::alloc::{AllocError, Global};
use tn_module::{Cell, Import, Item, Place, RawModule};
use tn_text::{Cause, Detail, FaultCode, Lack, Name, ReadFault, next_line, read_tokens};

/// The line of each import, export, item and cell.
#[derive(Drop)]
pub(crate) struct PlaceLines {
    pub imports: Vec<u32>,
    pub exports: Vec<u32>,
    pub items: Vec<u32>,
    pub cells: Vec<u32>,
}

impl PlaceLines {
    /// The line of a place.
    pub(crate) fn line_in(&self, place: Place) -> u32
        requires { IsPlaceOf (lines_held self.now) place }
        ensures { result ≡ line_in (lines_held self.now) place }
    {
        match place {
            Place::Import(i) => self.imports[i as usize],
            Place::Export(i) => self.exports[i as usize],
            Place::Item(i) => self.items[i as usize],
            Place::Cell(i) => self.cells[i as usize],
        }
    }
}

/// The parts of a module, each with its line.
#[derive(Drop)]
pub(crate) struct Source {
    pub raw: RawModule,
    pub lines: PlaceLines,
}

/// What the lines of a source have said so far, and the number of the last.
#[derive(Drop)]
pub(crate) struct Draft {
    pub line: u32,
    pub section: Section,
    pub name: Option<Name>,
    pub imports: Vec<Import>,
    pub exports: Vec<Name>,
    pub items: Vec<Item>,
    pub cells: Vec<Cell>,
    pub lines: PlaceLines,
}

impl Draft {
    /// The draft before the first line.
    fn blank(alloc: Global) -> Draft
        ensures { drawn result ≡ nothing_gathered }
    {
        Draft {
            line: 0,
            section: Section::Head,
            name: None,
            imports: Vec::new(alloc),
            exports: Vec::new(alloc),
            items: Vec::new(alloc),
            cells: Vec::new(alloc),
            lines: PlaceLines {
                imports: Vec::new(alloc),
                exports: Vec::new(alloc),
                items: Vec::new(alloc),
                cells: Vec::new(alloc),
            },
        }
    }

    /// One line more.
    #[tactic(auto, unfolding(crate::specs::Assembling::source_line))]
    fn read_line(&mut self, alloc: Global, line: &[u8]) -> Result<(), ReadFault>
        requires { self.old.line < 2 ^ 31 }
        ensures { Gives (λ _. drawn self.new) result (placed (self.old.line + 1) (source_line (drawn self.old) line.now)) }
    {
        self.line += 1;
        let tokens = read_tokens(alloc, line, self.line)?;
        self.take_words(&tokens)
    }

    /// Adds what the tokens of a line say.
    fn take_words(&mut self, words: &[&[u8]]) -> Result<(), ReadFault>
        ensures { Gives (λ _. drawn self.new) result
            (placed self.old.line (words_taken (drawn self.old) (map (λ word. word.now) words.now))) }
    {
        match words_said(self.section, words) {
            Ok(said) => Ok(self.add_said(&said)?),
            Err(cause) => Err(ReadFault::Fault(cause.at(self.line))),
        }
    }

    /// Adds what the line says.
    fn add_said(&mut self, said: &Said) -> Result<(), AllocError>
        ensures { OnOk result (drawn self.new ≡ with_all (drawn self.old) (statements_in said.now)) }
    {
        match said {
            Said::Nothing => Ok(()),
            Said::One(statement) => self.add(statement),
            Said::Both(label, statement) => {
                self.add(label)?;
                self.add(statement)
            }
        }
    }

    /// Adds a statement of the line.
    fn add(&mut self, statement: &Statement) -> Result<(), AllocError>
        ensures { OnOk result (drawn self.new ≡ after (drawn self.old) statement.now) }
    {
        match statement {
            Statement::Module(name) => self.add_name(name),
            Statement::Import(import) => self.add_import(import),
            Statement::Export(name) => self.add_export(name),
            Statement::Code => {
                self.section = Section::Code;
                Ok(())
            }
            Statement::Data => {
                self.section = Section::Data;
                Ok(())
            }
            Statement::Item(item) => self.add_item(item),
            Statement::Cell(cell) => self.add_cell(cell),
        }
    }

    fn add_name(&mut self, name: &Name) -> Result<(), AllocError>
        ensures { OnOk result (drawn self.new ≡ after (drawn self.old) (statement.Module name.now)) }
    {
        self.section = Section::Code;
        self.name = Some(*name);
        Ok(())
    }

    fn add_import(&mut self, import: &Import) -> Result<(), AllocError>
        ensures { OnOk result (drawn self.new ≡ after (drawn self.old) (statement.Import import.now)) }
    {
        self.imports.push(*import)?;
        self.lines.imports.push(self.line)?;
        Ok(())
    }

    fn add_export(&mut self, name: &Name) -> Result<(), AllocError>
        ensures { OnOk result (drawn self.new ≡ after (drawn self.old) (statement.Export name.now)) }
    {
        self.exports.push(*name)?;
        self.lines.exports.push(self.line)?;
        Ok(())
    }

    fn add_item(&mut self, item: &Item) -> Result<(), AllocError>
        ensures { OnOk result (drawn self.new ≡ after (drawn self.old) (statement.Item item.now)) }
    {
        push_item(&mut self.items, item)?;
        self.lines.items.push(self.line)?;
        Ok(())
    }

    fn add_cell(&mut self, cell: &Cell) -> Result<(), AllocError>
        ensures { OnOk result (drawn self.new ≡ after (drawn self.old) (statement.Cell cell.now)) }
    {
        self.cells.push(*cell)?;
        self.lines.cells.push(self.line)?;
        Ok(())
    }

    /// The parts of the module, where it was named. Else `Missing` comes.
    fn finish(self) -> Result<Source, Cause>
        ensures { result_map_both source_of (λ cause. cause) result ≡ finish (drawn self) }
    {
        match self.name {
            Some(name) => Ok(Source {
                raw: RawModule {
                    name,
                    imports: self.imports,
                    exports: self.exports,
                    items: self.items,
                    cells: self.cells,
                },
                lines: self.lines,
            }),
            None => Err(Cause {
                code: FaultCode::Missing,
                detail: Detail::Lacks(Lack::Module),
            }),
        }
    }
}

/// Puts an item, and so its operand, behind others.
fn push_item(items: &mut Vec<Item>, item: &Item) -> Result<(), AllocError>
    ensures { OnOk result (items.new.items ≡ items.old.items ++ item.now ∷ []) }
{
    match item {
        Item::Direct(fun, operand) => items.push(Item::Direct(*fun, *operand))?,
        Item::Plain(op) => items.push(Item::Plain(*op))?,
        Item::Byte(byte) => items.push(Item::Byte(*byte))?,
        Item::Label(name) => items.push(Item::Label(*name))?,
    }
    Ok(())
}

/// The parts of the module whose source this is, each with its line.
pub(crate) fn read_source(alloc: Global, text: &[u8]) -> Result<Source, ReadFault>
    requires { length text.now < 2 ^ 30 }
    ensures { Gives source_of result (source_read text.now) }
{
    let mut draft = Draft::blank(alloc);
    let mut rest = text;
    while let Some((line, behind)) = next_line(rest) {
        draft.read_line(alloc, line)?;
        rest = behind;
    }
    let end = draft.line + 1;
    match draft.finish() {
        Ok(source) => Ok(source),
        Err(cause) => Err(ReadFault::Fault(cause.at(end))),
    }
}
