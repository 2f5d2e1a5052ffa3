ghost use Rattle.std.specs.Prelude.{◌≡◌, ◌<◌, ◌^◌, length, OnOk};
ghost use Rattle.std.specs.Result.{result_map_both};
ghost use Rattle.tn_module.specs.Modules.{module_of};
ghost use Rattle.tn_text.specs.Reading.{Gives, placed};
ghost use Rattle.tn_modtext.specs.Inner.Drafts.{drawn, blank, with_line, after, whole, draft_step, parts_read};
ghost use Rattle.tn_modtext.specs.declared.lines.Line.TheVariants as line;
ghost use Rattle.tn_modtext.specs.LineFaults.{is_end, lacks_end};

use crate::forms::{Section, section_after};
use crate::lines::Line;
use crate::operands::push_item;
use crate::pieces::{next_piece, read_strict};
use crate::said::line_at;
use std::alloc::Global;
use tn_module::{Cell, Import, Item, NoMemory, RawModule};
use tn_text::{Cause, Detail, FaultCode, Lack, Name, ReadFault};

/// What was read of a module text so far, and where its next line stands.
#[derive(Drop)]
pub(crate) struct Draft {
    pub section: Section,
    pub name: Option<Name>,
    pub imports: Vec<Import>,
    pub exports: Vec<Name>,
    pub items: Vec<Item>,
    pub cells: Vec<Cell>,
}

impl Draft {
    /// The draft of which nothing was read.
    pub(crate) fn blank(alloc: Global) -> Draft
        ensures { drawn result ≡ blank }
    {
        Draft {
            section: Section::Head,
            name: None,
            imports: Vec::new(alloc),
            exports: Vec::new(alloc),
            items: Vec::new(alloc),
            cells: Vec::new(alloc),
        }
    }

    /// Adds what a line says.
    pub(crate) fn add(&mut self, line: &Line) -> Result<(), NoMemory>
        ensures { OnOk result (drawn self.new ≡ after (drawn self.old) line.now) }
    {
        self.section = section_after(line.form());
        match line {
            Line::Head => Ok(()),
            Line::Name(name) => self.add_name(name),
            Line::Import(import) => self.add_import(import),
            Line::Export(name) => self.add_export(name),
            Line::Code => Ok(()),
            Line::Item(item) => self.add_item(item),
            Line::Data => Ok(()),
            Line::Cell(cell) => self.add_cell(cell),
            Line::End => Ok(()),
        }
    }

    fn add_name(&mut self, name: &Name) -> Result<(), NoMemory>
        ensures { OnOk result (drawn self.new ≡ with_line (drawn self.old) (line.Name name.now)) }
    {
        self.name = Some(*name);
        Ok(())
    }

    fn add_import(&mut self, import: &Import) -> Result<(), NoMemory>
        ensures { OnOk result (drawn self.new ≡ with_line (drawn self.old) (line.Import import.now)) }
    {
        self.imports.push(*import)?;
        Ok(())
    }

    fn add_export(&mut self, name: &Name) -> Result<(), NoMemory>
        ensures { OnOk result (drawn self.new ≡ with_line (drawn self.old) (line.Export name.now)) }
    {
        self.exports.push(*name)?;
        Ok(())
    }

    fn add_item(&mut self, item: &Item) -> Result<(), NoMemory>
        ensures { OnOk result (drawn self.new ≡ with_line (drawn self.old) (line.Item item.now)) }
    {
        push_item(&mut self.items, item)
    }

    fn add_cell(&mut self, cell: &Cell) -> Result<(), NoMemory>
        ensures { OnOk result (drawn self.new ≡ with_line (drawn self.old) (line.Cell cell.now)) }
    {
        self.cells.push(*cell)?;
        Ok(())
    }

    /// Reads the line with this number.
    fn read(
        &mut self,
        alloc: Global,
        line: &[u8],
        ended: bool,
        number: u32,
    ) -> Result<(), ReadFault>
        ensures { Gives (λ _. drawn self.new) result (placed number (draft_step (drawn self.old) (line.now, ended))) }
    {
        let words = read_strict(alloc, line, ended, number)?;
        match line_at(self.section, &words) {
            Ok(line) => match self.add(&line) {
                Ok(()) => Ok(()),
                Err(NoMemory) => Err(ReadFault::NoMemory),
            },
            Err(cause) => Err(ReadFault::Fault(cause.at(number))),
        }
    }

    /// The module's parts, where the next line would have this number.
    fn finish_before(self, number: u32) -> Result<RawModule, ReadFault>
        ensures { Gives module_of result (placed number (whole (drawn self))) }
    {
        match self.finish() {
            Ok(raw) => Ok(raw),
            Err(cause) => Err(ReadFault::Fault(cause.at(number))),
        }
    }

    /// The module's parts. A `Missing` comes where the last line was not read.
    pub(crate) fn finish(self) -> Result<RawModule, Cause>
        ensures { result_map_both module_of (λ cause. cause) result ≡ whole (drawn self) }
    {
        match self.name {
            Some(name) => {
                if is_end(self.section) {
                    Ok(RawModule {
                        name,
                        imports: self.imports,
                        exports: self.exports,
                        items: self.items,
                        cells: self.cells,
                    })
                } else {
                    Err(lacks_end())
                }
            }
            None => Err(lacks_end()),
        }
    }
}

/// The fault of a text that stops early.
pub(crate) fn lacks_end() -> Cause
    ensures { result ≡ lacks_end }
{
    Cause {
        code: FaultCode::Missing,
        detail: Detail::Lacks(Lack::End),
    }
}

/// Whether the last line was read.
pub(crate) fn is_end(section: Section) -> bool
    ensures { result ≡ is_end section }
{
    match section {
        Section::Head => false,
        Section::Name => false,
        Section::Imports => false,
        Section::Exports => false,
        Section::Items => false,
        Section::Cells => false,
        Section::End => true,
    }
}

/// The parts of the module whose lines these are.
pub(crate) fn read_parts(alloc: Global, text: &[u8]) -> Result<RawModule, ReadFault>
    requires { length text.now < 2 ^ 30 }
    ensures { Gives module_of result (parts_read text.now) }
{
    let mut draft = Draft::blank(alloc);
    let mut rest = text;
    let mut number = 0;
    while let Some((line, ended, behind)) = next_piece(rest) {
        number += 1;
        match draft.read(alloc, line, ended, number) {
            Ok(()) => rest = behind,
            Err(fault) => return Err(fault),
        }
    }
    draft.finish_before(number + 1)
}
