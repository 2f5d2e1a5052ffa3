ghost use Rattle.std.specs.Prelude.{◌≡◌, ◌<◌, ◌^◌, true, length, map, OnOk};
ghost use Rattle.std.specs.Result.{result_map_both};
ghost use Rattle.tn_module.specs.Modules.{module_of};
ghost use Rattle.tn_text.specs.Reading.{Gives, placed};
ghost use Rattle.tn_modtext.specs.declared.library_lines.LibraryLine.TheVariants as library_line;
ghost use Rattle.tn_modtext.specs.LibraryFaults.{lacks_endlib, library_ends_at};
ghost use Rattle.tn_modtext.specs.Inner.Drafts.{drawn};
ghost use Rattle.tn_modtext.specs.Inner.LibraryDrafts.{drawn_library, blank_library, with_draft, after_library_line, whole_library};
ghost use Rattle.tn_modtext.specs.Inner.LibraryDrafts.{library_step, library_read};

use crate::drafts::{Draft, is_end, lacks_end};
use crate::library_lines::{LibraryLine, LibrarySection, library_line_at};
use crate::lines::Line;
use crate::pieces::{next_piece, read_strict};
use std::alloc::Global;
use std::mem;
use tn_module::{NoMemory, RawModule};
use tn_text::{Cause, Detail, FaultCode, Lack, ReadFault};

/// What was read of a library text so far, and where its next line stands.
#[derive(Drop)]
pub(crate) struct LibraryDraft {
    pub section: LibrarySection,
    pub modules: Vec<RawModule>,
    pub draft: Draft,
}

impl LibraryDraft {
    /// The draft of which nothing was read.
    fn blank(alloc: Global) -> LibraryDraft
        ensures { drawn_library result ≡ blank_library }
    {
        LibraryDraft {
            section: LibrarySection::Head,
            modules: Vec::new(alloc),
            draft: Draft::blank(alloc),
        }
    }

    /// Adds what a line says.
    fn add(&mut self, alloc: Global, line: &LibraryLine) -> Result<(), NoMemory>
        ensures { OnOk result (drawn_library self.new ≡ after_library_line (drawn_library self.old) line.now) }
    {
        match line {
            LibraryLine::Head => {
                self.section = LibrarySection::Between;
                Ok(())
            }
            LibraryLine::Module(line) => self.add_module_line(alloc, line),
            LibraryLine::End => {
                self.section = LibrarySection::End;
                Ok(())
            }
        }
    }

    /// Adds what a line of a module says.
    fn add_module_line(&mut self, alloc: Global, line: &Line) -> Result<(), NoMemory>
        ensures { OnOk result (drawn_library self.new ≡ after_library_line (drawn_library self.old) (library_line.Module line.now)) }
    {
        self.draft.add(line)?;
        if is_end(self.draft.section) {
            self.close(alloc)
        } else {
            self.section = LibrarySection::Inside(self.draft.section);
            Ok(())
        }
    }

    /// Puts the module that was read behind the others.
    fn close(&mut self, alloc: Global) -> Result<(), NoMemory>
        ensures { OnOk result (drawn_library self.new ≡ with_draft (drawn_library self.old) (drawn self.old.draft) true) }
    {
        self.section = LibrarySection::Between;
        let draft = mem::replace(&mut self.draft, Draft::blank(alloc));
        match draft.finish() {
            Ok(raw) => {
                self.modules.push(raw)?;
                Ok(())
            }
            Err(_) => Ok(()),
        }
    }

    /// Reads the line with this number.
    fn read(
        &mut self,
        alloc: Global,
        line: &[u8],
        ended: bool,
        number: u32,
    ) -> Result<(), ReadFault>
        ensures { Gives (λ _. drawn_library self.new) result (placed number (library_step (drawn_library self.old) (line.now, ended))) }
    {
        let words = read_strict(alloc, line, ended, number)?;
        match library_line_at(self.section, &words) {
            Ok(line) => match self.add(alloc, &line) {
                Ok(()) => Ok(()),
                Err(NoMemory) => Err(ReadFault::NoMemory),
            },
            Err(cause) => Err(ReadFault::Fault(cause.at(number))),
        }
    }

    /// The modules' parts, where the next line would have this number.
    fn finish_before(self, number: u32) -> Result<Vec<RawModule>, ReadFault>
        ensures { Gives (λ raws. map module_of raws.items) result (placed number (whole_library (drawn_library self))) }
    {
        match self.finish() {
            Ok(raws) => Ok(raws),
            Err(cause) => Err(ReadFault::Fault(cause.at(number))),
        }
    }

    /// The modules' parts. A `Missing` comes where the last line was not read.
    fn finish(self) -> Result<Vec<RawModule>, Cause>
        ensures { result_map_both (λ raws. map module_of raws.items) (λ cause. cause) result ≡ whole_library (drawn_library self) }
    {
        match ends_at(self.section) {
            Ok(()) => Ok(self.modules),
            Err(cause) => Err(cause),
        }
    }
}

/// Looks whether the last line was read.
fn ends_at(section: LibrarySection) -> Result<(), Cause>
    ensures { result ≡ library_ends_at section }
{
    match section {
        LibrarySection::Head => Err(lacks_endlib()),
        LibrarySection::Between => Err(lacks_endlib()),
        LibrarySection::Inside(_) => Err(lacks_end()),
        LibrarySection::End => Ok(()),
    }
}

/// The fault of a library that stops early.
fn lacks_endlib() -> Cause
    ensures { result ≡ lacks_endlib }
{
    Cause {
        code: FaultCode::Missing,
        detail: Detail::Lacks(Lack::Endlib),
    }
}

/// The parts of the modules of the library whose lines these are.
pub(crate) fn read_library_parts(alloc: Global, text: &[u8]) -> Result<Vec<RawModule>, ReadFault>
    requires { length text.now < 2 ^ 30 }
    ensures { Gives (λ raws. map module_of raws.items) result (library_read text.now) }
{
    let mut draft = LibraryDraft::blank(alloc);
    let mut rest = text;
    let mut number = 0;
    while let Some((line, ended, behind)) = next_piece(rest) {
        number += 1;
        match draft.read(alloc, line, ended, number) {
            Ok(()) => rest = behind,
            Err(fault) => return Err(fault),
        }
    }
    draft.finish_before(number + 1)
}
