ghost use Rattle.std.specs.Prelude.{◌≡◌, ◌+◌, ◌<◌, ◌^◌, length};
ghost use Rattle.tn_module.specs.Modules.{module_of, IsShort};
ghost use Rattle.tn_modtext.specs.Lines.{lines_of};
ghost use Rattle.tn_modtext.specs.ModuleTexts.{line_with, IsModuleText, IsModuleTextFault, IsChecked};
ghost use Rattle.tn_modtext.specs.Readers.{Reads};

use crate::drafts::read_parts;
use std::alloc::Global;
use tn_module::{CheckFault, Module, Place, RawModule};
use tn_text::{Fault, ReadFault};

/// The module of a text. The fault of a line comes first: that of the first line that may not stand
/// at its place, where the order is `NotAscii`, a line that no line feed ends, blanks that stand
/// otherwise than one between two tokens, a first word or a number of tokens that is not right (all
/// `BadLine`), then the first token from the left that is not of its class. A text that stops early
/// lacks its `end`. Where no line has a fault, the fault is the module's first, at the line of its
/// import, export, item or cell.
pub fn read_module(alloc: Global, text: &[u8]) -> Result<Module, ReadFault>
    requires { length text.now < 2 ^ 30 }
    ensures { Reads (IsModuleText text.now) (IsModuleTextFault text.now) result }
{
    let raw = read_parts(alloc, text)?;
    checked(alloc, raw, 0)
}

/// The module of these parts, before which so many lines stand.
pub(crate) fn checked(alloc: Global, raw: RawModule, before: u32) -> Result<Module, ReadFault>
    requires short { IsShort (module_of raw) }
    requires room { before + length (lines_of (module_of raw)) < 2 ^ 31 }
    ensures { IsChecked before (module_of raw) result }
{
    let imports = raw.imports.len() as u32;
    let exports = raw.exports.len() as u32;
    let items = raw.items.len() as u32;
    match Module::check(alloc, raw) {
        Ok(module) => Ok(module),
        Err(CheckFault::Fault(fault)) => Err(ReadFault::Fault(Fault {
            code: fault.code,
            line: before + line_with(imports, exports, items, fault.place),
            detail: fault.detail,
        })),
        Err(CheckFault::NoMemory) => Err(ReadFault::NoMemory),
    }
}

/// The line of a place in a module with so many imports, exports and items.
fn line_with(imports: u32, exports: u32, items: u32, place: Place) -> u32
    requires { line_with imports exports items place < 2 ^ 32 }
    ensures { result ≡ line_with imports exports items place }
{
    match place {
        Place::Import(i) => 3 + i,
        Place::Export(i) => 3 + imports + i,
        Place::Item(i) => 4 + imports + exports + i,
        Place::Cell(i) => 5 + imports + exports + items + i,
    }
}
