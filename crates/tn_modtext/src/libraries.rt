ghost use Rattle.std.specs.Prelude.{◌+◌, ◌<◌, ◌^◌, length, map};
ghost use Rattle.std.specs.List.{flat_map};
ghost use Rattle.std.specs.Result.{result_map_both};
ghost use Rattle.tn_module.specs.Modules.{module_of};
ghost use Rattle.tn_modtext.specs.Lines.{lines_of};
ghost use Rattle.tn_modtext.specs.Libraries.{IsLibraryText, IsLibraryTextFault, AreChecked};
ghost use Rattle.tn_modtext.specs.Readers.{Reads};

use crate::counts::module_lines;
use crate::library_drafts::read_library_parts;
use crate::modules::checked;
use std::alloc::Global;
use tn_module::{Library, Module, RawModule};
use tn_text::ReadFault;

/// The library of a text. The fault of a line comes first: that of the first line that may not stand
/// at its place, where the first line is `tlib 1`, and behind a module another one begins or `endlib`
/// ends the library. The order of a line's faults is that of a module text. A text that stops early
/// lacks the `end` of the module in which it stops, else `endlib`. Where no line has a fault, the
/// fault is the first of the first module that has one, at the line of the text where it stands.
pub fn read_library(alloc: Global, text: &[u8]) -> Result<Library, ReadFault>
    requires { length text.now < 2 ^ 30 }
    ensures { Reads (IsLibraryText text.now) (IsLibraryTextFault text.now) (result_map_both (λ l. l.modules.items) (λ why. why) result) }
{
    let raws = read_library_parts(alloc, text)?;
    let modules = all_checked(alloc, raws)?;
    Ok(Library { modules })
}

/// The modules of these parts, which stand one after the other behind the first line of a text.
fn all_checked(alloc: Global, raws: Vec<RawModule>) -> Result<Vec<Module>, ReadFault>
    requires { 1 + length (flat_map lines_of (map module_of raws.items)) < 2 ^ 30 }
    ensures { AreChecked 1 (map module_of raws.items) (result_map_both (λ modules. modules.items) (λ why. why) result) }
{
    let mut modules = Vec::new(alloc);
    let mut before = 1;
    for raw in raws {
        let module = checked(alloc, raw, before)?;
        before += module_lines(&module) as u32;
        modules.push(module)?;
    }
    Ok(modules)
}
