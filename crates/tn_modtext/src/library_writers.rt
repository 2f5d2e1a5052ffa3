ghost use Rattle.std.specs.Prelude.{◌≡◌, ◌++◌, IfOk, OnOk};
ghost use Rattle.std.specs.List.{flat_map};
ghost use Rattle.tn_modtext.specs.Lines.{spelling};
ghost use Rattle.tn_modtext.specs.Libraries.{library_spelling};

use crate::writers::put_module;
use std::alloc::Global;
use tn_module::{Library, Module, NoMemory};

/// The text of a library, its one spelling.
pub fn write_library(alloc: Global, l: &Library) -> Result<Vec<u8>, NoMemory>
    ensures { IfOk result (λ text. text.items ≡ library_spelling l.now.modules.items) }
{
    let mut text = Vec::new(alloc);
    text.extend_from_slice(b"tlib 1\n")?;
    put_modules(alloc, &l.modules, &mut text)?;
    text.extend_from_slice(b"endlib\n")?;
    Ok(text)
}

/// Puts the texts of modules behind a text.
fn put_modules(alloc: Global, modules: &[Module], out: &mut Vec<u8>) -> Result<(), NoMemory>
    ensures { OnOk result (out.new.items ≡ out.old.items ++ flat_map spelling modules.now) }
{
    for module in modules {
        put_module(alloc, module.raw(), out)?;
    }
    Ok(())
}
