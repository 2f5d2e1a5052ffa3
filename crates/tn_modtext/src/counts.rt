ghost use Rattle.std.specs.Prelude.{◌≡◌, ◌<◌, length};
ghost use Rattle.tn_module.specs.declared.faults.Place.TheVariants as place;
ghost use Rattle.tn_module.specs.Modules.{IsShort};
ghost use Rattle.tn_modtext.specs.Lines.{lines_of};
ghost use Rattle.tn_modtext.specs.ModuleTexts.{line_in};

use tn_module::Module;

/// The line of a module's text at which the import with this index stands, where the first line has
/// the number 1.
pub fn import_line(m: &Module, i: u32) -> u32
    requires within { i < length m.now.imports }
    requires short { IsShort m.now }
    ensures { result ≡ line_in m.now (place.Import i) }
{
    prove!((i as usize) < m.raw().imports.len());
    3 + i
}

/// The line of a module's text at which the export with this index stands, where the first line has
/// the number 1.
pub fn export_line(m: &Module, i: u32) -> u32
    requires within { i < length m.now.exports }
    requires short { IsShort m.now }
    ensures { result ≡ line_in m.now (place.Export i) }
{
    3 + m.raw().imports.len() as u32 + i
}

/// The number of lines of a module's text.
pub fn module_lines(m: &Module) -> u64
    requires { IsShort m.now }
    ensures { result ≡ length (lines_of m.now) }
{
    let raw = m.raw();
    5 + raw.imports.len() as u64
        + raw.exports.len() as u64
        + raw.items.len() as u64
        + raw.cells.len() as u64
}
