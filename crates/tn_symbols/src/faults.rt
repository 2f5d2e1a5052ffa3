ghost use Rattle.std.specs.Prelude.{◌≡◌, ℕ, ◌<◌, ◌^◌, List, All, length, slice_get, is_some, Some, None, option_and_then, IfOk, IfErr};
ghost use Rattle.std.specs.Prelude.{OnOk, if◌then◌else◌};
ghost use Rattle.indexmap.specs.IndexMap.{get};
ghost use Rattle.tn_module.specs.Modules.{IsShort};
ghost use Rattle.tn_module.specs.Names.{same_name};
ghost use Rattle.tn_symbols.specs.declared.choices.ChooseFault.TheVariants as choose;
ghost use Rattle.tn_symbols.specs.Definitions.{definition_of, AreDefined};
ghost use Rattle.tn_symbols.specs.Faults.{ExportAt, ImportAt, import_fault, fault_at, IfFault, IsFirstFault, AreSound};
ghost use Rattle.tn_symbols.specs.Inner.Searches.{IsFound, AllNone, IsFirstIn};

use crate::choices::{ChooseFault, Definition};
use crate::definitions::{define, same_kind};
use indexmap::IndexMap;
use std::alloc::Global;
use tn_module::{Import, Module};
use tn_text::Name;

/// Looks for the first thing that is wrong with the names of chosen modules.
pub(crate) fn check(alloc: Global, modules: &[Module]) -> Result<(), ChooseFault>
    requires few { length modules.now < 2 ^ 30 }
    requires short { All IsShort modules.now }
    ensures sound { OnOk result (AreSound modules.now) }
    ensures defined { OnOk result (AreDefined modules.now) }
    ensures fault { IfErr result (λ fault. IfFault fault (IsFirstFault modules.now)) }
{
    let definitions = check_exports(alloc, modules)?;
    check_imports(modules, &definitions)
}

/// Looks at the exports, and answers the definitions.
fn check_exports(
    alloc: Global,
    modules: &[Module],
) -> Result<IndexMap<Name, Definition>, ChooseFault>
    requires few { length modules.now < 2 ^ 30 }
    requires short { All IsShort modules.now }
    ensures definitions { IfOk result (λ definitions. (name : List ℕ) → get same_name definitions name ≡ definition_of modules.now name) }
    ensures sound { OnOk result (AllNone (λ m i. fault_at modules.now (ExportAt m i))) }
    ensures fault { IfErr result (λ fault. IfFault fault (IsFirstIn (λ m i. fault_at modules.now (ExportAt m i)))) }
{
    let mut definitions = IndexMap::new(alloc);
    for (m, module) in modules.iter().enumerate() {
        let raw = module.raw();
        if let Some(fault) = repeated(&definitions, m as u32, &raw.exports) {
            return Err(fault);
        }
        define(alloc, &mut definitions, m as u32, raw)?;
    }
    Ok(definitions)
}

/// Looks at the imports, where these are the definitions.
fn check_imports(
    modules: &[Module],
    definitions: &IndexMap<Name, Definition>,
) -> Result<(), ChooseFault>
    requires few { length modules.now < 2 ^ 30 }
    requires short { All IsShort modules.now }
    requires definitions { (name : List ℕ) → get same_name definitions.now name ≡ definition_of modules.now name }
    ensures sound { OnOk result (AllNone (λ m i. fault_at modules.now (ImportAt m i))) }
    ensures fault { IfErr result (λ fault. IfFault fault (IsFirstIn (λ m i. fault_at modules.now (ImportAt m i)))) }
{
    for (m, module) in modules.iter().enumerate() {
        let raw = module.raw();
        if let Some(fault) = refused(definitions, m as u32, &raw.imports) {
            return Err(fault);
        }
    }
    Ok(())
}

/// The fault of the first export whose name has a definition.
fn repeated(
    definitions: &IndexMap<Name, Definition>,
    place: u32,
    exports: &[Name],
) -> Option<ChooseFault>
    requires { length exports.now < 2 ^ 30 }
    ensures { IsFound (λ i. option_and_then (λ name. if is_some (get same_name definitions.now name) then Some (choose.Duplicate place i)
        else None)
        (slice_get exports.now i)) result }
{
    for (i, name) in exports.iter().enumerate() {
        if definitions.contains_key(name) {
            return Some(ChooseFault::Duplicate(place, i as u32));
        }
    }
    None
}

/// The fault of the first import that has none of its kind.
fn refused(
    definitions: &IndexMap<Name, Definition>,
    place: u32,
    imports: &[Import],
) -> Option<ChooseFault>
    requires { length imports.now < 2 ^ 30 }
    ensures { IsFound (λ i. option_and_then (λ import. import_fault place i import.kind (get same_name definitions.now import.name))
        (slice_get imports.now i)) result }
{
    for (i, import) in imports.iter().enumerate() {
        if let Some(fault) = import_fault(definitions, place, i as u32, import) {
            return Some(fault);
        }
    }
    None
}

/// The fault of an import.
fn import_fault(
    definitions: &IndexMap<Name, Definition>,
    place: u32,
    index: u32,
    import: &Import,
) -> Option<ChooseFault>
    ensures { result ≡ import_fault place index import.now.kind (get same_name definitions.now import.now.name) }
{
    match definitions.get(&import.name) {
        None => Some(ChooseFault::Undefined(place, index)),
        Some(definition) => {
            if same_kind(definition.kind, import.kind) {
                None
            } else {
                Some(ChooseFault::WrongKind(place, index))
            }
        }
    }
}
