ghost use Rattle.std.specs.Prelude.{◌≡◌, [], ◌++◌, All, IfOk, OnOk};
ghost use Rattle.tn_module.specs.declared.faults.Place.TheVariants as place;
ghost use Rattle.tn_module.specs.declared.faults.CheckFault.TheVariants as check;
ghost use Rattle.tn_module.specs.Modules.{module_of, IsShort};
ghost use Rattle.tn_module.specs.Ranges.{IsName, IsImport, IsItem, IsCell, IsInRange};
ghost use Rattle.tn_module.specs.Names.{import_names, code_labels};
ghost use Rattle.tn_module.specs.Faults.{known, IsFirstFault, OnFault};
ghost use Rattle.tn_module.specs.Inner.Sets.{HaveSameNames, known_by, IsSound, AreSound, IsFirstIn};

use crate::causes::{again, cell_cause, export_cause, item_cause};
use crate::faults::{CheckFault, ModuleFault, Place};
use crate::modules::RawModule;
use crate::name_sets::{NameSets, release};
use indexmap::IndexSet;
use std::alloc::Global;
use tn_text::{Cause, Name, is_name};

/// Finds the first place where something is wrong with a module.
pub(crate) fn check_places(alloc: Global, raw: &RawModule) -> Result<(), CheckFault>
    requires { IsShort (module_of raw.now) }
    ensures sound { OnOk result (IsSound (module_of raw.now)) }
    ensures ranges { OnOk result (IsInRange (module_of raw.now)) }
    ensures fault { OnFault result (IsFirstFault (module_of raw.now)) }
{
    prove!(is_name(raw.name.bytes()));
    let names = NameSets::of(alloc, raw)?;
    let looked = check_lists(alloc, raw, &names);
    names.release();
    looked
}

/// Looks at the lists of a module, where its names are these.
fn check_lists(alloc: Global, raw: &RawModule, names: &NameSets) -> Result<(), CheckFault>
    requires short { IsShort (module_of raw.now) }
    requires names { known_by names.now ≡ known (module_of raw.now) }
    requires name { IsName raw.now.name }
    ensures sound { OnOk result (IsSound (module_of raw.now)) }
    ensures ranges { OnOk result (IsInRange (module_of raw.now)) }
    ensures fault { OnFault result (IsFirstFault (module_of raw.now)) }
{
    let imported = check_imports(alloc, raw)?;
    check_exports(alloc, raw, names)?;
    let outside_cells = check_items(raw, names, imported)?;
    check_cells(raw, names, outside_cells)
}

/// Looks at the imports, and answers their names.
fn check_imports(alloc: Global, raw: &RawModule) -> Result<IndexSet<Name>, CheckFault>
    requires { IsShort (module_of raw.now) }
    ensures names { IfOk result (λ seen. HaveSameNames seen.keys (import_names raw.now.imports.items)) }
    ensures sound { OnOk result (AreSound place.Import (module_of raw.now)) }
    ensures ranges { OnOk result (All IsImport raw.now.imports.items) }
    ensures fault { OnFault result (IsFirstIn place.Import (module_of raw.now)) }
{
    let mut seen = IndexSet::new(alloc);
    match enter_imports(raw, &mut seen) {
        Ok(()) => Ok(seen),
        Err(fault) => {
            release(seen);
            Err(fault)
        }
    }
}

/// Looks at the imports, where no name is seen before them, and enters their names.
fn enter_imports(raw: &RawModule, seen: &mut IndexSet<Name>) -> Result<(), CheckFault>
    requires short { IsShort (module_of raw.now) }
    requires seen { seen.old.keys ≡ [] }
    ensures names { OnOk result (HaveSameNames seen.new.keys (import_names raw.now.imports.items)) }
    ensures sound { OnOk result (AreSound place.Import (module_of raw.now)) }
    ensures ranges { OnOk result (All IsImport raw.now.imports.items) }
    ensures fault { OnFault result (IsFirstIn place.Import (module_of raw.now)) }
{
    for (i, import) in raw.imports.iter().enumerate() {
        if let Some(cause) = again(seen, &import.name)? {
            return Err(fault_at(Place::Import(i as u32), cause));
        }
    }
    Ok(())
}

/// Looks at the exports.
fn check_exports(alloc: Global, raw: &RawModule, names: &NameSets) -> Result<(), CheckFault>
    requires short { IsShort (module_of raw.now) }
    requires names { known_by names.now ≡ known (module_of raw.now) }
    ensures sound { OnOk result (AreSound place.Export (module_of raw.now)) }
    ensures ranges { OnOk result (All IsName (module_of raw.now).exports) }
    ensures fault { OnFault result (IsFirstIn place.Export (module_of raw.now)) }
{
    let mut seen = IndexSet::new(alloc);
    let looked = enter_exports(raw, names, &mut seen);
    release(seen);
    looked
}

/// Looks at the exports, where no name is seen before them, and enters their names.
fn enter_exports(
    raw: &RawModule,
    names: &NameSets,
    seen: &mut IndexSet<Name>,
) -> Result<(), CheckFault>
    requires short { IsShort (module_of raw.now) }
    requires names { known_by names.now ≡ known (module_of raw.now) }
    requires seen { seen.old.keys ≡ [] }
    ensures sound { OnOk result (AreSound place.Export (module_of raw.now)) }
    ensures ranges { OnOk result (All IsName (module_of raw.now).exports) }
    ensures fault { OnFault result (IsFirstIn place.Export (module_of raw.now)) }
{
    for (i, name) in raw.exports.iter().enumerate() {
        if let Some(cause) = export_cause(names, seen, name)? {
            return Err(fault_at(Place::Export(i as u32), cause));
        }
    }
    Ok(())
}

/// Looks at the items, where the names of imports are seen, and answers those and the labels.
fn check_items(
    raw: &RawModule,
    names: &NameSets,
    mut seen: IndexSet<Name>,
) -> Result<IndexSet<Name>, CheckFault>
    requires short { IsShort (module_of raw.now) }
    requires names { known_by names.now ≡ known (module_of raw.now) }
    requires seen { HaveSameNames seen.keys (import_names raw.now.imports.items) }
    ensures names { IfOk result (λ seen. HaveSameNames seen.keys (import_names raw.now.imports.items ++ code_labels raw.now.items.items)) }
    ensures sound { OnOk result (AreSound place.Item (module_of raw.now)) }
    ensures ranges { OnOk result (All IsItem raw.now.items.items) }
    ensures fault { OnFault result (IsFirstIn place.Item (module_of raw.now)) }
{
    match enter_items(raw, names, &mut seen) {
        Ok(()) => Ok(seen),
        Err(fault) => {
            release(seen);
            Err(fault)
        }
    }
}

/// Looks at the items, where the names of imports are seen, and enters the labels.
fn enter_items(
    raw: &RawModule,
    names: &NameSets,
    seen: &mut IndexSet<Name>,
) -> Result<(), CheckFault>
    requires short { IsShort (module_of raw.now) }
    requires names { known_by names.now ≡ known (module_of raw.now) }
    requires seen { HaveSameNames seen.old.keys (import_names raw.now.imports.items) }
    ensures names { OnOk result (HaveSameNames seen.new.keys (import_names raw.now.imports.items ++ code_labels raw.now.items.items)) }
    ensures sound { OnOk result (AreSound place.Item (module_of raw.now)) }
    ensures ranges { OnOk result (All IsItem raw.now.items.items) }
    ensures fault { OnFault result (IsFirstIn place.Item (module_of raw.now)) }
{
    for (i, item) in raw.items.iter().enumerate() {
        if let Some(cause) = item_cause(names, seen, item)? {
            return Err(fault_at(Place::Item(i as u32), cause));
        }
    }
    Ok(())
}

/// Looks at the cells, where the names of imports and of code are seen.
fn check_cells(
    raw: &RawModule,
    names: &NameSets,
    mut seen: IndexSet<Name>,
) -> Result<(), CheckFault>
    requires short { IsShort (module_of raw.now) }
    requires names { known_by names.now ≡ known (module_of raw.now) }
    requires seen { HaveSameNames seen.keys (import_names raw.now.imports.items ++ code_labels raw.now.items.items) }
    ensures sound { OnOk result (AreSound place.Cell (module_of raw.now)) }
    ensures ranges { OnOk result (All IsCell raw.now.cells.items) }
    ensures fault { OnFault result (IsFirstIn place.Cell (module_of raw.now)) }
{
    let looked = enter_cells(raw, names, &mut seen);
    release(seen);
    looked
}

/// Looks at the cells, where the names of imports and of code are seen, and enters the labels.
fn enter_cells(
    raw: &RawModule,
    names: &NameSets,
    seen: &mut IndexSet<Name>,
) -> Result<(), CheckFault>
    requires short { IsShort (module_of raw.now) }
    requires names { known_by names.now ≡ known (module_of raw.now) }
    requires seen { HaveSameNames seen.old.keys (import_names raw.now.imports.items ++ code_labels raw.now.items.items) }
    ensures sound { OnOk result (AreSound place.Cell (module_of raw.now)) }
    ensures ranges { OnOk result (All IsCell raw.now.cells.items) }
    ensures fault { OnFault result (IsFirstIn place.Cell (module_of raw.now)) }
{
    for (i, cell) in raw.cells.iter().enumerate() {
        if let Some(cause) = cell_cause(names, seen, cell)? {
            return Err(fault_at(Place::Cell(i as u32), cause));
        }
    }
    Ok(())
}

/// The fault of a cause at its place.
fn fault_at(place: Place, cause: Cause) -> CheckFault
    ensures { result ≡ check.Fault (record { code = cause.code; place = place; detail = cause.detail }) }
{
    CheckFault::Fault(ModuleFault {
        code: cause.code,
        place,
        detail: cause.detail,
    })
}
