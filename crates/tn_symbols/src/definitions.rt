ghost use Rattle.std.specs.Prelude.{◌≡◌, ℕ, ◌<◌, ◌^◌, List, length, false, Some, None, IfOk, OnOk, if◌then◌else◌};
ghost use Rattle.std.specs.List.{list_any};
ghost use Rattle.std.specs.Option.{option_or, option_map_or};
ghost use Rattle.tn_module.specs.declared.modules.Item.{Item};
ghost use Rattle.indexmap.specs.IndexMap.{get};
ghost use Rattle.tn_module.specs.declared.modules.Kind.TheVariants as kind;
ghost use Rattle.tn_module.specs.Modules.{module_of};
ghost use Rattle.tn_module.specs.Names.{same_name, is_among, code_label, code_labels};
ghost use Rattle.tn_module.specs.Inner.Sets.{HaveSameNames};
ghost use Rattle.tn_symbols.specs.Definitions.{definition_of, kind_of, same_kind};
ghost use Rattle.tn_symbols.specs.Inner.Tables.{TellsMore};

use crate::choices::{Definition, NoMemory};
use crate::names::{add_names, is_among};
use indexmap::{IndexMap, IndexSet};
use std::alloc::{AllocError, Global};
use tn_module::{Item, Kind, Module, RawModule};
use tn_text::Name;

/// Notes what each export stands for that has no definition yet.
pub(crate) fn define(
    alloc: Global,
    definitions: &mut IndexMap<Name, Definition>,
    place: u32,
    raw: &RawModule,
) -> Result<(), NoMemory>
    ensures { OnOk result (TellsMore (get same_name definitions.old) (get same_name definitions.new) raw.now.exports.items
        (λ name. record { «module» = place; kind = kind_of (module_of raw.now) name })) }
{
    let code = code_labels(alloc, &raw.items)?;
    for name in &raw.exports {
        define_one(definitions, &code, place, name)?;
    }
    Ok(())
}

/// Notes what the name stands for, if it has no definition yet.
fn define_one(
    definitions: &mut IndexMap<Name, Definition>,
    code: &IndexSet<Name>,
    place: u32,
    name: &Name,
) -> Result<(), NoMemory>
    ensures { (items : List Item) → HaveSameNames code.now.keys (code_labels items) → OnOk result ((q : List ℕ) →
        get same_name definitions.new q ≡ option_or (get same_name definitions.old q) (if same_name q name.now
        then Some (record { «module» = place; kind = if is_among (code_labels items) q then kind.Code else kind.Cell }) else None)) }
{
    if definitions.contains_key(name) {
        return Ok(());
    }
    let kind = kind_in(code, name);
    definitions.insert(
        *name,
        Definition {
            module: place,
            kind,
        },
    )?;
    Ok(())
}

/// The names of labels of code.
fn code_labels(alloc: Global, items: &[Item]) -> Result<IndexSet<Name>, NoMemory>
    ensures { IfOk result (λ names. HaveSameNames names.keys (code_labels items.now)) }
{
    let labels = label_list(alloc, items)?;
    let mut names = IndexSet::new(alloc);
    add_names(&mut names, &labels)?;
    Ok(names)
}

fn label_list(alloc: Global, items: &[Item]) -> Result<Vec<Name>, AllocError>
    ensures { IfOk result (λ names. names.items ≡ code_labels items.now) }
{
    items
        .iter()
        .filter_map(|item| code_label(item))
        .collect(alloc)
}

fn code_label(item: &Item) -> Option<Name>
    ensures { result ≡ code_label item.now }
{
    match item {
        Item::Label(name) => Some(*name),
        Item::Direct(_, _) | Item::Plain(_) | Item::Byte(_) => None,
    }
}

/// What a label stands for, where these are the labels of code.
fn kind_in(code: &IndexSet<Name>, name: &Name) -> Kind
    ensures { result ≡ (if is_among code.now.keys name.now then kind.Code else kind.Cell) }
{
    if code.contains(name) {
        Kind::Code
    } else {
        Kind::Cell
    }
}

/// What a label stands for, where these are the items of its module.
pub(crate) fn kind_of(items: &[Item], name: &Name) -> Kind
    ensures { result ≡ (if list_any (λ item. option_map_or (same_name name.now) (code_label item) false) items.now then kind.Code
        else kind.Cell) }
{
    if has_label(items, name) {
        Kind::Code
    } else {
        Kind::Cell
    }
}

/// Whether the name is a label of code.
fn has_label(items: &[Item], name: &Name) -> bool
    ensures { result ≡ list_any (λ item. option_map_or (same_name name.now) (code_label item) false) items.now }
{
    items.iter().any(|item| is_label(item, name))
}

fn is_label(item: &Item, name: &Name) -> bool
    ensures { result ≡ option_map_or (same_name name.now) (code_label item.now) false }
{
    match code_label(item) {
        Some(label) => *name == label,
        None => false,
    }
}

/// Whether the kinds are the same.
pub(crate) fn same_kind(one: Kind, two: Kind) -> bool
    ensures { result ≡ same_kind one two }
{
    match one {
        Kind::Code => matches!(two, Kind::Code),
        Kind::Cell => matches!(two, Kind::Cell),
    }
}

/// The first definition of the name in a list of modules.
pub(crate) fn definition_of(modules: &[Module], name: &Name) -> Option<Definition>
    requires { length modules.now < 2 ^ 30 }
    ensures { result ≡ definition_of modules.now name.now }
{
    for (place, module) in modules.iter().enumerate() {
        let raw = module.raw();
        if is_among(&raw.exports, name) {
            let kind = kind_of(&raw.items, name);
            return Some(Definition {
                module: place as u32,
                kind,
            });
        }
    }
    None
}
