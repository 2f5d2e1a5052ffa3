ghost use Rattle.std.specs.Prelude.{◌≡◌, ◌++◌, nat_eq, IfOk, OnOk};
ghost use Rattle.std.specs.Ordering.{nat_cmp};
ghost use Rattle.std.specs.BTreeSet.{contains};
ghost use Rattle.indexmap.specs.IndexMap.{get};
ghost use Rattle.tn_module.specs.Names.{same_name, is_among, import_names};
ghost use Rattle.tn_module.specs.Inner.Sets.{HaveSameNames};
ghost use Rattle.tn_symbols.specs.Inner.Tables.{missing, TellsMore, WantsMore};

use crate::choices::NoMemory;
use indexmap::{IndexMap, IndexSet};
use std::collections::BTreeSet;
use tn_module::Import;
use tn_text::Name;

/// Whether the name is one of these.
pub(crate) fn is_among(names: &[Name], name: &Name) -> bool
    ensures { result ≡ is_among names.now name.now }
{
    names.iter().any(|other| *name == *other)
}

/// Puts the names into the set.
pub(crate) fn add_names(set: &mut IndexSet<Name>, names: &[Name]) -> Result<(), NoMemory>
    ensures { OnOk result (HaveSameNames set.new.keys (set.old.keys ++ names.now)) }
{
    for name in names {
        set.insert(*name)?;
    }
    Ok(())
}

/// Notes the place at each of the names that has none yet.
pub(crate) fn add_place(
    places: &mut IndexMap<Name, u32>,
    place: u32,
    names: &[Name],
) -> Result<(), NoMemory>
    ensures { OnOk result (TellsMore (get same_name places.old) (get same_name places.new) names.now (λ _. place)) }
{
    for name in names {
        if !places.contains_key(name) {
            places.insert(*name, place)?;
        }
    }
    Ok(())
}

/// Puts the places where imports are found that are not exported into the set.
pub(crate) fn want(
    wanted: &mut BTreeSet<u32>,
    places: &IndexMap<Name, u32>,
    exported: &IndexSet<Name>,
    imports: &[Import],
) -> Result<(), NoMemory>
    ensures { OnOk result (WantsMore (contains nat_cmp wanted.old) (contains nat_cmp wanted.new)
        (missing (get same_name places.now) exported.now.keys) (import_names imports.now)) }
{
    for import in imports {
        if let Some(place) = missing(places, exported, &import.name) {
            wanted.insert(place)?;
        }
    }
    Ok(())
}

/// Where the name is found, unless it is exported.
fn missing(places: &IndexMap<Name, u32>, exported: &IndexSet<Name>, name: &Name) -> Option<u32>
    ensures { result ≡ missing (get same_name places.now) exported.now.keys name.now }
{
    if exported.contains(name) {
        None
    } else {
        places.get(name).copied()
    }
}
