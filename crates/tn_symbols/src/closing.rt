ghost use Rattle.std.specs.Prelude.{◌≡◌, ℕ, ◌<◌, ◌^◌, List, take, length, All, IfOk};
ghost use Rattle.std.specs.Ordering.{nat_cmp};
ghost use Rattle.std.specs.BTreeSet.{contains};
ghost use Rattle.indexmap.specs.IndexMap.{get};
ghost use Rattle.tn_module.specs.Names.{same_name};
ghost use Rattle.tn_module.specs.Inner.Sets.{HaveSameNames};
ghost use Rattle.tn_symbols.specs.Choices.{exported, imported, IsChosen};
ghost use Rattle.tn_symbols.specs.Sources.{modules_of};
ghost use Rattle.tn_symbols.specs.Definitions.{first_exporter};
ghost use Rattle.tn_symbols.specs.Inner.Sourcing.{IsHere, offered};
ghost use Rattle.tn_symbols.specs.Inner.Tables.{missing, AreWanted};

use crate::choices::{NoMemory, Source};
use crate::names::{add_names, add_place, want};
use crate::sources::{Offer, module_of};
use indexmap::{IndexMap, IndexSet};
use std::alloc::Global;
use std::collections::BTreeSet;
use tn_text::Name;

/// The places of the modules of the stock that the first modules need, in the order of their choice.
///
/// A place is wanted where it is the first that exports a name which chosen modules import and none
/// exports. It stays so until it is picked, since no lower place exports the name: so each step
/// looks at one module alone.
pub(crate) fn picks(
    alloc: Global,
    offer: &Offer<'_>,
    first: &[Source],
    stock: &[Source],
) -> Result<Vec<u32>, NoMemory>
    requires first { All (IsHere (offered offer.now)) first.now }
    requires stock { All (IsHere (offered offer.now)) stock.now }
    requires few { length stock.now < 2 ^ 30 }
    ensures { IfOk result (λ picks. IsChosen (modules_of (offered offer.now) first.now)
        (modules_of (offered offer.now) stock.now) picks.items) }
{
    let places = first_exporters(alloc, offer, stock)?;
    closed(alloc, offer, first, stock, &places)
}

/// The same, where these are the first places that export names.
fn closed(
    alloc: Global,
    offer: &Offer<'_>,
    first: &[Source],
    stock: &[Source],
    places: &IndexMap<Name, u32>,
) -> Result<Vec<u32>, NoMemory>
    requires first { All (IsHere (offered offer.now)) first.now }
    requires stock { All (IsHere (offered offer.now)) stock.now }
    requires few { length stock.now < 2 ^ 30 }
    requires places { (name : List ℕ) → get same_name places.now name ≡ first_exporter (modules_of (offered offer.now) stock.now) name }
    ensures { IfOk result (λ picks. IsChosen (modules_of (offered offer.now) first.now) (modules_of (offered offer.now) stock.now)
        picks.items) }
{
    let mut exported = exported_names(alloc, offer, first)?;
    let mut wanted = wanted_places(alloc, offer, first, places, &exported)?;
    let mut picks = Vec::new(alloc);
    'closing: while let Some(place) = wanted.pop_first() {
        let module = module_of(offer, stock[place as usize]).raw();
        add_names(&mut exported, &module.exports)?;
        want(&mut wanted, places, &exported, &module.imports)?;
        picks.push(place)?;
    }
    Ok(picks)
}

/// The first place that exports each name.
fn first_exporters(
    alloc: Global,
    offer: &Offer<'_>,
    stock: &[Source],
) -> Result<IndexMap<Name, u32>, NoMemory>
    requires here { All (IsHere (offered offer.now)) stock.now }
    requires few { length stock.now < 2 ^ 30 }
    ensures { IfOk result (λ places. (name : List ℕ) →
        get same_name places name ≡ first_exporter (modules_of (offered offer.now) stock.now) name) }
{
    let mut places = IndexMap::new(alloc);
    for (place, source) in stock.iter().enumerate() {
        let module = module_of(offer, *source).raw();
        add_place(&mut places, place as u32, &module.exports)?;
    }
    Ok(places)
}

/// The names that the modules export.
fn exported_names(
    alloc: Global,
    offer: &Offer<'_>,
    sources: &[Source],
) -> Result<IndexSet<Name>, NoMemory>
    requires { All (IsHere (offered offer.now)) sources.now }
    ensures { IfOk result (λ names.
        HaveSameNames names.keys (exported (modules_of (offered offer.now) sources.now))) }
{
    let mut names = IndexSet::new(alloc);
    for source in sources {
        let module = module_of(offer, *source).raw();
        add_names(&mut names, &module.exports)?;
    }
    Ok(names)
}

/// The places where the imports of the modules are found that are not exported.
fn wanted_places(
    alloc: Global,
    offer: &Offer<'_>,
    sources: &[Source],
    places: &IndexMap<Name, u32>,
    exported: &IndexSet<Name>,
) -> Result<BTreeSet<u32>, NoMemory>
    requires { All (IsHere (offered offer.now)) sources.now }
    ensures { IfOk result (λ wanted. AreWanted (contains nat_cmp wanted) (missing (get same_name places.now) exported.now.keys)
        (imported (modules_of (offered offer.now) sources.now))) }
{
    let mut wanted = BTreeSet::new(alloc);
    for source in sources {
        let module = module_of(offer, *source).raw();
        want(&mut wanted, places, exported, &module.imports)?;
    }
    Ok(wanted)
}
