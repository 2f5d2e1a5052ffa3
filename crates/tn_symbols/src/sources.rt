ghost use Rattle.std.specs.Prelude.{◌≡◌, ◌++◌, ◌<◌, ◌^◌, map, length, All, IfOk, OnOk};
ghost use Rattle.tn_symbols.specs.Sources.{sources_in, named_sources, stock_sources, module_of, modules_of, source_at, IsOffer};
ghost use Rattle.tn_symbols.specs.Inner.Sourcing.{IsHere, offered};

use crate::choices::{NoMemory, Source};
use std::alloc::Global;
use tn_module::{Library, Module};

/// The sources of the named modules.
pub(crate) fn named_sources(alloc: Global, offer: &Offer<'_>) -> Result<Vec<Source>, NoMemory>
    requires { length (offered offer.now).named < 2 ^ 30 }
    ensures { IfOk result (λ sources. sources.items ≡ named_sources (offered offer.now)) }
{
    let mut sources = Vec::new(alloc);
    add_sources(&mut sources, None, offer.named.len())?;
    Ok(sources)
}

/// The sources of all modules of the used libraries.
pub(crate) fn stock_sources(alloc: Global, offer: &Offer<'_>) -> Result<Vec<Source>, NoMemory>
    requires { IsOffer (offered offer.now) }
    ensures { IfOk result (λ sources. sources.items ≡ stock_sources (offered offer.now)) }
{
    let mut sources = Vec::new(alloc);
    for (u, library) in offer.used.iter().enumerate() {
        let modules: &[Module] = &offer.shelf[*library as usize].modules;
        add_sources(&mut sources, Some(u as u32), modules.len())?;
    }
    Ok(sources)
}

/// Puts so many sources from a library to the others.
fn add_sources(
    sources: &mut Vec<Source>,
    library: Option<u32>,
    count: usize,
) -> Result<(), NoMemory>
    requires { count < 2 ^ 30 }
    ensures { OnOk result (sources.new.items ≡ sources.old.items ++ sources_in library count) }
{
    for index in 0..count {
        sources.push(Source {
            library,
            index: index as u32,
        })?;
    }
    Ok(())
}

/// The first sources, and those at the picked places.
pub(crate) fn with_picks(
    first: Vec<Source>,
    stock: &[Source],
    picks: &[u32],
) -> Result<Vec<Source>, NoMemory>
    requires { All (λ place. place < length stock.now) picks.now }
    ensures { IfOk result (λ sources. sources.items ≡ first.items ++ map (source_at stock.now) picks.now) }
{
    let mut sources = first;
    for place in picks {
        sources.push(stock[*place as usize])?;
    }
    Ok(sources)
}

/// Modules and libraries, the places of the named modules, and those of the used libraries.
#[derive(Drop)]
pub(crate) struct Offer<'a> {
    pub(crate) pool: &'a [Module],
    pub(crate) named: &'a [u32],
    pub(crate) shelf: &'a [Library],
    pub(crate) used: &'a [u32],
}

/// The module that a source tells.
pub(crate) fn module_of<'a>(offer: &Offer<'a>, source: Source) -> &'a Module
    requires { IsHere (offered offer.now) source }
    ensures { result.now ≡ module_of (offered offer.now) source }
{
    let index = source.index as usize;
    match source.library {
        None => &offer.pool[offer.named[index] as usize],
        Some(library) => &offer.shelf[offer.used[library as usize] as usize].modules[index],
    }
}

/// Copies of the modules that sources tell.
pub(crate) fn copies(
    alloc: Global,
    offer: &Offer<'_>,
    sources: &[Source],
) -> Result<Vec<Module>, NoMemory>
    requires { All (IsHere (offered offer.now)) sources.now }
    ensures { IfOk result (λ modules. modules.items ≡ modules_of (offered offer.now) sources.now) }
{
    let mut modules = Vec::new(alloc);
    for source in sources {
        let module = module_of(offer, *source);
        modules.push(module.copied()?)?;
    }
    Ok(modules)
}
