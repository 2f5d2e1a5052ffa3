ghost use Rattle.std.specs.Prelude.{◌≡◌, ◌<◌, ◌^◌, Some, length, List};
ghost use Rattle.std.specs.List.{flat_map};
ghost use Rattle.tn_text.specs.declared.faults.FaultCode.TheVariants as code;
ghost use Rattle.tn_module.specs.Modules.{Parts};
ghost use Rattle.tn_modtext.specs.Lines.{lines_of};
ghost use Rattle.tn_symbols.specs.Inner.Sourcing.{IsHere};
ghost use Rattle.tn_symbols.specs.Faults.{IfFault as IfNameFault, IsFaultOf};
ghost use Rattle.tn_symbols.specs.Sources.{module_of};
ghost use Rattle.tn_config.specs.Configurations.{block_of};
ghost use Rattle.tn_system.specs.Faults.{import_fault, export_fault, IsSymbolFault, IfFault};
ghost use Rattle.tn_system.specs.Inner.Offers.{offer_of, text_of, OfChoice, IsOfferOf};

use crate::files::BlockFiles;
use crate::systems::SystemFault;
use std::alloc::Global;
use tn_config::Block;
use tn_modtext::{export_line, import_line, module_lines};
use tn_module::{Library, Module};
use tn_symbols::{ChooseFault, Source, chosen_sources};
use tn_text::{Detail, Fault, FaultCode, FileName, Name};

/// The modules of all files, and the files that a processor names with their places.
#[derive(Drop)]
pub(crate) struct Offered<'a> {
    pub(crate) block: &'a Block,
    pub(crate) places: &'a BlockFiles,
    pub(crate) pool: &'a [Module],
    pub(crate) shelf: &'a [Library],
}

/// The fault of the names of the chosen modules, in the file and at the line where it stands.
pub(crate) fn symbol_fault(alloc: Global, offer: &Offered<'_>, fault: ChooseFault) -> SystemFault
    requires offer { IsOfferOf (offer_of offer.now) (block_of offer.now.block.now) }
    requires fault { IfNameFault fault (IsFaultOf (offer_of offer.now)) }
    ensures { IfFault result (λ told. OfChoice (offer_of offer.now) (block_of offer.now.block.now) (IsSymbolFault told)) }
{
    let places = offer.places;
    let sources = match chosen_sources(
        alloc,
        offer.pool,
        &places.modules,
        offer.shelf,
        &places.libraries,
    ) {
        Ok(sources) => sources,
        Err(_) => return SystemFault::NoMemory,
    };
    match fault {
        ChooseFault::Undefined(m, i) => {
            import_fault(offer, sources[m as usize], i, FaultCode::UndefinedSymbol)
        }
        ChooseFault::Duplicate(m, i) => export_fault(offer, sources[m as usize], i),
        ChooseFault::WrongKind(m, i) => {
            import_fault(offer, sources[m as usize], i, FaultCode::WrongKind)
        }
        ChooseFault::NoMemory => SystemFault::NoMemory,
    }
}

/// The fault at an import of the module that comes from this source.
fn import_fault(offer: &Offered<'_>, source: Source, i: u32, code: FaultCode) -> SystemFault
    requires offer { IsOfferOf (offer_of offer.now) (block_of offer.now.block.now) }
    requires here { IsHere (offer_of offer.now) source }
    requires within { i < length (module_of (offer_of offer.now) source).imports }
    ensures { import_fault code i (text_of (offer_of offer.now) (block_of offer.now.block.now) source) ≡ Some result }
{
    let module = module_of(offer, source);
    let line = lines_before(offer, source) + import_line(module, i);
    let import = module.raw().imports[i as usize];
    fault_in(file_of(offer, source), line, code, import.name)
}

/// The fault at an export of the module that comes from this source, whose name is a duplicate.
fn export_fault(offer: &Offered<'_>, source: Source, i: u32) -> SystemFault
    requires offer { IsOfferOf (offer_of offer.now) (block_of offer.now.block.now) }
    requires here { IsHere (offer_of offer.now) source }
    requires within { i < length (module_of (offer_of offer.now) source).exports }
    ensures { export_fault code.DuplicateSymbol i (text_of (offer_of offer.now) (block_of offer.now.block.now) source) ≡ Some result }
{
    let module = module_of(offer, source);
    let line = lines_before(offer, source) + export_line(module, i);
    let name = module.raw().exports[i as usize];
    fault_in(
        file_of(offer, source),
        line,
        FaultCode::DuplicateSymbol,
        name,
    )
}

/// A fault that names something, at a line of a file.
fn fault_in(file: &FileName, line: u32, code: FaultCode, name: Name) -> SystemFault
    ensures { result ≡ SystemFault.Fault file.now (record { code = code; line = line; detail = Detail.Named name }) }
{
    let detail = Detail::Named(name);
    SystemFault::Fault(file.copied(), Fault { code, line, detail })
}

/// The file in which the module that comes from this source stands.
fn file_of<'a>(offer: &Offered<'a>, source: Source) -> &'a FileName
    requires offer { IsOfferOf (offer_of offer.now) (block_of offer.now.block.now) }
    requires here { IsHere (offer_of offer.now) source }
    ensures { result.now ≡ (text_of (offer_of offer.now) (block_of offer.now.block.now) source).file }
{
    let index = source.index as usize;
    match source.library {
        None => &offer.block.modules[index],
        Some(library) => &offer.block.libraries[library as usize],
    }
}

/// The module that comes from this source.
fn module_of<'a>(offer: &Offered<'a>, source: Source) -> &'a Module
    requires here { IsHere (offer_of offer.now) source }
    ensures { result.now ≡ module_of (offer_of offer.now) source }
{
    let index = source.index as usize;
    let places = offer.places;
    match source.library {
        None => &offer.pool[places.modules[index] as usize],
        Some(library) => {
            &offer.shelf[places.libraries[library as usize] as usize].modules[index]
        }
    }
}

/// How many lines stand before it in its file.
fn lines_before(offer: &Offered<'_>, source: Source) -> u32
    requires offer { IsOfferOf (offer_of offer.now) (block_of offer.now.block.now) }
    requires here { IsHere (offer_of offer.now) source }
    ensures before { result ≡ (text_of (offer_of offer.now) (block_of offer.now.block.now) source).before }
    ensures few { result < 2 ^ 30 }
{
    match source.library {
        None => 0,
        Some(library) => {
            let place = offer.places.libraries[library as usize] as usize;
            let modules: &[Module] = &offer.shelf[place].modules;
            1 + lines_of(&modules[..source.index as usize])
        }
    }
}

/// The lines of modules.
fn lines_of(modules: &[Module]) -> u32
    requires { length (flat_map lines_of modules.now) < 2 ^ 30 }
    ensures { result ≡ length (flat_map lines_of modules.now) }
{
    let mut lines = 0;
    for module in modules {
        lines += module_lines(module) as u32;
    }
    lines
}
