ghost use Rattle.std.specs.Prelude.{◌≡◌, ◌<◌, ◌^◌, List, length, IfOk, IfErr};
ghost use Rattle.tn_module.specs.Modules.{Parts};
ghost use Rattle.tn_symbols.specs.Choices.{OneIsChosen};
ghost use Rattle.tn_symbols.specs.Sources.{offer, modules_of, IsOffer, IsChoice};
ghost use Rattle.tn_symbols.specs.Definitions.{definition_of, AreDefined};
ghost use Rattle.tn_symbols.specs.Faults.{AreSound, IfFault, IsFaultOf};

use crate::closing::picks;
use crate::definitions::definition_of;
use crate::faults::check;
use crate::sources::{Offer, copies, named_sources, stock_sources, with_picks};
use std::alloc::{AllocError, AllocFailed, Global};
use tn_module::{Kind, Library, Module};
use tn_text::Name;

/// Memory cannot be had.
#[derive(Clone, Copy)]
pub struct NoMemory;

impl<T: Drop> From<AllocFailed<T>> for NoMemory {
    fn from(_failed: AllocFailed<T>) -> NoMemory {
        NoMemory
    }
}

impl From<AllocError> for NoMemory {
    fn from(_error: AllocError) -> NoMemory {
        NoMemory
    }
}

impl From<tn_module::NoMemory> for NoMemory {
    fn from(_none: tn_module::NoMemory) -> NoMemory {
        NoMemory
    }
}

/// Where a chosen module comes from. With no library it is a named one, and the index is the place
/// in the list of these. Else the library is the place in the list of used libraries, and the index
/// that of the module in it.
#[derive(Clone, Copy)]
pub struct Source {
    pub library: Option<u32>,
    pub index: u32,
}

/// The modules of a program, and where each comes from.
#[derive(Drop)]
pub struct Chosen {
    pub sources: Vec<Source>,
    pub modules: Vec<Module>,
}

/// What a name stands for: a label in the chosen module at a place.
#[derive(Clone, Copy)]
pub struct Definition {
    pub module: u32,
    pub kind: Kind,
}

/// Why no modules were chosen. The numbers are the place of the module in the chosen list, and the
/// index of the import or export in it.
#[derive(Clone, Copy)]
pub enum ChooseFault {
    /// No chosen module exports the name of the import.
    Undefined(u32, u32),
    /// An earlier chosen module exports the name of the export.
    Duplicate(u32, u32),
    /// The first definition of the import's name is of another kind.
    WrongKind(u32, u32),
    NoMemory,
}

impl From<NoMemory> for ChooseFault {
    ghost use Rattle.std.specs.Prelude.{◌≡◌};
    ghost use Rattle.tn_symbols.specs.declared.choices.ChooseFault.TheVariants as choose;

    ghost from_gives = { λ _ fault. fault ≡ choose.NoMemory };

    fn from(_none: NoMemory) -> ChooseFault {
        ChooseFault::NoMemory
    }
}

impl Chosen {
    /// The first definition of the name in the chosen list. `None` exactly where no chosen module
    /// exports it.
    pub fn find(&self, name: &Name) -> Option<Definition>
        requires { length self.now.modules.items < 2 ^ 30 }
        ensures { result ≡ definition_of self.now.modules.items name.now }
    {
        definition_of(&self.modules, name)
    }
}

/// The chosen modules. First come the modules of the pool at the named places, in this order. Then,
/// again and again, comes the first module of the used libraries, in the order of these and of the
/// modules in them, that is not chosen yet and exports a name which a chosen module imports and none
/// exports. The list ends where there is none.
///
/// The fault is `Duplicate` at the first export, in the order of the list, whose name an earlier
/// chosen module exports. Where there is none it is the first import at fault: `Undefined` where no
/// chosen module exports its name, `WrongKind` where the name's definition is of the other kind.
pub fn choose(
    alloc: Global,
    pool: &[Module],
    named: &[u32],
    shelf: &[Library],
    used: &[u32],
) -> Result<Chosen, ChooseFault>
    requires { IsOffer (offer pool.now named.now shelf.now used.now) }
    ensures one { (named stock : List Parts) → OneIsChosen named stock }
    ensures choice { IfOk result (λ chosen. IsChoice (offer pool.now named.now shelf.now used.now) chosen.sources.items) }
    ensures copies { IfOk result (λ chosen.
        chosen.modules.items ≡ modules_of (offer pool.now named.now shelf.now used.now) chosen.sources.items) }
    ensures sound { IfOk result (λ chosen. AreSound chosen.modules.items) }
    ensures defined { IfOk result (λ chosen. AreDefined chosen.modules.items) }
    ensures fault { IfErr result (λ fault. IfFault fault (IsFaultOf (offer pool.now named.now shelf.now used.now))) }
{
    let sources = chosen_sources(alloc, pool, named, shelf, used)?;
    let offer = Offer {
        pool,
        named,
        shelf,
        used,
    };
    let modules = copies(alloc, &offer, &sources)?;
    check(alloc, &modules)?;
    Ok(Chosen { sources, modules })
}

/// The sources of the chosen modules, whether or not their names are at fault.
pub fn chosen_sources(
    alloc: Global,
    pool: &[Module],
    named: &[u32],
    shelf: &[Library],
    used: &[u32],
) -> Result<Vec<Source>, NoMemory>
    requires { IsOffer (offer pool.now named.now shelf.now used.now) }
    ensures one { (named stock : List Parts) → OneIsChosen named stock }
    ensures choice { IfOk result (λ sources. IsChoice (offer pool.now named.now shelf.now used.now) sources.items) }
{
    let offer = Offer {
        pool,
        named,
        shelf,
        used,
    };
    let first = named_sources(alloc, &offer)?;
    let stock = stock_sources(alloc, &offer)?;
    let picks = picks(alloc, &offer, &first, &stock)?;
    with_picks(first, &stock, &picks)
}
