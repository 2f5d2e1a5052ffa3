use crate::modules::NoMemory;
use tn_text::{Detail, FaultCode};

/// A place in a module, by its index in the list.
#[derive(Clone, Copy)]
pub enum Place {
    Import(u32),
    Export(u32),
    Item(u32),
    Cell(u32),
}

/// What is wrong with a module, and where.
#[derive(Clone, Copy)]
pub struct ModuleFault {
    pub code: FaultCode,
    pub place: Place,
    pub detail: Detail,
}

/// Why a module cannot be had: it has a fault, or there is no memory.
#[derive(Clone, Copy)]
pub enum CheckFault {
    Fault(ModuleFault),
    NoMemory,
}

impl From<NoMemory> for CheckFault {
    ghost use Rattle.std.specs.Prelude.{◌≡◌};
    ghost use Rattle.tn_module.specs.declared.faults.CheckFault.TheVariants as check;

    ghost from_gives = { λ _ e. e ≡ check.NoMemory };

    fn from(_none: NoMemory) -> CheckFault {
        CheckFault::NoMemory
    }
}
