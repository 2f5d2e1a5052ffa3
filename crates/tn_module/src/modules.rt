ghost use Rattle.std.specs.Prelude.{◌≡◌, IfOk, OnOk};
ghost use Rattle.tn_module.specs.Modules.{module_of, IsShort};
ghost use Rattle.tn_module.specs.Validity.{IsValid};
ghost use Rattle.tn_module.specs.Ranges.{IsInRange};
ghost use Rattle.tn_module.specs.Faults.{IsFirstFault, OnFault};

use crate::checks::check_places;
use crate::faults::CheckFault;
use std::alloc::{AllocError, AllocFailed, Global};
use std::marker::Model;
use tn_isa::{Fun, Op};
use tn_text::Name;

/// Memory cannot be had.
#[derive(Clone, Copy)]
pub struct NoMemory;

impl<T: Drop> From<AllocFailed<T>> for NoMemory {
    fn from(_failed: AllocFailed<T>) -> NoMemory {
        NoMemory
    }
}

impl From<AllocError> for NoMemory {
    fn from(_error: AllocError) -> NoMemory {
        NoMemory
    }
}

/// What a name stands for: an address of code, or one of static data.
#[derive(Clone, Copy, PartialEq, Eq)]
pub enum Kind {
    Code,
    Cell,
}

/// A name that another module defines.
#[derive(Clone, Copy, PartialEq, Eq)]
pub struct Import {
    pub kind: Kind,
    pub name: Name,
}

/// The operand of a direct function.
#[derive(Clone, Copy, PartialEq, Eq)]
pub enum Operand {
    Number(i32),
    /// The way to a name, from the end of the instruction.
    To(Name),
    /// The position of the first name less that of the second.
    Difference(Name, Name),
    /// The words from the lowest address of memory to a name.
    CellWord(Name),
}

/// An element of a module's code.
#[derive(Clone, Copy, PartialEq, Eq)]
pub enum Item {
    Direct(Fun, Operand),
    Plain(Op),
    Byte(u8),
    Label(Name),
}

/// An element of a module's static data. Words and addresses take 4 bytes. A space takes as many as
/// it says, zeros, and `Align` those up to the next multiple of 4 from the start of the cells.
#[derive(Clone, Copy, PartialEq, Eq)]
pub enum Cell {
    Word(u32),
    Address(Name),
    Byte(u8),
    Space(u32),
    Align,
    Label(Name),
}

/// The parts of a module, which need not go together.
#[derive(Drop, PartialEq, Eq)]
pub struct RawModule {
    pub name: Name,
    pub imports: Vec<Import>,
    pub exports: Vec<Name>,
    pub items: Vec<Item>,
    pub cells: Vec<Cell>,
}

impl RawModule {
    /// Equal parts.
    fn copied(&self) -> Result<RawModule, NoMemory>
        ensures { IfOk result (λ copy. module_of copy ≡ module_of self.now) }
    {
        Ok(RawModule {
            name: self.name,
            imports: self.imports.clone()?,
            exports: self.exports.clone()?,
            items: self.items.clone()?,
            cells: self.cells.clone()?,
        })
    }
}

/// A valid module. That is one in which all of these hold:
/// - imports, labels of code and labels of cells have distinct names;
/// - exports are distinct, and each is a label of the module;
/// - each used name is a label or an import of the module;
/// - a name that is used alone as an operand or in a difference is of code, a name that is used by
///   its word is of a cell, and the address in a cell may be of either;
/// - `j`, `cj` and `call` alone take a name, `ldc`, `adc` and `eqc` a difference, `ldc`, `ldnl`,
///   `ldnlp` and `stnl` the word of a name, and each function but `pfix`, `nfix` and `opr` a number;
/// - a label of a cell that is exported or used by its word lies at a multiple of 4 from the start
///   of the module's cells.
///
/// A name that is defined more than once counts as each thing that it is defined as.
#[derive(Drop)]
pub struct Module {
    raw: RawModule,
}

impl Model for Module {
    ghost use Rattle.tn_module.specs.Modules.{Parts, module_of};
    ghost use Rattle.tn_module.specs.Validity.{IsValid};
    ghost use Rattle.tn_module.specs.Ranges.{IsInRange};

    ghost Value = { Parts };

    ghost view = { λ m. module_of m.raw };

    ghost invariant = { λ m. IsValid (module_of m.raw) × IsInRange (module_of m.raw) };
}

impl Module {
    /// The module of these parts, if it is valid. Else its first fault: imports come first, then
    /// exports, items and cells, each by index. At one place the order is `DuplicateName`,
    /// `NoSuchName`, `WrongOperand`, `WrongKind`, `Misaligned`. A name is a duplicate at its later
    /// place, where imports stand before labels of code and these before labels of cells. The fault
    /// names the name, or the first one at fault of a difference; `WrongOperand` names nothing. The
    /// order of faults is this project's own.
    #[tactic(auto, using(crate::proofs::OneFirst::one_first_fault))]
    pub fn check(alloc: Global, raw: RawModule) -> Result<Module, CheckFault>
        requires { IsShort (module_of raw) }
        ensures parts { IfOk result (λ m. m ≡ module_of raw) }
        ensures valid { OnOk result (IsValid (module_of raw)) }
        ensures ranges { OnOk result (IsInRange (module_of raw)) }
        ensures fault { OnFault result (IsFirstFault (module_of raw)) }
        ensures accepted { OnFault result (λ _. ¬ IsValid (module_of raw)) }
        ensures one { (f : _) → (g : _) → IsFirstFault (module_of raw) f → IsFirstFault (module_of raw) g → f ≡ g }
    {
        check_places(alloc, &raw)?;
        Ok(Module { raw })
    }

    /// The parts of the module.
    pub fn raw(&self) -> &RawModule
        ensures parts { module_of result.now ≡ self.now }
        ensures valid { IsValid self.now }
        ensures ranges { IsInRange self.now }
    {
        &self.raw
    }

    /// An equal module.
    pub fn copied(&self) -> Result<Module, NoMemory>
        ensures { IfOk result (λ copy. copy ≡ self.now) }
    {
        let raw = self.raw.copied()?;
        Ok(Module { raw })
    }
}

/// Modules that are chosen where others need their names.
#[derive(Drop)]
pub struct Library {
    pub modules: Vec<Module>,
}
