ghost use Rattle.std.specs.Prelude.{◌≡◌, ℕ, ◌+◌, ◌<◌, ◌^◌, List, [], ◌∷◌, ◌++◌, not, None, IfOk, OnOk};
ghost use Rattle.tn_module.specs.Names.{takes, code_labels, cell_labels};
ghost use Rattle.tn_module.specs.Ranges.{IsName, IsOperand, IsItem, IsCell};
ghost use Rattle.tn_text.specs.Firsts.{first_cause};
ghost use Rattle.tn_module.specs.Faults.{again, export_causes, operand_causes, item_causes, cell_causes, named};
ghost use Rattle.tn_text.specs.declared.faults.FaultCode.TheVariants.{NoSuchName, WrongKind};
ghost use Rattle.tn_module.specs.Inner.Sets.{HaveSameNames, known_by};

use crate::modules::{Cell, Item, NoMemory, Operand};
use crate::name_sets::{NameSets, copied, enter, has};
use indexmap::IndexSet;
use tn_isa::Fun;
use tn_text::{Cause, Detail, FaultCode, Name};

/// A cause that names a name.
fn named(code: FaultCode, name: &Name) -> Cause
    ensures cause { result ≡ named code name.now }
    ensures name { IsName name.now }
{
    Cause {
        code,
        detail: Detail::Named(copied(name)),
    }
}

/// The cause of a name that is in the set. It is put there.
pub(crate) fn again(seen: &mut IndexSet<Name>, name: &Name) -> Result<Option<Cause>, NoMemory>
    ensures name { IsName name.now }
    ensures cause { IfOk result (λ cause. cause ≡ first_cause (again seen.old.keys name.now ∷ [])) }
    ensures seen { OnOk result (HaveSameNames seen.new.keys (seen.old.keys ++ name.now ∷ [])) }
{
    if enter(seen, name)? {
        Ok(Some(named(FaultCode::DuplicateName, name)))
    } else {
        Ok(None)
    }
}

/// What is wrong with an export, where these names are exported before.
pub(crate) fn export_cause(
    names: &NameSets,
    seen: &mut IndexSet<Name>,
    name: &Name,
) -> Result<Option<Cause>, NoMemory>
    ensures name { IsName name.now }
    ensures cause { IfOk result (λ cause. cause ≡ first_cause (export_causes (known_by names.now) seen.old.keys name.now)) }
    ensures seen { IfOk result (λ cause. cause ≡ None → HaveSameNames seen.new.keys (seen.old.keys ++ name.now ∷ [])) }
{
    if let Some(cause) = again(seen, name)? {
        return Ok(Some(cause));
    }
    Ok(first_cause(&[
        (
            !has(&names.labels, name),
            named(FaultCode::NoSuchName, name),
        ),
        (
            has(&names.misaligned, name),
            named(FaultCode::Misaligned, name),
        ),
    ]))
}

/// What is wrong with an item, where these names are defined before.
pub(crate) fn item_cause(
    names: &NameSets,
    seen: &mut IndexSet<Name>,
    item: &Item,
) -> Result<Option<Cause>, NoMemory>
    ensures range { IsItem item.now }
    ensures cause { IfOk result (λ cause. cause ≡ first_cause (item_causes (known_by names.now) seen.old.keys item.now)) }
    ensures seen { OnOk result (HaveSameNames seen.new.keys (seen.old.keys ++ code_labels (item.now ∷ []))) }
{
    match *item {
        Item::Direct(fun, operand) => Ok(operand_cause(names, fun, &operand)),
        Item::Plain(_) => Ok(None),
        Item::Byte(_byte) => Ok(None),
        Item::Label(name) => again(seen, &name),
    }
}

/// What is wrong with a cell, where these names are defined before.
pub(crate) fn cell_cause(
    names: &NameSets,
    seen: &mut IndexSet<Name>,
    cell: &Cell,
) -> Result<Option<Cause>, NoMemory>
    ensures range { IsCell cell.now }
    ensures cause { IfOk result (λ cause. cause ≡ first_cause (cell_causes (known_by names.now) seen.old.keys cell.now)) }
    ensures seen { OnOk result (HaveSameNames seen.new.keys (seen.old.keys ++ cell_labels (cell.now ∷ []))) }
{
    match *cell {
        Cell::Address(name) => Ok(first_cause(&[undefined(names, &name)])),
        Cell::Word(_word) => Ok(None),
        Cell::Byte(_byte) => Ok(None),
        Cell::Space(_size) => Ok(None),
        Cell::Align => Ok(None),
        Cell::Label(name) => again(seen, &name),
    }
}

/// What is wrong with an operand.
fn operand_cause(names: &NameSets, fun: Fun, operand: &Operand) -> Option<Cause>
    ensures cause { result ≡ first_cause (operand_causes (known_by names.now) fun operand.now) }
    ensures range { IsOperand operand.now }
{
    let unfit = (!takes(fun, operand), Cause::bare(FaultCode::WrongOperand));
    match *operand {
        Operand::Number(_number) => first_cause(&[unfit]),
        Operand::To(name) => first_cause(&[undefined(names, &name), unfit, no_code(names, &name)]),
        Operand::Difference(high, low) => first_cause(&[
            undefined(names, &high),
            undefined(names, &low),
            unfit,
            no_code(names, &high),
            no_code(names, &low),
        ]),
        Operand::CellWord(name) => first_cause(&[
            undefined(names, &name),
            unfit,
            (
                !has(&names.cells, &name),
                named(FaultCode::WrongKind, &name),
            ),
            (
                has(&names.misaligned, &name),
                named(FaultCode::Misaligned, &name),
            ),
        ]),
    }
}

/// A test whether the module does not define the name.
fn undefined(names: &NameSets, name: &Name) -> (bool, Cause)
    ensures test { result ≡ (not ((known_by names.now).defined name.now), named NoSuchName name.now) }
    ensures name { IsName name.now }
{
    (
        !has(&names.defined, name),
        named(FaultCode::NoSuchName, name),
    )
}

/// A test whether the name is none of code.
fn no_code(names: &NameSets, name: &Name) -> (bool, Cause)
    ensures { result ≡ (not ((known_by names.now).code name.now), named WrongKind name.now) }
{
    (!has(&names.code, name), named(FaultCode::WrongKind, name))
}

/// The first cause whose test holds.
fn first_cause(tests: &[(bool, Cause)]) -> Option<Cause>
    ensures { result ≡ first_cause tests.now }
{
    match tests {
        [] => None,
        [(true, cause), ..] => Some(*cause),
        [(false, _), rest @ ..] => first_cause(rest),
    }
}

/// Whether the function takes the operand.
fn takes(fun: Fun, operand: &Operand) -> bool
    ensures { result ≡ takes fun operand.now }
{
    match operand {
        Operand::Number(_) => !matches!(fun, Fun::Pfix | Fun::Nfix | Fun::Opr),
        Operand::To(_) => matches!(fun, Fun::J | Fun::Cj | Fun::Call),
        Operand::Difference(_, _) => matches!(fun, Fun::Ldc | Fun::Adc | Fun::Eqc),
        Operand::CellWord(_) => matches!(fun, Fun::Ldc | Fun::Ldnl | Fun::Ldnlp | Fun::Stnl),
    }
}
