ghost use Rattle.std.specs.Prelude.{◌≡◌, ◌<◌, ◌++◌, length, map, is_some, true, All, IfOk, OnOk};
ghost use Rattle.tn_text.specs.declared.limits.TheConstants.{ITEM_LIMIT};
ghost use Rattle.tn_module.specs.Names.{code_uses, cell_uses};
ghost use Rattle.tn_link.specs.Places.{told};
ghost use Rattle.tn_link.specs.Programs.{reach, element, module_elements, program};
ghost use Rattle.tn_link.specs.Linking.{IsBase};
ghost use Rattle.tn_link.specs.Inner.Tables.{found, AreFound, AreNear};
ghost use Rattle.tn_link.specs.Inner.Elements.{IsUsable, AreFit};
ghost use Rattle.tn_link.specs.Inner.Plans.{IsPlan};

use crate::linking::NoMemory;
use crate::tables::{Plan, Scope, Target, labels};
use std::alloc::Global;
use tn_isa::{Fun, op_code};
use tn_module::{Item, Operand};
use tn_text::Name;
use tn_word::MOST_NEG;

/// The operand of an instruction, with places of the program in place of names.
#[derive(Clone, Copy)]
pub(crate) enum Reach {
    Number(i32),
    /// The way to a place, from the end of the instruction.
    To(u32),
    /// The position of the first place less that of the second.
    Between(u32, u32),
}

/// An item of a program.
#[derive(Clone, Copy)]
pub(crate) enum Element {
    Instruction(Fun, Reach),
    Byte(u8),
    Label,
}

/// The items of all modules, one after the other.
pub(crate) fn program(
    alloc: Global,
    plan: &Plan<'_>,
    cell_base: u32,
) -> Result<Vec<Element>, NoMemory>
    requires plan { IsPlan plan.now }
    requires base { IsBase cell_base }
    ensures program { IfOk result (λ elements. elements.items ≡ program plan.now.modules.now cell_base) }
    ensures fit { IfOk result (λ elements. AreFit elements.items) }
{
    let mut elements = Vec::new(alloc);
    for m in 0..plan.modules.len() {
        add_module(alloc, &mut elements, plan, m, cell_base)?;
    }
    Ok(elements)
}

/// Puts the items of module `m` to the others.
fn add_module(
    alloc: Global,
    elements: &mut Vec<Element>,
    plan: &Plan<'_>,
    m: usize,
    cell_base: u32,
) -> Result<(), NoMemory>
    requires here { m < length plan.now.modules.now }
    requires plan { IsPlan plan.now }
    requires base { IsBase cell_base }
    ensures { OnOk result (elements.new.items ≡ elements.old.items ++ module_elements plan.now.modules.now cell_base m) }
{
    let module = &plan.modules[m];
    let raw = module.raw();
    let own = labels(alloc, raw, plan.starts[m])?;
    let scope = Scope {
        labels: &own,
        exports: plan.exports,
    };
    add_elements(elements, &scope, cell_base, &raw.items)?;
    Ok(())
}

/// Puts the items of a module that knows these names to the others.
fn add_elements(
    elements: &mut Vec<Element>,
    scope: &Scope<'_>,
    cell_base: u32,
    items: &[Item],
) -> Result<(), NoMemory>
    requires base { IsBase cell_base }
    requires near { AreNear ITEM_LIMIT (told (found scope.now)) }
    requires usable { All (IsUsable (found scope.now)) items.now }
    ensures { OnOk result (elements.new.items ≡ elements.old.items ++ map (element (told (found scope.now)) cell_base) items.now) }
{
    for item in items {
        elements.push(element_of(scope, cell_base, item))?;
    }
    Ok(())
}

/// An item with places in place of names.
fn element_of(scope: &Scope<'_>, cell_base: u32, item: &Item) -> Element
    requires base { IsBase cell_base }
    requires near { AreNear ITEM_LIMIT (told (found scope.now)) }
    requires usable { IsUsable (found scope.now) item.now }
    ensures { result ≡ element (told (found scope.now)) cell_base item.now }
{
    match item {
        Item::Direct(fun, operand) => Element::Instruction(
            *fun,
            reach_of(scope, cell_base, operand),
        ),
        Item::Plain(op) => Element::Instruction(Fun::Opr, Reach::Number(op_code(*op) as i32)),
        Item::Byte(byte) => Element::Byte(*byte),
        Item::Label(_) => Element::Label,
    }
}

/// An operand with places in place of names.
fn reach_of(scope: &Scope<'_>, cell_base: u32, operand: &Operand) -> Reach
    requires base { IsBase cell_base }
    requires near { AreNear ITEM_LIMIT (told (found scope.now)) }
    requires code { AreFound (found scope.now) (code_uses operand.now) }
    requires cells { AreFound (found scope.now) (cell_uses operand.now) }
    ensures { result ≡ reach (told (found scope.now)) cell_base operand.now }
{
    match operand {
        Operand::Number(value) => Reach::Number(*value),
        Operand::To(name) => Reach::To(target(scope, name).place),
        Operand::Difference(high, low) => {
            Reach::Between(target(scope, high).place, target(scope, low).place)
        }
        Operand::CellWord(name) => {
            let address = cell_base + target(scope, name).place;
            Reach::Number(((address - MOST_NEG) / 4) as i32)
        }
    }
}

/// What the name stands for, which is known.
pub(crate) fn target(scope: &Scope<'_>, name: &Name) -> Target
    requires { is_some (found scope.now name.now) ≡ true }
    ensures { result ≡ told (found scope.now) name.now }
{
    match scope.labels.get(name) {
        Some(target) => *target,
        None => match scope.exports.get(name) {
            Some(target) => *target,
            None => unreachable!(),
        },
    }
}
