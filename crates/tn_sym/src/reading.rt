ghost use Rattle.std.specs.Prelude.{◌≡◌, ◌+◌, ◌∷◌, ◌++◌, ◌^◌, ◌<◌, ◌≤◌, map, length, drop, IfOk, OnOk};
ghost use Rattle.tn_prefix.specs.Operand.{loads};
ghost use Rattle.tn_sym.specs.Inner.Readings.{form_of, forms_of, read_from, read_one};

use crate::codes::Instruction;
use crate::comparing::behind;
use crate::nets::NoMemory;
use std::alloc::{AllocError, Global};
use tn_module::{Item, Module};
use tn_prefix::decode;

/// What an item is in code.
#[derive(Clone, Copy)]
pub(crate) enum Form {
    Instruction,
    Byte,
    Label,
}

/// The instructions of the modules, whose code begins at an address, as they stand in their code.
pub(crate) fn instructions(
    alloc: Global,
    modules: &[Module],
    base: u32,
    code: &[u8],
) -> Result<Vec<Instruction>, NoMemory>
    requires { base + length code.now < 2 ^ 32 }
    ensures { IfOk result (λ made. made.items ≡ read_from (base + length code.now) (forms_of modules.now) code.now) }
{
    let Ok(forms) = forms(alloc, modules) else {
        return Err(NoMemory);
    };
    let Ok(made) = read(alloc, &forms, base, code) else {
        return Err(NoMemory);
    };
    Ok(made)
}

/// What the items of the modules are, one after the other.
fn forms(alloc: Global, modules: &[Module]) -> Result<Vec<Form>, AllocError>
    ensures { IfOk result (λ forms. forms.items ≡ forms_of modules.now) }
{
    let mut forms = Vec::new(alloc);
    for module in modules {
        add_forms(&mut forms, &module.raw().items)?;
    }
    Ok(forms)
}

fn add_forms(forms: &mut Vec<Form>, items: &[Item]) -> Result<(), AllocError>
    ensures { OnOk result (forms.new.items ≡ forms.old.items ++ map form_of items.now) }
{
    for item in items {
        forms.push(form_of(item))?;
    }
    Ok(())
}

fn form_of(item: &Item) -> Form
    ensures { result ≡ form_of item.now }
{
    match item {
        Item::Direct(_, _) => Form::Instruction,
        Item::Plain(_) => Form::Instruction,
        Item::Byte(_) => Form::Byte,
        Item::Label(_) => Form::Label,
    }
}

/// The instructions among items of these forms, read of their bytes.
fn read(
    alloc: Global,
    forms: &[Form],
    base: u32,
    code: &[u8],
) -> Result<Vec<Instruction>, AllocError>
    requires { base + length code.now < 2 ^ 32 }
    ensures { IfOk result (λ made. made.items ≡ read_from (base + length code.now) forms.now code.now) }
{
    let mut made = Vec::new(alloc);
    let mut rest = code;
    for form in forms {
        rest = add(&mut made, *form, base + code.len() as u32, rest)?;
    }
    Ok(made)
}

/// Puts an item to the others, if it is an instruction, where the code ends at an address, and answers the
/// bytes behind it.
fn add<'a>(
    made: &mut Vec<Instruction>,
    form: Form,
    end: u32,
    rest: &'a [u8],
) -> Result<&'a [u8], AllocError>
    requires { length rest.now ≤ end }
    ensures made { IfOk result (λ left. (forms : _) → made.new.items ++ read_from end forms left.now
        ≡ made.old.items ++ read_from end (form ∷ forms) rest.now) }
    ensures left { IfOk result (λ left. length left.now ≤ length rest.now) }
{
    match form {
        Form::Instruction => match decode(rest) {
            Some((fun, operand, size)) => {
                let left = behind(rest, size);
                made.push(Instruction {
                    address: end - rest.len() as u32,
                    size: (rest.len() - left.len()) as u32,
                    fun,
                    operand,
                })?;
                Ok(left)
            }
            None => Ok(rest),
        },
        Form::Byte => Ok(behind(rest, 1)),
        Form::Label => Ok(rest),
    }
}
