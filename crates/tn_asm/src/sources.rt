ghost use Rattle.std.specs.Prelude.{◌≡◌, ◌<◌, ◌^◌, List, ℕ, length, Ok, Err, IfOk};
ghost use Rattle.tn_text.specs.declared.faults.ReadFault.TheVariants as read;
ghost use Rattle.tn_text.specs.Reading.{Gives, IsReading};
ghost use Rattle.tn_module.specs.Modules.{Parts, module_of, IsShort};
ghost use Rattle.tn_asm.specs.Assembling.{assembled, judged};
ghost use Rattle.tn_asm.specs.Sources.{IsSource};
ghost use Rattle.tn_asm.specs.SourceFaults.{IsSourceFault};
ghost use Rattle.tn_asm.specs.Inner.Drafts.{source_of, HasLines};

use crate::drafts::{Source, read_source};
use std::alloc::Global;
use tn_module::{CheckFault, Module};
use tn_text::{Fault, ReadFault};

/// The module that a source stands for.
///
/// The first line with tokens is `.module NAME`. Behind it stand, in any order, `.import code NAME`,
/// `.import data NAME` and `.export NAME`; `.code`, behind which code stands, as it does at first, and
/// `.data`, behind which static data stands. Code is `MNEMONIC OPERAND`, `OPERATION` and `.byte N`;
/// static data is `.word N`, `.address NAME`, `.byte N`, `.space N`, of up to 1,048,576 bytes, and
/// `.align`. An operand is a number, `NAME`, `NAME-NAME` or `@NAME`. A label `NAME:` stands alone, or
/// before code or static data. Comments, blanks, names and numbers are as in all texts.
///
/// The fault is that of the first line with something wrong, the first of these: `NotAscii`;
/// `BadLine` for a first word, behind the label if there is one, that is none of these or may not
/// stand there, or another number of tokens; the first token, the label among them, that is not of
/// its class: `NameTooLong` or `BadLine` for a name, `BadNumber` for a number, and for an operand
/// that begins with a digit, `-` or `#`. A text that does not name the module is `Missing` with
/// `module`, at the number of its lines plus 1. Where no line has a fault, it is the module's first,
/// at the line of its import, export, item or cell.
#[tactic(auto, using(crate::proofs::SourceLaws::source_reading))]
pub fn assemble(alloc: Global, text: &[u8]) -> Result<Module, ReadFault>
    requires { length text.now < 2 ^ 30 }
    ensures gives { Gives (λ m. m) result (assembled text.now) }
    ensures reading { (text : List ℕ) → IsReading (IsSource text) (IsSourceFault text) (assembled text) }

    // So, unless there is no memory:
    ensures found { IfOk result (λ m. IsSource text.now m) }
    ensures only { (m : Parts) → IsSource text.now m → Gives (λ m. m) result (Ok m) }
    ensures fault { (fault : _) → result ≡ Err (read.Fault fault) → IsSourceFault text.now fault }
{
    assemble_all(alloc, text)
}

/// Reads the source, and checks the module.
fn assemble_all(alloc: Global, text: &[u8]) -> Result<Module, ReadFault>
    requires { length text.now < 2 ^ 30 }
    ensures { Gives (λ m. m) result (assembled text.now) }
{
    let source = read_source(alloc, text)?;
    judge(alloc, source)
}

/// The module of these parts. Its first fault is told at the line of its place.
fn judge(alloc: Global, source: Source) -> Result<Module, ReadFault>
    requires short { IsShort (module_of source.raw) }
    requires lines { HasLines (source_of source) }
    ensures { Gives (λ m. m) result (judged (source_of source)) }
{
    match Module::check(alloc, source.raw) {
        Ok(module) => Ok(module),
        Err(CheckFault::Fault(fault)) => Err(ReadFault::Fault(Fault {
            code: fault.code,
            line: source.lines.line_in(fault.place),
            detail: fault.detail,
        })),
        Err(CheckFault::NoMemory) => Err(ReadFault::NoMemory),
    }
}
