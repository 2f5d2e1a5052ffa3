ghost use Rattle.std.specs.Prelude.{◌≡◌, ◌≤◌, length, vec_len, All, IfOk};
ghost use Rattle.tn_top.specs.Plans.{reads, gives, each};
ghost use Rattle.tn_system.specs.Sources.{HasFewLines};
ghost use Rattle.tn_top.specs.ModulePlans.{or_fault, module_plan};
ghost use Rattle.tn_top.specs.Commands.{code_in, code_plan, module_text_in, assembler_plan, library_text, library_plan, limited_text};
ghost use Rattle.tn_modtext.specs.Lines.{spelling};
ghost use Rattle.tn_modtext.specs.ModuleReading.{module_read};
ghost use Rattle.tn_top.specs.Inner.Stages.{Staged, Makes};

use crate::flat_code::flat_code;
use crate::refusals::Refusal;
use std::alloc::Global;
use tn_asm::{assemble, read_flat};
use tn_io::{GetFault, Store};
use tn_modtext::{read_module, write_library, write_module};
use tn_module::{Library, Module};
use tn_text::limits::{CODE_LIMIT, FILE_LIMIT, Limit, MODULE_LIMIT};
use tn_text::{FileName, ReadFault};

/// Reads a file whole.
#[tactic(auto, unfolding(crate::specs::Inner::Stages::Unable))]
pub fn read_file<S: Store>(
    alloc: Global,
    name: &FileName,
    store: &mut S,
) -> Result<Vec<u8>, Refusal>
    ensures staged { Staged (λ text. text.items) (reads name.now gives) (S.stored store.old) (S.stored store.new) result }
    ensures short { IfOk result (λ text. vec_len text ≤ FILE_LIMIT) }
{
    let mut text = Vec::new(alloc);
    match store.get(name.text(), FILE_LIMIT, &mut text) {
        Ok(()) => Ok(text),
        Err(GetFault::Failed) => Err(Refusal::Unread(name.copied())),
        Err(GetFault::TooLong(_)) => Err(Refusal::Limit(Limit::File, FILE_LIMIT + 1)),
        Err(GetFault::NoMemory) => Err(Refusal::NoMemory),
    }
}

/// The code bytes of the flat source in a file.
pub fn read_code<S: Store>(
    alloc: Global,
    source: &FileName,
    store: &mut S,
) -> Result<Vec<u8>, Refusal>
    ensures staged { Staged (λ code. code.items) (code_plan source.now) (S.stored store.old) (S.stored store.new) result }
    ensures within { IfOk result (λ code. vec_len code ≤ CODE_LIMIT) }
{
    let text = read_file(alloc, source, store)?;
    code_in(alloc, source, &text)
}

/// The code bytes of a flat source, the text of a file.
fn code_in(alloc: Global, source: &FileName, text: &[u8]) -> Result<Vec<u8>, Refusal>
    requires { length text.now ≤ FILE_LIMIT }
    ensures made { Makes (λ code. code.items) (code_in source.now text.now) result }
    ensures within { IfOk result (λ code. vec_len code ≤ CODE_LIMIT) }
{
    let instructions = match read_flat(alloc, text) {
        Ok(instructions) => instructions,
        Err(ReadFault::Fault(first)) => return Err(Refusal::Fault(source.copied(), first)),
        Err(ReadFault::NoMemory) => return Err(Refusal::NoMemory),
    };
    let code = flat_code(alloc, &instructions)?;
    if code.len() > CODE_LIMIT {
        return Err(Refusal::Limit(Limit::Code, code.len() as u64));
    }
    Ok(code)
}

/// The text of the module that the assembler source in a file stands for.
pub fn read_module_of<S: Store>(
    alloc: Global,
    source: &FileName,
    store: &mut S,
) -> Result<Vec<u8>, Refusal>
    ensures { Staged (λ text. text.items) (assembler_plan source.now) (S.stored store.old) (S.stored store.new) result }
{
    let text = read_file(alloc, source, store)?;
    module_text_in(alloc, source, &text)
}

/// The text of the module of an assembler source, the text of a file.
#[tactic(auto, unfolding(crate::specs::Commands::module_text_in))]
fn module_text_in(alloc: Global, source: &FileName, text: &[u8]) -> Result<Vec<u8>, Refusal>
    requires { length text.now ≤ FILE_LIMIT }
    ensures { Makes (λ text. text.items) (module_text_in source.now text.now) result }
{
    match assemble(alloc, text) {
        Ok(read) => module_text(alloc, &read),
        Err(ReadFault::Fault(first)) => Err(Refusal::Fault(source.copied(), first)),
        Err(ReadFault::NoMemory) => Err(Refusal::NoMemory),
    }
}

/// The text of a module.
fn module_text(alloc: Global, read: &Module) -> Result<Vec<u8>, Refusal>
    ensures { Makes (λ text. text.items) (limited_text (spelling read.now)) result }
{
    let text = write_module(alloc, read)?;
    limited(text)
}

/// The module of the module text in a file.
fn read_module_text<S: Store>(
    alloc: Global,
    source: &FileName,
    store: &mut S,
) -> Result<Module, Refusal>
    ensures staged { Staged (λ m. m) (module_plan source.now) (S.stored store.old) (S.stored store.new) result }
    ensures few_lines { IfOk result HasFewLines }
{
    let text = read_file(alloc, source, store)?;
    module_in(alloc, source, &text)
}

/// The module of a module text, the text of a file.
fn module_in(alloc: Global, source: &FileName, text: &[u8]) -> Result<Module, Refusal>
    requires { length text.now ≤ FILE_LIMIT }
    ensures made { Makes (λ m. m) (or_fault source.now (module_read text.now)) result }
    ensures few_lines { IfOk result HasFewLines }
{
    match read_module(alloc, text) {
        Ok(read) => Ok(read),
        Err(ReadFault::Fault(first)) => Err(Refusal::Fault(source.copied(), first)),
        Err(ReadFault::NoMemory) => Err(Refusal::NoMemory),
    }
}

/// The modules of the module texts in some files.
pub fn read_modules<S: Store>(
    alloc: Global,
    sources: &[FileName],
    store: &mut S,
) -> Result<Vec<Module>, Refusal>
    ensures staged { Staged (λ modules. modules.items) (each module_plan sources.now) (S.stored store.old) (S.stored store.new) result }
    ensures few_lines { IfOk result (λ modules. All HasFewLines modules.items) }
    ensures as_many { IfOk result (λ modules. length modules.items ≡ length sources.now) }
{
    let mut modules = Vec::new(alloc);
    for source in sources {
        let read = read_module_text(alloc, source, store)?;
        modules.push(read)?;
    }
    Ok(modules)
}

/// The text of the library of the module texts in some files. The limit of modules comes before any
/// is read.
pub fn read_library_text<S: Store>(
    alloc: Global,
    sources: &[FileName],
    store: &mut S,
) -> Result<Vec<u8>, Refusal>
    ensures { Staged (λ text. text.items) (library_plan sources.now) (S.stored store.old) (S.stored store.new) result }
{
    if sources.len() > MODULE_LIMIT {
        return Err(Refusal::Limit(Limit::Modules, sources.len() as u64));
    }
    let modules = read_modules(alloc, sources, store)?;
    library_text(alloc, modules)
}

/// The text of the library of modules.
fn library_text(alloc: Global, modules: Vec<Module>) -> Result<Vec<u8>, Refusal>
    ensures { Makes (λ text. text.items) (library_text modules.items) result }
{
    let text = write_library(alloc, &Library { modules })?;
    limited(text)
}

/// A text that may be written to a file.
fn limited(text: Vec<u8>) -> Result<Vec<u8>, Refusal>
    ensures { Makes (λ text. text.items) (limited_text text.items) result }
{
    if text.len() as u64 > FILE_LIMIT {
        return Err(Refusal::Limit(Limit::File, text.len() as u64));
    }
    Ok(text)
}
