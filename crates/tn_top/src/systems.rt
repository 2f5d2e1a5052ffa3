ghost use Rattle.std.specs.Prelude.{◌≡◌, ◌-◌, ◌≤◌, ◌<◌, ℕ, List, length, map, All, IfOk};
ghost use Rattle.tn_text.specs.declared.limits.TheConstants.{FILE_LIMIT, PROCESSOR_LIMIT};
ghost use Rattle.tn_io.specs.Stores.{Stored};
ghost use Rattle.tn_module.specs.Modules.{Parts};
ghost use Rattle.tn_config.specs.Configurations.{ConfigState, config_of, file_lines};
ghost use Rattle.tn_config.specs.Networks.{described};
ghost use Rattle.tn_config.specs.Writable.{IsWritable};
ghost use Rattle.tn_net.specs.Lines.{IsAdmitted};
ghost use Rattle.tn_net.specs.WholeTrees.{IsWholeTree};
ghost use Rattle.tn_stream.specs.Images.{images_of, AreImages};
ghost use Rattle.tn_system.specs.Sources.{sources, module_files, library_files, HasFewLines, IsShortLibrary, AreRead};
ghost use Rattle.tn_system.specs.NamedFiles.{lists_of, named_files};
ghost use Rattle.tn_system.specs.Systems.{SystemState, system_of};
ghost use Rattle.tn_top.specs.Plans.{each};
ghost use Rattle.tn_top.specs.SystemPlans.{config_in, config_plan, library_in, library_file_plan, files_plan, system_plan};
ghost use Rattle.tn_top.specs.Inner.Stages.{Staged, Makes, Settles};
ghost use Rattle.tn_top.specs.Inner.Systems.{configured, IsLoadable, IsRightConfig};

use crate::reading::{read_file, read_modules};
use crate::refusals::Refusal;
use std::alloc::Global;
use tn_config::{Config, read_config};
use tn_io::Store;
use tn_modtext::read_library;
use tn_module::{Library, Module};
use tn_system::{NamedFiles, System, SystemFault, named_files, system};
use tn_text::limits::{Limit, MODULE_LIMIT, PROCESSOR_LIMIT};
use tn_text::{FileName, ReadFault};

/// A configuration, and the system that it makes with the files that it names.
#[derive(Drop)]
pub struct Configured {
    pub config: Config,
    pub system: System,
}

/// Reads a configuration and each file that it names, and makes its system.
pub fn read_system<S: Store>(
    alloc: Global,
    file: &FileName,
    store: &mut S,
) -> Result<Configured, Refusal>
    ensures staged { Staged configured (system_plan file.now) (S.stored store.old) (S.stored store.new) result }
    ensures loadable { IfOk result (λ c. IsLoadable c.system) }
    ensures named { IfOk result (λ c. IsWholeTree c.system.tree.nodes.items (length c.config.blocks.items)) }
    ensures few { IfOk result (λ c. length c.config.blocks.items ≤ PROCESSOR_LIMIT) }
{
    let config = read_config_file(alloc, file, store)?;
    let system = read_files(alloc, file, &config, store)?;
    Ok(Configured { config, system })
}

/// The configuration in a file.
fn read_config_file<S: Store>(
    alloc: Global,
    file: &FileName,
    store: &mut S,
) -> Result<Config, Refusal>
    ensures staged { Staged config_of (config_plan file.now) (S.stored store.old) (S.stored store.new) result }
    ensures right { IfOk result (λ c. IsRightConfig (config_of c)) }
    ensures few { IfOk result (λ c. length c.blocks.items ≤ PROCESSOR_LIMIT) }
{
    let text = read_file(alloc, file, store)?;
    config_in(alloc, file, &text)
}

/// The configuration of a text, that of a file.
#[tactic(auto, unfolding(crate::specs::SystemPlans::config_in))]
fn config_in(alloc: Global, file: &FileName, text: &[u8]) -> Result<Config, Refusal>
    requires { length text.now ≤ FILE_LIMIT }
    ensures made { Makes config_of (config_in file.now text.now) result }
    ensures right { IfOk result (λ c. IsRightConfig (config_of c)) }
    ensures few { IfOk result (λ c. length c.blocks.items ≤ PROCESSOR_LIMIT) }
{
    let config = match read_config(alloc, text) {
        Ok(config) => config,
        Err(ReadFault::Fault(first)) => return Err(Refusal::Fault(file.copied(), first)),
        Err(ReadFault::NoMemory) => return Err(Refusal::NoMemory),
    };
    if config.blocks.len() > PROCESSOR_LIMIT {
        return Err(Refusal::Limit(Limit::Processors, config.blocks.len() as u64));
    }
    Ok(config)
}

/// Reads each file that a configuration names, and makes its system.
fn read_files<S: Store>(
    alloc: Global,
    file: &FileName,
    config: &Config,
    store: &mut S,
) -> Result<System, Refusal>
    requires { IsRightConfig (config_of config.now) }
    ensures staged { Staged system_of (files_plan file.now (config_of config.now)) (S.stored store.old) (S.stored store.new) result }
    ensures loadable { IfOk result IsLoadable }
    ensures named { IfOk result (λ y. IsWholeTree y.tree.nodes.items (length config.now.blocks.items)) }
{
    let files = named_files(alloc, config)?;
    let pool = read_modules(alloc, &files.modules, store)?;
    let shelf = read_libraries(alloc, &files.libraries, store)?;
    settled(alloc, file, config, &files, &pool, &shelf)
}

/// The libraries of the library texts in some files.
fn read_libraries<S: Store>(
    alloc: Global,
    files: &[FileName],
    store: &mut S,
) -> Result<Vec<Library>, Refusal>
    ensures staged { Staged (λ shelf. map (λ l. l.modules.items) shelf.items) (each library_file_plan files.now)
        (S.stored store.old) (S.stored store.new) result }
    ensures short { IfOk result (λ shelf. All IsShortLibrary (map (λ l. l.modules.items) shelf.items)) }
    ensures as_many { IfOk result (λ shelf. length shelf.items ≡ length files.now) }
{
    let mut shelf = Vec::new(alloc);
    for file in files {
        let read = read_library_file(alloc, file, store)?;
        shelf.push(read)?;
    }
    Ok(shelf)
}

/// The library of the library text in a file.
fn read_library_file<S: Store>(
    alloc: Global,
    file: &FileName,
    store: &mut S,
) -> Result<Library, Refusal>
    ensures staged { Staged (λ l. l.modules.items) (library_file_plan file.now) (S.stored store.old) (S.stored store.new) result }
    ensures short { IfOk result (λ l. IsShortLibrary l.modules.items) }
{
    let text = read_file(alloc, file, store)?;
    library_in(alloc, file, &text)
}

/// The library of a library text, that of a file.
#[tactic(auto, unfolding(crate::specs::SystemPlans::library_in))]
fn library_in(alloc: Global, file: &FileName, text: &[u8]) -> Result<Library, Refusal>
    requires { length text.now ≤ FILE_LIMIT }
    ensures made { Makes (λ l. l.modules.items) (library_in file.now text.now) result }
    ensures short { IfOk result (λ l. IsShortLibrary l.modules.items) }
{
    let library = match read_library(alloc, text) {
        Ok(library) => library,
        Err(ReadFault::Fault(first)) => return Err(Refusal::Fault(file.copied(), first)),
        Err(ReadFault::NoMemory) => return Err(Refusal::NoMemory),
    };
    if library.modules.len() > MODULE_LIMIT {
        return Err(Refusal::Limit(Limit::Modules, library.modules.len() as u64));
    }
    Ok(library)
}

/// The system of a configuration and of the modules in its files.
fn settled(
    alloc: Global,
    file: &FileName,
    config: &Config,
    files: &NamedFiles,
    pool: &[Module],
    shelf: &[Library],
) -> Result<System, Refusal>
    requires read { AreRead (sources file.now config.now pool.now shelf.now) }
    requires files { lists_of files.now ≡ named_files (config_of config.now) }
    ensures settles { Settles system_of (sources file.now config.now pool.now shelf.now) result }
    ensures loadable { IfOk result IsLoadable }
    ensures named { IfOk result (λ y. IsWholeTree y.tree.nodes.items (length config.now.blocks.items)) }
{
    match system(alloc, file, config, files, pool, shelf) {
        Ok(made) => Ok(made),
        Err(SystemFault::Fault(name, fault)) => Err(Refusal::Fault(name, fault)),
        Err(SystemFault::Limit(limit, count)) => Err(Refusal::Limit(limit, count)),
        Err(SystemFault::NoMemory) => Err(Refusal::NoMemory),
    }
}
