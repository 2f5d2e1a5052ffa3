ghost use Rattle.std.specs.Prelude.{◌≡◌, ◌+◌, ◌^◌, ◌<◌, [], map, fold, length, IfOk, OnOk};
ghost use Rattle.tn_config.specs.Configurations.{config_of, block_of};
ghost use Rattle.tn_system.specs.Sources.{with_file, place_of, NamesFewFiles};
ghost use Rattle.tn_system.specs.NamedFiles.{places_in, block_places, lists_of, named_files};
ghost use Rattle.tn_system.specs.Inner.Files.{AreNamed};

use crate::keys::FileKey;
use indexmap::IndexSet;
use std::alloc::{AllocError, AllocFailed, Global};
use tn_config::{Block, Config};
use tn_text::FileName;

/// Memory cannot be had.
#[derive(Clone, Copy)]
pub struct NoMemory;

impl<T: Drop> From<AllocFailed<T>> for NoMemory {
    fn from(_failed: AllocFailed<T>) -> NoMemory {
        NoMemory
    }
}

impl From<AllocError> for NoMemory {
    fn from(_error: AllocError) -> NoMemory {
        NoMemory
    }
}

/// The files of a processor's modules and libraries, in order: their places among all files of
/// modules, and of libraries.
#[derive(Drop)]
pub struct BlockFiles {
    pub modules: Vec<u32>,
    pub libraries: Vec<u32>,
}

/// The files that a configuration names.
#[derive(Drop)]
pub struct NamedFiles {
    /// Each file of a module once, in the order of the first lines that name it.
    pub modules: Vec<FileName>,
    /// Each file of a library once, in the order of the first lines that name it.
    pub libraries: Vec<FileName>,
    /// The files of each processor, in order.
    pub blocks: Vec<BlockFiles>,
}

/// The files that a configuration names, each once, and which of them each processor names.
pub fn named_files(alloc: Global, config: &Config) -> Result<NamedFiles, NoMemory>
    requires { NamesFewFiles (config_of config.now) }
    ensures { IfOk result (λ files. lists_of files ≡ named_files (config_of config.now)) }
{
    let mut modules = IndexSet::new(alloc);
    let mut libraries = IndexSet::new(alloc);
    files_from(alloc, config, &mut modules, &mut libraries)
}

/// The files that a configuration names, of which none was met yet.
fn files_from(
    alloc: Global,
    config: &Config,
    modules: &mut IndexSet<FileKey>,
    libraries: &mut IndexSet<FileKey>,
) -> Result<NamedFiles, NoMemory>
    requires few { NamesFewFiles (config_of config.now) }
    requires modules { modules.old.keys ≡ [] }
    requires libraries { libraries.old.keys ≡ [] }
    ensures { IfOk result (λ files. lists_of files ≡ named_files (config_of config.now)) }
{
    let blocks = add_blocks(alloc, config, modules, libraries)?;
    let module_names = names_of(alloc, modules)?;
    let library_names = names_of(alloc, libraries)?;
    Ok(NamedFiles {
        modules: module_names,
        libraries: library_names,
        blocks,
    })
}

/// Puts the files of each processor to the others, of which there are none yet.
fn add_blocks(
    alloc: Global,
    config: &Config,
    modules: &mut IndexSet<FileKey>,
    libraries: &mut IndexSet<FileKey>,
) -> Result<Vec<BlockFiles>, NoMemory>
    requires few { NamesFewFiles (config_of config.now) }
    requires modules { modules.old.keys ≡ [] }
    requires libraries { libraries.old.keys ≡ [] }
    ensures { IfOk result (λ blocks. AreNamed (config_of config.now).blocks modules.new.keys libraries.new.keys
        (map places_in blocks.items)) }
{
    let mut blocks = Vec::new(alloc);
    for block in &config.blocks {
        let files = add_block(alloc, block, modules, libraries)?;
        blocks.push(files)?;
    }
    Ok(blocks)
}

/// Puts the files of a processor to the others.
fn add_block(
    alloc: Global,
    block: &Block,
    modules: &mut IndexSet<FileKey>,
    libraries: &mut IndexSet<FileKey>,
) -> Result<BlockFiles, NoMemory>
    requires modules { length modules.old.keys + length block.now.modules.items < 2 ^ 32 }
    requires libraries { length libraries.old.keys + length block.now.libraries.items < 2 ^ 32 }
    ensures modules { OnOk result (modules.new.keys ≡ fold with_file modules.old.keys block.now.modules.items) }
    ensures libraries { OnOk result (libraries.new.keys ≡ fold with_file libraries.old.keys block.now.libraries.items) }
    ensures places { IfOk result (λ files. places_in files ≡ block_places modules.new.keys libraries.new.keys (block_of block.now)) }
{
    let block_modules = add_files(alloc, modules, &block.modules)?;
    let block_libraries = add_files(alloc, libraries, &block.libraries)?;
    Ok(BlockFiles {
        modules: block_modules,
        libraries: block_libraries,
    })
}

/// Puts the names that are not there to the others, and answers the place of each.
fn add_files(
    alloc: Global,
    files: &mut IndexSet<FileKey>,
    named: &[FileName],
) -> Result<Vec<u32>, NoMemory>
    requires { length files.old.keys + length named.now < 2 ^ 32 }
    ensures files { OnOk result (files.new.keys ≡ fold with_file files.old.keys named.now) }
    ensures places { IfOk result (λ places. places.items ≡ map (place_of files.new.keys) named.now) }
{
    let mut places = Vec::new(alloc);
    for file in named {
        let (place, _) = files.insert_full(FileKey::of(file))?;
        places.push(place as u32)?;
    }
    Ok(places)
}

/// The names in their order.
fn names_of(alloc: Global, files: &IndexSet<FileKey>) -> Result<Vec<FileName>, AllocError>
    ensures { IfOk result (λ names. names.items ≡ files.now.keys) }
{
    files.iter().map(|file| file.name()).collect(alloc)
}
