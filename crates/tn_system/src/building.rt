ghost use Rattle.std.specs.Prelude.{◌≡◌, ℕ, length, slice_get, Some, option_map, IfOk, IfErr};
ghost use Rattle.tn_text.specs.declared.faults.Fault.{Fault};
ghost use Rattle.tn_config.specs.Configurations.{config_of, block_of};
ghost use Rattle.tn_config.specs.Networks.{described};
ghost use Rattle.tn_net.specs.Lines.{IsAdmitted};
ghost use Rattle.tn_net.specs.Networks.{IsPairing, IsNetwork};
ghost use Rattle.tn_net.specs.Faults.{IsFaultless, IsNetworkFault};
ghost use Rattle.tn_net.specs.Trees.{IsLoadTree, IsFirstUnreachable};
ghost use Rattle.tn_net.specs.WholeTrees.{IsWholeTree};
ghost use Rattle.tn_stream.specs.Images.{images_of, AreImages};
ghost use Rattle.tn_system.specs.Sources.{Sources, sources, AreRead};
ghost use Rattle.tn_system.specs.NamedFiles.{lists_of, named_files};
ghost use Rattle.tn_system.specs.Systems.{system_of, IsSystem};
ghost use Rattle.tn_system.specs.Answers.{OneAnswers};
ghost use Rattle.tn_system.specs.Faults.{unreachable, IsSystemFault, IfFault};

use crate::files::NamedFiles;
use crate::processors::{Processors, make_processors};
use crate::systems::{System, SystemFault};
use std::alloc::Global;
use tn_config::{Block, Config, raw_network};
use tn_module::{Library, Module};
use tn_net::{Network, Tree, TreeFault, load_tree};
use tn_text::{Detail, Fault, FaultCode, FileName, ReadFault};

/// The images and programs of all processors of a configuration, the network, and the tree by which it
/// loads.
///
/// These are the modules of `files.modules`, and the libraries of `files.libraries`, in their order. A
/// processor's modules are those that it names and those of its libraries that these need; it has
/// the image that `image` of tn_image makes of them, and its program is these modules as they are
/// linked there.
///
/// The fault is the first of these. For each processor in order: that of the names of its modules, at
/// the line of the import or export in the file of the module, as `UndefinedSymbol`,
/// `DuplicateSymbol` or `WrongKind` with the name; the limits of its items, cells and code; that of its
/// image, in the file of the configuration. Then that of the network, in the file of the
/// configuration. Then `Unreachable`, at the line of the first processor that no path leads to, with
/// its name.
pub fn system(
    alloc: Global,
    config_file: &FileName,
    config: &Config,
    files: &NamedFiles,
    pool: &[Module],
    shelf: &[Library],
) -> Result<System, SystemFault>
    requires read { AreRead (sources config_file.now config.now pool.now shelf.now) }
    requires files { lists_of files.now ≡ named_files (config_of config.now) }
    ensures one { (s : Sources) → IsAdmitted (described s.config) → OneAnswers s }
    ensures system { IfOk result (λ found. IsSystem (sources config_file.now config.now pool.now shelf.now) (system_of found)) }
    ensures images { IfOk result (λ found. AreImages (images_of found.images.items)) }
    ensures whole { IfOk result (λ found. IsWholeTree found.tree.nodes.items (length found.images.items)) }
    ensures fault { IfErr result (λ fault. IfFault fault (IsSystemFault (sources config_file.now config.now pool.now shelf.now))) }
{
    let Processors { images, programs } = match make_processors(
        alloc,
        config_file,
        config,
        files,
        pool,
        shelf,
    ) {
        Ok(made) => made,
        Err(fault) => return Err(fault),
    };
    let network = match network(alloc, config_file, config) {
        Ok(network) => network,
        Err(fault) => return Err(fault),
    };
    match tree(alloc, config_file, config, &network) {
        Ok(tree) => Ok(System {
            images,
            programs,
            network,
            tree,
        }),
        Err(fault) => Err(fault),
    }
}

/// The network of the configuration, or its fault.
fn network(alloc: Global, config_file: &FileName, config: &Config) -> Result<Network, SystemFault>
    requires { IsAdmitted (described (config_of config.now)) }
    ensures network { IfOk result (λ network. IsNetwork (described (config_of config.now)) network) }
    ensures pairing { IfOk result (λ network. IsPairing network) }
    ensures faultless { IfOk result (λ _. IsFaultless (described (config_of config.now))) }
    ensures fault { IfErr result (λ fault. IfFault fault (λ told. (found : Fault)
        × IsNetworkFault (described (config_of config.now)) found × (SystemFault.Fault config_file.now found ≡ told))) }
{
    let raw = match raw_network(alloc, config) {
        Ok(raw) => raw,
        Err(_) => return Err(SystemFault::NoMemory),
    };
    match Network::check(alloc, &raw) {
        Ok(network) => Ok(network),
        Err(ReadFault::Fault(fault)) => Err(SystemFault::Fault(config_file.copied(), fault)),
        Err(ReadFault::NoMemory) => Err(SystemFault::NoMemory),
    }
}

/// The load tree, or that no path leads to a processor.
fn tree(
    alloc: Global,
    config_file: &FileName,
    config: &Config,
    network: &Network,
) -> Result<Tree, SystemFault>
    requires { length network.now.sizes ≡ length config.now.blocks.items }
    ensures tree { IfOk result (λ tree. IsLoadTree network.now tree.nodes.items) }
    ensures whole { IfOk result (λ tree. IsWholeTree tree.nodes.items (length config.now.blocks.items)) }
    ensures fault { IfErr result (λ fault. IfFault fault (λ told. (p : ℕ) × IsFirstUnreachable network.now p
        × (option_map (unreachable config_file.now) (slice_get (config_of config.now).blocks p) ≡ Some told))) }
{
    match load_tree(alloc, network) {
        Ok(tree) => Ok(tree),
        Err(TreeFault::Unreachable(p)) => Err(unreachable(config_file, &config.blocks[p as usize])),
        Err(TreeFault::NoMemory) => Err(SystemFault::NoMemory),
    }
}

/// That no path leads to the processor.
fn unreachable(config_file: &FileName, block: &Block) -> SystemFault
    ensures { result ≡ unreachable config_file.now (block_of block.now) }
{
    let code = FaultCode::Unreachable;
    let line = block.lines.processor;
    let detail = Detail::Named(block.name);
    SystemFault::Fault(config_file.copied(), Fault { code, line, detail })
}
