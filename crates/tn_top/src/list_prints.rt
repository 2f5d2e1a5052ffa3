ghost use Rattle.std.specs.Prelude.{◌≡◌, map};
ghost use Rattle.tn_config.specs.Configurations.{block_of};
ghost use Rattle.tn_stream.specs.Images.{image_of, images_of};
ghost use Rattle.tn_image.specs.Regions.{workspace_extent, region};
ghost use Rattle.tn_sym.specs.ProgramStates.{program_of};
ghost use Rattle.tn_list.specs.Lists.{Lists};
ghost use Rattle.tn_system.specs.Systems.{programs_of};
ghost use Rattle.tn_top.specs.ListPlans.{block_listing, listings, system_listing};
ghost use Rattle.tn_top.specs.Inner.Ends.{Shows};
ghost use Rattle.tn_top.specs.Inner.Systems.{configured};

use crate::refusals::Refusal;
use crate::systems::Configured;
use std::alloc::Global;
use tn_config::Block;
use tn_io::Out;
use tn_list::{ListFault, listing};
use tn_stream::Image;
use tn_sym::Program;
use tn_text::{Part, Region};

/// Prints the listing of each processor of a system, in the order of the configuration, and ends the
/// command.
pub fn print_list<O: Out>(alloc: Global, read: &Configured, out: &mut O) -> Result<(), Refusal>
    ensures shows { Shows (system_listing (configured read.now)) (O.printed out.old) (O.printed out.new) result }
    ensures goes_on { O.goes_on out.old out.new }
{
    let system = &read.system;
    match print_listings(
        alloc,
        &read.config.blocks,
        &system.programs,
        &system.images,
        out,
    ) {
        Ok(()) => Ok(()),
        Err(ListFault::Out) => Err(Refusal::Unprinted),
        Err(ListFault::NoMemory) => Err(Refusal::NoMemory),
    }
}

/// Prints the listings of processors with these blocks, programs and images.
fn print_listings<O: Out>(
    alloc: Global,
    blocks: &[Block],
    programs: &[Program],
    images: &[Image],
    out: &mut O,
) -> Result<(), ListFault>
    ensures lists { Lists (listings (map block_of blocks.now) (programs_of programs.now) (images_of images.now))
        result (O.printed out.old) (O.printed out.new) }
    ensures goes_on { O.goes_on out.old out.new }
{
    let count = blocks.len().min(programs.len()).min(images.len());
    for k in 0..count {
        match print_listing(alloc, &blocks[k], &programs[k], &images[k], out) {
            Ok(()) => {}
            Err(fault) => return Err(fault),
        }
    }
    Ok(())
}

/// Prints the listing of one processor.
fn print_listing<O: Out>(
    alloc: Global,
    block: &Block,
    program: &Program,
    image: &Image,
    out: &mut O,
) -> Result<(), ListFault>
    ensures lists { Lists (block_listing (block_of block.now) (program_of program.now) (image_of image.now))
        result (O.printed out.old) (O.printed out.new) }
    ensures goes_on { O.goes_on out.old out.new }
{
    listing(
        alloc,
        &block.name,
        &program.linked,
        &program.chosen,
        image,
        workspace(block),
        out,
    )
}

/// The region of the workspace of a processor: words below the workspace pointer, and words from there
/// on, those of the arguments among them.
fn workspace(block: &Block) -> Region
    ensures { result ≡ region (workspace_extent (block_of block.now)) }
{
    let wptr = u128::from(block.wptr);
    let above = u128::from(block.above).max(block.args.len() as u128);
    let from = wptr.saturating_sub(4 * u128::from(block.below));
    let to = wptr + 4 * above;
    Region {
        part: Part::Workspace,
        from: (from % 0x1_0000_0000) as u32,
        to: (to % 0x1_0000_0000) as u32,
    }
}
