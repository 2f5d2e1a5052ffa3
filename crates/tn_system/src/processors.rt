ghost use Rattle.std.specs.Prelude.{◌≡◌, Some, IfOk, IfErr};
ghost use Rattle.std.specs.List.{AllZip};
ghost use Rattle.tn_config.specs.Configurations.{config_of, block_of};
ghost use Rattle.tn_stream.specs.Images.{image_of, images_of, IsImage, AreImages};
ghost use Rattle.tn_image.specs.Images.{IsInRange};
ghost use Rattle.tn_sym.specs.ProgramStates.{program_of};
ghost use Rattle.tn_sym.specs.Programs.{AreModules};
ghost use Rattle.tn_system.specs.Sources.{sources, AreRead};
ghost use Rattle.tn_system.specs.NamedFiles.{lists_of, named_files};
ghost use Rattle.tn_system.specs.Systems.{programs_of, IsImageOf, IsProcessorImage, IsPlainFor};
ghost use Rattle.tn_system.specs.Systems.{IsProgramOf, IsProcessorProgram, BelongTogether};
ghost use Rattle.tn_system.specs.Faults.{image_fault, IsModulesFault, IsProcessorFault, IfFault};
ghost use Rattle.tn_system.specs.Inner.Offers.{offer_of, OfChoice, IsOfferOf};

use crate::files::NamedFiles;
use crate::symbols::{Offered, symbol_fault};
use crate::systems::SystemFault;
use std::alloc::Global;
use tn_config::Config;
use tn_image::{ImageFault, image};
use tn_link::LinkFault;
use tn_module::{Library, Module};
use tn_stream::Image;
use tn_sym::Program;
use tn_symbols::choose;
use tn_text::FileName;
use tn_text::limits::Limit;

/// The image of a processor, and the program that it is made of.
#[derive(Drop)]
pub(crate) struct Processor {
    pub(crate) image: Image,
    pub(crate) program: Program,
}

/// Those of all processors, in the order of the configuration.
#[derive(Drop)]
pub(crate) struct Processors {
    pub(crate) images: Vec<Image>,
    pub(crate) programs: Vec<Program>,
}

/// The images and programs of the processors, or the fault of the first that has none.
pub(crate) fn make_processors(
    alloc: Global,
    config_file: &FileName,
    config: &Config,
    files: &NamedFiles,
    pool: &[Module],
    shelf: &[Library],
) -> Result<Processors, SystemFault>
    requires read { AreRead (sources config_file.now config.now pool.now shelf.now) }
    requires files { lists_of files.now ≡ named_files (config_of config.now) }
    ensures made { IfOk result (λ made. AllZip (IsProcessorImage (sources config_file.now config.now pool.now shelf.now))
        (config_of config.now).blocks (images_of made.images.items)) }
    ensures images { IfOk result (λ made. AreImages (images_of made.images.items)) }
    ensures plain { IfOk result (λ made. AllZip IsPlainFor (config_of config.now).blocks (images_of made.images.items)) }
    ensures programs { IfOk result (λ made. AllZip (IsProcessorProgram (sources config_file.now config.now pool.now shelf.now))
        (config_of config.now).blocks (programs_of made.programs.items)) }
    ensures belong { IfOk result (λ made. AllZip BelongTogether (programs_of made.programs.items) (images_of made.images.items)) }
    ensures fault { IfErr result (λ fault. IfFault fault (IsProcessorFault (sources config_file.now config.now pool.now shelf.now))) }
{
    let mut images = Vec::new(alloc);
    let mut programs = Vec::new(alloc);
    for (k, block) in config.blocks.iter().enumerate() {
        let offer = Offered {
            block,
            places: &files.blocks[k],
            pool,
            shelf,
        };
        let Processor { image, program } = match make_processor(alloc, config_file, &offer) {
            Ok(made) => made,
            Err(fault) => return Err(fault),
        };
        images.push(image)?;
        programs.push(program)?;
    }
    Ok(Processors { images, programs })
}

/// The image of a processor, and its program.
fn make_processor(
    alloc: Global,
    config_file: &FileName,
    offer: &Offered<'_>,
) -> Result<Processor, SystemFault>
    requires offer { IsOfferOf (offer_of offer.now) (block_of offer.now.block.now) }
    requires range { IsInRange (block_of offer.now.block.now) }
    ensures made { IfOk result (λ made. OfChoice (offer_of offer.now) (block_of offer.now.block.now)
        (IsImageOf (block_of offer.now.block.now) (image_of made.image))) }
    ensures image { IfOk result (λ made. IsImage (image_of made.image)) }
    ensures plain { IfOk result (λ made. IsPlainFor (block_of offer.now.block.now) (image_of made.image)) }
    ensures program { IfOk result (λ made. OfChoice (offer_of offer.now) (block_of offer.now.block.now)
        (IsProgramOf (block_of offer.now.block.now) (program_of made.program))) }
    ensures belong { IfOk result (λ made. BelongTogether (program_of made.program) (image_of made.image)) }
    ensures fault { IfErr result (λ fault. IfFault fault (λ told. OfChoice (offer_of offer.now) (block_of offer.now.block.now)
        (IsModulesFault config_file.now (block_of offer.now.block.now) told))) }
{
    let places = offer.places;
    match choose(
        alloc,
        offer.pool,
        &places.modules,
        offer.shelf,
        &places.libraries,
    ) {
        Ok(chosen) => {
            each_is_valid(&chosen.modules);
            match image(alloc, offer.block, &chosen) {
                Ok(built) => Ok(Processor {
                    image: built.image,
                    program: Program {
                        linked: built.linked,
                        chosen,
                    },
                }),
                Err(fault) => Err(image_fault(config_file, fault)),
            }
        }
        Err(fault) => Err(symbol_fault(alloc, offer, fault)),
    }
}

/// Reads each module, so that what holds of every module is known of it.
fn each_is_valid(modules: &[Module])
    ensures { AreModules modules.now }
{
    for module in modules {
        let _parts = module.raw();
    }
}

/// Why a processor has no image.
fn image_fault(config_file: &FileName, fault: ImageFault) -> SystemFault
    ensures { IfFault result (λ told. image_fault config_file.now fault ≡ Some told) }
{
    match fault {
        ImageFault::Fault(fault) => SystemFault::Fault(config_file.copied(), fault),
        ImageFault::Link(LinkFault::Items(n)) => SystemFault::Limit(Limit::Items, n),
        ImageFault::Link(LinkFault::Cells(n)) => SystemFault::Limit(Limit::Cells, n),
        ImageFault::Link(LinkFault::Code(n)) => SystemFault::Limit(Limit::Code, n),
        ImageFault::Link(LinkFault::NoMemory) => SystemFault::NoMemory,
        ImageFault::NoMemory => SystemFault::NoMemory,
    }
}
