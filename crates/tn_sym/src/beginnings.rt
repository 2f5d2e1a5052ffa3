ghost use Rattle.std.specs.Prelude.{◌≡◌, ◌+◌, ◌^◌, ◌<◌, ℕ, map, length, slice_get, Some, All, IfOk};
ghost use Rattle.tn_stream.specs.Images.{images_of};
ghost use Rattle.tn_link.specs.Linking.{IsLinked};
ghost use Rattle.tn_sym.specs.Symbolic.{CodeState};
ghost use Rattle.tn_sym.specs.declared.programs.Program.{Program};
ghost use Rattle.tn_sym.specs.ProgramStates.{program_of};
ghost use Rattle.tn_sym.specs.Programs.{IsCodeOf, AreModules, Belong, AreLoaded, Begins};
ghost use Rattle.tn_sym.specs.Inner.Readings.{IsLow, IsLinkedProgram, AreCodesOf, region_at};

use crate::codes::Code;
use crate::nets::{NoMemory, SymNet};
use crate::programs::Program;
use crate::reading::instructions;
use std::alloc::{AllocError, Global};
use tn_module::Module;
use tn_net::{Far, Network};
use tn_network::Net;
use tn_stream::Image;

impl SymNet {
    /// The symbolic network that begins where a network is loaded with images, whether or not its hold is
    /// lifted: released, over copies of the memories in which the code of the programs is guarded. There are
    /// one program and one image for each processor of the network, and they belong together.
    pub fn begin(
        alloc: Global,
        net: &Net,
        network: &Network,
        programs: &[Program],
        images: &[Image],
    ) -> Result<SymNet, NoMemory>
        requires network { net.now.board.network ≡ network.now }
        requires belong { Belong network.now (map program_of programs.now) (images_of images.now) }
        requires loaded { AreLoaded (images_of images.now) net.now.board.state }
        ensures { IfOk result (λ symbolic. Begins (map program_of programs.now) net.now.board symbolic) }
    {
        let _images = images.len();
        let _count = net.board().count();
        let Ok(regions) = regions(alloc, programs) else {
            return Err(NoMemory);
        };
        let Ok(board) = net.guarded(&regions) else {
            return Err(NoMemory);
        };
        let Ok(fars) = fars(alloc, network) else {
            return Err(NoMemory);
        };
        let codes = codes(alloc, programs)?;
        Ok(SymNet {
            board,
            codes,
            fars,
            root: network.root().0,
            stop: None,
        })
    }
}

/// Where the codes of the programs lie.
fn regions(alloc: Global, programs: &[Program]) -> Result<Vec<(u32, u32)>, AllocError>
    requires { All IsLow programs.now }
    ensures { IfOk result (λ regions. regions.items ≡ map region_at programs.now) }
{
    let mut regions = Vec::new(alloc);
    for program in programs {
        regions.push(region_of(program))?;
    }
    Ok(regions)
}

fn region_of(program: &Program) -> (u32, u32)
    requires { IsLow program.now }
    ensures { result ≡ region_at program.now }
{
    let base = program.linked.code_base;
    (base, base + program.linked.code.len() as u32)
}

/// The far ends of all links, four for each processor in order.
fn fars(alloc: Global, network: &Network) -> Result<Vec<Far>, AllocError>
    ensures { IfOk result (λ fars. fars.items ≡ network.now.fars) }
{
    let mut fars = Vec::new(alloc);
    for k in 0..4 * network.count() {
        fars.push(network.far(k / 4, (k % 4) as u8))?;
    }
    Ok(fars)
}

/// The codes of the programs.
fn codes(alloc: Global, programs: &[Program]) -> Result<Vec<Code>, NoMemory>
    requires { All IsLinkedProgram programs.now }
    ensures { IfOk result (λ codes. AreCodesOf (map program_of programs.now) codes.items) }
{
    let mut codes = Vec::new(alloc);
    for program in programs {
        let code = code_of(alloc, program)?;
        if codes.push(code).is_err() {
            return Err(NoMemory);
        }
    }
    Ok(codes)
}

/// The code of a program.
fn code_of(alloc: Global, program: &Program) -> Result<Code, NoMemory>
    requires { IsLinkedProgram program.now }
    ensures { IfOk result (λ code. IsCodeOf (program_of program.now) code) }
{
    let modules: &[Module] = &program.chosen.modules;
    are_modules(modules);
    let base = program.linked.code_base;
    let instructions = instructions(alloc, modules, base, &program.linked.code)?;
    match copied(&program.linked.code) {
        Ok(bytes) => Ok(Code::of(base, bytes, instructions)),
        Err(_) => Err(NoMemory),
    }
}

/// Equal bytes.
fn copied(bytes: &Vec<u8>) -> Result<Vec<u8>, AllocError>
    ensures { IfOk result (λ copy. copy.items ≡ bytes.now.items) }
{
    bytes.clone()
}

/// Reads each module, so that what holds of every module is known of it.
fn are_modules(modules: &[Module])
    ensures { AreModules modules.now }
{
    for module in modules {
        let _parts = module.raw();
    }
}
