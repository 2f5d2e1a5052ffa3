ghost use Rattle.std.specs.Prelude.{◌≡◌, ◌<◌, ◌≤◌, ◌^◌, ◌%◌, length};
ghost use Rattle.tn_text.specs.Firsts.{first_cause};
ghost use Rattle.tn_config.specs.Configurations.{block_of};
ghost use Rattle.tn_image.specs.Images.{IsInRange};
ghost use Rattle.tn_image.specs.Regions.{code_extent, cells_extent, workspace_extent, memory_end};
ghost use Rattle.tn_image.specs.Checks.{no_entry_fault, fault_of_one, misaligned, code_outside, outside, overlapping, region_checks};

use crate::regions::{Extent, cells_extent, code_extent, memory_end, workspace_extent};
use tn_config::Block;
use tn_text::{Detail, Fault, FaultCode};
use tn_word::LOAD_BASE;

/// The fault of an entry that is no exported label of code.
pub(crate) fn no_entry(block: &Block) -> Fault
    ensures { result ≡ no_entry_fault (block_of block.now) }
{
    Fault {
        code: FaultCode::NoEntry,
        line: block.lines.entry,
        detail: Detail::Named(block.entry),
    }
}

/// The first fault that the checks of the regions find, where code and cells have so many bytes.
pub(crate) fn region_fault(block: &Block, code_length: usize, cells_length: usize) -> Option<Fault>
    requires range { IsInRange (block_of block.now) }
    requires code { code_length ≤ 2 ^ 20 }
    requires cells { cells_length ≤ 2 ^ 20 }
    ensures { result ≡ first_cause (region_checks (block_of block.now) (code_extent (block_of block.now) code_length)
        (cells_extent (block_of block.now) cells_length) (workspace_extent (block_of block.now))) }
{
    let code = code_extent(block, code_length);
    let cells = cells_extent(block, cells_length);
    let workspace = workspace_extent(block);
    let lines = block.lines;
    first_fault(&[
        misaligned(block, block.cells, lines.cells, cells),
        misaligned(block, block.wptr, lines.workspace, workspace),
        code_outside(block, code),
        outside(block, lines.cells, cells),
        outside(block, lines.workspace, workspace),
        overlapping(block, lines.code, code, cells),
        overlapping(block, lines.code, code, workspace),
        overlapping(block, lines.cells, cells, workspace),
    ])
}

/// The fault of the first of these checks that finds one.
fn first_fault(checks: &[(bool, Fault)]) -> Option<Fault>
    ensures { result ≡ first_cause checks.now }
{
    match checks {
        [] => None,
        [(true, fault), ..] => Some(*fault),
        [(false, _), rest @ ..] => first_fault(rest),
    }
}

/// Whether the base of the cells, or the workspace pointer, is no multiple of 4.
fn misaligned(block: &Block, address: u32, line: u32, extent: Extent) -> (bool, Fault)
    ensures { result ≡ misaligned (block_of block.now) address line extent }
{
    (
        address % 4 != 0,
        fault_of_one(FaultCode::Misaligned, block, line, extent),
    )
}

/// Whether the code does not lie in the memory. It may not begin below the least address of an
/// image, even if it is empty.
fn code_outside(block: &Block, code: Extent) -> (bool, Fault)
    requires range { IsInRange (block_of block.now) }
    ensures { result ≡ code_outside (block_of block.now) code }
{
    (
        code.from < u128::from(LOAD_BASE) || code.is_outside(memory_end(block)),
        fault_of_one(FaultCode::OutsideMemory, block, block.lines.code, code),
    )
}

/// Whether a region does not lie in the memory.
fn outside(block: &Block, line: u32, extent: Extent) -> (bool, Fault)
    requires range { IsInRange (block_of block.now) }
    ensures { result ≡ outside (block_of block.now) line extent }
{
    (
        extent.is_outside(memory_end(block)),
        fault_of_one(FaultCode::OutsideMemory, block, line, extent),
    )
}

/// Whether two regions share an address.
fn overlapping(block: &Block, line: u32, one: Extent, two: Extent) -> (bool, Fault)
    ensures { result ≡ overlapping (block_of block.now) line one two }
{
    let fault = Fault {
        code: FaultCode::Overlap,
        line,
        detail: Detail::Two(block.name, one.region(), two.region()),
    };
    (one.overlaps(two), fault)
}

/// A fault of one region.
fn fault_of_one(code: FaultCode, block: &Block, line: u32, extent: Extent) -> Fault
    ensures { result ≡ fault_of_one code line (block_of block.now).name extent }
{
    Fault {
        code,
        line,
        detail: Detail::One(block.name, extent.region()),
    }
}
