ghost use Rattle.std.specs.Prelude.{◌≡◌, OnOk};
ghost use Rattle.std.specs.Result.{result_map_both};
ghost use Rattle.tn_config.specs.Configurations.{block_of};
ghost use Rattle.tn_config.specs.ConfigReading.{begun, set, ended};
ghost use Rattle.tn_config.specs.ConfigFaults.{lacks};
ghost use Rattle.tn_config.specs.Inner.Readers.{draft_of};

use crate::configurations::{Block, BlockLines};
use crate::statements::Setting;
use std::alloc::{AllocError, Global};
use tn_text::{Cause, Detail, FaultCode, FileName, Lack, Name};

/// What the lines of a block have said, each with its line.
#[derive(Drop)]
pub struct Draft {
    pub line: u32,
    pub name: Name,
    pub size: u32,
    pub code: Option<(u32, u32)>,
    pub cells: Option<(u32, u32)>,
    pub workspace: Option<(u32, u32, u32, u32)>,
    pub entry: Option<(u32, Name)>,
    pub modules: Vec<FileName>,
    pub libraries: Vec<FileName>,
    pub args: Vec<u32>,
}

/// A block of which only the first line is read.
pub fn begun(alloc: Global, line: u32, name: Name, size: u32) -> Draft
    ensures { draft_of result ≡ begun line name size }
{
    Draft {
        line,
        name,
        size,
        code: None,
        cells: None,
        workspace: None,
        entry: None,
        modules: Vec::new(alloc),
        libraries: Vec::new(alloc),
        args: Vec::new(alloc),
    }
}

/// One line of the block more.
#[tactic(auto, unfolding(crate::specs::ConfigReading::set))]
pub fn set(draft: &mut Draft, line: u32, setting: Setting) -> Result<(), AllocError>
    ensures { OnOk result (draft_of draft.new ≡ set (draft_of draft.old) line setting) }
{
    match setting {
        Setting::Code(address) => draft.code = Some((line, address)),
        Setting::Data(address) => draft.cells = Some((line, address)),
        Setting::Workspace(wptr, below, above) => {
            draft.workspace = Some((line, wptr, below, above));
        }
        Setting::Module(file) => draft.modules.push(file)?,
        Setting::Library(file) => draft.libraries.push(file)?,
        Setting::Entry(label) => draft.entry = Some((line, label)),
        Setting::Arg(word) => draft.args.push(word)?,
    }
    Ok(())
}

/// The block, which ends. `Missing` comes with the first that it lacks of `code`, `data`,
/// `workspace`, `entry` and `module`.
#[tactic(auto, unfolding(crate::specs::ConfigReading::ended))]
pub fn ended(draft: Draft) -> Result<Block, Cause>
    ensures { result_map_both block_of (λ cause. cause) result ≡ ended (draft_of draft) }
{
    let Some((code_line, code)) = draft.code else {
        return Err(lacks(Lack::Code));
    };
    let Some((cells_line, cells)) = draft.cells else {
        return Err(lacks(Lack::Data));
    };
    let Some((workspace_line, wptr, below, above)) = draft.workspace else {
        return Err(lacks(Lack::Workspace));
    };
    let Some((entry_line, entry)) = draft.entry else {
        return Err(lacks(Lack::Entry));
    };
    if draft.modules.is_empty() {
        return Err(lacks(Lack::Module));
    }
    Ok(Block {
        name: draft.name,
        size: draft.size,
        code,
        cells,
        wptr,
        below,
        above,
        modules: draft.modules,
        libraries: draft.libraries,
        entry,
        args: draft.args,
        lines: BlockLines {
            processor: draft.line,
            code: code_line,
            cells: cells_line,
            workspace: workspace_line,
            entry: entry_line,
        },
    })
}

/// Something is lacking.
pub fn lacks(what: Lack) -> Cause
    ensures { result ≡ lacks what }
{
    Cause {
        code: FaultCode::Missing,
        detail: Detail::Lacks(what),
    }
}
