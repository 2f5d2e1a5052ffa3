ghost use Rattle.std.specs.Prelude.{◌≡◌, ◌<◌, ◌≤◌, ℕ, List, map, string_bytes, None, Some, IfSome, IfOk};
ghost use Rattle.tn_text.specs.Counts.{Rose};
ghost use Rattle.tn_io.specs.Outs.{Printed};
ghost use Rattle.tn_io.specs.Stores.{Stored};
ghost use Rattle.tn_text.specs.declared.faults.Fault.{Fault};
ghost use Rattle.tn_text.specs.declared.limits.Limit.{Limit};
ghost use Rattle.tn_words.specs.CommandWords.{Asked, one, build, tree, replay, grid, asked, IsInRange};
ghost use Rattle.tn_words.specs.ReadWords.{IsFor, asked_by};
ghost use Rattle.tn_top.specs.OneProcessor.{boot_stream};
ghost use Rattle.tn_io.specs.FileLists.{Files};
ghost use Rattle.tn_top.specs.Plans.{Answer, fault, limit, refused, then_plan};
ghost use Rattle.tn_top.specs.SystemPlans.{system_plan, stream_written, tree_printed};
ghost use Rattle.tn_top.specs.ListPlans.{listing_printed};
ghost use Rattle.tn_top.specs.GridPlans.{grid_plan};
ghost use Rattle.tn_top.specs.ReplayPlans.{replay_plan};
ghost use Rattle.tn_top.specs.Commands.{code_plan, assembler_plan, library_plan, written_from, plan_of, plan_asked, IsAnswer};
ghost use Rattle.tn_top.specs.Outcomes.{Told, HasCause, NothingFailed, Unless, HasStatus, FilesAfter, PrintedAfter, Writes};
ghost use Rattle.tn_top.specs.Builds.{IsBuilt, IsShown, IsReplayed, IsGridShown, IsStarted};
ghost use Rattle.tn_top.specs.ErrLines.{Tells, IsLine};
ghost use Rattle.tn_top.specs.Inner.Ends.{Ends};

use crate::endings::write_file;
use crate::err_lines::{tell_end, tell_usage};
use crate::grids::{grid_file, grid_store, print_grid};
use crate::list_prints::print_list;
use crate::one_processor::write_code_stream;
use crate::reading::{read_code, read_library_text, read_module_of};
use crate::refusals::{Refusal, status_of};
use crate::replays::{print_replay, read_replay};
use crate::statuses::Status;
use crate::stream_files::write_stream;
use crate::systems::read_system;
use crate::tree_prints::print_tree;
use std::alloc::Global;
use tn_io::{Out, Store};
use tn_text::FileName;
use tn_words::{Command, NoMemory, command_of};

/// Runs the command that the words after the program's name spell.
pub fn run<S: Store, O: Out>(
    alloc: Global,
    words: &[String],
    store: &mut S,
    out: &mut O,
    err: &mut O,
) -> Status
    // The status has its cause.
    ensures cause { HasCause (plan_asked (map string_bytes words.now)) (S.stored store.old) (S.stored store.new)
        (O.printed out.old) (O.printed out.new) result }

    // Where no call failed, the status is the answer's, unless memory ran out.
    ensures status { NothingFailed (S.stored store.old) (S.stored store.new) (O.printed out.old) (O.printed out.new)
        → IfSome (S.stored store.old).files (λ files. HasStatus (plan_asked (map string_bytes words.now)) files result) }

    // Words have one answer at most over files.
    ensures one { (files : Files) (a b : Answer) → IsAnswer (map string_bytes words.now) files a
        → IsAnswer (map string_bytes words.now) files b → a ≡ b }

    // `Usage` comes exactly where the words spell no command; a fault, a limit and a step that is not
    // enabled come exactly where they are the answer and no read, and for the last no print, failed,
    // unless memory ran out.
    ensures usage { asked (map string_bytes words.now) ≡ None → result ≡ Status.Usage }
    ensures fault { (Rose (S.stored store.old).read_faults (S.stored store.new).read_faults → ⊥)
        → IfSome (S.stored store.old).files (λ files. (file : List ℕ) (first : Fault)
        → IsAnswer (map string_bytes words.now) files (fault file first) → Unless result Status.Fault) }
    ensures limit { (Rose (S.stored store.old).read_faults (S.stored store.new).read_faults → ⊥)
        → IfSome (S.stored store.old).files (λ files. (which : Limit) (count : ℕ)
        → IsAnswer (map string_bytes words.now) files (limit which count) → Unless result Status.Limit) }
    ensures not_enabled { (Rose (S.stored store.old).read_faults (S.stored store.new).read_faults → ⊥)
        → (Rose (O.printed out.old).faults (O.printed out.new).faults → ⊥)
        → IfSome (S.stored store.old).files (λ files. (file : List ℕ) (line : ℕ) (tokens text : List ℕ)
        → IsAnswer (map string_bytes words.now) files (refused file line tokens text) → Unless result Status.NotEnabled) }

    // What each name holds after the command, and that no file is open after `Done` of a command that
    // writes one.
    ensures files { IfSome (S.stored store.old).files (λ files.
        Told (S.stored store.old).files (S.stored store.new).files (FilesAfter (plan_asked (map string_bytes words.now)) result)) }
    ensures closed { (target : List ℕ) → Writes (plan_asked (map string_bytes words.now)) target → result ≡ Status.Done
        → (S.stored store.new).opened ≡ None }

    // After `Done` of `build` the configuration makes a system, each image of which has code of the least
    // sizes, and the file holds its stream, which brings the network from power-up to rest after exactly
    // the number of steps of its load tree, loaded, in every order of steps and whatever its memories held.
    // Once it is released its runs are those of the system's programs; so are they after `Done` of `replay`.
    ensures built { (config target : List ℕ) → asked (map string_bytes words.now) ≡ Some (build config target)
        → result ≡ Status.Done → IsBuilt config target (S.stored store.old) (S.stored store.new) }

    // After `Done` of `tree` the stream whose length and steps are printed does so; after `Done` of `replay` that
    // which the host sends, and after `Done` of `grid` that of the grid's system; after `Done` of `one` that in the
    // file, with every processor whose memory has room for the code.
    ensures shown { (config : List ℕ) → asked (map string_bytes words.now) ≡ Some (tree config) → result ≡ Status.Done
        → IsShown config (S.stored store.old) (O.printed out.old) (O.printed out.new) }
    ensures replayed { (config schedule : List ℕ) → asked (map string_bytes words.now) ≡ Some (replay config schedule)
        → result ≡ Status.Done → IsReplayed config schedule (S.stored store.old) (O.printed out.old) (O.printed out.new) }
    ensures gridded { (size : ℕ) → asked (map string_bytes words.now) ≡ Some (grid size) → result ≡ Status.Done
        → IsGridShown size (O.printed out.old) (O.printed out.new) }
    ensures started { (source target : List ℕ) (link : ℕ) → asked (map string_bytes words.now) ≡ Some (one source target link)
        → result ≡ Status.Done → IsStarted source target link (S.stored store.old) (S.stored store.new) }

    // What is printed, and what is told on the error output: the line of the status.
    ensures print { IfSome (S.stored store.old).files (λ files.
        PrintedAfter (plan_asked (map string_bytes words.now)) files result (O.printed out.old) (O.printed out.new)) }
    ensures err { (line : List ℕ) × IsLine (plan_asked (map string_bytes words.now)) (S.stored store.old) (S.stored store.new) result line
        × Tells line (O.printed err.old) (O.printed err.new) }
    ensures out_goes_on { O.goes_on out.old out.new }
    ensures err_goes_on { O.goes_on err.old err.new }
{
    let Some(command) = command_of(alloc, words) else {
        tell_usage(err);
        return Status::Usage;
    };
    let ended = perform(alloc, command, store, out);
    tell_end(&ended, err);
    status_of(&ended)
}

/// Does what a command asks for, where its words could be read.
fn perform<S: Store, O: Out>(
    alloc: Global,
    command: Result<Command, NoMemory>,
    store: &mut S,
    out: &mut O,
) -> Result<(), Refusal>
    requires in_range { IfOk command (λ c. IsInRange (asked_by c)) }
    ensures ends { (what : Asked) → IsFor what command
        → Ends (plan_of what) (S.stored store.old) (S.stored store.new) (O.printed out.old) (O.printed out.new) result }
    ensures goes_on { O.goes_on out.old out.new }
{
    let command = match command {
        Ok(command) => command,
        Err(NoMemory) => return Err(Refusal::NoMemory),
    };
    match command {
        Command::Flat { source, target } => flat(alloc, &source, &target, store),
        Command::One {
            source,
            target,
            link,
        } => one(alloc, &source, &target, link, store),
        Command::Asm { source, target } => asm(alloc, &source, &target, store),
        Command::Lib { target, sources } => lib(alloc, &target, &sources, store),
        Command::Build { config, target } => build(alloc, &config, &target, store),
        Command::List { config } => list(alloc, &config, store, out),
        Command::Tree { config } => tree(alloc, &config, store, out),
        Command::Replay { config, schedule } => replay(alloc, &config, &schedule, store, out),
        Command::Grid { size } => grid(alloc, size, out),
    }
}

/// Turns the flat source in one file into the code bytes in another.
fn flat<S: Store>(
    alloc: Global,
    source: &FileName,
    target: &FileName,
    store: &mut S,
) -> Result<(), Refusal>
    ensures { (said : Printed) → Ends (then_plan (code_plan source.now) (written_from target.now (λ code. code)))
        (S.stored store.old) (S.stored store.new) said said result }
{
    let code = read_code(alloc, source, store)?;
    write_file(target, &code, store)
}

/// Turns the flat source in one file into the stream, in another, that boots one processor by a
/// link and runs the code.
fn one<S: Store>(
    alloc: Global,
    source: &FileName,
    target: &FileName,
    link: u8,
    store: &mut S,
) -> Result<(), Refusal>
    requires { link < 4 }
    ensures { (said : Printed) → Ends (then_plan (code_plan source.now) (written_from target.now (boot_stream link)))
        (S.stored store.old) (S.stored store.new) said said result }
{
    let code = read_code(alloc, source, store)?;
    write_code_stream(alloc, target, link, code, store)
}

/// Turns the assembler source in one file into the module text in another.
fn asm<S: Store>(
    alloc: Global,
    source: &FileName,
    target: &FileName,
    store: &mut S,
) -> Result<(), Refusal>
    ensures { (said : Printed) → Ends (then_plan (assembler_plan source.now) (written_from target.now (λ text. text)))
        (S.stored store.old) (S.stored store.new) said said result }
{
    let text = read_module_of(alloc, source, store)?;
    write_file(target, &text, store)
}

/// Joins the module texts in some files to the library text in another.
fn lib<S: Store>(
    alloc: Global,
    target: &FileName,
    sources: &[FileName],
    store: &mut S,
) -> Result<(), Refusal>
    ensures { (said : Printed) → Ends (then_plan (library_plan sources.now) (written_from target.now (λ text. text)))
        (S.stored store.old) (S.stored store.new) said said result }
{
    let text = read_library_text(alloc, sources, store)?;
    write_file(target, &text, store)
}

/// Builds the system of a configuration, and writes its stream to a file.
fn build<S: Store>(
    alloc: Global,
    config: &FileName,
    target: &FileName,
    store: &mut S,
) -> Result<(), Refusal>
    ensures { (said : Printed) → Ends (then_plan (system_plan config.now) (stream_written target.now))
        (S.stored store.old) (S.stored store.new) said said result }
{
    let read = read_system(alloc, config, store)?;
    write_stream(target, &read.system.tree, &read.system.images, store)
}

/// Builds the system of a configuration, and lists its processors.
fn list<S: Store, O: Out>(
    alloc: Global,
    config: &FileName,
    store: &mut S,
    out: &mut O,
) -> Result<(), Refusal>
    ensures ends { Ends (then_plan (system_plan config.now) listing_printed)
        (S.stored store.old) (S.stored store.new) (O.printed out.old) (O.printed out.new) result }
    ensures goes_on { O.goes_on out.old out.new }
{
    let read = read_system(alloc, config, store)?;
    print_list(alloc, &read, out)
}

/// Builds the system of a configuration, and prints its load tree.
fn tree<S: Store, O: Out>(
    alloc: Global,
    config: &FileName,
    store: &mut S,
    out: &mut O,
) -> Result<(), Refusal>
    ensures ends { Ends (then_plan (system_plan config.now) tree_printed)
        (S.stored store.old) (S.stored store.new) (O.printed out.old) (O.printed out.new) result }
    ensures goes_on { O.goes_on out.old out.new }
{
    let read = read_system(alloc, config, store)?;
    print_tree(alloc, &read, out)
}

/// Builds the system of a configuration, and replays the lines of a schedule in its network.
fn replay<S: Store, O: Out>(
    alloc: Global,
    config: &FileName,
    schedule: &FileName,
    store: &mut S,
    out: &mut O,
) -> Result<(), Refusal>
    ensures ends { Ends (replay_plan config.now schedule.now)
        (S.stored store.old) (S.stored store.new) (O.printed out.old) (O.printed out.new) result }
    ensures goes_on { O.goes_on out.old out.new }
{
    let input = read_replay(alloc, config, schedule, store)?;
    print_replay(alloc, schedule, &input, out)
}

/// Makes a grid of `size` by `size` processors in a store of its own, builds its system, loads and runs
/// its network, and prints what that comes to. It has nothing to do with the store of the other commands.
fn grid<O: Out>(alloc: Global, size: u32, out: &mut O) -> Result<(), Refusal>
    requires least { 1 ≤ size }
    requires most { size ≤ 8 }
    ensures ends { (stored : Stored) → Ends (grid_plan size) stored stored (O.printed out.old) (O.printed out.new) result }
    ensures goes_on { O.goes_on out.old out.new }
{
    let mut own = grid_store(alloc, size)?;
    let read = read_system(alloc, &grid_file(), &mut own)?;
    print_grid(alloc, size, &read.system, out)
}
