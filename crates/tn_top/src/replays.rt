ghost use Rattle.std.specs.Prelude.{◌≡◌, ◌<◌, ◌≤◌, ◌^◌, ◌++◌, length, map, vec_len, IfOk, OnOk};
ghost use Rattle.std.specs.List.{flat_map};
ghost use Rattle.tn_text.specs.WordTexts.{spaced};
ghost use Rattle.tn_text.specs.declared.limits.TheConstants.{FILE_LIMIT};
ghost use Rattle.tn_top.specs.ReplayPlans.{schedule_in, with_text, schedule_plan, replay_sources_plan, line_at, one_apart, tokens_at};
ghost use Rattle.tn_replay.specs.ReplayEnds.{IsKnownOf};
ghost use Rattle.tn_top.specs.ReplayPlans.{line_of, known_of, replay_answer};
ghost use Rattle.tn_top.specs.Inner.Stages.{Staged, Makes};
ghost use Rattle.tn_top.specs.Inner.Replays.{scheduled, replayed_of, AreWithin, IsStepRefusal, Replies};
ghost use Rattle.tn_top.specs.Inner.Systems.{IsLoadable};
ghost use Rattle.tn_top.specs.SystemNets.{system_net};

use crate::reading::read_file;
use crate::refusals::Refusal;
use crate::started_nets::started_net;
use crate::systems::{Configured, read_system};
use crate::tree_prints::names_of;
use std::alloc::{AllocError, Global};
use tn_io::{Out, Store};
use tn_network::Net;
use tn_replay::{ReplayFault, replay};
use tn_schedule::{Schedule, ScheduleFault, read_schedule};
use tn_text::limits::Limit;
use tn_text::{FileName, Name, next_line, tokens_of};

/// A schedule and its text.
#[derive(Drop)]
pub struct Scheduled {
    pub text: Vec<u8>,
    pub schedule: Schedule,
}

/// What a replay is of: a system with the names of its processors, and a schedule.
#[derive(Drop)]
pub struct ReplayInput {
    pub read: Configured,
    pub names: Vec<Name>,
    pub scheduled: Scheduled,
}

/// Reads a configuration and each file that it names, makes its system, and reads a schedule.
pub fn read_replay<S: Store>(
    alloc: Global,
    config: &FileName,
    schedule: &FileName,
    store: &mut S,
) -> Result<ReplayInput, Refusal>
    ensures staged { Staged replayed_of (replay_sources_plan config.now schedule.now) (S.stored store.old) (S.stored store.new) result }
    ensures loadable { IfOk result (λ r. IsLoadable r.read.system) }
    ensures names { IfOk result (λ r. r.names.items ≡ map (λ b. b.name) r.read.config.blocks.items) }
    ensures within { IfOk result (λ r. AreWithin (length r.names.items) r.scheduled.schedule.lines.items) }
{
    let read = read_system(alloc, config, store)?;
    let names = names_of(alloc, &read.config.blocks)?;
    let scheduled = read_scheduled(alloc, schedule, &names, store)?;
    Ok(ReplayInput {
        read,
        names,
        scheduled,
    })
}

/// The schedule in a file.
fn read_scheduled<S: Store>(
    alloc: Global,
    file: &FileName,
    names: &[Name],
    store: &mut S,
) -> Result<Scheduled, Refusal>
    requires { length names.now < 2 ^ 32 }
    ensures staged { Staged scheduled (schedule_plan file.now names.now) (S.stored store.old) (S.stored store.new) result }
    ensures within { IfOk result (λ s. AreWithin (length names.now) s.schedule.lines.items) }
{
    let text = read_file(alloc, file, store)?;
    schedule_in(alloc, file, names, text)
}

/// The schedule of a text, that of a file.
#[tactic(auto, unfolding(crate::specs::ReplayPlans::schedule_in))]
fn schedule_in(
    alloc: Global,
    file: &FileName,
    names: &[Name],
    text: Vec<u8>,
) -> Result<Scheduled, Refusal>
    requires names { length names.now < 2 ^ 32 }
    requires text { vec_len text ≤ FILE_LIMIT }
    ensures made { Makes scheduled (with_text text.items (schedule_in file.now names.now text.items)) result }
    ensures within { IfOk result (λ s. AreWithin (length names.now) s.schedule.lines.items) }
{
    match read_schedule(alloc, &text, names) {
        Ok(schedule) => Ok(Scheduled { text, schedule }),
        Err(ScheduleFault::Fault(first)) => Err(Refusal::Fault(file.copied(), first)),
        Err(ScheduleFault::Lines(count)) => Err(Refusal::Limit(Limit::Lines, count)),
        Err(ScheduleFault::NoMemory) => Err(Refusal::NoMemory),
    }
}

/// Replays the lines of a schedule, that of a file, in the network of a system after power-up, and ends
/// the command. What the lines before one that is not enabled print is printed.
pub fn print_replay<O: Out>(
    alloc: Global,
    file: &FileName,
    input: &ReplayInput,
    out: &mut O,
) -> Result<(), Refusal>
    requires loadable { IsLoadable input.now.read.system }
    requires entries { length input.now.read.system.images.items ≡ length input.now.read.system.network.sizes }
    requires names { input.now.names.items ≡ map (λ b. b.name) input.now.read.config.blocks.items }
    requires known { IsKnownOf input.now.read.system.network (known_of (replayed_of input.now)) }
    requires within { AreWithin (length input.now.names.items) input.now.scheduled.schedule.lines.items }
    ensures replies { Replies (replay_answer file.now (replayed_of input.now)) (O.printed out.old) (O.printed out.new) result }
    ensures goes_on { O.goes_on out.old out.new }
{
    let power = input.scheduled.schedule.power;
    let mut net = started_net(alloc, &input.read.system, power)?;
    print_replay_in(alloc, file, input, &mut net, out)
}

/// The same, in the network of the system after power-up.
fn print_replay_in<O: Out>(
    alloc: Global,
    file: &FileName,
    input: &ReplayInput,
    net: &mut Net,
    out: &mut O,
) -> Result<(), Refusal>
    requires started { net.old ≡ system_net (replayed_of input.now).schedule.power (replayed_of input.now).system }
    requires names { input.now.names.items ≡ map (λ b. b.name) input.now.read.config.blocks.items }
    requires known { IsKnownOf input.now.read.system.network (known_of (replayed_of input.now)) }
    requires within { AreWithin (length input.now.names.items) input.now.scheduled.schedule.lines.items }
    ensures replies { Replies (replay_answer file.now (replayed_of input.now)) (O.printed out.old) (O.printed out.new) result }
    ensures goes_on { O.goes_on out.old out.new }
{
    let system = &input.read.system;
    let schedule = &input.scheduled.schedule;
    let (names, programs, images) = (&input.names, &system.programs, &system.images);
    match replay(
        alloc,
        net,
        &system.network,
        names,
        programs,
        images,
        schedule,
        out,
    ) {
        Ok(_) => Ok(()),
        Err(ReplayFault::NotEnabled(i)) => Err(not_enabled(alloc, file, &input.scheduled, i)),
        Err(ReplayFault::Out) => Err(Refusal::Unprinted),
        Err(ReplayFault::NoMemory) => Err(Refusal::NoMemory),
    }
}

/// That the step of the line of an act, in a schedule of this file, is not enabled.
fn not_enabled(alloc: Global, file: &FileName, scheduled: &Scheduled, i: u32) -> Refusal
    requires { i < length scheduled.now.schedule.lines.items }
    ensures { IsStepRefusal file.now (line_of scheduled.now.schedule.lines.items i)
        (tokens_at scheduled.now.text.items (line_of scheduled.now.schedule.lines.items i)) result }
{
    let line = scheduled.schedule.lines[i as usize].line;
    match tokens_at(alloc, &scheduled.text, line) {
        Ok(tokens) => Refusal::NotEnabled(file.copied(), line, tokens),
        Err(_) => Refusal::NoMemory,
    }
}

/// The tokens of a line of a text, counted from 1, one blank apart.
fn tokens_at(alloc: Global, text: &[u8], number: u32) -> Result<Vec<u8>, AllocError>
    ensures { IfOk result (λ tokens. tokens.items ≡ tokens_at text.now number) }
{
    let tokens = tokens_of(alloc, line_at(text, number))?;
    one_apart(alloc, &tokens)
}

/// A line of a text, counted from 1: an empty one where the text has not so many.
fn line_at(text: &[u8], number: u32) -> &[u8]
    ensures { result.now ≡ line_at text.now number }
{
    let mut left = number.saturating_sub(1);
    let mut rest = text;
    while let Some((line, behind)) = next_line(rest) {
        if left == 0 {
            return line;
        }
        left -= 1;
        rest = behind;
    }
    b""
}

/// Tokens one blank apart.
#[tactic(auto, unfolding(crate::specs::ReplayPlans::one_apart))]
fn one_apart(alloc: Global, tokens: &[&[u8]]) -> Result<Vec<u8>, AllocError>
    ensures { IfOk result (λ text. text.items ≡ one_apart (map (λ token. token.now) tokens.now)) }
{
    let [first, rest @ ..] = tokens else {
        return Ok(Vec::new(alloc));
    };
    let mut text = Vec::from_slice(alloc, first)?;
    put_spaced_all(rest, &mut text)?;
    Ok(text)
}

/// Puts tokens, a blank before each.
fn put_spaced_all(tokens: &[&[u8]], text: &mut Vec<u8>) -> Result<(), AllocError>
    ensures { OnOk result (text.new.items ≡ text.old.items ++ flat_map spaced (map (λ token. token.now) tokens.now)) }
{
    for token in tokens {
        text.push(b' ')?;
        text.extend_from_slice(token)?;
    }
    Ok(())
}
