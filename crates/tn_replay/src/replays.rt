ghost use Rattle.std.specs.Prelude.{◌≡◌, ◌+◌, ◌<◌, ◌≤◌, ◌^◌, true, length, None, IfOk};
ghost use Rattle.tn_io.specs.Outs.{Prints};
ghost use Rattle.tn_schedule.specs.Schedules.{ArePlaced, IsPlaced};
ghost use Rattle.tn_replay.specs.Replays.{known, beginning};
ghost use Rattle.tn_replay.specs.ReplayEnds.{IsKnownOf, Replays};
ghost use Rattle.tn_replay.specs.Inner.LineEnds.{state_of, PrintEnds};
ghost use Rattle.tn_replay.specs.Inner.Lookups.{known_in};
ghost use Rattle.tn_replay.specs.Inner.SoFar.{fault_of};

use crate::lookups::Lookup;
use crate::replay_lines::{LineFault, do_line};
use std::alloc::Global;
use thiserror::Error;
use tn_io::{Out, OutFault};
use tn_net::Network;
use tn_network::Net;
use tn_schedule::{Act, Schedule};
use tn_stream::Image;
use tn_sym::{Program, SymNet};
use tn_text::Name;

/// A replay that came to its end.
#[derive(Clone, Copy)]
pub struct Summary {
    /// How many picks were made.
    pub steps: u64,
}

/// Why a replay ended before.
#[derive(Clone, Copy, Debug, Error)]
pub enum ReplayFault {
    /// The pick or the release of the line with this index is not enabled.
    #[error("a line of the schedule is not enabled")]
    NotEnabled(u32),
    /// The output did not take all of it.
    #[error("the text cannot be printed")]
    Out,
    #[error("no memory")]
    NoMemory,
}

/// Does the lines of a schedule to a network that is held, one after the other, and prints what they
/// say: a line at most for each, or four for `links`, by one write. Once the hold is lifted the symbolic
/// network of the programs goes beside it: each pick but a prefix byte is one of both, until that stops.
///
/// There is a name for each processor; programs and images belong together. The processors of the acts
/// that print are positions in the names, as in any schedule that was read with them, and the lines are
/// fewer than 2^31.
///
/// `NotEnabled` comes exactly at the first line whose pick or release is not enabled in the state that
/// the lines before it leave, and carries its index from 0; the network is in that state, and what those
/// lines print is printed. A release is enabled where the network is held and loaded with the images.
/// `Out` comes only where the output's count of faults rose: the network is as the line left it whose
/// text was refused. `NoMemory` leaves it as the lines before left it, or with the picks or the release
/// of the line at which it came. A prefix of the text was printed then.
///
/// By the law of `tells_truth` the two networks are in the same state wherever `same` is printed.
pub fn replay<O: Out>(
    alloc: Global,
    net: &mut Net,
    network: &Network,
    names: &[Name],
    programs: &[Program],
    images: &[Image],
    schedule: &Schedule,
    out: &mut O,
) -> Result<Summary, ReplayFault>
    requires wires { net.old.board.network ≡ network.now }
    requires known { IsKnownOf network.now (known names.now programs.now images.now) }
    requires held { net.old.holds.held ≡ true }
    requires placed { ArePlaced (length names.now) schedule.now.lines.items }
    requires few { length schedule.now.lines.items < 2 ^ 31 }
    ensures replays { Replays (known names.now programs.now images.now) schedule.now.lines.items (beginning net.old)
        result net.new (O.printed out.old) (O.printed out.new) }
    ensures goes_on { O.goes_on out.old out.new }
{
    let lookup = Lookup {
        network,
        names,
        programs,
        images,
    };
    let mut symbolic = None;
    do_lines(alloc, &lookup, schedule, net, &mut symbolic, out)
}

/// The same, looking things up there, where no symbolic network goes beside yet.
fn do_lines<O: Out>(
    alloc: Global,
    lookup: &Lookup,
    schedule: &Schedule,
    net: &mut Net,
    symbolic: &mut Option<SymNet>,
    out: &mut O,
) -> Result<Summary, ReplayFault>
    requires wires { net.old.board.network ≡ lookup.now.network.now }
    requires known { IsKnownOf net.old.board.network (known_in lookup.now) }
    requires alone { symbolic.old ≡ None }
    requires placed { ArePlaced (length lookup.now.names.now) schedule.now.lines.items }
    requires few { length schedule.now.lines.items < 2 ^ 31 }
    ensures replays { Replays (known_in lookup.now) schedule.now.lines.items (beginning net.old)
        result net.new (O.printed out.old) (O.printed out.new) }
    ensures goes_on { O.goes_on out.old out.new }
{
    let mut steps = 0;
    let mut index = 0;
    let mut rest = schedule.lines.as_slice();
    while let Some((line, behind)) = rest.split_first() {
        match replay_line(alloc, lookup, line.act, net, symbolic, steps, out) {
            Ok(made) => {
                steps = made;
                index += 1;
                rest = behind;
            }
            Err(fault) => return Err(fault_of(index, fault)),
        }
    }
    Ok(Summary { steps })
}

/// Why the replay ends at the line with an index.
fn fault_of(index: u32, fault: LineFault) -> ReplayFault
    ensures { result ≡ fault_of index fault }
{
    match fault {
        LineFault::NotEnabled => ReplayFault::NotEnabled(index),
        LineFault::Out => ReplayFault::Out,
        LineFault::NoMemory => ReplayFault::NoMemory,
    }
}

/// Does what a line says and prints its text, and answers how many picks were made by then, where so
/// many were before.
fn replay_line<O: Out>(
    alloc: Global,
    lookup: &Lookup,
    act: Act,
    net: &mut Net,
    symbolic: &mut Option<SymNet>,
    steps: u64,
    out: &mut O,
) -> Result<u64, LineFault>
    requires wires { net.old.board.network ≡ lookup.now.network.now }
    requires known { IsKnownOf net.old.board.network (known_in lookup.now) }
    requires placed { IsPlaced (length lookup.now.names.now) act }
    requires room { steps + 2 ^ 32 < 2 ^ 64 }
    ensures ends { PrintEnds (known_in lookup.now) act (state_of net.old symbolic.old steps) net.new symbolic.new
        (O.printed out.old) (O.printed out.new) result }
    ensures few { IfOk result (λ made. made ≤ steps + 2 ^ 32) }
    ensures count { (O.printed out.old).faults ≤ (O.printed out.new).faults }
    ensures goes_on { O.goes_on out.old out.new }
{
    let mut text = Vec::new(alloc);
    match do_line(alloc, lookup, act, net, symbolic, steps, &mut text) {
        Ok(made) => match print_text(&text, out) {
            Ok(()) => Ok(made),
            Err(_) => Err(LineFault::Out),
        },
        Err(fault) => Err(fault),
    }
}

/// Prints a text by one write, or by none if it is empty.
fn print_text<O: Out>(text: &[u8], out: &mut O) -> Result<(), OutFault>
    ensures prints { Prints text.now result (O.printed out.old) (O.printed out.new) }
    ensures goes_on { O.goes_on out.old out.new }
{
    if text.is_empty() {
        Ok(())
    } else {
        out.write(text)
    }
}
