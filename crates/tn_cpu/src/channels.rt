ghost use Rattle.std.specs.Prelude.{◌≡◌, ◌<◌, None};
ghost use Rattle.tn_mem.specs.Spaces.{SameExtents};
ghost use Rattle.tn_cpu.specs.Queues.{storable};
ghost use Rattle.tn_cpu.specs.Channels.{first_link, aligned_channel, channel_at, is_set, is_open, opens, linked, waiting, waits};
ghost use Rattle.tn_cpu.specs.Channels.{exchanged, bytes_refusal, other_way, partner_refusal, met, internal, is_outside, on_channel};
ghost use Rattle.tn_cpu.specs.Channels.{transfer_row};

use crate::outcomes::{Outcome, Transfer, Why};
use crate::processors::Cpu;
use crate::queues::{below, first_refusal};
use crate::registers::Reg;
use crate::turns::Turn;
use tn_mem::{Space, Touch};
use tn_word::{MOST_NEG, NOT_PROCESS};

/// The output channel of link 0, which those of links 1 to 3 follow.
const OUTPUT_LINKS: u32 = MOST_NEG;

/// The input channel of link 0, which those of links 1 to 3 follow.
const INPUT_LINKS: u32 = MOST_NEG + 16;

/// The address behind the event word, from which on a word can be a channel of two processes.
const FREE_WORDS: u32 = MOST_NEG + 36;

/// The direction of a transfer.
#[derive(Clone, Copy)]
pub enum Way {
    /// `in`.
    Input,
    /// `out`.
    Output,
}

/// What an address is as a channel.
#[derive(Clone, Copy)]
pub enum Channel {
    /// The channel word of a link, 0 to 3.
    Link(u8),
    /// A word by which two processes meet.
    Internal,
    /// Unaligned, the event word, or a link of the other direction.
    NoChannel,
}

/// Input and output. Areg is the count, Breg the channel, and Creg the address of the bytes.
impl<M: Space> Cpu<M> {
    /// `in` and `out`.
    pub(crate) fn transfer(&mut self, way: Way, turn: Turn) -> Outcome
        ensures { transfer_row M.access way turn self.old ≡ record { state = self.new; outcome = result } }
    {
        match (self.registers.a, self.registers.b, self.registers.c) {
            (Reg::Word(count), Reg::Word(channel), Reg::Word(pointer)) => {
                self.on_channel(way, turn, count, channel, pointer)
            }
            _ => self.stop(Why::Undefined),
        }
    }

    /// A transfer, by the kind of its channel.
    fn on_channel(
        &mut self,
        way: Way,
        turn: Turn,
        count: u32,
        channel: u32,
        pointer: u32,
    ) -> Outcome
        ensures { on_channel M.access way turn count channel pointer (channel_at way channel) self.old
            ≡ record { state = self.new; outcome = result } }
    {
        match channel_at(way, channel) {
            Channel::NoChannel => self.stop(Why::Outside),
            Channel::Link(link) => self.on_link(way, turn, count, pointer, link),
            Channel::Internal => self.on_internal(way, turn, count, channel, pointer),
        }
    }

    /// A transfer on a link: its engine opens, and the next process runs.
    fn on_link(&mut self, way: Way, turn: Turn, count: u32, pointer: u32, link: u8) -> Outcome
        ensures { on_channel M.access way turn count 0 pointer (Channel.Link link) self.old
            ≡ record { state = self.new; outcome = result } }
    {
        let Reg::Word(_) = self.registers.front else {
            return self.stop(Why::Undefined);
        };
        if count == 0 || is_open(way, link, turn.busy) {
            return self.stop(Why::Outside);
        }
        let saved = self.storable(below(self.registers.wptr, 4));
        let words = first_refusal(saved, self.next_refusal(self.registers.back));
        if let Some(touch) = first_refusal(self.bytes_refusal(way, pointer, count), words) {
            return self.refuse(touch);
        }
        let transfer = Transfer {
            link,
            pointer,
            count,
            process: self.registers.wptr,
        };
        self.save(turn.following);
        self.next();
        opens(way, transfer)
    }

    /// A transfer between two processes.
    fn on_internal(
        &mut self,
        way: Way,
        turn: Turn,
        count: u32,
        channel: u32,
        pointer: u32,
    ) -> Outcome
        ensures { on_channel M.access way turn count channel pointer Channel.Internal self.old
            ≡ record { state = self.new; outcome = result } }
    {
        let refusal = self.storable(channel);
        if let Some(Touch::Outside) = refusal {
            return self.stop(Why::Outside);
        }
        let Reg::Word(_) = self.registers.front else {
            return self.stop(Why::Undefined);
        };
        if let Some(touch) = refusal {
            return self.refuse(touch);
        }
        let word = self.word_at(channel);
        if word == NOT_PROCESS {
            self.wait(turn, channel, pointer)
        } else if word % 4 != 1 {
            self.stop(Why::Outside)
        } else {
            self.meet(way, turn, count, channel, pointer, word - 1)
        }
    }

    /// The current process waits on a channel, and the next process runs.
    fn wait(&mut self, turn: Turn, channel: u32, pointer: u32) -> Outcome
        requires { storable M.access self.old.memory channel ≡ None }
        ensures { waits M.access turn channel pointer self.old ≡ record { state = self.new; outcome = result } }
    {
        let workspace = first_refusal(
            self.storable(below(self.registers.wptr, 12)),
            self.next_refusal(self.registers.back),
        );
        let saved = self.storable(below(self.registers.wptr, 4));
        if let Some(touch) = first_refusal(saved, workspace) {
            return self.refuse(touch);
        }
        self.save(turn.following);
        self.store(below(self.registers.wptr, 12), pointer);
        self.store(channel, self.registers.wptr.wrapping_add(1));
        self.give_way()
    }

    /// The current process meets the one that waits on a channel: the bytes are copied towards the
    /// inputting one, and both go on.
    fn meet(
        &mut self,
        way: Way,
        turn: Turn,
        count: u32,
        channel: u32,
        pointer: u32,
        process: u32,
    ) -> Outcome
        requires { storable M.access self.old.memory channel ≡ None }
        ensures { met M.access way turn count channel pointer process self.old ≡ record { state = self.new; outcome = result } }
    {
        let own = first_refusal(
            self.bytes_refusal(way, pointer, count),
            self.enqueue_refusal(),
        );
        if let Some(touch) = first_refusal(self.partner_refusal(way, process, count), own) {
            return self.refuse(touch);
        }
        let partner = self.word_at(below(process, 12));
        self.exchange(way, count, pointer, partner);
        self.store(channel, NOT_PROCESS);
        self.enqueue(process);
        self.clear();
        self.go_on(turn.following)
    }

    /// Why the block of a waiting process may not be used, if it may not.
    fn partner_refusal(&self, way: Way, process: u32, count: u32) -> Option<Touch>
        ensures { result ≡ partner_refusal M.access way self.now.memory process count }
    {
        match self.loadable(below(process, 12)) {
            Some(touch) => Some(touch),
            None => self.bytes_refusal(other_way(way), self.word_at(below(process, 12)), count),
        }
    }

    /// Why the block of a transfer may not be used, if it may not: `in` stores it, and `out` reads it.
    fn bytes_refusal(&self, way: Way, pointer: u32, count: u32) -> Option<Touch>
        ensures { result ≡ bytes_refusal M.access way self.now.memory pointer count }
    {
        match way {
            Way::Input => self.block_refusal(pointer, count),
            Way::Output => self.source_refusal(pointer, count),
        }
    }

    /// Copies towards the inputting process.
    fn exchange(&mut self, way: Way, count: u32, pointer: u32, partner: u32)
        requires own { bytes_refusal M.access way self.old.memory pointer count ≡ None }
        requires partner { bytes_refusal M.access (other_way way) self.old.memory partner count ≡ None }
        ensures extents { SameExtents M.access self.old.memory self.new.memory }
        ensures value { self.new ≡ record self.old { memory = exchanged M.access way count pointer partner self.old.memory } }
    {
        match way {
            Way::Input => self.copy(partner, pointer, count),
            Way::Output => self.copy(pointer, partner, count),
        }
    }
}

/// The direction of the other process on a channel.
fn other_way(way: Way) -> Way
    ensures { result ≡ other_way way }
{
    match way {
        Way::Input => Way::Output,
        Way::Output => Way::Input,
    }
}

/// What an address is as a channel.
#[tactic(auto, unfolding(crate::specs::Channels::channel_at))]
fn channel_at(way: Way, a: u32) -> Channel
    ensures { result ≡ channel_at way a }
{
    if a % 4 != 0 {
        return Channel::NoChannel;
    }
    match way {
        Way::Input => aligned_channel(INPUT_LINKS, a),
        Way::Output => aligned_channel(OUTPUT_LINKS, a),
    }
}

/// What a multiple of 4 is as a channel, where the words of the four links begin at `first`.
fn aligned_channel(first: u32, a: u32) -> Channel
    requires { first < 0x8000_0020 }
    ensures { result ≡ aligned_channel first a }
{
    if first <= a && a < first + 16 {
        Channel::Link(((a - first) / 4) as u8)
    } else if OUTPUT_LINKS <= a && a < FREE_WORDS {
        Channel::NoChannel
    } else {
        Channel::Internal
    }
}

/// Whether the engine of a link in a direction is open.
#[tactic(auto, unfolding(crate::specs::Channels::is_open))]
fn is_open(way: Way, link: u8, busy: u8) -> bool
    ensures { result ≡ is_open way link busy }
{
    match way {
        Way::Input => is_set(link, busy),
        Way::Output => is_set(link.saturating_add(4), busy),
    }
}

/// The outcome that opens an engine.
fn opens(way: Way, transfer: Transfer) -> Outcome
    ensures { result ≡ opens way transfer }
{
    match way {
        Way::Input => Outcome::OpensIn(transfer),
        Way::Output => Outcome::OpensOut(transfer),
    }
}

/// Whether a bit of a byte is set; there is no bit 8, nor any above it.
fn is_set(bit: u8, byte: u8) -> bool
    ensures { result ≡ is_set bit byte }
{
    bit < 8 && (byte >> bit) % 2 == 1
}
