ghost use Rattle.std.specs.Prelude.{◌≡◌, ◌<◌, ◌↔◌, ◌&&◌, IsTrue, All, None, length};
ghost use Rattle.std.specs.List.{list_all};
ghost use Rattle.std.specs.Str.{bytes_eq};
ghost use Rattle.tn_mem.specs.Memories.{block};
ghost use Rattle.tn_network.specs.NodeOps.{is_running, stands_at};
ghost use Rattle.tn_network.specs.Loads.{AreLoadedNodes, IsLoaded};
ghost use Rattle.tn_stream.specs.Images.{segments_of, image_of, images_of};
ghost use Rattle.tn_load.specs.Targets.{placed_all, target_of, targets_of};
ghost use Rattle.tn_load.specs.LoadTests.{HasLatches, is_done, is_empty_at, holds_word, has_pointers};
ghost use Rattle.tn_load.specs.LoadTests.{is_shut, are_shut, gave, has_no_timers, is_placed, is_started, is_loaded_node};

use tn_cpu::Reg;
use tn_mem::{Memory, Space, Touch};
use tn_network::{Board, Net, Pick};
use tn_node::{LinkView, Mode, Node};
use tn_stream::{Image, Segment};
use tn_word::{MOST_NEG, NOT_PROCESS};

/// What the loader's RUN leaves in Areg: the address behind its last instruction.
const ENTRY_A: u32 = 0x8000_0131;

/// What it leaves in Breg: the workspace pointer with which the loader ran.
const ENTRY_B: u32 = 0x8000_0200;

/// The word that points to the front of the timer queue of high priority, and that of low priority.
const TIMER_HIGH: u32 = 0x8000_0024;

const TIMER_LOW: u32 = 0x8000_0028;

/// Whether a network is loaded with these images, one for each processor: the host has no byte left
/// and none unacknowledged, all latches are empty, and each processor stands at its entry with the
/// registers that the loader leaves, with no engine open and all queues empty, and with each segment
/// whole in its memory.
pub fn loaded(net: &Net, images: &[Image]) -> bool
    requires { length images.now ≡ length net.now.board.state.nodes }
    ensures { IsTrue result ↔ IsLoaded (λ m. m) net.now.board.state (targets_of (images_of images.now)) }
{
    let board = net.board();
    let _sends = board.ready(Pick::HostSend);
    if !is_done(board) || !are_empty(board) {
        return false;
    }
    are_loaded(board, images)
}

/// Whether the host has nothing more to send or to take.
fn is_done(board: &Board<Memory>) -> bool
    ensures { result ≡ is_done board.now.state.host }
{
    board.host_left() == 0 && !board.host_sent() && board.host_latch().is_none()
}

/// Whether all latches of the processors are empty.
fn are_empty(board: &Board<Memory>) -> bool
    requires { HasLatches board.now }
    ensures { IsTrue result ↔ All (λ byte. byte ≡ None) board.now.state.latches }
{
    for p in 0..board.count() {
        if !is_empty_at(board, p) {
            return false;
        }
    }
    true
}

/// Whether the latches of a processor are empty.
fn is_empty_at(board: &Board<Memory>, p: u32) -> bool
    requires { p < length board.now.network.sizes }
    ensures { result ≡ is_empty_at board.now.state.latches p }
{
    board.latch(p, 0).is_none()
        && board.latch(p, 1).is_none()
        && board.latch(p, 2).is_none()
        && board.latch(p, 3).is_none()
}

/// Whether each processor is loaded with its image.
fn are_loaded(board: &Board<Memory>, images: &[Image]) -> bool
    requires { length images.now ≡ length board.now.state.nodes }
    ensures { IsTrue result ↔ AreLoadedNodes (λ m. m) board.now.state.nodes (targets_of (images_of images.now)) }
{
    for p in 0..board.count() {
        if !is_loaded(board.node(p), &images[p as usize]) {
            return false;
        }
    }
    true
}

/// Whether a processor is loaded with an image.
fn is_loaded(node: &Node<Memory>, image: &Image) -> bool
    ensures { result ≡ is_loaded_node (target_of (image_of image.now)) node.now }
{
    is_started(node, image) && are_placed(node.cpu().memory(), image.segments.as_slice())
}

/// Whether a processor is as the loader leaves it, whatever stands in its segments.
fn is_started(node: &Node<Memory>, image: &Image) -> bool
    ensures { result ≡ is_started (target_of (image_of image.now)) node.now }
{
    has_pointers(node, image)
        && has_stack(node)
        && are_shut(node)
        && has_no_timers(node.cpu().memory())
}

/// Whether a processor stands at its entry, with its workspace pointer, an empty queue and no error.
fn has_pointers(node: &Node<Memory>, image: &Image) -> bool
    ensures { result ≡ has_pointers (target_of (image_of image.now)) node.now }
{
    let registers = node.cpu().view();
    stands_at(image.entry, node)
        && registers.wptr == image.wptr
        && holds_word(NOT_PROCESS, registers.front)
        && !registers.error
        && !registers.halt
}

/// Whether a processor stands at an entry.
fn stands_at(entry: u32, node: &Node<Memory>) -> bool
    ensures { result ≡ stands_at entry node.now }
{
    let registers = node.cpu().view();
    is_running(node.mode()) && registers.iptr == entry && registers.oreg == 0
}

/// Whether a mode is that of a processor that executes instructions.
fn is_running(mode: Mode) -> bool
    ensures { result ≡ is_running mode }
{
    match mode {
        Mode::Running => true,
        Mode::Reset => false,
        Mode::Poking => false,
        Mode::Peeking => false,
        Mode::Replying => false,
        Mode::Booting => false,
        Mode::Idle => false,
        Mode::Stopped(_) => false,
    }
}

/// Whether the three registers hold what the loader leaves in them.
fn has_stack(node: &Node<Memory>) -> bool
    ensures { result ≡ (holds_word 0x80000131 node.now.cpu.a && (holds_word 0x80000200 node.now.cpu.b && holds_word 0 node.now.cpu.c)) }
{
    let registers = node.cpu().view();
    holds_word(ENTRY_A, registers.a)
        && holds_word(ENTRY_B, registers.b)
        && holds_word(0, registers.c)
}

/// Whether a register holds a word.
fn holds_word(word: u32, register: Reg) -> bool
    ensures { result ≡ holds_word word register }
{
    match register {
        Reg::Word(other) => other == word,
        Reg::Undefined => false,
    }
}

/// Whether no engine of a node is open.
fn are_shut(node: &Node<Memory>) -> bool
    ensures { result ≡ are_shut node.now }
{
    is_shut(node.link(0)) && is_shut(node.link(1)) && is_shut(node.link(2)) && is_shut(node.link(3))
}

/// Whether no engine of a link is open.
fn is_shut(view: LinkView) -> bool
    ensures { result ≡ is_shut view }
{
    view.input.is_none() && view.output.is_none()
}

/// Whether both timer queues are empty.
fn has_no_timers(memory: &Memory) -> bool
    ensures { result ≡ has_no_timers memory.now }
{
    gave(NOT_PROCESS, memory.word(TIMER_HIGH)) && gave(NOT_PROCESS, memory.word(TIMER_LOW))
}

/// Whether a load gave a word.
fn gave(word: u32, loaded: Result<u32, Touch>) -> bool
    ensures { result ≡ gave word loaded }
{
    match loaded {
        Ok(other) => other == word,
        Err(_) => false,
    }
}

/// Whether each segment stands in a memory at its base.
fn are_placed(memory: &Memory, segments: &[Segment]) -> bool
    ensures { result ≡ list_all (λ piece. is_placed memory.now piece) (placed_all (segments_of segments.now)) }
{
    for segment in segments {
        if !is_placed(memory.bytes(), segment.base, segment.bytes.as_slice()) {
            return false;
        }
    }
    true
}

/// Whether bytes stand in those of a memory at an address.
fn is_placed(memory: &[u8], base: u32, bytes: &[u8]) -> bool
    ensures { result ≡ bytes_eq (block memory.now base (length bytes.now)) bytes.now }
{
    let at = base.saturating_sub(MOST_NEG) as usize;
    if at > memory.len() || bytes.len() > memory.len() - at {
        return bytes.is_empty();
    }
    memory[at..at + bytes.len()] == bytes[..]
}
