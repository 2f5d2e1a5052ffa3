ghost use Rattle.std.specs.Prelude.{◌<◌, length};

use tn_cpu::{CpuView, Reg, Why};
use tn_mem::Memory;
use tn_network::{Board, Net, Pick};
use tn_node::{Engine, Expects, Mode, Node};

/// A number that all that a network tells goes into, but what stands in its memories.
pub fn net_digest(net: &Net) -> u64 {
    let board = net.board();
    let mut digest = host_digest(START, board);
    digest = mixed(digest, u64::from(net.held()));
    digest = mixed(digest, u64::from(net.at_rest()));
    digest = mixed(digest, pick_number(net.first(false)));
    digest = mixed(digest, pick_number(net.first(true)));
    for p in 0..board.count() {
        digest = processor_digest(digest, board, p);
    }
    digest
}

/// What the memory of a processor goes into, besides.
pub fn memory_digest(digest: u64, board: &Board<Memory>, p: u32) -> u64 {
    if p < board.count() {
        mixed(digest, sum_of(board.node(p).cpu().memory().bytes()))
    } else {
        digest
    }
}

const START: u64 = 0xCBF2_9CE4_8422_2325;

/// A digest with a number more: that of Fowler, Noll and Vo, over numbers in place of bytes.
pub fn mixed(digest: u64, number: u64) -> u64 {
    (digest ^ number).wrapping_mul(0x0000_0100_0000_01B3)
}

/// The sum of bytes after Adler.
fn sum_of(bytes: &[u8]) -> u64 {
    let mut first: u32 = 1;
    let mut second: u32 = 0;
    for byte in bytes {
        first = first.wrapping_add(u32::from(*byte)) % 65_521;
        second = second.wrapping_add(first) % 65_521;
    }
    u64::from(second)
        .wrapping_mul(65_536)
        .wrapping_add(u64::from(first))
}

fn host_digest(digest: u64, board: &Board<Memory>) -> u64 {
    let mut digest = mixed(digest, board.host_left());
    digest = mixed(digest, u64::from(board.host_sent()));
    digest = mixed(digest, byte_number(board.host_latch()));
    mixed(digest, sum_of(board.host_got()))
}

fn byte_number(byte: Option<u8>) -> u64 {
    match byte {
        Some(byte) => u64::from(byte),
        None => 256,
    }
}

fn pick_number(pick: Option<Pick>) -> u64 {
    match pick {
        None => 0,
        Some(Pick::HostSend) => 1,
        Some(Pick::HostTake) => 2,
        Some(Pick::Proc(p, _, _)) => at(p, 0),
        Some(Pick::Send(p, l)) => at(p, u64::from(l).wrapping_add(1)),
        Some(Pick::Take(p, l)) => at(p, u64::from(l).wrapping_add(5)),
    }
}

fn at(p: u32, kind: u64) -> u64 {
    u64::from(p)
        .wrapping_mul(9)
        .wrapping_add(kind)
        .wrapping_add(3)
}

fn processor_digest(digest: u64, board: &Board<Memory>, p: u32) -> u64
    requires node { p < length board.now.state.nodes }
    requires latches { p < length board.now.network.sizes }
{
    let node = board.node(p);
    let mut digest = mixed(digest, mode_number(node.mode()));
    digest = registers_digest(digest, &node.cpu().view());
    digest = expects_digest(digest, node.expects());
    digest = engines_digest(digest, node);
    latches_digest(digest, board, p)
}

fn mode_number(mode: Mode) -> u64 {
    match mode {
        Mode::Reset => 0,
        Mode::Poking => 1,
        Mode::Peeking => 2,
        Mode::Replying => 3,
        Mode::Booting => 4,
        Mode::Running => 5,
        Mode::Idle => 6,
        Mode::Stopped(why) => why_number(why),
    }
}

fn registers_digest(digest: u64, view: &CpuView) -> u64 {
    let numbers = [
        register_number(view.a),
        register_number(view.b),
        register_number(view.c),
        u64::from(view.oreg),
        u64::from(view.iptr),
        u64::from(view.wptr),
        register_number(view.front),
        u64::from(view.back),
        u64::from(view.error),
        u64::from(view.halt),
    ];
    all_mixed(digest, &numbers)
}

fn register_number(register: Reg) -> u64 {
    match register {
        Reg::Word(word) => u64::from(word),
        Reg::Undefined => 0x1_0000_0000,
    }
}

fn expects_digest(digest: u64, expects: Expects) -> u64 {
    let numbers = [
        u64::from(expects.link),
        u64::from(expects.got),
        u64::from(expects.left),
        u64::from(expects.address),
        u64::from(expects.word),
        u64::from(expects.sent),
    ];
    all_mixed(digest, &numbers)
}

fn all_mixed(digest: u64, numbers: &[u64]) -> u64 {
    let mut digest = digest;
    for number in numbers {
        digest = mixed(digest, *number);
    }
    digest
}

fn engines_digest(digest: u64, node: &Node<Memory>) -> u64 {
    let mut digest = digest;
    for l in 0..4u8 {
        let view = node.link(l);
        digest = engine_digest(digest, view.input);
        digest = engine_digest(digest, view.output);
    }
    digest
}

fn engine_digest(digest: u64, engine: Option<Engine>) -> u64 {
    match engine {
        None => mixed(digest, 0x1_0000_0000),
        Some(engine) => {
            let numbers = [
                u64::from(engine.pointer),
                u64::from(engine.left),
                u64::from(engine.process),
                u64::from(engine.sent),
            ];
            all_mixed(digest, &numbers)
        }
    }
}

fn latches_digest(digest: u64, board: &Board<Memory>, p: u32) -> u64
    requires { p < length board.now.network.sizes }
{
    let mut digest = digest;
    for l in 0..4u8 {
        digest = mixed(digest, byte_number(board.latch(p, l)));
    }
    digest
}

fn why_number(why: Why) -> u64 {
    match why {
        Why::Undefined => 7,
        Why::Outside => 8,
        Why::Code => 9,
        Why::BadOp => 10,
        Why::Halted => 11,
        Why::Stray => 12,
    }
}
