ghost use Rattle.std.specs.Prelude.{IfOk};
ghost use Rattle.tn_node.specs.Nodes.{IsQuiet};

use crate::executions::{CLOCK, instruction, zeros};
use crate::shown::{hexadecimal, registers, word_of};
use std::alloc::Global;
use tn_cpu::Cpu;
use tn_isa::Fun;
use tn_mem::{Memory, Space};
use tn_node::{Engine, Made, Mode, Node};
use tn_tables::{Case, Line, Report, Stop, byte, said};

/// The address of the instruction behind each one that is executed whole.
const FOLLOWING: u32 = 0x8000_0079;

/// Runs a case of the table of nodes. Its first line says which node it is of.
pub fn run_case(alloc: Global, case: &Case<'_>, report: &mut Report) -> Result<(), Stop> {
    let (first, lines) = case.lines.split_first().ok_or(Stop::BadCase)?;
    match first.words.as_slice() {
        ["node"] => run_node(alloc, case, lines, report),
        ["guarded", from, to] => {
            let guard = (hexadecimal(from)?, hexadecimal(to)?);
            run_guarded(alloc, case, lines, guard, report)
        }
        _ => Err(Stop::BadCase),
    }
}

fn run_node(
    alloc: Global,
    case: &Case<'_>,
    lines: &[Line<'_>],
    report: &mut Report,
) -> Result<(), Stop> {
    let mut node = powered_up(alloc)?;
    run_lines(alloc, case, lines, &mut node, report)
}

fn run_guarded(
    alloc: Global,
    case: &Case<'_>,
    lines: &[Line<'_>],
    guard: (u32, u32),
    report: &mut Report,
) -> Result<(), Stop> {
    let node = powered_up(alloc)?;
    run_copy(alloc, case, lines, &node, guard, report)
}

/// Runs lines of a copy of a node that stores into no byte from an address to another.
fn run_copy(
    alloc: Global,
    case: &Case<'_>,
    lines: &[Line<'_>],
    node: &Node<Memory>,
    guard: (u32, u32),
    report: &mut Report,
) -> Result<(), Stop>
    requires { IsQuiet node.now }
{
    match node.guarded(guard.0, guard.1) {
        Ok(mut copy) => run_lines(alloc, case, lines, &mut copy, report),
        Err(_) => Err(Stop::NoMemory),
    }
}

/// A node after power-up over 4,096 zeros.
fn powered_up(alloc: Global) -> Result<Node<Memory>, Stop>
    ensures { IfOk result (λ node. IsQuiet node) }
{
    let memory = zeros(alloc)?;
    Ok(Node::power_up(Cpu::power_up(memory, true, true)))
}

fn run_lines<M: Space>(
    alloc: Global,
    case: &Case<'_>,
    lines: &[Line<'_>],
    node: &mut Node<M>,
    report: &mut Report,
) -> Result<(), Stop> {
    for line in lines {
        let came = answer(alloc, node, line.words.as_slice());
        report.answer(alloc, case.name, line, came)?;
    }
    Ok(())
}

/// What a line gives.
fn answer<M: Space>(alloc: Global, node: &mut Node<M>, words: &[&str]) -> Result<Vec<u8>, Stop> {
    match words {
        ["take", link, bytes @ ..] => take(alloc, node, link, bytes),
        ["send", link] => send(alloc, node, link),
        ["acknowledge", link] => acknowledge(alloc, node, link),
        ["run"] => run(alloc, node),
        ["do", name] => execute(alloc, node, name, "0"),
        ["do", name, operand] => execute(alloc, node, name, operand),
        words => look(alloc, node, words),
    }
}

/// The link of a word.
fn link_of(word: &str) -> Result<u8, Stop> {
    match word {
        "0" => Ok(0),
        "1" => Ok(1),
        "2" => Ok(2),
        "3" => Ok(3),
        _ => Err(Stop::BadCase),
    }
}

/// Gives a node bytes by a link, those that it wants, and tells how many it took.
fn take<M: Space>(
    alloc: Global,
    node: &mut Node<M>,
    link: &str,
    bytes: &[&str],
) -> Result<Vec<u8>, Stop> {
    let l = link_of(link)?;
    let mut taken: u32 = 0;
    for text in bytes {
        let byte = byte(text)?;
        if l < 4 && node.wants(l) {
            node.take(l, byte);
            taken = taken.saturating_add(1);
        }
    }
    Ok(taken.to_string(alloc)?.into_bytes())
}

/// The byte that a node offers on a link, marked as gone out.
fn send<M: Space>(alloc: Global, node: &mut Node<M>, link: &str) -> Result<Vec<u8>, Stop> {
    let l = link_of(link)?;
    if l >= 4 {
        return Err(Stop::BadCase);
    }
    let offered = node.offers(l);
    if offered.is_some() {
        node.mark_sent(l);
    }
    byte_text(alloc, offered)
}

fn byte_text(alloc: Global, byte: Option<u8>) -> Result<Vec<u8>, Stop> {
    match byte {
        Some(byte) => Ok(format!(in alloc; "{byte:02X}")?.into_bytes()),
        None => said(alloc, "none"),
    }
}

/// Acknowledges the byte of a link that has gone out, if one has.
fn acknowledge<M: Space>(alloc: Global, node: &mut Node<M>, link: &str) -> Result<Vec<u8>, Stop> {
    let l = link_of(link)?;
    if l >= 4 {
        return Err(Stop::BadCase);
    }
    let replies = node.mode() == Mode::Replying && node.expects().link == l && node.expects().sent;
    let sends = match node.link(l).output {
        Some(engine) => engine.sent,
        None => false,
    };
    if replies || (node.mode() != Mode::Replying && sends) {
        node.acknowledge(l);
        return said(alloc, "done");
    }
    said(alloc, "no byte has gone out")
}

/// Executes the byte at the instruction pointer, where the node runs.
fn run<M: Space>(alloc: Global, node: &mut Node<M>) -> Result<Vec<u8>, Stop> {
    if node.mode() != Mode::Running {
        return said(alloc, "it does not run");
    }
    made_text(alloc, node.run(false, CLOCK))
}

fn made_text(alloc: Global, made: Made) -> Result<Vec<u8>, Stop> {
    Ok(format!(in alloc; "{made:?}")?.into_bytes())
}

/// Executes an instruction, where the node runs.
#[tactic(auto, using(tn_isa::proofs::CodedFunctions::coded_functions))]
fn execute<M: Space>(
    alloc: Global,
    node: &mut Node<M>,
    name: &str,
    operand: &str,
) -> Result<Vec<u8>, Stop> {
    let (fun, operand) = instruction(name, operand)?;
    if node.mode() != Mode::Running {
        return said(alloc, "it does not run");
    }
    match fun {
        Fun::Pfix | Fun::Nfix => Err(Stop::BadCase),
        fun => made_text(alloc, node.run_item(fun, operand, FOLLOWING, false, CLOCK)),
    }
}

/// What a node tells.
fn look<M: Space>(alloc: Global, node: &Node<M>, words: &[&str]) -> Result<Vec<u8>, Stop> {
    match words {
        ["mode"] => mode_text(alloc, node.mode()),
        ["wants"] => wanted(alloc, node),
        ["offers", link] => offered(alloc, node, link),
        ["expects"] => expects(alloc, node),
        ["link", link] => link_text(alloc, node, link),
        ["registers"] => registers(alloc, &node.cpu().view()),
        ["word", address] => word_of(alloc, node.cpu().memory(), address),
        _ => Err(Stop::BadCase),
    }
}

fn mode_text(alloc: Global, mode: Mode) -> Result<Vec<u8>, Stop> {
    Ok(format!(in alloc; "{mode:?}")?.into_bytes())
}

/// The links of which a node wants a byte.
fn wanted<M: Space>(alloc: Global, node: &Node<M>) -> Result<Vec<u8>, Stop> {
    let mut text = String::new(alloc);
    for (l, digit) in [(0, '0'), (1, '1'), (2, '2'), (3, '3')] {
        if l < 4 && node.wants(l) {
            text.push(digit)?;
        }
    }
    Ok(text.into_bytes())
}

fn offered<M: Space>(alloc: Global, node: &Node<M>, link: &str) -> Result<Vec<u8>, Stop> {
    let l = link_of(link)?;
    if l >= 4 {
        return Err(Stop::BadCase);
    }
    byte_text(alloc, node.offers(l))
}

/// What the bootstrap of a node expects and has.
fn expects<M: Space>(alloc: Global, node: &Node<M>) -> Result<Vec<u8>, Stop> {
    let found = node.expects();
    let (link, got, left) = (found.link, found.got, found.left);
    let (address, word, sent) = (found.address, found.word, u8::from(found.sent));
    let text = format!(in alloc;
        "link {link} got {got} left {left} address {address:X} word {word:X} sent {sent}"
    )?;
    Ok(text.into_bytes())
}

/// The engines of a link.
fn link_text<M: Space>(alloc: Global, node: &Node<M>, link: &str) -> Result<Vec<u8>, Stop> {
    let l = link_of(link)?;
    if l >= 4 {
        return Err(Stop::BadCase);
    }
    let engines = node.link(l);
    let (input, output) = (
        engine(alloc, engines.input)?,
        engine(alloc, engines.output)?,
    );
    Ok(format!(in alloc; "in {input} out {output}")?.into_bytes())
}

fn engine(alloc: Global, engine: Option<Engine>) -> Result<String, Stop> {
    let Some(engine) = engine else {
        return Ok(String::from_str(alloc, "closed")?);
    };
    let (pointer, left) = (engine.pointer, engine.left);
    let (process, sent) = (engine.process, u8::from(engine.sent));
    Ok(format!(in alloc; "at {pointer:X} left {left} for {process:X} sent {sent}")?)
}
