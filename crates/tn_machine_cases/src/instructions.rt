use crate::executions::{Execution, execute, instruction, zeros};
use crate::shown::{hexadecimal, registers};
use std::alloc::Global;
use tn_cpu::{Cpu, CpuView, Life, Outcome, Reg, Transfer, Why};
use tn_isa::{Fun, Op, op_code};
use tn_mem::{Memory, Space};
use tn_tables::{Case, Line, Report, Stop};

/// The address of the instruction, and that of the next one.
const HERE: u32 = 0x8000_0070;

const FOLLOWING: u32 = 0x8000_0078;

/// The word that stands where there is no process.
const NOT_PROCESS: u32 = 0x8000_0000;

/// What stands before an instruction, or after it.
#[derive(Clone, Copy)]
struct Stand {
    view: CpuView,
    life: Life,
    outcome: Outcome,
}

/// What stands before an instruction of which a line says nothing.
const BEFORE: Stand = Stand {
    view: CpuView {
        a: Reg::Undefined,
        b: Reg::Undefined,
        c: Reg::Undefined,
        oreg: 0,
        iptr: HERE,
        wptr: 0x8000_0200,
        front: Reg::Word(NOT_PROCESS),
        back: 0,
        error: false,
        halt: false,
    },
    life: Life::Running,
    outcome: Outcome::Ran,
};

/// Runs a case of the table of instructions.
pub fn run_case(alloc: Global, case: &Case<'_>, report: &mut Report) -> Result<(), Stop> {
    for line in case.lines.iter() {
        run_row(alloc, case.name, line, report)?;
    }
    Ok(())
}

fn run_row(alloc: Global, name: &str, line: &Line<'_>, report: &mut Report) -> Result<(), Stop> {
    match row(alloc, line) {
        Ok((wanted, came)) => report.compare(alloc, name, line.text, &wanted, &came),
        Err(stop) => report.answer(alloc, name, line, Err(stop)),
    }
}

/// What is to stand after the instruction of a line, and what stands, with whether memory holds what
/// it is to.
fn row(alloc: Global, line: &Line<'_>) -> Result<(Vec<u8>, Vec<u8>), Stop> {
    let (asked, after) = line.text.split_once(" =>").ok_or(Stop::BadCase)?;
    let (text, before) = asked.split_once('|').unwrap_or((asked, ""));
    let mut cpu = Cpu::power_up(zeros(alloc)?, false, false);
    prepare(&mut cpu, before)?;
    match cpu.memory().copied() {
        Ok(mut memory) => {
            let wanted = wanted(&mut memory, before, after)?;
            let (came, same) = came(&mut cpu, &memory, text.trim(), before)?;
            Ok((shown(alloc, &wanted, true)?, shown(alloc, &came, same)?))
        }
        Err(_) => Err(Stop::NoMemory),
    }
}

/// What stands after the instruction of a line, and whether memory is then another.
fn came(
    cpu: &mut Cpu<Memory>,
    memory: &Memory,
    text: &str,
    before: &str,
) -> Result<(Stand, bool), Stop> {
    let outcome = executed(cpu, text, before)?;
    let stand = Stand {
        view: cpu.view(),
        life: cpu.life(),
        outcome,
    };
    Ok((stand, cpu.memory().bytes() == memory.bytes()))
}

fn shown(alloc: Global, stand: &Stand, same: bool) -> Result<Vec<u8>, Stop> {
    let mut text = registers(alloc, &stand.view)?;
    let (life, outcome) = (stand.life, stand.outcome);
    let ends = format!(in alloc; " {life:?} {outcome:?}")?;
    text.extend_from_slice(ends.as_str().as_bytes())?;
    if !same {
        text.extend_from_slice(b" and other words in memory")?;
    }
    Ok(text)
}

/// Executes the instruction of a line.
fn executed(cpu: &mut Cpu<Memory>, text: &str, before: &str) -> Result<Outcome, Stop> {
    let (name, operand) = text.split_once(' ').unwrap_or((text, "0"));
    let (fun, operand) = instruction(name, operand)?;
    let busy = match field(before, "busy") {
        Some(bits) => hexadecimal(bits)?.to_le_bytes()[0],
        None => 0,
    };
    let slice = before.split_whitespace().any(|word| word == "slice");
    let execution = Execution {
        fun,
        operand,
        following: FOLLOWING,
        busy,
        slice,
    };
    execute(cpu, execution)
}

/// What a name is to be, in the words of a text.
fn field<'a>(text: &'a str, name: &str) -> Option<&'a str> {
    for word in text.split_whitespace() {
        if let Some((of, value)) = word.split_once('=') {
            if of == name {
                return Some(value);
            }
        }
    }
    None
}

/// What is to stand after the instruction. The memory before it becomes the one after.
fn wanted(memory: &mut Memory, before: &str, after: &str) -> Result<Stand, Stop> {
    let mut stand = stand_before(before)?;
    stand.view.iptr = FOLLOWING;
    for word in after.split_whitespace() {
        if word.starts_with('@') {
            let (at, value) = stored(word)?;
            memory.set_word(at, value).ok().ok_or(Stop::BadCase)?;
        } else {
            stand.set(word)?;
        }
    }
    Ok(stand)
}

/// The address and the word of `@300=5`.
fn stored(word: &str) -> Result<(u32, u32), Stop> {
    let (at, value) = word.split_once('=').ok_or(Stop::BadCase)?;
    Ok((hexadecimal(at)?, hexadecimal(value)?))
}

fn stand_before(before: &str) -> Result<Stand, Stop> {
    let mut stand = BEFORE;
    for word in before.split_whitespace() {
        if !word.starts_with('@') && !word.starts_with("busy=") && word != "slice" {
            stand.set(word)?;
        }
    }
    Ok(stand)
}

/// Brings a processor after power-up to where it stands as a line says, by instructions of its own.
/// Where it comes to stand otherwise, the line is no row.
fn prepare(cpu: &mut Cpu<Memory>, before: &str) -> Result<(), Stop> {
    cpu.boot(57);
    let stand = stand_before(before)?;
    set_queue(cpu, &stand.view)?;
    set_flags(cpu, &stand.view)?;
    set_stack(cpu, &stand.view)?;
    for word in before.split_whitespace() {
        if word.starts_with('@') {
            let (at, value) = stored(word)?;
            cpu.store_word(at, value).ok().ok_or(Stop::BadCase)?;
        }
    }
    if cpu.view() == stand.view && cpu.life() == stand.life {
        Ok(())
    } else {
        Err(Stop::BadCase)
    }
}

/// Executes an instruction on the way to where a line begins.
fn direct(cpu: &mut Cpu<Memory>, fun: Fun, operand: u32) -> Result<(), Stop> {
    let execution = Execution {
        fun,
        operand,
        following: HERE,
        busy: 0,
        slice: false,
    };
    execute(cpu, execution)?;
    Ok(())
}

fn push(cpu: &mut Cpu<Memory>, word: u32) -> Result<(), Stop> {
    direct(cpu, Fun::Ldc, word)
}

fn operate(cpu: &mut Cpu<Memory>, op: Op) -> Result<(), Stop> {
    direct(cpu, Fun::Opr, op_code(op))
}

/// Sets the queue, which has no process, one or two.
fn set_queue(cpu: &mut Cpu<Memory>, view: &CpuView) -> Result<(), Stop> {
    let Reg::Word(front) = view.front else {
        return Ok(());
    };
    push(cpu, NOT_PROCESS)?;
    operate(cpu, Op::Stlf)?;
    if front != NOT_PROCESS {
        enqueue(cpu, front)?;
    }
    if front != NOT_PROCESS && view.back != front {
        enqueue(cpu, view.back)?;
        cpu.store_word(front.wrapping_sub(8), 0)
            .ok()
            .ok_or(Stop::BadCase)?;
    }
    Ok(())
}

fn enqueue(cpu: &mut Cpu<Memory>, process: u32) -> Result<(), Stop> {
    push(cpu, process.wrapping_add(1))?;
    operate(cpu, Op::Runp)
}

/// Sets the workspace pointer, Error and HaltOnError.
fn set_flags(cpu: &mut Cpu<Memory>, view: &CpuView) -> Result<(), Stop> {
    push(cpu, view.wptr)?;
    operate(cpu, Op::Gajw)?;
    operate(cpu, Op::Sttimer)?;
    if view.error {
        operate(cpu, Op::Seterr)?;
    }
    if view.halt {
        operate(cpu, Op::Sethalterr)?;
    }
    Ok(())
}

/// Sets the three registers: `rev` and `dup` move an undefined one.
fn set_stack(cpu: &mut Cpu<Memory>, view: &CpuView) -> Result<(), Stop> {
    if let Reg::Word(c) = view.c {
        push(cpu, c)?;
    }
    match (view.a, view.b) {
        (Reg::Word(a), Reg::Word(b)) => push_both(cpu, b, a),
        (Reg::Undefined, Reg::Word(b)) => put_second(cpu, b, view.c),
        (Reg::Word(a), Reg::Undefined) => put_over(cpu, a, view.c),
        (Reg::Undefined, Reg::Undefined) => sink(cpu, view.c),
    }
}

fn push_both(cpu: &mut Cpu<Memory>, b: u32, a: u32) -> Result<(), Stop> {
    push(cpu, b)?;
    push(cpu, a)
}

/// Puts a word into Breg, where Areg is to be undefined.
fn put_second(cpu: &mut Cpu<Memory>, b: u32, c: Reg) -> Result<(), Stop> {
    if c != Reg::Undefined {
        operate(cpu, Op::Rev)?;
    }
    push(cpu, b)?;
    operate(cpu, Op::Rev)
}

/// Puts a word into Areg, where Breg is to be undefined.
fn put_over(cpu: &mut Cpu<Memory>, a: u32, c: Reg) -> Result<(), Stop> {
    if c != Reg::Undefined {
        operate(cpu, Op::Rev)?;
    }
    push(cpu, a)
}

/// Moves the word of Areg to Creg, where there is one.
fn sink(cpu: &mut Cpu<Memory>, c: Reg) -> Result<(), Stop> {
    if c == Reg::Undefined {
        return Ok(());
    }
    operate(cpu, Op::Rev)?;
    operate(cpu, Op::Dup)
}

impl Stand {
    /// Lets a word of a line change what stands.
    fn set(&mut self, word: &str) -> Result<(), Stop> {
        match word.split_once('=') {
            Some((name, "?")) => self.set_register(name, Reg::Undefined),
            Some((name, text)) => self.set_number(name, hexadecimal(text)?),
            None => self.mark(word),
        }
    }

    fn mark(&mut self, name: &str) -> Result<(), Stop> {
        match name {
            "idle" => self.idle(),
            "undefined" => self.stop(Why::Undefined),
            "outside" => self.stop(Why::Outside),
            "halted" => self.stop(Why::Halted),
            "badop" => self.stop(Why::BadOp),
            _ => return Err(Stop::BadCase),
        }
        Ok(())
    }

    fn idle(&mut self) {
        self.life = Life::Idle;
        self.view.iptr = 0;
        self.view.wptr = 0;
    }

    fn stop(&mut self, why: Why) {
        self.life = Life::Stopped(why);
        self.outcome = Outcome::Stopped(why);
        self.view.iptr = HERE;
    }

    fn set_number(&mut self, name: &str, value: u32) -> Result<(), Stop> {
        match name {
            "i" => self.view.iptr = value,
            "w" => self.view.wptr = value,
            "k" => self.view.back = value,
            "e" => self.view.error = value != 0,
            "h" => self.view.halt = value != 0,
            "in" => self.outcome = Outcome::OpensIn(self.transfer(value)),
            "out" => self.outcome = Outcome::OpensOut(self.transfer(value)),
            name => self.set_register(name, Reg::Word(value))?,
        }
        Ok(())
    }

    fn set_register(&mut self, name: &str, value: Reg) -> Result<(), Stop> {
        match name {
            "a" => self.view.a = value,
            "b" => self.view.b = value,
            "c" => self.view.c = value,
            "f" => self.view.front = value,
            _ => return Err(Stop::BadCase),
        }
        Ok(())
    }

    /// The transfer on a link that the registers ask for.
    fn transfer(&self, link: u32) -> Transfer {
        Transfer {
            link: link.to_le_bytes()[0],
            pointer: word_of(self.view.c),
            count: word_of(self.view.a),
            process: self.view.wptr,
        }
    }
}

fn word_of(register: Reg) -> u32 {
    match register {
        Reg::Word(word) => word,
        Reg::Undefined => 0,
    }
}
