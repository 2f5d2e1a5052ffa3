use crate::executions::{CLOCK, Execution, execute, instruction, zeros};
use crate::shown::{done, hexadecimal, registers, word_of};
use std::alloc::Global;
use tn_cpu::{Cpu, Life, Outcome};
use tn_mem::{Memory, Space};
use tn_tables::{Case, Line, Report, Stop, byte};

/// The address of the instruction behind each one that is executed.
const FOLLOWING: u32 = 0x8000_0078;

/// Runs a case of the table of processors: lines of a processor after power-up, and behind `guarded`
/// those of a copy of it.
pub fn run_case(alloc: Global, case: &Case<'_>, report: &mut Report) -> Result<(), Stop> {
    let mut cpu = Cpu::power_up(zeros(alloc)?, false, false);
    run_with(alloc, case, &mut cpu, report)
}

fn run_with(
    alloc: Global,
    case: &Case<'_>,
    cpu: &mut Cpu<Memory>,
    report: &mut Report,
) -> Result<(), Stop> {
    for (k, line) in case.lines.iter().enumerate() {
        if let ["guarded", from, to] = line.words.as_slice() {
            let guard = (hexadecimal(from)?, hexadecimal(to)?);
            return run_copy(alloc, case, &case.lines[k + 1..], cpu, guard, report);
        }
        report.answer(alloc, case.name, line, answer(alloc, cpu, line))?;
    }
    Ok(())
}

/// Runs lines of a copy of a processor that stores into no byte from an address to another.
fn run_copy(
    alloc: Global,
    case: &Case<'_>,
    lines: &[Line<'_>],
    cpu: &Cpu<Memory>,
    guard: (u32, u32),
    report: &mut Report,
) -> Result<(), Stop> {
    match cpu.guarded(guard.0, guard.1) {
        Ok(mut copy) => run_lines(alloc, case, lines, &mut copy, report),
        Err(_) => Err(Stop::NoMemory),
    }
}

fn run_lines<M: Space>(
    alloc: Global,
    case: &Case<'_>,
    lines: &[Line<'_>],
    cpu: &mut Cpu<M>,
    report: &mut Report,
) -> Result<(), Stop> {
    for line in lines {
        report.answer(alloc, case.name, line, answer(alloc, cpu, line))?;
    }
    Ok(())
}

/// What a line gives.
fn answer<M: Space>(alloc: Global, cpu: &mut Cpu<M>, line: &Line<'_>) -> Result<Vec<u8>, Stop> {
    match line.words.as_slice() {
        ["do", name] => outcome(alloc, executed(cpu, name, "0", false)),
        ["do", name, operand] => outcome(alloc, executed(cpu, name, operand, false)),
        ["slice", name, operand] => outcome(alloc, executed(cpu, name, operand, true)),
        ["step"] => outcome(alloc, step(cpu)),
        ["life"] => life_text(alloc, cpu.life()),
        ["registers"] => registers(alloc, &cpu.view()),
        ["word", address] => word_of(alloc, cpu.memory(), address),
        words => change(alloc, cpu, words),
    }
}

/// Changes a processor from outside.
fn change<M: Space>(alloc: Global, cpu: &mut Cpu<M>, words: &[&str]) -> Result<Vec<u8>, Stop> {
    match words {
        ["boot", bytes] => {
            cpu.boot(u32::from(bytes.parse::<u8>().ok().ok_or(Stop::BadCase)?));
            Ok(Vec::new(alloc))
        }
        ["wake", process] => {
            cpu.wake(hexadecimal(process)?);
            Ok(Vec::new(alloc))
        }
        ["store-word", a, v] => done(alloc, cpu.store_word(hexadecimal(a)?, hexadecimal(v)?)),
        ["store-byte", a, v] => done(alloc, cpu.store_byte(hexadecimal(a)?, byte(v)?)),
        _ => Err(Stop::BadCase),
    }
}

fn executed<M: Space>(
    cpu: &mut Cpu<M>,
    name: &str,
    operand: &str,
    slice: bool,
) -> Result<Outcome, Stop> {
    let (fun, operand) = instruction(name, operand)?;
    let execution = Execution {
        fun,
        operand,
        following: FOLLOWING,
        busy: 0,
        slice,
    };
    execute(cpu, execution)
}

/// Executes the byte at the instruction pointer, where the processor runs.
fn step<M: Space>(cpu: &mut Cpu<M>) -> Result<Outcome, Stop> {
    if cpu.life() != Life::Running {
        return Err(Stop::BadCase);
    }
    Ok(cpu.step(0, false, CLOCK))
}

fn outcome(alloc: Global, came: Result<Outcome, Stop>) -> Result<Vec<u8>, Stop> {
    let outcome = came?;
    Ok(format!(in alloc; "{outcome:?}")?.into_bytes())
}

fn life_text(alloc: Global, life: Life) -> Result<Vec<u8>, Stop> {
    Ok(format!(in alloc; "{life:?}")?.into_bytes())
}
