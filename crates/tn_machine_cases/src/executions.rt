use crate::shown::hexadecimal;
use std::alloc::Global;
use tn_cpu::{Cpu, Life, Outcome};
use tn_isa::{Fun, Mnemonic, mnemonic_of, op_code};
use tn_mem::{Memory, Space};
use tn_tables::Stop;

/// An instruction, and what it is given beside the processor's state.
#[derive(Clone, Copy)]
pub struct Execution {
    pub fun: Fun,
    pub operand: u32,
    pub following: u32,
    pub busy: u8,
    pub slice: bool,
}

/// What `ldtimer` pushes.
pub const CLOCK: u32 = 77;

/// 4,096 zeros.
pub fn zeros(alloc: Global) -> Result<Memory, Stop> {
    let mut bytes = Vec::new(alloc);
    for _ in 0..4096 {
        bytes.push(0)?;
    }
    if bytes.len() != 4096 {
        return Err(Stop::NoMemory);
    }
    Ok(Memory::power_up(bytes))
}

/// Executes an instruction, where the processor runs.
#[tactic(auto, using(tn_isa::proofs::CodedFunctions::coded_functions))]
pub fn execute<M: Space>(cpu: &mut Cpu<M>, execution: Execution) -> Result<Outcome, Stop> {
    if cpu.life() != Life::Running {
        return Err(Stop::BadCase);
    }
    let Execution {
        fun,
        operand,
        following,
        busy,
        slice,
    } = execution;
    match fun {
        Fun::Pfix | Fun::Nfix => Err(Stop::BadCase),
        fun => Ok(cpu.execute(fun, operand, following, busy, slice, CLOCK)),
    }
}

/// The function and the operand of an instruction; those of an operation are `opr` and its code.
pub fn instruction(name: &str, operand: &str) -> Result<(Fun, u32), Stop> {
    if name == "opr" {
        return Ok((Fun::Opr, hexadecimal(operand)?));
    }
    match mnemonic_of(name).ok_or(Stop::BadCase)? {
        Mnemonic::Direct(fun) => Ok((fun, hexadecimal(operand)?)),
        Mnemonic::Plain(op) => Ok((Fun::Opr, op_code(op))),
    }
}
