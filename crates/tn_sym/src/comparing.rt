ghost use Rattle.std.specs.Prelude.{◌≡◌, ◌↔◌, ℕ, ◌-◌, ◌≤◌, [], length, drop, take, slice_index, IsTrue};
ghost use Rattle.tn_isa.specs.OperandRegister.{register_after};
ghost use Rattle.tn_mem.specs.Memories.{most_neg, block};
ghost use Rattle.tn_sym.specs.Same.{IsElsewhere, SameMemory};
ghost use Rattle.tn_sym.specs.Inner.Comparisons.{SameRegisters, part};

use crate::codes::Code;
use tn_cpu::{Cpu, Reg};
use tn_isa::operand_after;
use tn_mem::{CodeFree, Memory};
use tn_node::{Engine, Expects, Mode};
use tn_word::MOST_NEG;

/// Whether two registers hold the same.
fn same_register(one: Reg, other: Reg) -> bool
    ensures { IsTrue result ↔ (one ≡ other) }
{
    one == other
}

/// Whether two modes are the same.
pub(crate) fn same_mode(one: Mode, other: Mode) -> bool
    ensures { IsTrue result ↔ (one ≡ other) }
{
    one == other
}

/// Whether two bootstraps expect the same.
pub(crate) fn same_expects(one: Expects, other: Expects) -> bool
    ensures { IsTrue result ↔ (one ≡ other) }
{
    one == other
}

/// Whether two engines are the same.
pub(crate) fn same_engine(one: Option<Engine>, other: Option<Engine>) -> bool
    ensures { IsTrue result ↔ (one ≡ other) }
{
    one == other
}

/// Whether two latches hold the same.
pub(crate) fn same_latch(one: Option<u8>, other: Option<u8>) -> bool
    ensures { IsTrue result ↔ (one ≡ other) }
{
    one == other
}

/// Whether two lists of bytes are the same.
pub(crate) fn same_bytes(one: &[u8], other: &[u8]) -> bool
    ensures { IsTrue result ↔ (one.now ≡ other.now) }
{
    one == other
}

/// Whether all registers but the operand register and the instruction pointer are the same.
pub(crate) fn same_registers(one: &Cpu<Memory>, other: &Cpu<CodeFree>) -> bool
    ensures { IsTrue result ↔ SameRegisters one.now other.now }
{
    let (one, other) = (one.view(), other.view());
    same_register(one.a, other.a)
        && same_register(one.b, other.b)
        && same_register(one.c, other.c)
        && one.wptr == other.wptr
        && same_register(one.front, other.front)
        && one.back == other.back
        && one.error == other.error
        && one.halt == other.halt
}

/// Whether two memories hold the same wherever there is no code, and the code is whole in the first.
pub(crate) fn same_memory(code: &Code, memory: &[u8], other: &[u8]) -> bool
    ensures { IsTrue result ↔ SameMemory code.now memory.now other.now }
{
    if memory.len() != other.len() {
        return false;
    }
    if !same_bytes(block(memory, code.base(), code.bytes().len()), code.bytes()) {
        return false;
    }
    same_elsewhere(code, memory, other)
}

/// So many bytes of a memory at an address, or those that are there.
#[tactic(auto, unfolding(tn_mem::specs::Memories::block))]
fn block(memory: &[u8], base: u32, count: usize) -> &[u8]
    ensures { result.now ≡ block memory.now base count }
{
    part(memory, base.saturating_sub(MOST_NEG) as usize, count)
}

/// Whether two memories of one size hold the same wherever there is no code.
fn same_elsewhere(code: &Code, memory: &[u8], other: &[u8]) -> bool
    requires { length memory.now ≡ length other.now }
    ensures { IsTrue result ↔ ((a : ℕ) → most_neg ≤ a → IsElsewhere code.now a
        → slice_index memory.now (a - most_neg) ≡ slice_index other.now (a - most_neg)) }
{
    for i in 0..memory.len() {
        if is_elsewhere(code, u64::from(MOST_NEG) + i as u64) {
            if memory[i] != other[i] {
                return false;
            }
        }
    }
    true
}

/// Whether there is no code at an address.
fn is_elsewhere(code: &Code, address: u64) -> bool
    ensures { IsTrue result ↔ IsElsewhere code.now address }
{
    let first = u64::from(code.base());
    address < first || first + code.bytes().len() as u64 <= address
}

/// So many bytes at a place, or those that are there.
pub(crate) fn part(bytes: &[u8], at: usize, count: usize) -> &[u8]
    ensures { result.now ≡ part bytes.now at count }
{
    front(behind(bytes, at), count)
}

/// The bytes behind so many.
pub(crate) fn behind(bytes: &[u8], count: usize) -> &[u8]
    ensures { result.now ≡ drop count bytes.now }
{
    if count > bytes.len() {
        &bytes[bytes.len()..]
    } else {
        &bytes[count..]
    }
}

/// The first so many bytes.
fn front(bytes: &[u8], count: usize) -> &[u8]
    ensures { result.now ≡ take count bytes.now }
{
    if count > bytes.len() {
        bytes
    } else {
        &bytes[..count]
    }
}

/// The operand register after prefix bytes, from 0.
pub(crate) fn register_after(bytes: &[u8]) -> u32
    ensures { result ≡ register_after 0 bytes.now }
{
    let mut register = 0;
    for &byte in bytes {
        register = operand_after(register, byte);
    }
    register
}
