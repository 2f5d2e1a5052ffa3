use std::alloc::Global;
use tn_cpu::{CpuView, Reg};
use tn_network::Pick;
use tn_tables::{Stop, said};

/// What a processor's registers hold, in hexadecimal; `?` is a register that nothing defines.
pub fn registers(alloc: Global, view: &CpuView) -> Result<Vec<u8>, Stop> {
    let stack = stack(alloc, view)?;
    let front = register(alloc, view.front)?;
    let (o, i, w) = (view.oreg, view.iptr, view.wptr);
    let (error, halt) = (u8::from(view.error), u8::from(view.halt));
    Ok(format!(in alloc;
        "i={i:X} w={w:X} {stack} o={o:X} f={front} e={error} h={halt}"
    )?.into_bytes())
}

fn stack(alloc: Global, view: &CpuView) -> Result<String, Stop> {
    let (a, b, c) = (
        register(alloc, view.a)?,
        register(alloc, view.b)?,
        register(alloc, view.c)?,
    );
    Ok(format!(in alloc; "a={a} b={b} c={c}")?)
}

fn register(alloc: Global, register: Reg) -> Result<String, Stop> {
    match register {
        Reg::Word(word) => Ok(format!(in alloc; "{word:X}")?),
        Reg::Undefined => Ok(String::from_str(alloc, "?")?),
    }
}

/// A byte in hexadecimal, or `none`.
pub fn byte_or_none(alloc: Global, byte: Option<u8>) -> Result<Vec<u8>, Stop> {
    match byte {
        Some(byte) => Ok(format!(in alloc; "{byte:02X}")?.into_bytes()),
        None => said(alloc, "none"),
    }
}

/// A pick as a line of a table spells it.
pub fn pick(alloc: Global, pick: Pick) -> Result<Vec<u8>, Stop> {
    match pick {
        Pick::HostSend => said(alloc, "hs"),
        Pick::HostTake => said(alloc, "ht"),
        Pick::Proc(p, slice, clock) => {
            let slice = u8::from(slice);
            Ok(format!(in alloc; "p {p} {slice} {clock}")?.into_bytes())
        }
        Pick::Send(p, l) => Ok(format!(in alloc; "s {p} {l}")?.into_bytes()),
        Pick::Take(p, l) => Ok(format!(in alloc; "t {p} {l}")?.into_bytes()),
    }
}
