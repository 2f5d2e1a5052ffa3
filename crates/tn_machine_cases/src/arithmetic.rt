use crate::shown::hexadecimal;
use std::alloc::Global;
use tn_alu::{Answer, add, div, ldiff, lmul, lsum, mul, rem, shl, shr, sub};
use tn_tables::{Case, Report, Stop, said};

/// Runs a case of the table of arithmetic.
pub fn run_case(alloc: Global, case: &Case<'_>, report: &mut Report) -> Result<(), Stop> {
    for line in case.lines.iter() {
        let came = answer(alloc, line.words.as_slice());
        report.answer(alloc, case.name, line, came)?;
    }
    Ok(())
}

fn answer(alloc: Global, words: &[&str]) -> Result<Vec<u8>, Stop> {
    match words {
        [name, b, a] => short(alloc, name, b, a),
        [name, a, b, c] => long(alloc, name, a, b, c),
        _ => Err(Stop::BadCase),
    }
}

/// An operation on Breg and Areg.
fn short(alloc: Global, name: &str, b: &str, a: &str) -> Result<Vec<u8>, Stop> {
    let (b, a) = (hexadecimal(b)?, hexadecimal(a)?);
    match name {
        "add" => told(alloc, add(b, a)),
        "sub" => told(alloc, sub(b, a)),
        "mul" => told(alloc, mul(b, a)),
        "div" => told(alloc, div(b, a)),
        "rem" => told(alloc, rem(b, a)),
        "shl" => told(alloc, shl(b, a)),
        "shr" => told(alloc, shr(b, a)),
        _ => Err(Stop::BadCase),
    }
}

fn told(alloc: Global, answer: Answer) -> Result<Vec<u8>, Stop> {
    match (answer.value, answer.error) {
        (Some(word), false) => Ok(format!(in alloc; "{word:X}")?.into_bytes()),
        (Some(word), true) => Ok(format!(in alloc; "{word:X} error")?.into_bytes()),
        (None, false) => said(alloc, "?"),
        (None, true) => said(alloc, "? error"),
    }
}

/// An operation on Areg, Breg and Creg.
fn long(alloc: Global, name: &str, a: &str, b: &str, c: &str) -> Result<Vec<u8>, Stop> {
    let (a, b, c) = (hexadecimal(a)?, hexadecimal(b)?, hexadecimal(c)?);
    let (low, high) = match name {
        "lmul" => lmul(a, b, c),
        "lsum" => lsum(a, b, c),
        "ldiff" => ldiff(a, b, c),
        _ => return Err(Stop::BadCase),
    };
    Ok(format!(in alloc; "{low:X} {high:X}")?.into_bytes())
}
