ghost use Rattle.std.specs.Prelude.{◌≡◌, ◌-◌, ◌^◌, ◌<◌, ◌≤◌, length, IfOk};
ghost use Rattle.tn_io.specs.FileLists.{HasDistinctNames};
ghost use Rattle.tn_io.specs.MemStores.{files_of};

use std::alloc::Global;
use tn_io::{
    FileOut, FileText, MemOut, MemStore, Out, OutFault, PutFault, PutKind, SafeStore, Store,
};
use tn_list::Printed;
use tn_tables::{Case, Line, Report, Stop, decimal, decimals, held, said};
use tn_text::{Put, PutRefused};

/// Runs a case of the table of stores and outputs. Its first line says what it is of.
pub fn run_case(alloc: Global, case: &Case<'_>, report: &mut Report) -> Result<(), Stop> {
    let (first, lines) = case.lines.split_first().ok_or(Stop::BadCase)?;
    match first.words.as_slice() {
        ["store", "safe", name] => {
            let mut store = SafeStore::new(one_file(alloc, name, &first.bytes)?);
            for line in lines {
                let came = safe_answer(alloc, &mut store, line);
                report.answer(alloc, case.name, line, came)?;
            }
            Ok(())
        }
        ["store", "failing", name, fails @ ..] => {
            let files = one_file(alloc, name, &first.bytes)?;
            let mut store = MemStore::new(files, decimals(alloc, fails)?);
            run_failing(alloc, case, lines, &mut store, report)
        }
        ["output", fails @ ..] => {
            let out = MemOut::new(decimals(alloc, fails)?);
            run_output(alloc, case, lines, out, report)
        }
        _ => Err(Stop::BadCase),
    }
}

fn run_failing(
    alloc: Global,
    case: &Case<'_>,
    lines: &[Line<'_>],
    store: &mut MemStore,
    report: &mut Report,
) -> Result<(), Stop> {
    for line in lines {
        let came = match line.words.as_slice() {
            ["file", name] => held(alloc, store.file(name)),
            _ => store_answer(alloc, store, line),
        };
        report.answer(alloc, case.name, line, came)?;
    }
    Ok(())
}

fn safe_answer(alloc: Global, store: &mut SafeStore, line: &Line<'_>) -> Result<Vec<u8>, Stop> {
    match line.words.as_slice() {
        ["file", name] => held(alloc, store.file(name)),
        _ => store_answer(alloc, store, line),
    }
}

/// What a store answers to a call that a line asks for.
pub fn store_answer<S: Store>(
    alloc: Global,
    store: &mut S,
    line: &Line<'_>,
) -> Result<Vec<u8>, Stop> {
    match line.words.as_slice() {
        ["get", name, limit] => get(alloc, store, name, limit),
        ["create", name] if name.len() <= 255 => put_answer(alloc, store.create(name)),
        ["write"] => put_answer(alloc, store.write(&line.bytes)),
        ["close"] => put_answer(alloc, store.close()),
        ["append"] => append(alloc, store, &line.bytes),
        _ => Err(Stop::BadCase),
    }
}

/// Whether a call that puts was done, or why not.
fn put_answer(alloc: Global, put: Result<(), PutFault>) -> Result<Vec<u8>, Stop> {
    match put {
        Ok(()) => said(alloc, "done"),
        Err(fault) => Ok(fault.to_string(alloc)?.into_bytes()),
    }
}

/// The bytes of a file, or why they are not read.
fn get<S: Store>(alloc: Global, store: &mut S, name: &str, limit: &str) -> Result<Vec<u8>, Stop> {
    let limit = decimal(limit)?;
    if name.len() > 255 || limit == u64::MAX {
        return Err(Stop::BadCase);
    }
    let mut bytes = Vec::new(alloc);
    match store.get(name, limit, &mut bytes) {
        Ok(()) => Ok(bytes),
        Err(fault) => Ok(fault.to_string(alloc)?.into_bytes()),
    }
}

/// What an output over the open file of a store answers to a write: the refusal and how many there
/// were.
fn append<S: Store>(alloc: Global, store: &mut S, bytes: &[u8]) -> Result<Vec<u8>, Stop> {
    let mut out = FileOut {
        store: &mut *store,
        kind: None,
        refused: 0,
    };
    let written = out.write(bytes);
    let refused = out.refused;
    match (written, out.kind) {
        (Ok(()), None) if refused == 0 => said(alloc, "done"),
        (Err(OutFault), Some(PutKind::Failed)) => {
            Ok(format!(in alloc; "failed {refused}")?.into_bytes())
        }
        (Err(OutFault), Some(PutKind::NoMemory)) => said(alloc, "no memory"),
        _ => said(alloc, "an answer without its kind"),
    }
}

/// Runs lines of an output in memory, and of a sink over it.
fn run_output(
    alloc: Global,
    case: &Case<'_>,
    lines: &[Line<'_>],
    mut out: MemOut,
    report: &mut Report,
) -> Result<(), Stop> {
    run_lines(alloc, case, lines, &mut out, report)?;
    let bytes = Vec::from_slice(alloc, out.bytes())?;
    let moved = out.into_bytes();
    report.compare(alloc, case.name, "the bytes moved out", &bytes, &moved)
}

fn run_lines(
    alloc: Global,
    case: &Case<'_>,
    lines: &[Line<'_>],
    out: &mut MemOut,
    report: &mut Report,
) -> Result<(), Stop> {
    for line in lines {
        let came = output_answer(alloc, out, line);
        report.answer(alloc, case.name, line, came)?;
    }
    Ok(())
}

/// What an output answers to a call that a line asks for.
fn output_answer(alloc: Global, out: &mut MemOut, line: &Line<'_>) -> Result<Vec<u8>, Stop> {
    match line.words.as_slice() {
        ["write"] => write(alloc, &line.bytes, out),
        ["put"] => put(alloc, &line.bytes, out),
        ["bytes"] => held(alloc, Some(out.bytes())),
        _ => Err(Stop::BadCase),
    }
}

fn write(alloc: Global, bytes: &[u8], out: &mut MemOut) -> Result<Vec<u8>, Stop> {
    match out.write(bytes) {
        Ok(()) => said(alloc, "done"),
        Err(fault) => Ok(fault.to_string(alloc)?.into_bytes()),
    }
}

/// What a sink over an output answers to a piece.
fn put(alloc: Global, piece: &[u8], out: &mut MemOut) -> Result<Vec<u8>, Stop> {
    let mut printed = Printed { out: &mut *out };
    match printed.put(piece) {
        Ok(()) => said(alloc, "done"),
        Err(PutRefused) => said(alloc, "refused"),
    }
}

/// The files of a store with one file.
#[tactic(auto, unfolding(tn_io::specs::FileLists::held, tn_io::specs::FileLists::HasDistinctNames))]
fn one_file(alloc: Global, name: &str, bytes: &[u8]) -> Result<Vec<(FileText, Vec<u8>)>, Stop>
    ensures { IfOk result (λ files. HasDistinctNames (files_of files.items)) }
{
    let name = FileText::of(name).ok_or(Stop::BadCase)?;
    let bytes = Vec::from_slice(alloc, bytes)?;
    let mut files = Vec::new(alloc);
    files.push((name, bytes))?;
    Ok(files)
}
