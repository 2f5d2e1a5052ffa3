use std::alloc::Global;
use std::mem;
use tn_io::{MemOut, MemStore, Store};
use tn_tables::{Case, Line, Report, Stop, decimals, held, said};
use tn_top::{Status, code, run};

/// What commands run on: files, the writes to the output and to the error output that fail in the
/// next command, and what was printed there and not yet looked at.
#[derive(Drop)]
struct Device {
    store: MemStore,
    out_fails: Vec<u64>,
    err_fails: Vec<u64>,
    out: Vec<u8>,
    err: Vec<u8>,
}

/// Runs a case of the table of commands. Nothing may be printed but what its lines tell.
pub fn run_case(alloc: Global, case: &Case<'_>, report: &mut Report) -> Result<(), Stop> {
    let mut device = device_of(alloc, case)?;
    for line in case.lines.iter() {
        let came = answer(alloc, &mut device, line);
        report.answer(alloc, case.name, line, came)?;
    }
    report.compare(alloc, case.name, "what else is printed", b"", &device.out)?;
    report.compare(alloc, case.name, "what else is told", b"", &device.err)
}

/// What a line gives: the status of a command, what was printed or told since the last look, or what
/// a file holds.
fn answer(alloc: Global, device: &mut Device, line: &Line<'_>) -> Result<Vec<u8>, Stop> {
    match line.words.as_slice() {
        ["fails", ..] => Ok(Vec::new(alloc)),
        ["file", name] => put_file(alloc, device, name, line),
        ["run", words @ ..] => status(alloc, device, words),
        ["out"] => Ok(mem::replace(&mut device.out, Vec::new(alloc))),
        ["err"] => Ok(mem::replace(&mut device.err, Vec::new(alloc))),
        ["holds", name] => held(alloc, device.store.file(name)),
        ["exit-code", name] => exit_code(alloc, name),
        ["out-fails", fails @ ..] => {
            device.out_fails = decimals(alloc, fails)?;
            Ok(Vec::new(alloc))
        }
        ["err-fails", fails @ ..] => {
            device.err_fails = decimals(alloc, fails)?;
            Ok(Vec::new(alloc))
        }
        _ => Err(Stop::BadCase),
    }
}

/// The exit code of a status.
fn exit_code(alloc: Global, name: &str) -> Result<Vec<u8>, Stop> {
    let status = match name {
        "Done" => Status::Done,
        "Fault" => Status::Fault,
        "Usage" => Status::Usage,
        "Limit" => Status::Limit,
        "ReadFault" => Status::ReadFault,
        "WriteFault" => Status::WriteFault,
        "OutFault" => Status::OutFault,
        "NoMemory" => Status::NoMemory,
        "NotEnabled" => Status::NotEnabled,
        _ => return Err(Stop::BadCase),
    };
    Ok(code(status).to_string(alloc)?.into_bytes())
}

/// Makes a file. Its line has to say so, since its bytes are no answer.
fn put_file(
    alloc: Global,
    device: &mut Device,
    name: &str,
    line: &Line<'_>,
) -> Result<Vec<u8>, Stop> {
    if name.len() > 255 {
        return Err(Stop::BadCase);
    }
    let store = &mut device.store;
    let put = store.create(name).is_ok()
        && store.write(&line.bytes).is_ok()
        && store.close().is_ok();
    if put {
        Ok(Vec::from_slice(alloc, &line.bytes)?)
    } else {
        said(alloc, "the file cannot be made")
    }
}

/// Runs words, and gives the exit status.
fn status(alloc: Global, device: &mut Device, words: &[&str]) -> Result<Vec<u8>, Stop> {
    let words = owned(alloc, words)?;
    let mut out = MemOut::new(mem::replace(&mut device.out_fails, Vec::new(alloc)));
    let mut err = MemOut::new(mem::replace(&mut device.err_fails, Vec::new(alloc)));
    let status = run(alloc, &words, &mut device.store, &mut out, &mut err);
    device.out.extend_from_slice(out.bytes())?;
    device.err.extend_from_slice(err.bytes())?;
    Ok(code(status).to_string(alloc)?.into_bytes())
}

/// The words of a command line: `""` is an empty one.
fn owned(alloc: Global, words: &[&str]) -> Result<Vec<String>, Stop> {
    let mut owned = Vec::new(alloc);
    for word in words {
        let word = if *word == "\"\"" { "" } else { *word };
        owned.push(String::from_str(alloc, word)?)?;
    }
    Ok(owned)
}

/// A store without files, of which the listed calls fail. Calls are numbered from 0, behind the three
/// that each file of the case takes.
fn device_of(alloc: Global, case: &Case<'_>) -> Result<Device, Stop> {
    let mut failing = Vec::new(alloc);
    let mut calls: u64 = 0;
    for line in case.lines.iter() {
        match line.words.as_slice() {
            ["file", _] => calls = calls.saturating_add(3),
            ["fails", numbers @ ..] => failing.extend_from_slice(&decimals(alloc, numbers)?)?,
            _ => {}
        }
    }
    for number in failing.iter_mut() {
        *number = number.saturating_add(calls);
    }
    Ok(Device {
        store: empty_store(alloc, failing),
        out_fails: Vec::new(alloc),
        err_fails: Vec::new(alloc),
        out: Vec::new(alloc),
        err: Vec::new(alloc),
    })
}

/// A store without files.
#[tactic(auto, unfolding(tn_io::specs::FileLists::HasDistinctNames))]
fn empty_store(alloc: Global, failing: Vec<u64>) -> MemStore {
    MemStore::new(Vec::new(alloc), failing)
}
