use crate::cases::{Case, Line, cases_of};
use crate::reports::Report;
use crate::stops::Stop;
use std::alloc::Global;
use std::{env, fs, io};

/// What a program can run the cases of.
pub trait Tables {
    /// Runs a case of the table of this name.
    fn run_case(
        &self,
        alloc: Global,
        table: &str,
        case: &Case<'_>,
        report: &mut Report,
    ) -> Result<(), Stop>;
}

/// Runs the tables of these names, in this order, and prints what they gave. A table is the file
/// `NAME.txt` in the folder that the program's first word names. A second word is the name of one
/// table, which is then run alone.
pub fn run_tables<T: Tables>(rt: &HostRuntime, names: &[&str], tables: &T) -> io::Result<()> {
    let mut words = env::args(rt)?;
    let _program = words.next();
    let folder = match words.next() {
        Some(folder) => folder,
        None => String::from_str(rt.alloc(), ".")?,
    };
    let mut report = Report::new(rt.alloc());
    let ended = match words.next() {
        Some(name) => run_file(rt, folder.as_str(), name.as_str(), tables, &mut report)?,
        None => run_files(rt, folder.as_str(), names, tables, &mut report)?,
    };
    rt.print(report.text())?;
    rt.println(if ended.is_ok() {
        "all tables were run"
    } else {
        "no memory"
    })
}

/// Runs the tables of these names, up to one for which memory runs out.
fn run_files<T: Tables>(
    rt: &HostRuntime,
    folder: &str,
    names: &[&str],
    tables: &T,
    report: &mut Report,
) -> io::Result<Result<(), Stop>> {
    for name in names {
        let ended = run_file(rt, folder, name, tables, report)?;
        if ended.is_err() {
            return Ok(ended);
        }
    }
    Ok(Ok(()))
}

/// Runs the table of a name.
fn run_file<T: Tables>(
    rt: &HostRuntime,
    folder: &str,
    name: &str,
    tables: &T,
    report: &mut Report,
) -> io::Result<Result<(), Stop>> {
    let path = format!(in rt.alloc(); "{folder}/{name}.txt")?;
    let text = fs::read_to_string(rt, path.as_str())?;
    Ok(run_table(rt.alloc(), tables, name, text.as_str(), report))
}

fn run_table<T: Tables>(
    alloc: Global,
    tables: &T,
    table: &str,
    text: &str,
    report: &mut Report,
) -> Result<(), Stop> {
    for case in cases_of(alloc, text)?.iter() {
        let ended = tables.run_case(alloc, table, case, report);
        report.end_case(case.name, ended)?;
    }
    report.end_table(alloc, table)
}
