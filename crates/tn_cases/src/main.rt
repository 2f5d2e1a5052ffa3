//! Runs the tables of cases in data/, and prints how many lines each table has, and each line that
//! does not give what its table says.
//!
//! A table is a file in data/, a name in `TABLES`, and a row of the crate that runs its cases.
#![tactic(auto)]

mod host_files;

use std::alloc::Global;
use std::io;
use tn_tables::{Case, Report, Stop, Tables, run_tables};

/// The tables, in the order of what is printed.
const TABLES: [&str; 26] = [
    "host_files",
    "stores",
    "texts",
    "faults",
    "flat_sources",
    "operations",
    "codings",
    "layouts",
    "loader",
    "streams",
    "modules",
    "sources",
    "module_texts",
    "configs",
    "links",
    "arithmetic",
    "memories",
    "instructions",
    "processors",
    "nodes",
    "networks",
    "loads",
    "picks",
    "commands",
    "replays",
    "listings",
];

fn main(rt: HostRuntime) -> io::Result<()> {
    run_tables(&rt, &TABLES, &AllTables { rt: &rt })
}

/// The tables of every subject, on this host.
#[derive(Drop)]
struct AllTables<'a> {
    rt: &'a HostRuntime,
}

impl<'a> Tables for AllTables<'a> {
    /// Runs a case by the crate of its table's subject.
    fn run_case(
        &self,
        alloc: Global,
        table: &str,
        case: &Case<'_>,
        report: &mut Report,
    ) -> Result<(), Stop> {
        match table {
            "host_files" => host_files::run_case(self.rt, case, report),
            "arithmetic" | "memories" | "instructions" | "processors" | "nodes" | "networks" => {
                tn_machine_cases::run_case(alloc, table, case, report)
            }
            "loads" | "picks" => tn_network_cases::run_case(alloc, case, report),
            "commands" | "replays" | "listings" => tn_command_cases::run_case(alloc, case, report),
            table => tn_tool_cases::run_case(alloc, table, case, report),
        }
    }
}
