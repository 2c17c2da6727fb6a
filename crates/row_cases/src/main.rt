//! Reads files of calls on the structures that a table is stored in, and on locks, and reports each call that answers otherwise than
//! wanted.
#![tactic(auto)]

mod clauses;
mod index;
mod locks;
mod paths;
mod rows;
mod section_words;
mod sections;
mod stored;

use anyhow::Result;
use case_tools::{Output, check_cases};
use clauses::ClauseCases;
use index::IndexCases;
use locks::LockCases;
use paths::PathCases;
use rows::RowCases;
use rs_base::NoMemory;
use rs_stream::{StdSink, write_whole};
use sections::SectionCases;
use std::fs;
use std::rt::Files;
use stored::StoredCases;

/// Makes the calls of a file of this kind.
fn check_kind(kind: &str, file: &str, text: &str, out: &mut Output) -> Result<(), NoMemory> {
    match kind {
        "rows" => check_cases(&mut RowCases::new(out.alloc), kind, file, text, out),
        "stored" => check_cases(&mut StoredCases::new(out.alloc), kind, file, text, out),
        "index" => check_cases(&mut IndexCases::new(out.alloc)?, kind, file, text, out),
        "sections" => check_cases(&mut SectionCases::new(out.alloc), kind, file, text, out),
        "locks" => check_cases(&mut LockCases::new(out), kind, file, text, out),
        "clauses" => check_cases(&mut ClauseCases, kind, file, text, out),
        _ => check_cases(&mut PathCases::new(out.alloc), kind, file, text, out),
    }
}

/// Checks the file of a line `KIND FILE`.
fn check_line<R: Files + AllocGlobal>(rt: &R, line: &str, out: &mut Output) -> Result<()> {
    let (kind, file) = line.split_once(' ').unwrap_or((line, ""));
    let text = fs::read_to_string(rt, file)?;
    check_kind(kind, file, text.as_str(), out)?;
    Ok(())
}

fn main(rt: HostRuntime) -> Result<()> {
    let mut out = Output::new(rt.alloc());
    for line in rt.lines(rt.alloc()) {
        check_line(&rt, line?.as_str(), &mut out)?;
    }
    let report = out.finish()?;
    write_whole(&mut StdSink::new(rt.stdout()), report.as_slice())?;
    Ok(())
}
