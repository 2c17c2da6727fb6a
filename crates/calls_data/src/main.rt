//! Reads files of calls on streams, of statements over tables and of calls on a site, and reports each call that answers
//! otherwise than wanted.
#![tactic(auto)]

mod binding;
mod effects;
mod site;
mod statements;
mod stream;

use anyhow::Result;
use case_tools::{Output, check_cases};
use rs_base::NoMemory;
use rs_stream::{StdSink, write_whole};
use site::SiteCases;
use statements::StatementCases;
use std::fs;
use std::rt::Files;
use stream::StreamCases;

/// Makes the calls of a file of this kind.
fn check_kind(kind: &str, file: &str, text: &str, out: &mut Output) -> Result<(), NoMemory> {
    match kind {
        "stream" => check_cases(&mut StreamCases, kind, file, text, out),
        "site" => check_cases(&mut SiteCases::new(out.alloc)?, kind, file, text, out),
        _ => check_cases(&mut StatementCases::new(out.alloc), kind, file, text, out),
    }
}

/// Checks the file of a line `KIND FILE`.
fn check_line<R: Files + AllocGlobal>(rt: &R, line: &str, out: &mut Output) -> Result<()> {
    let (kind, file) = line.split_once(' ').unwrap_or((line, ""));
    let text = fs::read_to_string(rt, file)?;
    check_kind(kind, file, text.as_str(), out)?;
    Ok(())
}

fn main(rt: HostRuntime) -> Result<()> {
    let mut out = Output::new(rt.alloc());
    for line in rt.lines(rt.alloc()) {
        check_line(&rt, line?.as_str(), &mut out)?;
    }
    let report = out.finish()?;
    write_whole(&mut StdSink::new(rt.stdout()), report.as_slice())?;
    Ok(())
}
