//! Reads files of calls on the protocols between sites, and reports each call that answers otherwise than wanted.
#![tactic(auto)]

mod agreement;
mod calls;
mod coordinators;
mod numbers;
mod parts;

use agreement::AgreementCases;
use anyhow::Result;
use calls::CallCases;
use case_tools::{Output, check_cases};
use coordinators::CoordinatorCases;
use numbers::NumberCases;
use parts::PartCases;
use rs_base::NoMemory;
use rs_stream::{StdSink, write_whole};
use std::fs;
use std::rt::Files;

/// Makes the calls of a file of this kind.
fn check_kind(kind: &str, file: &str, text: &str, out: &mut Output) -> Result<(), NoMemory> {
    match kind {
        "calls" => check_cases(&mut CallCases::new(out.alloc), kind, file, text, out),
        "numbers" => check_cases(&mut NumberCases::new(), kind, file, text, out),
        "coordinators" => {
            check_cases(
                &mut CoordinatorCases::new(out.alloc)?,
                kind,
                file,
                text,
                out,
            )
        }
        "parts" => check_cases(&mut PartCases::new(), kind, file, text, out),
        _ => check_cases(&mut AgreementCases, kind, file, text, out),
    }
}

/// Checks the file of a line `KIND FILE`.
fn check_line<R: Files + AllocGlobal>(rt: &R, line: &str, out: &mut Output) -> Result<()> {
    let (kind, file) = line.split_once(' ').unwrap_or((line, ""));
    let text = fs::read_to_string(rt, file)?;
    check_kind(kind, file, text.as_str(), out)?;
    Ok(())
}

fn main(rt: HostRuntime) -> Result<()> {
    let mut out = Output::new(rt.alloc());
    for line in rt.lines(rt.alloc()) {
        check_line(&rt, line?.as_str(), &mut out)?;
    }
    let report = out.finish()?;
    write_whole(&mut StdSink::new(rt.stdout()), report.as_slice())?;
    Ok(())
}
