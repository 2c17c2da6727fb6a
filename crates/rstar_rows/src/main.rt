//! Plays the cases of its folder, and prints for each file how many of them come out as it says.
//!
//! A line of the input names a file: `NAME.sched` is one case, whose report is `NAME.report`; `NAME.lines` is a table,
//! in which each line is a case that fills the fields of `NAME.sched` and `NAME.report`. All are written in the notation
//! of `case_tools`.
#![tactic(auto)]

mod case;
mod compare;
mod setup;
mod template;

use crate::case::Case;
use crate::compare::append_difference;
use crate::template::Template;
use anyhow::Result;
use case_tools::Output;
use rs_base::NoMemory;
use rs_stream::{StdSink, write_whole};
use std::rt::Files;

/// How many cases there are, and how many of them come out as they say.
#[derive(Clone, Copy)]
struct Tally {
    cases: u64,
    same: u64,
}

impl Tally {
    fn new() -> Tally {
        Tally { cases: 0, same: 0 }
    }

    fn add(&mut self, other: Tally) {
        self.cases = self.cases.saturating_add(other.cases);
        self.same = self.same.saturating_add(other.same);
    }
}

/// Plays a case, appends where it differs, and returns what it adds to the tally.
fn play(case: &Case, name: &str, number: u64, out: &mut Output) -> Result<Tally, NoMemory> {
    let wanted = case.wanted(out.alloc).finish()?;
    let got = case.play(out.alloc)?.finish()?;
    if wanted.as_slice() == got.as_slice() {
        return Ok(Tally { cases: 1, same: 1 });
    }
    out.text(name);
    out.text(": case ");
    out.number(number);
    out.text(" differs\n");
    append_difference(wanted.as_slice(), got.as_slice(), out);
    Ok(Tally { cases: 1, same: 0 })
}

/// Plays the cases of a file.
fn play_file<R: Files + AllocGlobal>(rt: &R, name: &str, out: &mut Output) -> Result<Tally> {
    let template = Template::read(rt, name)?;
    let mut tally = Tally::new();
    for line in template.table.lines() {
        if !line.starts_with('#') {
            let case = template.case(rt.alloc(), line)?;
            let number = tally.cases.saturating_add(1);
            tally.add(play(&case, name, number, out)?);
        }
    }
    out.text(name);
    out.text(": ");
    out.number(tally.same);
    out.text(" of ");
    out.number(tally.cases);
    out.text(" same\n");
    Ok(tally)
}

fn main(rt: HostRuntime) -> Result<()> {
    let mut out = Output::new(rt.alloc());
    let mut total = Tally::new();
    for name in rt.lines(rt.alloc()) {
        total.add(play_file(&rt, name?.as_str(), &mut out)?);
    }
    out.number(total.cases);
    out.text(" cases, ");
    out.number(total.cases.saturating_sub(total.same));
    out.text(" differ\n");
    let report = out.finish()?;
    write_whole(&mut StdSink::new(rt.stdout()), report.as_slice())?;
    Ok(())
}
