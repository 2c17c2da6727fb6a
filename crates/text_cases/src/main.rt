//! Reads files of cases, and reports each case that does not hold.
#![tactic(auto)]

mod calls;
mod fields;
mod messages;
mod names;
mod orders;
mod replies;
mod schedules;
mod texts;
mod values;

use anyhow::Result;
use case_tools::{Cases, Output, Words, check_cases};
use rs_base::NoMemory;
use rs_stream::{StdSink, write_whole};
use std::fs;
use std::rt::Files;

/// The cases of a file: their kind, and the prefixes after which reserved words stand.
#[derive(Drop)]
struct TextCases<'a> {
    kind: &'a str,
    prefixes: &'a str,
}

impl TextCases<'_> {
    /// Appends what the calls of this kind give for an input.
    fn append(&self, input: &str, out: &mut Output) -> Result<(), NoMemory> {
        match self.kind {
            "parse" => texts::append_fault(input, out),
            "cuts" => texts::append_cuts(input, out),
            "reserved" => texts::append_prefixes(input, self.prefixes, out),
            "printed" => texts::append_printed(input, out),
            "names" => names::append_name(input, out),
            "schedules" => schedules::append_schedule(input, true, out),
            "lines" => schedules::append_schedule(input, false, out),
            "events" => schedules::append_events(input, out),
            "fields" => fields::append_fields(input, out),
            "refused" => fields::append_refused(input, out),
            _ => messages::append_decoded(input, out),
        }
    }
}

impl Cases for TextCases<'_> {
    fn answer(&mut self, words: &mut Words<'_>, out: &mut Output) -> Result<(), NoMemory> {
        match self.kind {
            "calls" => calls::append_taken(words, out),
            "encoded" => messages::append_encoded(words, out),
            "values" => values::append_value(words, out),
            "replies" => replies::append_reply(words, out),
            "resolved" => {
                names::append_resolved(words, out);
                Ok(())
            }
            _ => self.append(words.rest(), out),
        }
    }
}

/// Checks the files of a line `KIND FILE`, or `reserved FILE PREFIXES`.
fn check_line<R: Files + AllocGlobal>(rt: &R, line: &str, out: &mut Output) -> Result<()> {
    let (kind, files) = line.split_once(' ').unwrap_or((line, ""));
    let (file, prefixes) = files.split_once(' ').unwrap_or((files, files));
    let text = fs::read_to_string(rt, file)?;
    let prefixes = fs::read_to_string(rt, prefixes)?;
    let mut cases = TextCases {
        kind,
        prefixes: prefixes.as_str(),
    };
    check_cases(&mut cases, kind, file, text.as_str(), out)?;
    Ok(())
}

fn main(rt: HostRuntime) -> Result<()> {
    let mut out = Output::new(rt.alloc());
    for line in rt.lines(rt.alloc()) {
        check_line(&rt, line?.as_str(), &mut out)?;
    }
    let report = out.finish()?;
    write_whole(&mut StdSink::new(rt.stdout()), report.as_slice())?;
    Ok(())
}
