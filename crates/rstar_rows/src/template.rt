//! The files of a case, or of the cases of a table.

use crate::case::Case;
use crate::setup::read_setup;
use anyhow::{Context, Result};
use case_tools::expand;
use rs_base::{Bytes, ReadFault};
use std::alloc::Global;
use std::fs;
use std::rt::Files;

/// The texts of a source and its report, with fields, and the lines that fill these.
#[derive(Drop)]
pub struct Template {
    schedule: String,
    report: String,
    pub table: String,
}

/// Separates the line of the setup from the report after it.
fn separate_setup(text: &str) -> (&str, &str) {
    match text.strip_prefix("\\!") {
        Some(text) => text.split_once('\n').unwrap_or((text, "")),
        None => ("0 0 0 'replay'", text),
    }
}

/// Writes the fields of a line, which are separated by tabs.
fn fields(alloc: Global, line: &str) -> Result<Vec<Bytes>, ReadFault> {
    let mut fields = Vec::new(alloc);
    for field in line.split('\t') {
        fields.push(expand(alloc, field, &[])?)?;
    }
    Ok(fields)
}

impl Template {
    /// Reads the files of this name: a `.sched` has one line that fills no field, a `.lines` those that are in it.
    pub fn read<R: Files + AllocGlobal>(rt: &R, name: &str) -> Result<Template> {
        let alloc = rt.alloc();
        let (stem, kind) = name.split_once('.').context("a name without a dot")?;
        let schedule = fs::read_to_string(rt, format!(in alloc; "{stem}.sched")?)?;
        let report = fs::read_to_string(rt, format!(in alloc; "{stem}.report")?)?;
        let table = if kind == "lines" {
            fs::read_to_string(rt, name)?
        } else {
            String::from_str(alloc, "\n")?
        };
        Ok(Template {
            schedule,
            report,
            table,
        })
    }

    /// Makes the case of a line.
    pub fn case(&self, alloc: Global, line: &str) -> Result<Case, ReadFault> {
        let fields = fields(alloc, line)?;
        let (setup, report) = separate_setup(self.report.as_str());
        let setup = expand(alloc, setup, fields.as_slice())?;
        Ok(Case {
            setup: read_setup(alloc, setup.as_slice())?,
            source: expand(alloc, self.schedule.as_str(), fields.as_slice())?,
            text: expand(alloc, report, fields.as_slice())?,
        })
    }
}
