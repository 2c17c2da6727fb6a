//! A case: a source, how it is run, and what has to come of it.

use crate::setup::Setup;
use case_tools::Output;
use rs_base::{Bytes, NoMemory};
use rs_run::run::run;
use rs_stream::{MemSink, MemSource};
use std::alloc::Global;

/// A source, how it is run, and the text that has to be written.
#[derive(Drop)]
pub struct Case {
    pub setup: Setup,
    pub source: Bytes,
    pub text: Bytes,
}

/// Returns the outcome of a run: a line with its status, and the text that it wrote.
fn outcome(alloc: Global, status: u8, text: &[u8]) -> Output {
    let mut out = Output::new(alloc);
    out.text("status ");
    out.number(u64::from(status));
    out.text("\n");
    out.append(text);
    out
}

impl Case {
    /// Returns the wanted outcome.
    pub fn wanted(&self, alloc: Global) -> Output {
        outcome(alloc, self.setup.status, self.text.as_slice())
    }

    /// Runs the source, and returns its outcome.
    pub fn play(&self, alloc: Global) -> Result<Output, NoMemory> {
        let setup = &self.setup;
        let mut source = MemSource::new(alloc, self.source.as_slice(), &[setup.read])?;
        let mut sink = MemSink::new(alloc, &[setup.write])?;
        let status = run(alloc, setup.words.as_slice(), &mut source, &mut sink);
        Ok(outcome(alloc, status, sink.bytes()))
    }
}
