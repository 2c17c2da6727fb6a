//! A sink into memory whose writes fail at chosen calls.

ghost use Rattle.std.specs.Prelude.{◌≡◌, ◌↔◌, ◌<◌, ◌≤◌, [], length, Some, IsTrue, IfOk, IsErrOf};
ghost use Rattle.std.specs.Io.KnownBytes.{WriteAppends};
ghost use Rattle.rs_base.specs.Faults.{CountsFault};
ghost use Rattle.rs_stream.specs.MemStreams.{raised, fails_next, faults_after};

use crate::sink::Sink;
use crate::sure::SureSink;
use rs_base::{Fault, NoMemory};
use std::alloc::Global;
use std::marker::Model;

/// A sink into memory. The writes numbered in a list, from 1, fail; every other write appends all its bytes, or fails on
/// out of memory. The counts of writes and of failed writes stay at `u64::MAX` once they reach it.
#[derive(Drop)]
pub struct MemSink {
    inner: SureSink,
    calls: u64,
    fail: Vec<u64>,
    faults: u64,
}

impl Model for MemSink {
    ghost use Rattle.rs_stream.specs.MemStreams.{SinkInMemory};

    ghost Value = { SinkInMemory };

    ghost view = { λ it. record { written = it.inner; calls = it.calls; fail = it.fail.items; faults = it.faults } };
}

impl MemSink {
    /// Makes a sink whose writes numbered in `fail`, from 1, fail.
    pub fn new(alloc: Global, fail: &[u64]) -> Result<MemSink, NoMemory>
        ensures { IfOk result (λ it. it ≡ record { written = []; calls = 0; fail = fail.now; faults = 0 }) }
    {
        let fail = Vec::from_slice(alloc, fail)?;
        Ok(MemSink {
            inner: SureSink::new(alloc),
            calls: 0,
            fail,
            faults: 0,
        })
    }

    /// Returns the bytes written so far.
    pub fn bytes(&self) -> &[u8]
        ensures { result.now ≡ self.now.written }
    {
        self.inner.bytes()
    }
}

impl Sink for MemSink {
    ghost written = { λ it. Some it.written };

    ghost faults = { λ it. it.faults };

    /// Appends all of `from`, unless this write is one of those that fail. On out of memory it appends nothing.
    fn write(&mut self, from: &[u8]) -> Result<usize, Fault>
        ensures within { IfOk result (λ n. n ≤ length from.now) }
        ensures progress { 0 < length from.now → IfOk result (λ n. 0 < n) }
        ensures bytes { WriteAppends (Some self.old.written) (Some self.new.written) result from.now }
        ensures faults { CountsFault result self.old.faults self.new.faults }
        ensures failed { IsErrOf result Fault.Failed ↔ IsTrue (fails_next self.old.fail self.old.calls) }
        ensures all { IfOk result (λ n. n ≡ length from.now) }
        ensures counts { self.new ≡ record self.old {
          written = self.new.written;
          calls = raised self.old.calls;
          faults = faults_after (fails_next self.old.fail self.old.calls) self.old.faults;
        } }
    {
        self.calls = self.calls.saturating_add(1);
        if self.fail.contains(&self.calls) {
            self.faults = self.faults.saturating_add(1);
            return Err(Fault::Failed);
        }
        self.inner.write(from)
    }
}
