//! A source over memory whose reads fail at chosen calls.

ghost use Rattle.std.specs.Prelude.{◌≡◌, ◌≤◌, ◌++◌, length, min, take, drop, Some, is_err, IfOk, OnErr};
ghost use Rattle.std.specs.Io.KnownBytes.{ReadConsumes};
ghost use Rattle.rs_base.specs.Faults.{CountsFailed};
ghost use Rattle.rs_stream.specs.MemStreams.{raised, fails_next, faults_after};

use crate::source::Source;
use crate::sure::SureSource;
use rs_base::{Failed, NoMemory};
use std::alloc::Global;
use std::marker::Model;

/// A source over a copy of bytes in memory. The reads numbered in a list, from 1, fail; every other read succeeds. The
/// counts of reads and of failed reads stay at `u64::MAX` once they reach it.
#[derive(Drop)]
pub struct MemSource {
    inner: SureSource,
    calls: u64,
    fail: Vec<u64>,
    faults: u64,
}

impl Model for MemSource {
    ghost use Rattle.rs_stream.specs.MemStreams.{SourceInMemory};

    ghost Value = { SourceInMemory };

    ghost view = { λ it. record { left = it.inner; calls = it.calls; fail = it.fail.items; faults = it.faults } };
}

impl MemSource {
    /// Makes a source of `bytes` whose reads numbered in `fail`, from 1, fail.
    pub fn new(alloc: Global, bytes: &[u8], fail: &[u64]) -> Result<MemSource, NoMemory>
        ensures { IfOk result (λ it. it ≡ record { left = bytes.now; calls = 0; fail = fail.now; faults = 0 }) }
    {
        let inner = SureSource::new(alloc, bytes)?;
        let fail = Vec::from_slice(alloc, fail)?;
        Ok(MemSource {
            inner,
            calls: 0,
            fail,
            faults: 0,
        })
    }
}

impl Source for MemSource {
    ghost left = { λ it. Some it.left };

    ghost faults = { λ it. it.faults };

    /// Reads as many bytes as fit, unless this read is one of those that fail.
    fn read(&mut self, into: &mut [u8]) -> Result<usize, Failed>
        ensures within { IfOk result (λ n. n ≤ length into.old) }
        ensures bytes { ReadConsumes (Some self.old.left) (Some self.new.left) result into.new }
        ensures faults { CountsFailed result self.old.faults self.new.faults }
        ensures failed { is_err result ≡ fails_next self.old.fail self.old.calls }
        ensures fits { IfOk result (λ n. n ≡ min (length self.old.left) (length into.old)) }
        ensures suffix { IfOk result (λ n. into.new ≡ take n self.old.left ++ drop n into.old) }
        ensures piece { OnErr result (into.new ≡ into.old) }
        ensures counts { self.new ≡ record self.old {
          left = self.new.left;
          calls = raised self.old.calls;
          faults = faults_after (is_err result) self.old.faults;
        } }
    {
        self.calls = self.calls.saturating_add(1);
        if self.fail.contains(&self.calls) {
            self.faults = self.faults.saturating_add(1);
            return Err(Failed);
        }
        self.inner.read(into)
    }
}
