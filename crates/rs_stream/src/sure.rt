//! Streams over memory that never fail.

ghost use Rattle.std.specs.Prelude.{◌≡◌, ◌<◌, ◌≤◌, [], ◌++◌, length, min, take, drop, Some, Ok, IfOk, IfErr};
ghost use Rattle.std.specs.Io.KnownBytes.{ReadConsumes, WriteAppends};
ghost use Rattle.rs_base.specs.Faults.{CountsFailed, CountsFault};

use crate::sink::Sink;
use crate::source::Source;
use rs_base::{Bytes, Failed, Fault, NoMemory};
use std::alloc::Global;
use std::marker::Model;

/// A source over a copy of bytes in memory. Contracts see it as the list of the bytes left.
#[derive(Drop)]
pub struct SureSource {
    bytes: Bytes,
    at: usize,
}

impl Model for SureSource {
    ghost use Rattle.std.specs.Prelude.{List, ℕ, ◌≤◌, length, drop};

    ghost Value = { List ℕ };

    ghost view = { λ it. drop it.at it.bytes };

    ghost invariant = { λ it. it.at ≤ length it.bytes };
}

impl SureSource {
    pub fn new(alloc: Global, bytes: &[u8]) -> Result<SureSource, NoMemory>
        ensures { IfOk result (λ it. it ≡ bytes.now) }
    {
        let bytes = Bytes::from_slice(alloc, bytes)?;
        Ok(SureSource { bytes, at: 0 })
    }
}

impl Source for SureSource {
    ghost left = { λ it. Some it };

    ghost faults = { λ _. 0 };

    /// Reads as many bytes as fit.
    fn read(&mut self, into: &mut [u8]) -> Result<usize, Failed>
        ensures within { IfOk result (λ n. n ≤ length into.old) }
        ensures bytes { ReadConsumes (Some self.old) (Some self.new) result into.new }
        ensures faults { CountsFailed result 0 0 }
        ensures fits { result ≡ Ok (min (length self.old) (length into.old)) }
        ensures suffix { IfOk result (λ n. into.new ≡ take n self.old ++ drop n into.old) }
    {
        let (_, left) = self.bytes.as_slice().split_at(self.at);
        let n = left.len().min(into.len());
        into[..n].copy_from_slice(&left[..n]);
        self.at += n;
        Ok(n)
    }
}

/// A sink into memory. Contracts see it as the list of the bytes written.
#[derive(Drop)]
pub struct SureSink {
    bytes: Bytes,
}

impl Model for SureSink {
    ghost use Rattle.std.specs.Prelude.{List, ℕ};

    ghost Value = { List ℕ };

    ghost view = { λ it. it.bytes };
}

impl SureSink {
    pub fn new(alloc: Global) -> SureSink
        ensures { result ≡ [] }
    {
        SureSink {
            bytes: Bytes::new(alloc),
        }
    }

    /// Returns the bytes written so far.
    pub fn bytes(&self) -> &[u8]
        ensures { result.now ≡ self.now }
    {
        self.bytes.as_slice()
    }
}

impl Sink for SureSink {
    ghost written = { λ it. Some it };

    ghost faults = { λ _. 0 };

    /// Appends all of `from`. On out of memory it appends nothing.
    fn write(&mut self, from: &[u8]) -> Result<usize, Fault>
        ensures within { IfOk result (λ n. n ≤ length from.now) }
        ensures progress { 0 < length from.now → IfOk result (λ n. 0 < n) }
        ensures bytes { WriteAppends (Some self.old) (Some self.new) result from.now }
        ensures faults { CountsFault result 0 0 }
        ensures all { IfOk result (λ n. n ≡ length from.now) }
        ensures want { IfErr result (λ fault. fault ≡ Fault.NoMemory) }
    {
        self.bytes.extend(from)?;
        Ok(from.len())
    }
}
