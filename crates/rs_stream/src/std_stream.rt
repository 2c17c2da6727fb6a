//! Streams over those of std, such as a socket or a file. They report nothing of the bytes.

ghost use Rattle.std.specs.Prelude.{◌≡◌, ◌<◌, ◌≤◌, length, None, is_err, IfOk, IfErr};
ghost use Rattle.std.specs.Io.KnownBytes.{ReadConsumes, WriteAppends};
ghost use Rattle.rs_base.specs.Faults.{CountsFailed, CountsFault};
ghost use Rattle.rs_stream.specs.MemStreams.{faults_after};

use crate::sink::Sink;
use crate::source::Source;
use rs_base::{Failed, Fault};
use std::io::{Read, Write};

/// A source over a reader of std. Each error of the reader is a fault, an interrupted read too. The count of faults
/// stays at `u64::MAX` once it reaches it.
#[derive(Drop)]
pub struct StdSource<R> {
    reader: R,
    faults: u64,
}

impl<R: Read> StdSource<R> {
    pub fn new(reader: R) -> StdSource<R>
        ensures reader { result.reader ≡ reader }
        ensures faults { result.faults ≡ 0 }
    {
        StdSource { reader, faults: 0 }
    }
}

impl<R: Read> Source for StdSource<R> {
    ghost left = { λ _. None };

    ghost faults = { λ it. it.faults };

    fn read(&mut self, into: &mut [u8]) -> Result<usize, Failed>
        ensures within { IfOk result (λ n. n ≤ length into.old) }
        ensures bytes { ReadConsumes None None result into.new }
        ensures faults { CountsFailed result self.old.faults self.new.faults }
        ensures counts { self.new.faults ≡ faults_after (is_err result) self.old.faults }
        ensures reader { ReadConsumes (R.remaining self.old.reader) (R.remaining self.new.reader) result into.new }
    {
        match self.reader.read(into) {
            Ok(n) => Ok(n),
            Err(_) => {
                self.faults = self.faults.saturating_add(1);
                Err(Failed)
            }
        }
    }
}

/// A sink over a writer of std, without a buffer. Each error of the writer is a fault, an interrupted write too, and so
/// is a write of no byte of a buffer that isn't empty. The count of faults stays at `u64::MAX` once it reaches it.
#[derive(Drop)]
pub struct StdSink<W> {
    writer: W,
    faults: u64,
}

impl<W: Write> StdSink<W> {
    pub fn new(writer: W) -> StdSink<W>
        ensures writer { result.writer ≡ writer }
        ensures faults { result.faults ≡ 0 }
    {
        StdSink { writer, faults: 0 }
    }
}

impl<W: Write> Sink for StdSink<W> {
    ghost written = { λ _. None };

    ghost faults = { λ it. it.faults };

    fn write(&mut self, from: &[u8]) -> Result<usize, Fault>
        ensures within { IfOk result (λ n. n ≤ length from.now) }
        ensures progress { 0 < length from.now → IfOk result (λ n. 0 < n) }
        ensures bytes { WriteAppends None None result from.now }
        ensures faults { CountsFault result self.old.faults self.new.faults }
        ensures failed { IfErr result (λ fault. fault ≡ Fault.Failed) }
        ensures counts { self.new.faults ≡ faults_after (is_err result) self.old.faults }
        ensures writer { WriteAppends (W.contents self.old.writer) (W.contents self.new.writer) result from.now }
    {
        match self.writer.write(from) {
            Ok(n) if n > 0 || from.is_empty() => Ok(n),
            _ => {
                self.faults = self.faults.saturating_add(1);
                Err(Fault::Failed)
            }
        }
    }
}
