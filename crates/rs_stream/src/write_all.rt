//! Writing all of a byte string.

ghost use Rattle.std.specs.Prelude.{OnOk, OnErr};
ghost use Rattle.std.specs.Io.KnownBytes.{Appends};
ghost use Rattle.rs_base.specs.Faults.{CountsFault};
ghost use Rattle.rs_stream.specs.Streams.{AppendsPrefix};

use crate::sink::Sink;
use rs_base::Fault;

/// Writes all of `bytes`. If a write fails, a prefix of them was written.
pub fn write_whole<K: Sink>(sink: &mut K, bytes: &[u8]) -> Result<(), Fault>
    ensures whole { OnOk result (Appends (K.written sink.old) (K.written sink.new) bytes.now) }
    ensures prefix { OnErr result (AppendsPrefix (K.written sink.old) (K.written sink.new) bytes.now) }
    ensures faults { CountsFault result (K.faults sink.old) (K.faults sink.new) }
{
    let mut at = 0;
    while at < bytes.len() {
        let (_, rest) = bytes.split_at(at);
        at += sink.write(rest)?;
    }
    Ok(())
}
