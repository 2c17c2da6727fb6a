//! Reading a source to its end.

ghost use Rattle.std.specs.Prelude.{◌<◌, ◌≤◌, length, IfOk};
ghost use Rattle.std.specs.Io.KnownBytes.{Consumes, IsAtEnd};
ghost use Rattle.rs_base.specs.Faults.{CountsFault};
ghost use Rattle.rs_stream.specs.Streams.{ConsumesAtMost};

use crate::source::Source;
use rs_base::{Bytes, Fault};
use std::alloc::Global;

/// Reads until the source ends or `limit` bytes were read, whichever is first. It reads no byte beyond those that it
/// returns.
pub fn read_to_end<S: Source>(alloc: Global, source: &mut S, limit: usize) -> Result<Bytes, Fault>
    ensures consumed { IfOk result (λ bytes. Consumes (S.left source.old) (S.left source.new) bytes) }
    ensures within { IfOk result (λ bytes. length bytes ≤ limit) }
    ensures at_end { IfOk result (λ bytes. length bytes < limit → IsAtEnd (S.left source.new)) }
    ensures reads { ConsumesAtMost limit (S.left source.old) (S.left source.new) }
    ensures faults { CountsFault result (S.faults source.old) (S.faults source.new) }
{
    let mut bytes = Bytes::new(alloc);
    let mut piece = [0u8; 4096];
    while bytes.len() < limit {
        let room = piece.len().min(limit - bytes.len());
        let part = &mut piece[..room];
        let n = source.read(part)?;
        if n == 0 {
            return Ok(bytes);
        }
        bytes.extend(&part[..n])?;
    }
    Ok(bytes)
}
