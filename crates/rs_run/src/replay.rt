//! From the bytes of a source to the text of its report.

ghost use Rattle.std.specs.Prelude.{◌≡◌, Err, IfOk};
ghost use Rattle.rs_run.specs.Refusal.{IsRefusal};
ghost use Rattle.rs_run.specs.Run.{Reports};

use crate::source::{Refusal, SourceFault, events_of};
use rs_base::Bytes;
use rs_world::{World, print_report};
use std::alloc::Global;

/// Returns the text of the report of a source, or the line at which the bytes are refused. The bytes and their events are
/// freed before the report is put together.
pub fn report_text(alloc: Global, bytes: Bytes) -> Result<Bytes, SourceFault>
    ensures reported { IfOk result (λ text. Reports bytes text) }
    ensures refused { (refusal : Refusal) → result ≡ Err (SourceFault.Refused refusal)
        → IsRefusal bytes refusal.line refusal.cause }
{
    let events = events_of(alloc, bytes.as_slice())?;
    let world = World::play(alloc, events.as_slice())?;
    drop(events);
    drop(bytes);
    let report = world.into_report(alloc)?;
    Ok(print_report(alloc, &report)?)
}
