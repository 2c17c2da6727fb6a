//! Laws of refusals. Each function here is a law: its contract states it, and its body does nothing.

ghost use Rattle.rs_run.specs.Refusal.{PlayedOrRefused, RefusedOnce, SourceIsPlayed};

/// The bytes of a source aren't refused, bytes are refused at one line and for one cause, and bytes that are no source
/// are refused.
pub fn refusals()
    ensures played { SourceIsPlayed }
    ensures once { RefusedOnce }
    ensures either { PlayedOrRefused }
{}
