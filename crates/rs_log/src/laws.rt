//! Laws of logs. A law's claim is its contract, and its body is empty.

ghost use Rattle.rs_log.specs.Laws.{WrittenIsRead, ForceKeepsItems, OpeningKeepsItems};

/// Proves that an opening finds the items that were written.
pub fn what_is_written_is_read()
    ensures { WrittenIsRead }
{}

/// Proves that a stop in any device call of a force leaves the stable items, with the tail or without it.
pub fn forces_keep_items()
    ensures { ForceKeepsItems }
{}

/// Proves that a stop in any device call of an opening, after its size and read, leaves the same items.
pub fn openings_keep_items()
    ensures { OpeningKeepsItems }
{}
