//! Laws of locks, over every list of calls. A law's claim is its contract, and its body is empty.

ghost use Rattle.rs_lock.specs.Laws.{AskedFor, BlockedByHolder, CountedIsQueued, GrantsWhileItCan, HeldOnce, HoldersStay, LeavesNothing, NamesHolder, OneWriterOrReaders, QueuedIsCounted, QueuedOnce, ReachedMore, UpgradesFirst, WaitingAgrees, WaitsEnd, WaitsForHolder, WaitsOnce};

/// Proves that at every moment all holders of a resource read, or there is one holder alone.
pub fn one_writer_or_readers()
    ensures { OneWriterOrReaders }
{}

/// Proves that at every moment no enlistment holds a resource twice.
pub fn held_once()
    ensures { HeldOnce }
{}

/// Proves that at every moment the upgrades of a resource stand before all other claims of its queue.
pub fn upgrades_first()
    ensures { UpgradesFirst }
{}

/// Proves that no enlistment stands in a queue twice.
pub fn queued_once()
    ensures { QueuedOnce }
{}

/// Proves that at every moment each enlistment that waits for a resource waits for a holder other than itself.
pub fn blocked_by_holder()
    ensures { BlockedByHolder }
{}

/// Proves that at every moment there is a holder to name to an ask that has to wait.
pub fn waits_for_holder()
    ensures { WaitsForHolder }
{}

/// Proves that after a release the queue of a resource is empty, or its first claim conflicts with another holder.
pub fn grants_while_it_can()
    ensures { GrantsWhileItCan }
{}

/// Proves that the holder that a tick names holds the resource then, and isn't the one who waited.
pub fn names_holder()
    ensures { NamesHolder }
{}

/// Proves that a tick ends a wait if one has counted enough ticks.
pub fn waits_end()
    ensures { WaitsEnd }
{}

/// Proves that at every moment an enlistment holds and waits for only what it asked for.
pub fn asked_for()
    ensures { AskedFor }
{}

/// Proves that after its release an enlistment holds nothing and waits for nothing.
pub fn leaves_nothing()
    ensures { LeavesNothing }
{}

/// Proves that at every moment each enlistment that stands in a queue has a wait for the resource, which ticks count.
pub fn queued_is_counted()
    ensures { QueuedIsCounted }
{}

/// Proves that at every moment no enlistment has two waits.
pub fn waits_once()
    ensures { WaitsOnce }
{}

/// Proves that at every moment each wait that ticks count stands in the queue of its resource.
pub fn counted_is_queued()
    ensures { CountedIsQueued }
{}

/// Proves that a holder holds the resource until its release.
pub fn holders_stay()
    ensures { HoldersStay }
{}

/// Proves that a call that may come leads from locks that a list of calls reaches to such locks.
pub fn reached_more()
    ensures { ReachedMore }
{}

/// Proves that at every moment an enlistment has a wait exactly if it stands in a queue.
pub fn waiting_agrees()
    ensures { WaitingAgrees }
{}
