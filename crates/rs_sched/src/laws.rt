//! Laws of schedules. A law's claim is its contract, and its body is empty.

ghost use Rattle.rs_sched.specs.Laws.{FaultOnce, PrintedIsSchedule, ScheduleHasNoFault, ScheduleOnce};

/// Proves that the lines `print_event` appends for the events of a valid list are a schedule of that list, if they are
/// at most 16,777,216 bytes.
pub fn printed_is_schedule()
    ensures { PrintedIsSchedule }
{}

/// Proves that bytes are a schedule of at most one list of events.
pub fn schedule_once()
    ensures { ScheduleOnce }
{}

/// Proves that bytes have at most one fault, a line and its cause, and that a schedule has none.
pub fn fault_once()
    ensures once { FaultOnce }
    ensures none { ScheduleHasNoFault }
{}
