//! Reading a source: the events of a schedule that is played.

ghost use Rattle.std.specs.Prelude.{◌≡◌, ◌≤◌, ◌^◌, None, Err, false, IfOk, List};
ghost use Rattle.rs_run.specs.Refusal.{IsSource, IsRefusal, cause_text};
ghost use Rattle.rs_run.specs.SourceReader as spec;

use rs_base::NoMemory;
use rs_sched::{Event, EventLines, Events, MOST_BYTES, SchedFault, Why, parse_schedule};
use sqlite_items::Items;
use std::alloc::{AllocError, Global};
use thiserror::Error;

/// Why a line is refused.
#[derive(Clone, Copy, Debug, PartialEq, Eq)]
pub enum Cause {
    /// It is wrong by the grammar of schedules.
    Bad(Why),
    /// It is right, but not played yet; or it has to be the settle after the last ask.
    Later,
}

/// The line at which bytes are refused, from 1, and the cause; line 0 for too many bytes.
#[derive(Clone, Copy, Debug, PartialEq, Eq)]
pub struct Refusal {
    pub line: u64,
    pub cause: Cause,
}

/// Why there are no events.
#[derive(Clone, Copy, Debug, PartialEq, Eq, Error)]
pub enum SourceFault {
    #[error("a line is refused")]
    Refused(Refusal),
    #[error("out of memory")]
    NoMemory,
}

impl From<SchedFault> for SourceFault {
    ghost use Rattle.std.specs.Prelude.{◌≡◌};
    ghost use Rattle.rs_run.specs.SourceReader.{of_sched};

    ghost from_gives = { λ fault own. own ≡ of_sched fault };

    fn from(fault: SchedFault) -> SourceFault {
        match fault {
            SchedFault::BadLine { line, why } => SourceFault::Refused(Refusal {
                line,
                cause: Cause::Bad(why),
            }),
            SchedFault::NoMemory => SourceFault::NoMemory,
        }
    }
}

impl From<AllocError> for SourceFault {
    ghost use Rattle.std.specs.Prelude.{◌≡◌};
    ghost use Rattle.rs_run.specs.declared.source.SourceFault.TheVariants as faults;

    ghost from_gives = { λ _ fault. fault ≡ faults.NoMemory };

    fn from(_error: AllocError) -> SourceFault {
        SourceFault::NoMemory
    }
}

impl From<NoMemory> for SourceFault {
    ghost use Rattle.std.specs.Prelude.{◌≡◌};
    ghost use Rattle.rs_run.specs.declared.source.SourceFault.TheVariants as faults;

    ghost from_gives = { λ _ fault. fault ≡ faults.NoMemory };

    fn from(_error: NoMemory) -> SourceFault {
        SourceFault::NoMemory
    }
}

impl Cause {
    /// Returns the cause in words.
    pub fn text(self) -> &'static [u8]
        ensures { result.now ≡ cause_text self }
    {
        match self {
            Cause::Bad(why) => why.text(),
            Cause::Later => b"later",
        }
    }
}

/// Returns whether the event may come now, where `unsettled` says that an ask has no settle after it yet.
fn may_come(unsettled: bool, event: &Event) -> bool
    ensures { result ≡ spec.may_come unsettled event.now }
{
    match event {
        Event::Sites(last) => last.number() == 1,
        Event::Ask { .. } => !unsettled,
        Event::Settle(None) => true,
        Event::Noise(_, _) => true,
        Event::Settle(Some(_)) => false,
        Event::Deliver(_) => false,
        Event::Lose(_) => false,
        Event::Tick(_, _) => false,
        Event::Stop(_, _, _) => false,
        Event::Arm(_, _, _, _) => false,
        Event::Restart(_) => false,
    }
}

/// Returns whether an ask has no settle after it, after this event.
fn is_open_after(unsettled: bool, event: &Event) -> bool
    ensures { result ≡ spec.is_open_after unsettled event.now }
{
    match event {
        Event::Ask { .. } => true,
        Event::Settle(_) => false,
        Event::Sites(_) => unsettled,
        Event::Noise(_, _) => unsettled,
        Event::Deliver(_) => unsettled,
        Event::Lose(_) => unsettled,
        Event::Tick(_, _) => unsettled,
        Event::Stop(_, _, _) => unsettled,
        Event::Arm(_, _, _, _) => unsettled,
        Event::Restart(_) => unsettled,
    }
}

fn later(line: u64) -> SourceFault
    ensures { result ≡ SourceFault.Refused (record { line = line; cause = Cause.Later }) }
{
    SourceFault::Refused(Refusal {
        line,
        cause: Cause::Later,
    })
}

/// Returns what was read, once no line is left.
fn ended(unsettled: bool, lines: u64, events: Events) -> Result<Events, SourceFault>
    requires { lines ≤ 2 ^ 63 }
    ensures { spec.GivesSource result (spec.with_events events (spec.ended unsettled lines)) }
{
    if unsettled {
        Err(later(lines + 1))
    } else {
        Ok(events)
    }
}

fn read_lines(alloc: Global, bytes: &[u8]) -> Result<Events, SourceFault>
    ensures { spec.GivesSource result (spec.source_at false None 0 (spec.lines_of bytes.now)) }
{
    let mut events = Items::new(alloc);
    let mut unsettled = false;
    let mut lines = EventLines::new(bytes);
    loop {
        let Some(event) = lines.next(alloc)? else {
            return ended(unsettled, lines.line(), events);
        };
        if !may_come(unsettled, &event) {
            return Err(later(lines.line()));
        }
        unsettled = is_open_after(unsettled, &event);
        events.push(event)?;
    }
}

#[tactic(auto, unfolding(crate::specs::SourceReader::source_of))]
fn read(alloc: Global, bytes: &[u8]) -> Result<Events, SourceFault>
    ensures exact { spec.GivesSource result (spec.source_of bytes.now) }
{
    if MOST_BYTES < bytes.len() {
        return Err(SourceFault::Refused(Refusal {
            line: 0,
            cause: Cause::Bad(Why::TooLong),
        }));
    }
    read_lines(alloc, bytes)
}

/// Returns whether each of the events is played, and the last ask has its settle.
fn are_accepted(events: &[Event]) -> bool
    ensures { result ≡ spec.are_accepted false events.now }
{
    let mut unsettled = false;
    let mut left = events;
    while let [event, others @ ..] = left {
        if !may_come(unsettled, event) {
            return false;
        }
        unsettled = is_open_after(unsettled, event);
        left = others;
    }
    !unsettled
}

fn read_source(alloc: Global, bytes: &[u8]) -> Result<Events, SourceFault>
    ensures { spec.GivesSource result (spec.reading_of bytes.now) }
{
    let events = parse_schedule(alloc, bytes)?;
    if are_accepted(events.as_slice()) {
        return Ok(events);
    }
    read(alloc, bytes)
}

/// Reads the events of a source, all of its bytes. Linear in them.
///
/// `Refused` says why the bytes are no schedule, or names the first line of a schedule that isn't played yet. `NoMemory`
/// says nothing of the bytes.
pub fn events_of(alloc: Global, bytes: &[u8]) -> Result<Events, SourceFault>
    ensures found { IfOk result (λ given. IsSource bytes.now given) }
    ensures refused { (refusal : Refusal) → result ≡ Err (SourceFault.Refused refusal)
        → IsRefusal bytes.now refusal.line refusal.cause }
{
    read_source(alloc, bytes)
}
