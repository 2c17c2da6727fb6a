//! Schedules: what they are refused for, and their events.

use case_tools::{Output, unescaped};
use rs_base::{NoMemory, SiteNo};
use rs_sched::{Event, EventLines, SchedFault, Why, parse_schedule, print_event};

/// Gives the name of a cause.
fn name_of(why: Why) -> &'static str {
    match why {
        Why::NoSites => "NoSites",
        Why::SitesAgain => "SitesAgain",
        Why::UnknownWord => "UnknownWord",
        Why::BadFields => "BadFields",
        Why::NotUtf8 => "NotUtf8",
        Why::TooLong => "TooLong",
    }
}

/// Appends the line and the cause of a refusal.
fn append_refusal(fault: SchedFault, out: &mut Output) {
    match fault {
        SchedFault::BadLine { line, why } => {
            out.text("line ");
            out.number(line);
            out.text(" ");
            out.text(name_of(why));
            out.text(": ");
            out.append(why.text());
        }
        SchedFault::NoMemory => out.note(Err(NoMemory)),
    }
}

/// Prints an event.
fn print(event: &Event, out: &mut Output) {
    let printed = print_event(out.alloc, event, out.target());
    out.note(printed);
}

/// Prints the events of a schedule.
fn print_schedule(source: &[u8], out: &mut Output) -> Result<(), SchedFault> {
    for event in parse_schedule(out.alloc, source)?.as_slice() {
        print(event, out);
    }
    Ok(())
}

/// Prints the events of a schedule, which are read one by one.
fn print_lines(source: &[u8], out: &mut Output) -> Result<(), SchedFault> {
    let mut lines = EventLines::new(source);
    for _ in 0..source.len() + 1 {
        let Some(event) = lines.next(out.alloc)? else {
            break;
        };
        print(&event, out);
    }
    Ok(())
}

/// Prints the events of a schedule, which is read as a whole or event by event.
fn print_events(source: &[u8], whole: bool, out: &mut Output) -> Result<(), SchedFault> {
    if whole {
        print_schedule(source, out)
    } else {
        print_lines(source, out)
    }
}

/// Appends the printed events, or the refusal.
fn append_outcome(outcome: Result<(), SchedFault>, printed: &Output, out: &mut Output) {
    match outcome {
        Ok(()) => out.append(printed.as_slice()),
        Err(fault) => append_refusal(fault, out),
    }
}

/// Appends the printed events of a schedule that is read as a whole or event by event, or its refusal.
pub fn append_schedule(input: &str, whole: bool, out: &mut Output) -> Result<(), NoMemory> {
    let source = unescaped(out.alloc, input)?;
    let mut printed = Output::new(out.alloc);
    let outcome = print_events(source.as_slice(), whole, &mut printed);
    append_outcome(outcome, &printed, out);
    Ok(())
}

fn number_of(site: SiteNo) -> Option<u64> {
    Some(u64::from(site.number()))
}

/// Gives the name of an event, and its numbers.
fn numbers_of(event: &Event) -> (&'static str, [Option<u64>; 4]) {
    match event {
        Event::Sites(last) => ("Sites", [number_of(*last), None, None, None]),
        Event::Ask { origin, .. } => (
            "Ask",
            [
                number_of(origin.site),
                Some(u64::from(origin.epoch)),
                Some(origin.number),
                None,
            ],
        ),
        Event::Deliver(number) => ("Deliver", [Some(*number), None, None, None]),
        Event::Lose(number) => ("Lose", [Some(*number), None, None, None]),
        Event::Tick(site, ticks) => (
            "Tick",
            [number_of(*site), Some(u64::from(*ticks)), None, None],
        ),
        Event::Stop(site, writes, bytes) => (
            "Stop",
            [number_of(*site), Some(*writes), Some(*bytes), None],
        ),
        Event::Arm(site, call, writes, bytes) => (
            "Arm",
            [number_of(*site), Some(*call), Some(*writes), Some(*bytes)],
        ),
        Event::Restart(site) => ("Restart", [number_of(*site), None, None, None]),
        Event::Settle(most) => ("Settle", [*most, None, None, None]),
        Event::Noise(site, _) => ("Noise", [number_of(*site), None, None, None]),
    }
}

/// Appends a further number, if there is one.
fn append_number(number: Option<u64>, out: &mut Output) {
    if let Some(number) = number {
        out.text(" ");
        out.number(number);
    }
}

/// Appends the user and the text of an ask, or the bytes of noise.
fn append_bytes(event: &Event, out: &mut Output) {
    match event {
        Event::Ask { origin, text } => {
            out.text(" ");
            out.append(origin.user.as_bytes());
            out.text(" ");
            out.append(text.as_slice());
        }
        Event::Noise(_, bytes) => {
            out.text(" ");
            out.append(bytes.as_slice());
        }
        _ => {}
    }
}

/// Appends an event, field by field.
fn append_fields(event: &Event, out: &mut Output) {
    let (name, numbers) = numbers_of(event);
    out.text(name);
    for number in numbers {
        append_number(number, out);
    }
    append_bytes(event, out);
}

/// Appends the events of a schedule, field by field.
pub fn append_events(input: &str, out: &mut Output) -> Result<(), NoMemory> {
    let source = unescaped(out.alloc, input)?;
    let Ok(events) = parse_schedule(out.alloc, source.as_slice()) else {
        out.text("no schedule");
        return Ok(());
    };
    for event in events.as_slice() {
        append_fields(event, out);
        out.text("; ");
    }
    Ok(())
}
