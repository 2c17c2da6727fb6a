//! Reading of a whole line.

ghost use Rattle.rs_sched.specs.Reader as spec;
ghost use Rattle.rs_sched.specs.Reading.{GivesLine};

use crate::event::Event;
use crate::event_reader as read;
use crate::fault::{LineFault, Why};
use crate::fields::{Fields, field_len};
use crate::word::{Word, word_of};
use rs_base::{Bytes, ReadFault, SiteNo, is_utf8};
use std::alloc::Global;

/// The most bytes of an ask's text.
const MOST_TEXT: usize = 8192;

fn ask(alloc: Global, sites: SiteNo, fields: &mut Fields<'_>) -> Result<Event, LineFault>
    ensures { GivesLine result (spec.of_text (spec.origin_at sites fields.old)) }
{
    let origin = fields.origin(sites)?;
    let text = fields.rest();
    if !is_utf8(text) {
        return Err(LineFault::Bad(Why::NotUtf8));
    }
    if MOST_TEXT < text.len() {
        return Err(LineFault::Bad(Why::TooLong));
    }
    let text = Bytes::from_slice(alloc, text)?;
    Ok(Event::Ask { origin, text })
}

fn event(
    alloc: Global,
    sites: SiteNo,
    word: Option<Word>,
    fields: &mut Fields<'_>,
) -> Result<Event, LineFault>
    ensures { GivesLine result (spec.event_of sites word fields.old) }
{
    match word {
        None => Err(LineFault::Bad(Why::UnknownWord)),
        Some(Word::Sites) => Err(LineFault::Bad(Why::SitesAgain)),
        Some(Word::Ask) => ask(alloc, sites, fields),
        Some(Word::Deliver) => Ok(read::deliver(fields)?),
        Some(Word::Lose) => Ok(read::lose(fields)?),
        Some(Word::Tick) => Ok(read::tick(sites, fields)?),
        Some(Word::Stop) => Ok(read::stop(sites, fields)?),
        Some(Word::Arm) => Ok(read::arm(sites, fields)?),
        Some(Word::Restart) => Ok(read::restart(sites, fields)?),
        Some(Word::Settle) => Ok(read::settle(fields)?),
        Some(Word::Noise) => Ok(read::noise(alloc, sites, fields)?),
    }
}

#[tactic(auto, unfolding(crate::specs::Reader::later_line))]
fn later_line(alloc: Global, sites: SiteNo, line: &[u8]) -> Result<Event, LineFault>
    ensures { GivesLine result (spec.later_line sites line.now) }
{
    let (word, rest) = line.split_at(field_len(line));
    event(alloc, sites, word_of(word), &mut Fields::new(rest))
}

#[tactic(auto, unfolding(crate::specs::Reader::first_line))]
fn first_line(line: &[u8]) -> Result<Event, LineFault>
    ensures { GivesLine result (spec.first_line line.now) }
{
    let (word, rest) = line.split_at(field_len(line));
    if word != b"sites".as_slice() {
        return Err(LineFault::Bad(Why::NoSites));
    }
    match read::sites(&mut Fields::new(rest)) {
        Ok(event) => Ok(event),
        Err(ReadFault::Malformed) => Err(LineFault::Bad(Why::NoSites)),
        Err(ReadFault::NoMemory) => Err(LineFault::NoMemory),
    }
}

/// Reads the event of a line: the first event's if `sites` is `None`, and otherwise a later one's, among that number of
/// sites.
pub fn event_of_line(alloc: Global, sites: Option<SiteNo>, line: &[u8]) -> Result<Event, LineFault>
    ensures { GivesLine result (spec.line_at sites line.now) }
{
    match sites {
        None => first_line(line),
        Some(sites) => later_line(alloc, sites, line),
    }
}
