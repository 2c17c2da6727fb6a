//! Printing of events as lines.

ghost use Rattle.std.specs.Prelude.{◌≡◌, ◌<◌, [], ◌∷◌, ◌++◌, flat_map, codes, OnOk, OnErr};
ghost use Rattle.rs_sched.specs.Encoding as spec;

use crate::event::Event;
use itoa::Buffer;
use rs_base::{Bytes, NoMemory, Origin, SiteNo};
use std::alloc::Global;

fn put_number(out: &mut Bytes, n: u64) -> Result<(), NoMemory>
    ensures { OnOk result (out.new ≡ out.old ++ spec.number_field n) }
{
    out.extend(b" ")?;
    let mut buffer = Buffer::new();
    out.extend(buffer.format(n).as_bytes())
}

fn put_site(out: &mut Bytes, site: SiteNo) -> Result<(), NoMemory>
    ensures { OnOk result (out.new ≡ out.old ++ spec.number_field site) }
{
    put_number(out, u64::from(site.number()))
}

fn put_hex_digit(out: &mut Bytes, value: u8) -> Result<(), NoMemory>
    requires { value < 16 }
    ensures { OnOk result (out.new ≡ out.old ++ spec.hex_digit value ∷ []) }
{
    if value < 10 {
        out.push(b'0' + value)
    } else {
        out.push(87 + value)
    }
}

fn put_hex_byte(out: &mut Bytes, byte: u8) -> Result<(), NoMemory>
    ensures { OnOk result (out.new ≡ out.old ++ spec.hex_byte byte) }
{
    put_hex_digit(out, byte / 16)?;
    put_hex_digit(out, byte % 16)
}

fn put_hex_bytes(out: &mut Bytes, bytes: &[u8]) -> Result<(), NoMemory>
    ensures { OnOk result (out.new ≡ out.old ++ flat_map spec.hex_byte bytes.now) }
{
    for byte in bytes {
        put_hex_byte(out, *byte)?;
    }
    Ok(())
}

fn put_hex(out: &mut Bytes, bytes: &[u8]) -> Result<(), NoMemory>
    ensures { OnOk result (out.new ≡ out.old ++ spec.hex_of bytes.now) }
{
    match bytes {
        [] => out.extend(b"-"),
        [_, ..] => put_hex_bytes(out, bytes),
    }
}

fn put_ask(out: &mut Bytes, origin: &Origin, text: &[u8]) -> Result<(), NoMemory>
    ensures { OnOk result (out.new ≡ out.old ++ spec.ask_line origin.now text.now) }
{
    out.extend(b"ask")?;
    put_site(out, origin.site)?;
    out.extend(b" ")?;
    out.extend(origin.user.as_bytes())?;
    put_number(out, u64::from(origin.epoch))?;
    put_number(out, origin.number)?;
    out.extend(b" ")?;
    out.extend(text)
}

fn put_settle(out: &mut Bytes, count: Option<u64>) -> Result<(), NoMemory>
    ensures { OnOk result (out.new ≡ out.old ++ spec.settle_line count) }
{
    out.extend(b"settle")?;
    match count {
        None => Ok(()),
        Some(n) => put_number(out, n),
    }
}

fn put_arm(
    out: &mut Bytes,
    site: SiteNo,
    call: u64,
    writes: u64,
    bytes: u64,
) -> Result<(), NoMemory>
    ensures { OnOk result (out.new ≡ out.old ++ spec.arm_line site call writes bytes) }
{
    out.extend(b"arm")?;
    put_site(out, site)?;
    put_number(out, call)?;
    put_number(out, writes)?;
    put_number(out, bytes)
}

fn put_noise(out: &mut Bytes, site: SiteNo, bytes: &[u8]) -> Result<(), NoMemory>
    ensures { OnOk result (out.new ≡ out.old ++ spec.line_of (Event.Noise site bytes.now)) }
{
    out.extend(b"noise")?;
    put_site(out, site)?;
    out.extend(b" ")?;
    put_hex(out, bytes)
}

fn put_event(out: &mut Bytes, event: &Event) -> Result<(), NoMemory>
    ensures { OnOk result (out.new ≡ out.old ++ spec.line_of event.now) }
{
    match event {
        Event::Sites(last) => {
            out.extend(b"sites")?;
            put_site(out, *last)
        }
        Event::Ask { origin, text } => put_ask(out, origin, text.as_slice()),
        Event::Deliver(datagram) => {
            out.extend(b"deliver")?;
            put_number(out, *datagram)
        }
        Event::Lose(datagram) => {
            out.extend(b"lose")?;
            put_number(out, *datagram)
        }
        Event::Tick(site, ticks) => {
            out.extend(b"tick")?;
            put_site(out, *site)?;
            put_number(out, u64::from(*ticks))
        }
        Event::Stop(site, writes, bytes) => {
            out.extend(b"stop")?;
            put_site(out, *site)?;
            put_number(out, *writes)?;
            put_number(out, *bytes)
        }
        Event::Arm(site, call, writes, bytes) => put_arm(out, *site, *call, *writes, *bytes),
        Event::Restart(site) => {
            out.extend(b"restart")?;
            put_site(out, *site)
        }
        Event::Settle(count) => put_settle(out, *count),
        Event::Noise(site, bytes) => put_noise(out, *site, bytes.as_slice()),
    }
}

/// Appends an event as a line, with its line feed. On out of memory nothing changes. Linear in the line's length.
pub fn print_event(alloc: Global, event: &Event, out: &mut Bytes) -> Result<(), NoMemory>
    ensures ok { OnOk result (out.new ≡ out.old ++ (spec.line_of event.now ++ codes "\n")) }
    ensures err { OnErr result (out.new ≡ out.old) }
{
    let mut text = Bytes::new(alloc);
    put_event(&mut text, event)?;
    text.extend(b"\n")?;
    out.extend(text.as_slice())
}
