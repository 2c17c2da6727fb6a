//! Bytes in hexadecimal.

ghost use Rattle.std.specs.Prelude.{◌≡◌, ◌<◌, IfSome};
ghost use Rattle.rs_base.specs.Reading.{Gives};
ghost use Rattle.rs_sched.specs.Numbers as spec;

use rs_base::{Bytes, ReadFault};
use std::alloc::Global;

fn hex_value(digit: u8) -> Option<u8>
    ensures value { result ≡ spec.hex_value digit }
    ensures within { IfSome result (λ value. value < 16) }
{
    if b'0' <= digit && digit <= b'9' {
        Some(digit - b'0')
    } else if b'a' <= digit && digit <= b'f' {
        Some(digit - 87)
    } else {
        None
    }
}

fn hex_pair(high: u8, low: u8) -> Option<u8>
    ensures { result ≡ spec.hex_pair high low }
{
    let high = hex_value(high)?;
    let low = hex_value(low)?;
    Some(16 * high + low)
}

fn bytes_of_hex(alloc: Global, digits: &[u8]) -> Result<Bytes, ReadFault>
    ensures { Gives (λ bytes. bytes) result (spec.bytes_of_hex digits.now) }
{
    let mut bytes = Bytes::new(alloc);
    let mut left = digits;
    while let [high, low, rest @ ..] = left {
        let Some(byte) = hex_pair(*high, *low) else {
            return Err(ReadFault::Malformed);
        };
        bytes.push(byte)?;
        left = rest;
    }
    if left.is_empty() {
        Ok(bytes)
    } else {
        Err(ReadFault::Malformed)
    }
}

/// Parses bytes in lower-case hexadecimal, or `-` for no bytes. Linear in the field's length.
#[tactic(auto, unfolding(crate::specs::Numbers::noise_of))]
pub fn noise_of(alloc: Global, field: &[u8]) -> Result<Bytes, ReadFault>
    ensures { Gives (λ bytes. bytes) result (spec.noise_of field.now) }
{
    if field.is_empty() {
        return Err(ReadFault::Malformed);
    }
    if field == b"-".as_slice() {
        return Ok(Bytes::new(alloc));
    }
    bytes_of_hex(alloc, field)
}
