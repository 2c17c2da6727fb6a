//! The message that carries one part of a printed reply to a peer.

ghost use Rattle.std.specs.Prelude.{◌≡◌, ◌*◌, ◌<◌, IfOk, length, take};
ghost use Rattle.rs_session.specs.Parts as spec;
ghost use Rattle.rs_session.specs.Parts.{part_size};

use crate::part::PART_SIZE;
use crate::told::Told;
use rs_base::{Bytes, NoMemory, Origin};
use rs_msg::{Message, ReplyPart};
use rs_print::print_reply;
use std::alloc::Global;

/// Counts the parts of a text.
fn parts_of(text: &[u8]) -> u64
    ensures { result ≡ spec.parts_of text.now }
{
    (text.len() as u64).div_ceil(PART_SIZE)
}

/// Returns the first `size` bytes of a text, or all if it has fewer.
fn first_bytes(text: &[u8], size: usize) -> &[u8]
    ensures { result.now ≡ take size text.now }
{
    if text.len() <= size {
        return text;
    }
    &text[..size]
}

/// Returns the bytes of a part of a text, which has this part.
fn part_bytes(text: &[u8], part: u32) -> &[u8]
    requires { part * part_size < length text.now }
    ensures { result.now ≡ spec.part_bytes text.now part }
{
    let start = u64::from(part) * PART_SIZE;
    let (_, rest) = text.split_at(start as usize);
    first_bytes(rest, PART_SIZE as usize)
}

/// Returns a part of a reply's text as a message. The text has this part.
fn part_message(
    alloc: Global,
    origin: &Origin,
    part: u32,
    parts: u32,
    text: &[u8],
) -> Result<Message, NoMemory>
    requires has { part * part_size < length text.now }
    requires all { parts ≡ spec.parts_of text.now }
    ensures { IfOk result (λ message. message ≡ spec.part_message origin.now part text.now) }
{
    let bytes = Bytes::from_slice(alloc, part_bytes(text, part))?;
    Ok(Message::Reply(ReplyPart {
        origin: *origin,
        part,
        parts,
        bytes,
    }))
}

impl Told {
    /// Returns the message of this part of the printed reply. `None` exactly if the printed reply doesn't have this part, or
    /// has 2 ^ 32 parts or more. Fails on out of memory.
    pub fn message(&self, alloc: Global) -> Result<Option<Message>, NoMemory>
        ensures { IfOk result (λ message. message ≡ spec.message_of_part self.now) }
    {
        let mut text = Bytes::new(alloc);
        print_reply(alloc, &self.origin, &self.reply, &mut text)?;
        let text = text.as_slice();
        if text.len() as u64 <= u64::from(self.part) * PART_SIZE {
            return Ok(None);
        }
        let Ok(parts) = u32::try_from(parts_of(text)) else {
            return Ok(None);
        };
        let message = part_message(alloc, &self.origin, self.part, parts, text)?;
        Ok(Some(message))
    }
}
