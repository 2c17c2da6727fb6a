//! The notation of cases: bytes as they are, but for escapes, which begin with a backslash.
//!
//! | Written | What it stands for |
//! |---|---|
//! | `\n`, `\r`, `\t`, `\\`, `\xHH` | a line feed, a carriage return, a tab, a backslash, the byte of that number |
//! | `\` at the end of a line | nothing, and the line feed isn't there either |
//! | `\/` and the rest of the line | nothing: a remark |
//! | `\1` to `\9` | the field of that number of a table's line |
//! | `\{COUNT:TEXT\}` | the text that many times |
//! | `\{FIRST..LAST:TEXT\}` | the text for each of these numbers |
//! | `\#` | the number of the innermost repeat |

use crate::output::Output;
use rs_base::{Bytes, NoMemory, ReadFault};
use std::alloc::Global;
use std::str;

/// A repeat that is open.
#[derive(Clone, Copy)]
struct Repeat<'t> {
    /// Its text, and what follows it.
    text: &'t [u8],
    /// The number that its text is being written for.
    number: u64,
    last: u64,
}

/// The bytes that are written so far, the repeats that are open, and whether something so far can't be written.
#[derive(Drop)]
struct Expansion<'t> {
    bytes: Output,
    repeats: Vec<Repeat<'t>>,
    malformed: bool,
}

/// Gives the byte of this number in two hexadecimal digits.
fn hex_byte(high: u8, low: u8) -> Option<u8> {
    u8::from_str_radix(str::from_utf8(&[high, low]).ok()?, 16).ok()
}

/// Gives the byte that an escape stands for, and what follows it.
fn escaped_byte(text: &[u8]) -> Option<(u8, &[u8])> {
    match text {
        [b'n', rest @ ..] => Some((b'\n', rest)),
        [b'r', rest @ ..] => Some((b'\r', rest)),
        [b't', rest @ ..] => Some((b'\t', rest)),
        [b'\\', rest @ ..] => Some((b'\\', rest)),
        [b'x', high, low, rest @ ..] => Some((hex_byte(*high, *low)?, rest)),
        _ => None,
    }
}

/// Separates a text at the first of these signs.
fn split_once(text: &[u8], sign: char) -> (&str, &[u8]) {
    let text = str::from_utf8(text).unwrap_or("");
    let (part, rest) = text.split_once(sign).unwrap_or((text, ""));
    (part, rest.as_bytes())
}

impl<'t> Expansion<'t> {
    /// Writes a byte, if there is one, and returns what follows it.
    fn write_byte(&mut self, byte: Option<(u8, &'t [u8])>) -> &'t [u8] {
        match byte {
            Some((byte, rest)) => {
                self.bytes.append(&[byte]);
                rest
            }
            None => {
                self.malformed = true;
                &[]
            }
        }
    }

    fn write_field(&mut self, field: Option<&Bytes>) {
        match field {
            Some(field) => self.bytes.append(field.as_slice()),
            None => self.malformed = true,
        }
    }

    /// Writes the number of the innermost repeat.
    fn write_number(&mut self) {
        match self.repeats.last() {
            Some(repeat) => self.bytes.number(repeat.number),
            None => self.malformed = true,
        }
    }

    /// Begins to write the text of a repeat, and returns it and what follows it.
    fn begin(&mut self, repeat: Repeat<'t>) -> &'t [u8] {
        let pushed = self.repeats.push(repeat);
        self.bytes.note(pushed.map_err(NoMemory::from));
        repeat.text
    }

    /// Reads the numbers of a repeat, and returns its text and what follows it.
    fn begin_repeat(&mut self, text: &'t [u8]) -> &'t [u8] {
        let (numbers, text) = split_once(text, ':');
        let (first, last) = numbers.split_once("..").unwrap_or(("1", numbers));
        let number = first.parse().unwrap_or(u64::MAX);
        let last = last.parse().unwrap_or(0);
        self.malformed = self.malformed || last < number;
        self.begin(Repeat { text, number, last })
    }

    /// Goes back to the text of the innermost repeat, if another number is left, or else on to what follows it.
    fn end_repeat(&mut self, rest: &'t [u8]) -> &'t [u8] {
        let Some(mut repeat) = self.repeats.pop() else {
            self.malformed = true;
            return rest;
        };
        if repeat.number >= repeat.last {
            return rest;
        }
        repeat.number += 1;
        self.begin(repeat)
    }

    /// Writes what an escape stands for, and returns what follows it.
    fn write_escape(&mut self, text: &'t [u8], fields: &[Bytes]) -> &'t [u8] {
        match text {
            [b'{', rest @ ..] => self.begin_repeat(rest),
            [b'}', rest @ ..] => self.end_repeat(rest),
            [b'#', rest @ ..] => {
                self.write_number();
                rest
            }
            [b'/', rest @ ..] => split_once(rest, '\n').1,
            [b'\n', rest @ ..] => rest,
            [digit @ b'1'..=b'9', rest @ ..] => {
                self.write_field(fields.get(usize::from(*digit - b'1')));
                rest
            }
            _ => self.write_byte(escaped_byte(text)),
        }
    }

    /// Writes the first byte or escape of a text, and returns what follows it.
    fn write(&mut self, text: &'t [u8], fields: &[Bytes]) -> &'t [u8] {
        match text {
            [b'\\', rest @ ..] => self.write_escape(rest, fields),
            [byte, rest @ ..] => self.write_byte(Some((*byte, rest))),
            [] => text,
        }
    }
}

/// Writes the bytes that a text in the notation stands for, with these fields.
pub fn expand(alloc: Global, text: &str, fields: &[Bytes]) -> Result<Bytes, ReadFault> {
    let mut expansion = Expansion {
        bytes: Output::new(alloc),
        repeats: Vec::new(alloc),
        malformed: false,
    };
    let mut left = text.as_bytes();
    for _ in 0..u64::MAX {
        if left.is_empty() {
            break;
        }
        left = expansion.write(left, fields);
    }
    if expansion.malformed || !expansion.repeats.is_empty() {
        return Err(ReadFault::Malformed);
    }
    Ok(expansion.bytes.finish()?)
}

/// Returns the bytes that a part of a line stands for, which has no fields, or a note that it is no notation.
pub fn unescaped(alloc: Global, line: &str) -> Result<Bytes, NoMemory> {
    match expand(alloc, line, &[]) {
        Ok(bytes) => Ok(bytes),
        Err(ReadFault::Malformed) => Bytes::from_slice(alloc, b"(no notation)"),
        Err(ReadFault::NoMemory) => Err(NoMemory),
    }
}
