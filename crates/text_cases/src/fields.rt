//! Fields: how they are encoded, and bytes that encode none.

use case_tools::{Output, Words, unescaped};
use rs_base::{Bytes, NoMemory};
use rs_codec::{Fields, put_byte, put_count, put_int, put_text, put_u32, put_u64};
use std::alloc::Global;

/// Appends the encoding of a field of this kind: a number, or this text.
fn put_field(
    kind: &str,
    words: &mut Words<'_>,
    text: &[u8],
    out: &mut Bytes,
) -> Result<(), NoMemory> {
    match kind {
        "byte" => put_byte(out, words.byte()),
        "u32" => put_u32(out, words.small()),
        "u64" => put_u64(out, words.number()),
        "count" => put_count(out, words.number()),
        "int" => put_int(out, words.integer()),
        _ => put_text(out, text),
    }
}

/// Appends the encoding of a field of this kind and value.
fn put(kind: &str, value: &str, out: &mut Output) -> Result<(), NoMemory> {
    let text = unescaped(out.alloc, value)?;
    let appended = put_field(kind, &mut Words::new(value), text.as_slice(), out.target());
    out.note(appended);
    Ok(())
}

/// Reports whether a field of this kind is read next: a number, or this text.
fn is_next(kind: &str, words: &mut Words<'_>, text: &[u8], fields: &mut Fields<'_>) -> bool {
    match kind {
        "byte" => fields.take_byte() == Some(words.byte()),
        "u32" => fields.take_u32() == Some(words.small()),
        "u64" => fields.take_u64() == Some(words.number()),
        "count" => fields.take_count() == Some(words.number()),
        "int" => fields.take_int() == Some(words.integer()),
        _ => fields.take_text() == Some(text),
    }
}

/// Appends the encodings of the fields.
fn encoded(alloc: Global, items: &str) -> Result<Output, NoMemory> {
    let mut out = Output::new(alloc);
    for item in items.split(", ") {
        let (kind, value) = item.split_once(' ').unwrap_or((item, ""));
        put(kind, value, &mut out)?;
    }
    Ok(out)
}

/// Appends the encodings of the fields, from which they are read again.
pub fn append_fields(items: &str, out: &mut Output) -> Result<(), NoMemory> {
    let bytes = encoded(out.alloc, items)?;
    out.append(bytes.as_slice());
    let mut fields = Fields::new(bytes.as_slice());
    for item in items.split(", ") {
        let (kind, value) = item.split_once(' ').unwrap_or((item, ""));
        let text = unescaped(out.alloc, value)?;
        if !is_next(kind, &mut Words::new(value), text.as_slice(), &mut fields) {
            out.text(" (read otherwise)");
        }
    }
    out.append(fields.rest());
    Ok(())
}

/// Reports whether no field of this kind is read next.
fn is_none(kind: &str, fields: &mut Fields<'_>) -> bool {
    match kind {
        "byte" => fields.take_byte().is_none(),
        "u32" => fields.take_u32().is_none(),
        "u64" => fields.take_u64().is_none(),
        "count" => fields.take_count().is_none(),
        "int" => fields.take_int().is_none(),
        "text" => fields.take_text().is_none(),
        _ => false,
    }
}

/// Appends `none`, if no field of the kind is read from the bytes, and the bytes that are left.
pub fn append_refused(input: &str, out: &mut Output) -> Result<(), NoMemory> {
    let (kind, bytes) = input.split_once(' ').unwrap_or((input, ""));
    let bytes = unescaped(out.alloc, bytes)?;
    let mut fields = Fields::new(bytes.as_slice());
    if is_none(kind, &mut fields) {
        out.text("none:");
    }
    out.append(fields.rest());
    Ok(())
}
