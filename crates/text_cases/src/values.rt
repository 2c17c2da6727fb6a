//! Identifiers, texts, sites and values, and how they are printed.

use crate::orders::{append_allowed, append_computed, append_order};
use case_tools::{Output, Words, read_row, read_value, unescaped};
use rs_base::{Ident, Kind, NoMemory, SiteNo, Txt, TxtFault, Value, copy_row, count_of, row_size};

/// Appends the bytes of an identifier, or `none`.
fn append_ident(bytes: &[u8], out: &mut Output) {
    match Ident::new(bytes) {
        Some(ident) => out.append(ident.as_bytes()),
        None => out.text("none"),
    }
}

/// Appends the number of a site, or `none`.
fn append_site(site: Option<SiteNo>, out: &mut Output) {
    match site {
        Some(site) => out.number(u64::from(site.number())),
        None => out.text("none"),
    }
}

/// Appends `is:` and the bytes of a text, or `bad`.
fn append_text(bytes: &[u8], out: &mut Output) {
    match Txt::new(out.alloc, bytes) {
        Ok(text) => {
            out.text("is:");
            out.append(text.as_bytes());
        }
        Err(TxtFault::Bad) => out.text("bad"),
        Err(TxtFault::NoMemory) => out.note(Err(NoMemory)),
    }
}

fn name_of(kind: Kind) -> &'static str {
    match kind {
        Kind::Int => " integer ",
        Kind::Text => " text ",
    }
}

/// Appends a copy of the row, and then the kind and a copy of each value.
fn append_copies(row: &[Value], out: &mut Output) -> Result<(), NoMemory> {
    out.row(copy_row(out.alloc, row)?.as_slice());
    for value in row {
        out.text(name_of(value.kind()));
        out.value(&value.copy(out.alloc)?);
    }
    Ok(())
}

/// Appends the size of the row, its copies or the printed row.
fn append_row(kind: &str, row: &[Value], out: &mut Output) {
    match kind {
        "row_size" => out.number(row_size(row)),
        "copy_row" => {
            let copied = append_copies(row, out);
            out.note(copied);
        }
        _ => out.row(row),
    }
}

/// Appends what a call on these bytes returns.
fn append_bytes(kind: &str, bytes: &[u8], out: &mut Output) {
    match kind {
        "ident" => append_ident(bytes, out),
        "text" => append_text(bytes, out),
        _ => out.number(bytes.len() as u64),
    }
}

/// Appends what is printed of the value that the words say, or what the call that is named returns.
fn append_words(kind: &str, words: &mut Words<'_>, out: &mut Output) {
    match kind {
        "site" => append_site(words.any_site(), out),
        "first_site" => append_site(Some(SiteNo::first()), out),
        "number" => out.number(words.number()),
        "count_of" => out.number(count_of(words.integer())),
        "txn" => out.txn(&words.txn()),
        "swn" => out.name(&words.swn()),
        "allows" => append_allowed(words.rest(), out),
        "compute" => append_computed(words, out),
        _ => out.origin(&words.origin()),
    }
}

/// Appends what is printed of the value that a line says, or what the call that it names returns.
pub fn append_value(words: &mut Words<'_>, out: &mut Output) -> Result<(), NoMemory> {
    match words.next() {
        "order" => append_order(words, out),
        "value" => {
            out.value(&read_value(out.alloc, words.rest())?);
            Ok(())
        }
        kind @ ("ident" | "text" | "len") => {
            append_bytes(kind, unescaped(out.alloc, words.rest())?.as_slice(), out);
            Ok(())
        }
        kind @ ("row" | "row_size" | "copy_row") => {
            append_row(kind, read_row(out.alloc, words.rest())?.as_slice(), out);
            Ok(())
        }
        kind => {
            append_words(kind, words, out);
            Ok(())
        }
    }
}
