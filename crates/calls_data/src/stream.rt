//! Calls of sources and sinks, of which some reads or writes fail.

use case_tools::{Cases, Output, Words, unescaped};
use rs_base::{Bytes, Fault, NoMemory};
use rs_stream::{
    MemSink, MemSource, Sink, Source, StdSink, StdSource, SureSink, SureSource, read_to_end,
    write_whole,
};
use std::io::{Error, ErrorKind, Read, Write};

/// Calls that are made on what their line says.
#[derive(Drop)]
pub struct StreamCases;

/// A reader and writer that only fails.
#[derive(Drop)]
struct Broken;

impl Read for Broken {
    fn read(&mut self, _buf: &mut [u8]) -> std::io::Result<usize> {
        Err(Error::from(ErrorKind::Interrupted))
    }
}

impl Write for Broken {
    fn write(&mut self, _buf: &[u8]) -> std::io::Result<usize> {
        Err(Error::from(ErrorKind::BrokenPipe))
    }

    fn flush(&mut self) -> std::io::Result<()> {
        Ok(())
    }
}

/// Appends the bytes between quotes, or why there are none.
fn append_bytes(read: &Result<Bytes, Fault>, out: &mut Output) {
    match read {
        Ok(bytes) => {
            out.text("'");
            out.append(bytes.as_slice());
            out.text("';")
        }
        Err(Fault::Failed) => out.text("failed;"),
        Err(Fault::NoMemory) => out.note(Err(NoMemory)),
    }
}

/// Reads up to each of the limits, and appends what was read.
fn append_reads<S: Source>(source: &mut S, limits: &str, out: &mut Output) {
    for limit in limits.split(',') {
        let read = read_to_end(out.alloc, source, limit.parse().unwrap_or(0));
        append_bytes(&read, out);
    }
}

/// Makes a source of the bytes, of which two reads may fail, and reads up to each of the limits.
fn append_source(kind: &str, words: &mut Words<'_>, out: &mut Output) -> Result<(), NoMemory> {
    let failing = [words.number(), words.number()];
    let limits = words.next();
    let bytes = unescaped(out.alloc, words.rest())?;
    let bytes = bytes.as_slice();
    match kind {
        "mem_source" => append_reads(
            &mut MemSource::new(out.alloc, bytes, &failing)?,
            limits,
            out,
        ),
        "sure_source" => append_reads(&mut SureSource::new(out.alloc, bytes)?, limits, out),
        "std_source" => append_reads(&mut StdSource::new(bytes), limits, out),
        _ => append_reads(&mut StdSource::new(Broken), limits, out),
    }
    Ok(())
}

/// Appends whether a write was done.
fn append_outcome(written: Result<(), Fault>, out: &mut Output) {
    match written {
        Ok(()) => out.text("done;"),
        Err(Fault::Failed) => out.text("failed;"),
        Err(Fault::NoMemory) => out.note(Err(NoMemory)),
    }
}

/// Writes each of the texts, and appends whether that was done.
fn append_writes<K: Sink>(sink: &mut K, texts: &str, out: &mut Output) {
    for text in texts.split(',') {
        append_outcome(write_whole(sink, text.as_bytes()), out);
    }
}

/// Writes the texts to a sink of which one write may fail, and appends what was written.
fn append_mem_sink(words: &mut Words<'_>, out: &mut Output) -> Result<(), NoMemory> {
    let mut sink = MemSink::new(out.alloc, &[words.number()])?;
    append_writes(&mut sink, words.rest(), out);
    out.append(sink.bytes());
    Ok(())
}

/// Writes the texts to a sink of this kind, and appends what was written.
fn append_sink(kind: &str, texts: &str, out: &mut Output) {
    match kind {
        "sure_sink" => {
            let mut sink = SureSink::new(out.alloc);
            append_writes(&mut sink, texts, out);
            out.append(sink.bytes())
        }
        "list_sink" => {
            let mut list = Vec::new(out.alloc);
            append_writes(&mut StdSink::new(&mut list), texts, out);
            out.append(list.as_slice())
        }
        "sink_of_three" => {
            let mut room = [0u8; 3];
            append_writes(&mut StdSink::new(&mut room[..]), texts, out);
            out.append(&room)
        }
        _ => append_writes(&mut StdSink::new(Broken), texts, out),
    }
}

impl Cases for StreamCases {
    fn answer(&mut self, words: &mut Words<'_>, out: &mut Output) -> Result<(), NoMemory> {
        let kind = words.next();
        if kind.ends_with("source") {
            return append_source(kind, words, out);
        }
        if kind == "mem_sink" {
            return append_mem_sink(words, out);
        }
        append_sink(kind, words.rest(), out);
        Ok(())
    }
}
