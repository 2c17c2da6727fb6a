//! Appends printed text. On out of memory the bytes stay as they were.

ghost use Rattle.std.specs.Prelude.{◌≡◌, ◌++◌, OnOk, OnErr};
ghost use Rattle.rs_print.specs.Replies as spec;

use crate::append;
use rs_base::{Bytes, NoMemory, Origin, Reply, Txn, Value};
use std::alloc::Global;

/// Appends a row as a line: its values, separated by commas.
pub fn print_row(alloc: Global, row: &[Value], out: &mut Bytes) -> Result<(), NoMemory>
    ensures ok { OnOk result (out.new ≡ out.old ++ spec.printed_row row.now) }
    ensures err { OnErr result (out.new ≡ out.old) }
{
    let mut text = Bytes::new(alloc);
    append::row(&mut text, row)?;
    out.extend(text.as_slice())
}

/// Appends a transaction: `site.epoch.number`.
pub fn print_txn(alloc: Global, txn: &Txn, out: &mut Bytes) -> Result<(), NoMemory>
    ensures ok { OnOk result (out.new ≡ out.old ++ spec.printed_txn txn.now) }
    ensures err { OnErr result (out.new ≡ out.old) }
{
    let mut text = Bytes::new(alloc);
    append::txn(&mut text, txn)?;
    out.extend(text.as_slice())
}

/// Appends a request: `site user epoch number`.
pub fn print_origin(alloc: Global, origin: &Origin, out: &mut Bytes) -> Result<(), NoMemory>
    ensures ok { OnOk result (out.new ≡ out.old ++ spec.printed_origin origin.now) }
    ensures err { OnErr result (out.new ≡ out.old) }
{
    let mut text = Bytes::new(alloc);
    append::origin(&mut text, origin)?;
    out.extend(text.as_slice())
}

/// Appends a reply: a line with the request and the class of the reply, then the lines of its answers.
pub fn print_reply(
    alloc: Global,
    to: &Origin,
    reply: &Reply,
    out: &mut Bytes,
) -> Result<(), NoMemory>
    ensures ok { OnOk result (out.new ≡ out.old ++ spec.printed_reply to.now reply.now) }
    ensures err { OnErr result (out.new ≡ out.old) }
{
    let mut text = Bytes::new(alloc);
    append::reply(&mut text, to, reply)?;
    out.extend(text.as_slice())
}
