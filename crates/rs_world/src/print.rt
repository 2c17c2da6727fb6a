//! The text of a report.

ghost use Rattle.std.specs.Prelude.{◌≡◌, ◌++◌, OnOk, IfOk, flat_map, codes, length, decimal};
ghost use Rattle.std.specs.List.{enumerate_from};
ghost use Rattle.rs_print.specs.Replies.{printed_row};
ghost use Rattle.rs_world.specs.ReportText as spec;

use rs_base::{Bytes, NoMemory};
use rs_course::{Decided, Report, ReportedReply, RunOf, SiteView, TableView};
use rs_print::append;
use rs_rows::RowRun;
use std::alloc::Global;

fn print_replies(replies: &[ReportedReply], out: &mut Bytes) -> Result<(), NoMemory>
    ensures { OnOk result (out.new ≡ out.old ++ flat_map spec.printed_reported replies.now) }
{
    for reply in replies {
        append::reply(out, &reply.origin, &reply.reply)?;
    }
    Ok(())
}

fn print_entry(position: u64, entry: &Decided, out: &mut Bytes) -> Result<(), NoMemory>
    ensures { OnOk result (out.new ≡ out.old ++ spec.printed_entry (position, entry.now)) }
{
    append::number(out, position)?;
    out.extend(b" ")?;
    append::txn(out, &entry.txn)?;
    out.extend(b" ")?;
    append::origin(out, &entry.origin)?;
    out.extend(b" ")?;
    out.extend(entry.text.as_slice())?;
    out.extend(b"\n")
}

fn print_entries(entries: &[Decided], out: &mut Bytes) -> Result<(), NoMemory>
    ensures { OnOk result (out.new ≡ out.old ++ flat_map spec.printed_entry (enumerate_from 1 entries.now)) }
{
    let mut position = 1u64;
    for entry in entries {
        print_entry(position, entry, out)?;
        position += 1;
    }
    Ok(())
}

fn print_history(entries: &[Decided], out: &mut Bytes) -> Result<(), NoMemory>
    ensures { OnOk result (out.new ≡ out.old ++ spec.printed_history entries.now) }
{
    out.extend(b"history ")?;
    append::number(out, entries.len() as u64)?;
    out.extend(b"\n")?;
    print_entries(entries, out)
}

fn print_rows(rows: &RowRun<'_>, out: &mut Bytes) -> Result<(), NoMemory>
    ensures { OnOk result (out.new ≡ out.old ++ flat_map printed_row rows.now) }
{
    let mut rest = rows.view();
    while let Some((row, others)) = rest.split_first() {
        append::row(out, row)?;
        rest = others;
    }
    Ok(())
}

#[tactic(auto, unfolding(crate::specs::ReportText::printed_table_line))]
fn print_table_line(table: &TableView, out: &mut Bytes) -> Result<(), NoMemory>
    ensures { OnOk result (out.new ≡ out.old ++ spec.printed_table_line table.now) }
{
    out.extend(b"table ")?;
    append::swn(out, &table.name)?;
    out.extend(b" made ")?;
    append::txn(out, &table.made)?;
    out.extend(b" rows ")?;
    append::number(out, table.rows.len() as u64)?;
    out.extend(b"\n")
}

fn print_table(table: &TableView, out: &mut Bytes) -> Result<(), NoMemory>
    ensures { OnOk result (out.new ≡ out.old ++ spec.printed_table table.now) }
{
    print_table_line(table, out)?;
    print_rows(&table.rows.as_run(), out)
}

fn print_tables(tables: &[TableView], out: &mut Bytes) -> Result<(), NoMemory>
    ensures { OnOk result (out.new ≡ out.old ++ flat_map spec.printed_table tables.now) }
{
    for table in tables {
        print_table(table, out)?;
    }
    Ok(())
}

fn print_state(up: Option<u32>, out: &mut Bytes) -> Result<(), NoMemory>
    ensures { OnOk result (out.new ≡ out.old ++ spec.printed_state up) }
{
    match up {
        Some(epoch) => {
            out.extend(b" up ")?;
            append::number(out, u64::from(epoch))?;
            out.extend(b"\n")
        }
        None => out.extend(b" down\n"),
    }
}

fn print_site(view: &SiteView, out: &mut Bytes) -> Result<(), NoMemory>
    ensures { OnOk result (out.new ≡ out.old ++ spec.printed_site view.now) }
{
    out.extend(b"site ")?;
    append::number(out, u64::from(view.site.number()))?;
    print_state(view.up, out)?;
    print_tables(view.tables.as_slice(), out)
}

fn print_sites(sites: &[SiteView], out: &mut Bytes) -> Result<(), NoMemory>
    ensures { OnOk result (out.new ≡ out.old ++ flat_map spec.printed_site sites.now) }
{
    for view in sites {
        print_site(view, out)?;
    }
    Ok(())
}

fn print_runs(runs: &[RunOf], out: &mut Bytes) -> Result<(), NoMemory>
    ensures { OnOk result (out.new ≡ out.old ++ spec.printed_runs runs.now) }
{
    out.extend(b"runs ")?;
    append::number(out, runs.len() as u64)?;
    out.extend(b"\n")
}

fn print_parts(report: &Report, out: &mut Bytes) -> Result<(), NoMemory>
    ensures { OnOk result (out.new ≡ out.old ++ spec.printed_report report.now) }
{
    print_replies(report.replies.as_slice(), out)?;
    print_history(report.history.as_slice(), out)?;
    print_runs(report.runs.as_slice(), out)?;
    print_sites(report.sites.as_slice(), out)
}

/// Prints a report: the replies, the history, the number of runs, and each site with its tables.
pub fn print_report(alloc: Global, report: &Report) -> Result<Bytes, NoMemory>
    ensures { IfOk result (λ text. text ≡ spec.printed_report report.now) }
{
    let mut text = Bytes::new(alloc);
    print_parts(report, &mut text)?;
    Ok(text)
}
