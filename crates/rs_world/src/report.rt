//! What a site shows in a report.

ghost use Rattle.std.specs.Prelude.{◌≡◌, [], ◌∷◌, ◌++◌, map, filter, Some, IfOk, OnOk};
ghost use Rattle.rs_site.specs.Report.{view_when};
ghost use Rattle.rs_site.specs.Tables.{is_at_site, table_view, tables_at};

use rs_base::{NoMemory, SiteNo, Swn};
use rs_course::{SiteView, TableView, TableViews};
use rs_mean::{Database, Table};
use rs_site::Site;
use std::alloc::Global;

/// Appends the view of the table, if the site of this number stores it.
fn add_view(number: SiteNo, name: Swn, table: Table, views: &mut TableViews) -> Result<(), NoMemory>
    ensures { OnOk result (views.new ≡ views.old ++ map table_view (filter (is_at_site number) ((name, table) ∷ []))) }
{
    if table.place != number {
        return Ok(());
    }
    views.push(TableView {
        name,
        made: table.made,
        rows: table.rows,
    })?;
    Ok(())
}

/// Moves the tables that the site of this number stores into their views.
fn table_views(alloc: Global, number: SiteNo, database: Database) -> Result<TableViews, NoMemory>
    ensures { IfOk result (λ tables. tables ≡ tables_at number database) }
{
    let mut views = TableViews::new(alloc);
    for (name, table) in database.into_tables() {
        add_view(number, name, table, &mut views)?;
    }
    Ok(views)
}

/// Returns the view of the site of this number, which is up.
pub fn site_view(alloc: Global, number: SiteNo, site: Site) -> Result<SiteView, NoMemory>
    ensures { IfOk result (λ view. view ≡ view_when number (Some site)) }
{
    Ok(SiteView {
        site: number,
        up: Some(site.epoch()),
        tables: table_views(alloc, number, site.into_database())?,
    })
}
