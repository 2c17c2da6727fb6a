//! Parsing of names of tables and columns.

ghost use Rattle.rs_parse.specs.Read.{Reads};
ghost use Rattle.rs_parse.specs.Reader as spec;

use crate::cursor::Cursor;
use crate::list::ListItem;
use rs_ast::{ColDef, ColRef};
use rs_base::{Ident, NameText, ReadFault, SiteNo};
use rs_token::Symbol;
use std::alloc::Global;

#[tactic(auto, unfolding(crate::specs::Reader::at_site_at))]
fn at_site(tokens: &mut Cursor<'_>) -> Result<SiteNo, ReadFault>
    ensures { Reads (spec.at_site_at tokens.old) result tokens.new }
{
    tokens.expect_symbol(Symbol::At)?;
    tokens.site()
}

#[tactic(auto, unfolding(crate::specs::Reader::optional_site_at))]
fn optional_site(tokens: &mut Cursor<'_>) -> Result<Option<SiteNo>, ReadFault>
    ensures { Reads (spec.optional_site_at tokens.old) result tokens.new }
{
    if tokens.begins_with_symbol(Symbol::At) {
        Ok(Some(at_site(tokens)?))
    } else {
        Ok(None)
    }
}

/// Parses the rest of a name, after its creator.
#[tactic(auto, unfolding(crate::specs::Reader::created_at))]
fn created(
    creator: Ident,
    creator_site: Option<SiteNo>,
    tokens: &mut Cursor<'_>,
) -> Result<NameText, ReadFault>
    ensures { Reads (spec.created_at creator creator_site tokens.old) result tokens.new }
{
    tokens.expect_symbol(Symbol::Dot)?;
    let object = tokens.ident()?;
    let birth = optional_site(tokens)?;
    Ok(NameText {
        creator: Some(creator),
        creator_site,
        object,
        birth,
    })
}

/// Parses a table's name: `creator@site.object@site`, of which only the object is required.
#[tactic(auto, unfolding(crate::specs::Reader::name_at))]
pub fn name(tokens: &mut Cursor<'_>) -> Result<NameText, ReadFault>
    ensures { Reads (spec.name_at tokens.old) result tokens.new }
{
    let first = tokens.ident()?;
    let site = optional_site(tokens)?;
    if tokens.begins_with_symbol(Symbol::Dot) {
        return created(first, site, tokens);
    }
    Ok(NameText {
        creator: None,
        creator_site: None,
        object: first,
        birth: site,
    })
}

/// Parses the rest of a reference to a column, after its table.
#[tactic(auto, unfolding(crate::specs::Reader::column_of_at))]
fn column_of(table: Ident, tokens: &mut Cursor<'_>) -> Result<ColRef, ReadFault>
    ensures { Reads (spec.column_of_at table tokens.old) result tokens.new }
{
    tokens.expect_symbol(Symbol::Dot)?;
    let column = tokens.ident()?;
    Ok(ColRef {
        table: Some(table),
        column,
    })
}

/// Parses a reference to a column: `column` or `table.column`.
#[tactic(auto, unfolding(crate::specs::Reader::col_ref_at))]
pub fn col_ref(tokens: &mut Cursor<'_>) -> Result<ColRef, ReadFault>
    ensures { Reads (spec.col_ref_at tokens.old) result tokens.new }
{
    let first = tokens.ident()?;
    if tokens.begins_with_symbol(Symbol::Dot) {
        return column_of(first, tokens);
    }
    Ok(ColRef {
        table: None,
        column: first,
    })
}

/// Parses a column definition.
#[tactic(auto, unfolding(crate::specs::Reader::column_at))]
fn column(tokens: &mut Cursor<'_>) -> Result<ColDef, ReadFault>
    ensures { Reads (spec.column_at tokens.old) result tokens.new }
{
    let name = tokens.ident()?;
    let kind = tokens.kind()?;
    Ok(ColDef { name, kind })
}

impl ListItem for Ident {
    ghost use Rattle.rs_parse.specs.Reader.{ident_at};

    ghost item_at = { ident_at };

    fn item(_alloc: Global, tokens: &mut Cursor<'_>) -> Result<Ident, ReadFault> {
        tokens.ident()
    }
}

impl ListItem for ColRef {
    ghost use Rattle.rs_parse.specs.Reader.{col_ref_at};

    ghost item_at = { col_ref_at };

    fn item(_alloc: Global, tokens: &mut Cursor<'_>) -> Result<ColRef, ReadFault> {
        col_ref(tokens)
    }
}

impl ListItem for ColDef {
    ghost use Rattle.rs_parse.specs.Reader.{column_at};

    ghost item_at = { column_at };

    fn item(_alloc: Global, tokens: &mut Cursor<'_>) -> Result<ColDef, ReadFault> {
        column(tokens)
    }
}
