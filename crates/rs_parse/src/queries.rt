//! Parsing of queries.

ghost use Rattle.rs_parse.specs.Read.{Reads, optional_at};
ghost use Rattle.rs_parse.specs.Reader as spec;

use crate::clauses::optional_clauses;
use crate::cursor::Cursor;
use crate::list::{ListItem, Separator, separated_list};
use crate::names::{col_ref, name};
use rs_ast::{ColRef, ColRefs, Item, Key, KeyBy, Keys, Select, SelectItems, TableRef};
use rs_base::{Ident, ReadFault};
use rs_token::Symbol;
use sqlite_items::Items;
use std::alloc::Global;

#[tactic(auto, unfolding(crate::specs::Reader::count_at))]
fn count(tokens: &mut Cursor<'_>) -> Result<Item, ReadFault>
    ensures { Reads (spec.count_at tokens.old) result tokens.new }
{
    tokens.expect_keyword(b"count")?;
    tokens.expect_symbol(Symbol::Open)?;
    tokens.expect_symbol(Symbol::Star)?;
    tokens.expect_symbol(Symbol::Close)?;
    Ok(Item::Count)
}

/// Parses an aggregate over a column, and returns the column.
#[tactic(auto, unfolding(crate::specs::Reader::of_column_at))]
fn of_column(aggregate: &[u8], tokens: &mut Cursor<'_>) -> Result<ColRef, ReadFault>
    ensures { Reads (spec.of_column_at aggregate.now tokens.old) result tokens.new }
{
    tokens.expect_keyword(aggregate)?;
    tokens.expect_symbol(Symbol::Open)?;
    let column = col_ref(tokens)?;
    tokens.expect_symbol(Symbol::Close)?;
    Ok(column)
}

#[tactic(auto, unfolding(crate::specs::Reader::item_at))]
fn item(tokens: &mut Cursor<'_>) -> Result<Item, ReadFault>
    ensures { Reads (spec.item_at tokens.old) result tokens.new }
{
    if tokens.begins_with_ident() {
        Ok(Item::Col(col_ref(tokens)?))
    } else if tokens.begins_with_word(b"count") {
        count(tokens)
    } else if tokens.begins_with_word(b"sum") {
        Ok(Item::Sum(of_column(b"sum", tokens)?))
    } else if tokens.begins_with_word(b"min") {
        Ok(Item::Min(of_column(b"min", tokens)?))
    } else {
        Ok(Item::Max(of_column(b"max", tokens)?))
    }
}

/// Parses the items of a select list, or `*`, which is `None`.
#[tactic(auto, unfolding(crate::specs::Reader::items_at))]
fn items(alloc: Global, tokens: &mut Cursor<'_>) -> Result<Option<SelectItems>, ReadFault>
    ensures { Reads (spec.items_at tokens.old) result tokens.new }
{
    if tokens.begins_with_symbol(Symbol::Star) {
        tokens.expect_symbol(Symbol::Star)?;
        Ok(None)
    } else {
        Ok(Some(separated_list(alloc, tokens, Separator::Comma, 15)?))
    }
}

#[tactic(auto, unfolding(crate::specs::Reader::distinct_at))]
fn distinct(tokens: &mut Cursor<'_>) -> Result<bool, ReadFault>
    ensures { Reads (spec.distinct_at tokens.old) result tokens.new }
{
    if tokens.begins_with_word(b"distinct") {
        tokens.expect_keyword(b"distinct")?;
        Ok(true)
    } else {
        Ok(false)
    }
}

fn alias(tokens: &mut Cursor<'_>) -> Result<Option<Ident>, ReadFault>
    ensures { Reads (optional_at spec.is_ident_token spec.ident_at tokens.old) result tokens.new }
{
    if tokens.begins_with_ident() {
        Ok(Some(tokens.ident()?))
    } else {
        Ok(None)
    }
}

#[tactic(auto, unfolding(crate::specs::Reader::table_ref_at))]
fn table_ref(tokens: &mut Cursor<'_>) -> Result<TableRef, ReadFault>
    ensures { Reads (spec.table_ref_at tokens.old) result tokens.new }
{
    let name = name(tokens)?;
    let alias = alias(tokens)?;
    Ok(TableRef { name, alias })
}

#[tactic(auto, unfolding(crate::specs::Reader::group_by_at))]
fn group_by(alloc: Global, tokens: &mut Cursor<'_>) -> Result<ColRefs, ReadFault>
    ensures { Reads (spec.group_by_at tokens.old) result tokens.new }
{
    tokens.expect_keyword(b"group")?;
    tokens.expect_keyword(b"by")?;
    separated_list(alloc, tokens, Separator::Comma, 15)
}

#[tactic(auto, unfolding(crate::specs::Reader::group_at))]
fn group(alloc: Global, tokens: &mut Cursor<'_>) -> Result<ColRefs, ReadFault>
    ensures { Reads (spec.group_at tokens.old) result tokens.new }
{
    if tokens.begins_with_word(b"group") {
        group_by(alloc, tokens)
    } else {
        Ok(Items::new(alloc))
    }
}

#[tactic(auto, unfolding(crate::specs::Reader::key_by_at))]
fn key_by(tokens: &mut Cursor<'_>) -> Result<KeyBy, ReadFault>
    ensures { Reads (spec.key_by_at tokens.old) result tokens.new }
{
    if tokens.begins_with_ident() {
        Ok(KeyBy::Col(col_ref(tokens)?))
    } else {
        Ok(KeyBy::Place(tokens.ordinal()?))
    }
}

#[tactic(auto, unfolding(crate::specs::Reader::direction_at))]
fn is_desc(tokens: &mut Cursor<'_>) -> Result<bool, ReadFault>
    ensures { Reads (spec.direction_at tokens.old) result tokens.new }
{
    if tokens.begins_with_word(b"desc") {
        tokens.expect_keyword(b"desc")?;
        Ok(true)
    } else if tokens.begins_with_word(b"asc") {
        tokens.expect_keyword(b"asc")?;
        Ok(false)
    } else {
        Ok(false)
    }
}

#[tactic(auto, unfolding(crate::specs::Reader::key_at))]
fn key(tokens: &mut Cursor<'_>) -> Result<Key, ReadFault>
    ensures { Reads (spec.key_at tokens.old) result tokens.new }
{
    let by = key_by(tokens)?;
    let desc = is_desc(tokens)?;
    Ok(Key { by, desc })
}

#[tactic(auto, unfolding(crate::specs::Reader::order_by_at))]
fn order_by(alloc: Global, tokens: &mut Cursor<'_>) -> Result<Keys, ReadFault>
    ensures { Reads (spec.order_by_at tokens.old) result tokens.new }
{
    tokens.expect_keyword(b"order")?;
    tokens.expect_keyword(b"by")?;
    separated_list(alloc, tokens, Separator::Comma, 15)
}

#[tactic(auto, unfolding(crate::specs::Reader::order_at))]
fn order(alloc: Global, tokens: &mut Cursor<'_>) -> Result<Keys, ReadFault>
    ensures { Reads (spec.order_at tokens.old) result tokens.new }
{
    if tokens.begins_with_word(b"order") {
        order_by(alloc, tokens)
    } else {
        Ok(Items::new(alloc))
    }
}

/// Parses a query.
#[tactic(auto, unfolding(crate::specs::Reader::select_at))]
pub fn select(alloc: Global, tokens: &mut Cursor<'_>) -> Result<Select, ReadFault>
    ensures { Reads (spec.select_at tokens.old) result tokens.new }
{
    tokens.expect_keyword(b"select")?;
    let distinct = distinct(tokens)?;
    let items = items(alloc, tokens)?;
    tokens.expect_keyword(b"from")?;
    let from = separated_list(alloc, tokens, Separator::Comma, 5)?;
    let clauses = optional_clauses(alloc, tokens)?;
    let group = group(alloc, tokens)?;
    let order = order(alloc, tokens)?;
    Ok(Select {
        distinct,
        items,
        from,
        clauses,
        group,
        order,
    })
}

impl ListItem for Item {
    ghost use Rattle.rs_parse.specs.Reader.{item_at};

    ghost item_at = { item_at };

    fn item(_alloc: Global, tokens: &mut Cursor<'_>) -> Result<Item, ReadFault> {
        item(tokens)
    }
}

impl ListItem for TableRef {
    ghost use Rattle.rs_parse.specs.Reader.{table_ref_at};

    ghost item_at = { table_ref_at };

    fn item(_alloc: Global, tokens: &mut Cursor<'_>) -> Result<TableRef, ReadFault> {
        table_ref(tokens)
    }
}

impl ListItem for Key {
    ghost use Rattle.rs_parse.specs.Reader.{key_at};

    ghost item_at = { key_at };

    fn item(_alloc: Global, tokens: &mut Cursor<'_>) -> Result<Key, ReadFault> {
        key(tokens)
    }
}
