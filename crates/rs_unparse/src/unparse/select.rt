//! Tokens of queries.

ghost use Rattle.std.specs.Prelude.{◌≡◌, ◌++◌, OnOk, IsTrue};
ghost use Rattle.rs_base.specs.Ident.{is_ident};
ghost use Rattle.rs_unparse.specs.Unparsed as spec;

use crate::unparse::clause::condition;
use crate::unparse::{Unparse, comma_list, ident, number, symbol, word};
use rs_ast::{ColRef, Item, Key, KeyBy, Select, SelectItems, TableRef};
use rs_base::{Ident, NoMemory};
use rs_token::{Symbol, Tokens};
use std::alloc::Global;

#[tactic(auto, unfolding(crate::specs::Unparsed::unparsed_function))]
fn function(
    alloc: Global,
    function: &[u8],
    column: &ColRef,
    out: &mut Tokens,
) -> Result<(), NoMemory>
    requires { IsTrue (is_ident function.now) }
    ensures { OnOk result (out.new ≡ out.old ++ spec.unparsed_function function.now (spec.unparsed_ref column.now)) }
{
    word(function, out)?;
    symbol(Symbol::Open, out)?;
    column.unparse(alloc, out)?;
    symbol(Symbol::Close, out)
}

#[tactic(auto, unfolding(crate::specs::Unparsed::unparsed_function, crate::specs::Unparsed::unparsed_item))]
fn count(out: &mut Tokens) -> Result<(), NoMemory>
    ensures { OnOk result (out.new ≡ out.old ++ spec.unparsed_item Item.Count) }
{
    word(b"count", out)?;
    symbol(Symbol::Open, out)?;
    symbol(Symbol::Star, out)?;
    symbol(Symbol::Close, out)
}

impl Unparse for Item {
    ghost use Rattle.rs_unparse.specs.Unparsed.{unparsed_item};

    ghost unparsed = { unparsed_item };

    #[tactic(auto, unfolding(crate::specs::Unparsed::unparsed_item))]
    fn unparse(&self, alloc: Global, out: &mut Tokens) -> Result<(), NoMemory> {
        match self {
            Item::Col(column) => column.unparse(alloc, out),
            Item::Count => count(out),
            Item::Sum(column) => function(alloc, b"sum", column, out),
            Item::Min(column) => function(alloc, b"min", column, out),
            Item::Max(column) => function(alloc, b"max", column, out),
        }
    }
}

#[tactic(auto, unfolding(crate::specs::Unparsed::unparsed_items))]
fn items(alloc: Global, items: &Option<SelectItems>, out: &mut Tokens) -> Result<(), NoMemory>
    ensures { OnOk result (out.new ≡ out.old ++ spec.unparsed_items items.now) }
{
    match items {
        None => symbol(Symbol::Star, out),
        Some(items) => comma_list(alloc, items.as_slice(), out),
    }
}

#[tactic(auto, unfolding(crate::specs::Unparsed::unparsed_distinct))]
fn distinct(distinct: bool, out: &mut Tokens) -> Result<(), NoMemory>
    ensures { OnOk result (out.new ≡ out.old ++ spec.unparsed_distinct distinct) }
{
    if distinct {
        word(b"distinct", out)?;
    }
    Ok(())
}

#[tactic(auto, unfolding(crate::specs::Unparsed::unparsed_select_list))]
fn select_list(alloc: Global, select: &Select, out: &mut Tokens) -> Result<(), NoMemory>
    ensures { OnOk result (out.new ≡ out.old ++ spec.unparsed_select_list select.now.distinct select.now.items) }
{
    word(b"select", out)?;
    distinct(select.distinct, out)?;
    items(alloc, &select.items, out)
}

#[tactic(auto, unfolding(crate::specs::Unparsed::unparsed_alias))]
fn alias(alias: Option<Ident>, out: &mut Tokens) -> Result<(), NoMemory>
    ensures { OnOk result (out.new ≡ out.old ++ spec.unparsed_alias alias) }
{
    match alias {
        None => Ok(()),
        Some(alias) => ident(alias, out),
    }
}

impl Unparse for TableRef {
    ghost use Rattle.rs_unparse.specs.Unparsed.{unparsed_table_ref};

    ghost unparsed = { unparsed_table_ref };

    #[tactic(auto, unfolding(crate::specs::Unparsed::unparsed_table_ref))]
    fn unparse(&self, alloc: Global, out: &mut Tokens) -> Result<(), NoMemory> {
        self.name.unparse(alloc, out)?;
        alias(self.alias, out)
    }
}

#[tactic(auto, unfolding(crate::specs::Unparsed::unparsed_from))]
fn tables(alloc: Global, tables: &[TableRef], out: &mut Tokens) -> Result<(), NoMemory>
    ensures { OnOk result (out.new ≡ out.old ++ spec.unparsed_from tables.now) }
{
    word(b"from", out)?;
    comma_list(alloc, tables, out)
}

#[tactic(auto, unfolding(crate::specs::Unparsed::unparsed_group))]
fn group(alloc: Global, columns: &[ColRef], out: &mut Tokens) -> Result<(), NoMemory>
    ensures { OnOk result (out.new ≡ out.old ++ spec.unparsed_group columns.now) }
{
    if columns.is_empty() {
        return Ok(());
    }
    word(b"group", out)?;
    word(b"by", out)?;
    comma_list(alloc, columns, out)
}

impl Unparse for KeyBy {
    ghost use Rattle.rs_unparse.specs.Unparsed.{unparsed_by};

    ghost unparsed = { unparsed_by };

    #[tactic(auto, unfolding(crate::specs::Unparsed::unparsed_by))]
    fn unparse(&self, alloc: Global, out: &mut Tokens) -> Result<(), NoMemory> {
        match self {
            KeyBy::Col(column) => column.unparse(alloc, out),
            KeyBy::Place(n) => number(u64::from(*n), out),
        }
    }
}

#[tactic(auto, unfolding(crate::specs::Unparsed::unparsed_direction))]
fn direction(desc: bool, out: &mut Tokens) -> Result<(), NoMemory>
    ensures { OnOk result (out.new ≡ out.old ++ spec.unparsed_direction desc) }
{
    if desc {
        word(b"desc", out)?;
    }
    Ok(())
}

impl Unparse for Key {
    ghost use Rattle.rs_unparse.specs.Unparsed.{unparsed_key};

    ghost unparsed = { unparsed_key };

    #[tactic(auto, unfolding(crate::specs::Unparsed::unparsed_key))]
    fn unparse(&self, alloc: Global, out: &mut Tokens) -> Result<(), NoMemory> {
        self.by.unparse(alloc, out)?;
        direction(self.desc, out)
    }
}

#[tactic(auto, unfolding(crate::specs::Unparsed::unparsed_order))]
fn order(alloc: Global, keys: &[Key], out: &mut Tokens) -> Result<(), NoMemory>
    ensures { OnOk result (out.new ≡ out.old ++ spec.unparsed_order keys.now) }
{
    if keys.is_empty() {
        return Ok(());
    }
    word(b"order", out)?;
    word(b"by", out)?;
    comma_list(alloc, keys, out)
}

impl Unparse for Select {
    ghost use Rattle.rs_unparse.specs.Unparsed.{unparsed_select};

    ghost unparsed = { unparsed_select };

    #[tactic(auto, unfolding(crate::specs::Unparsed::unparsed_select))]
    fn unparse(&self, alloc: Global, out: &mut Tokens) -> Result<(), NoMemory> {
        select_list(alloc, self, out)?;
        tables(alloc, self.from.as_slice(), out)?;
        condition(alloc, self.clauses.as_slice(), out)?;
        group(alloc, self.group.as_slice(), out)?;
        order(alloc, self.order.as_slice(), out)
    }
}
