//! Tokens of names and columns.

ghost use Rattle.std.specs.Prelude.{◌≡◌, ◌++◌, OnOk};
ghost use Rattle.rs_unparse.specs.Unparsed as spec;

use crate::unparse::{Unparse, ident, number, symbol, word};
use rs_ast::{ColDef, ColRef};
use rs_base::{Ident, Kind, NameText, NoMemory, SiteNo};
use rs_token::{Symbol, Tokens};
use std::alloc::Global;

impl Unparse for Ident {
    ghost use Rattle.rs_unparse.specs.Unparsed.{unparsed_ident};

    ghost unparsed = { unparsed_ident };

    fn unparse(&self, _alloc: Global, out: &mut Tokens) -> Result<(), NoMemory> {
        ident(*self, out)
    }
}

#[tactic(auto, unfolding(crate::specs::Unparsed::unparsed_site))]
fn site(site: Option<SiteNo>, out: &mut Tokens) -> Result<(), NoMemory>
    ensures { OnOk result (out.new ≡ out.old ++ spec.unparsed_site site) }
{
    let Some(site) = site else {
        return Ok(());
    };
    symbol(Symbol::At, out)?;
    number(u64::from(site.number()), out)
}

#[tactic(auto, unfolding(crate::specs::Unparsed::unparsed_creator))]
fn creator(
    creator: Option<Ident>,
    creator_site: Option<SiteNo>,
    out: &mut Tokens,
) -> Result<(), NoMemory>
    ensures { OnOk result (out.new ≡ out.old ++ spec.unparsed_creator creator creator_site) }
{
    let Some(creator) = creator else {
        return Ok(());
    };
    ident(creator, out)?;
    site(creator_site, out)?;
    symbol(Symbol::Dot, out)
}

impl Unparse for NameText {
    ghost use Rattle.rs_unparse.specs.Unparsed.{unparsed_name};

    ghost unparsed = { unparsed_name };

    #[tactic(auto, unfolding(crate::specs::Unparsed::unparsed_name))]
    fn unparse(&self, _alloc: Global, out: &mut Tokens) -> Result<(), NoMemory> {
        creator(self.creator, self.creator_site, out)?;
        ident(self.object, out)?;
        site(self.birth, out)
    }
}

#[tactic(auto, unfolding(crate::specs::Unparsed::unparsed_kind))]
fn kind(kind: Kind, out: &mut Tokens) -> Result<(), NoMemory>
    ensures { OnOk result (out.new ≡ out.old ++ spec.unparsed_kind kind) }
{
    match kind {
        Kind::Int => word(b"int", out),
        Kind::Text => word(b"text", out),
    }
}

impl Unparse for ColDef {
    ghost use Rattle.rs_unparse.specs.Unparsed.{unparsed_column};

    ghost unparsed = { unparsed_column };

    #[tactic(auto, unfolding(crate::specs::Unparsed::unparsed_column))]
    fn unparse(&self, _alloc: Global, out: &mut Tokens) -> Result<(), NoMemory> {
        ident(self.name, out)?;
        kind(self.kind, out)
    }
}

#[tactic(auto, unfolding(crate::specs::Unparsed::unparsed_table))]
fn table(table: Option<Ident>, out: &mut Tokens) -> Result<(), NoMemory>
    ensures { OnOk result (out.new ≡ out.old ++ spec.unparsed_table table) }
{
    let Some(table) = table else {
        return Ok(());
    };
    ident(table, out)?;
    symbol(Symbol::Dot, out)
}

impl Unparse for ColRef {
    ghost use Rattle.rs_unparse.specs.Unparsed.{unparsed_ref};

    ghost unparsed = { unparsed_ref };

    #[tactic(auto, unfolding(crate::specs::Unparsed::unparsed_ref))]
    fn unparse(&self, _alloc: Global, out: &mut Tokens) -> Result<(), NoMemory> {
        table(self.table, out)?;
        ident(self.column, out)
    }
}
