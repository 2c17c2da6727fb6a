//! Tokens of statements.

ghost use Rattle.std.specs.Prelude.{◌≡◌, [], ◌∷◌, ◌++◌, flat_map, take, OnOk, IsTrue};
ghost use Rattle.rs_base.specs.Ident.{is_ident};
ghost use Rattle.rs_token.specs.declared.token.Token.TheVariants as tokens;
ghost use Rattle.rs_unparse.specs.Unparsed as spec;

use crate::unparse::clause::condition;
use crate::unparse::{Unparse, comma_list, ident, number, symbol, tuple, word};
use rs_ast::{Clause, ColDef, Dml, Select, Set, Stmt, TermRow};
use rs_base::{Ident, NameText, NoMemory, SiteNo, Value};
use rs_token::{Symbol, Tokens};
use std::alloc::Global;

/// Appends the two words that a statement begins with.
fn words(first: &[u8], second: &[u8], out: &mut Tokens) -> Result<(), NoMemory>
    requires first { IsTrue (is_ident first.now) }
    requires second { IsTrue (is_ident second.now) }
    ensures { OnOk result (out.new ≡ out.old ++ tokens.Word first.now ∷ tokens.Word second.now ∷ []) }
{
    word(first, out)?;
    word(second, out)
}

// ---- statements on the rows of tables

#[tactic(auto, unfolding(crate::specs::Unparsed::unparsed_dml))]
fn insert(
    alloc: Global,
    name: &NameText,
    rows: &[TermRow],
    out: &mut Tokens,
) -> Result<(), NoMemory>
    ensures { OnOk result (out.new ≡ out.old ++ spec.unparsed_dml (Dml.Insert name.now rows.now)) }
{
    words(b"insert", b"into", out)?;
    name.unparse(alloc, out)?;
    word(b"values", out)?;
    comma_list(alloc, rows, out)
}

#[tactic(auto, unfolding(crate::specs::Unparsed::unparsed_dml))]
fn update(
    alloc: Global,
    name: &NameText,
    sets: &[Set],
    clauses: &[Clause],
    out: &mut Tokens,
) -> Result<(), NoMemory>
    ensures { OnOk result (out.new ≡ out.old ++ spec.unparsed_dml (Dml.Update name.now sets.now clauses.now)) }
{
    word(b"update", out)?;
    name.unparse(alloc, out)?;
    word(b"set", out)?;
    comma_list(alloc, sets, out)?;
    condition(alloc, clauses, out)
}

#[tactic(auto, unfolding(crate::specs::Unparsed::unparsed_dml))]
fn delete(
    alloc: Global,
    name: &NameText,
    clauses: &[Clause],
    out: &mut Tokens,
) -> Result<(), NoMemory>
    ensures { OnOk result (out.new ≡ out.old ++ spec.unparsed_dml (Dml.Delete name.now clauses.now)) }
{
    words(b"delete", b"from", out)?;
    name.unparse(alloc, out)?;
    condition(alloc, clauses, out)
}

impl Unparse for Dml {
    ghost use Rattle.rs_unparse.specs.Unparsed.{unparsed_dml};

    ghost unparsed = { unparsed_dml };

    #[tactic(auto, unfolding(crate::specs::Unparsed::unparsed_dml))]
    fn unparse(&self, alloc: Global, out: &mut Tokens) -> Result<(), NoMemory> {
        match self {
            Dml::Select(select) => select.unparse(alloc, out),
            Dml::Insert { name, rows } => insert(alloc, name, rows.as_slice(), out),
            Dml::Update {
                name,
                sets,
                clauses,
            } => update(alloc, name, sets.as_slice(), clauses.as_slice(), out),
            Dml::Delete { name, clauses } => delete(alloc, name, clauses.as_slice(), out),
        }
    }
}

// ---- tables, indexes and synonyms

#[tactic(auto, unfolding(crate::specs::Unparsed::unparsed_stmt))]
fn create_table(
    alloc: Global,
    name: &NameText,
    columns: &[ColDef],
    out: &mut Tokens,
) -> Result<(), NoMemory>
    ensures { OnOk result (out.new ≡ out.old ++ spec.unparsed_stmt (Stmt.CreateTable name.now columns.now)) }
{
    words(b"create", b"table", out)?;
    name.unparse(alloc, out)?;
    tuple(alloc, columns, out)
}

#[tactic(auto, unfolding(crate::specs::Unparsed::unparsed_stmt))]
fn drop_table(alloc: Global, name: &NameText, out: &mut Tokens) -> Result<(), NoMemory>
    ensures { OnOk result (out.new ≡ out.old ++ spec.unparsed_stmt (Stmt.DropTable name.now)) }
{
    words(b"drop", b"table", out)?;
    name.unparse(alloc, out)
}

#[tactic(auto, unfolding(crate::specs::Unparsed::unparsed_stmt))]
fn create_index(
    alloc: Global,
    index: Ident,
    name: &NameText,
    column: Ident,
    out: &mut Tokens,
) -> Result<(), NoMemory>
    ensures { OnOk result (out.new ≡ out.old ++ spec.unparsed_stmt (Stmt.CreateIndex index name.now column)) }
{
    words(b"create", b"index", out)?;
    ident(index, out)?;
    word(b"on", out)?;
    name.unparse(alloc, out)?;
    symbol(Symbol::Open, out)?;
    ident(column, out)?;
    symbol(Symbol::Close, out)
}

#[tactic(auto, unfolding(crate::specs::Unparsed::unparsed_stmt))]
fn drop_index(
    alloc: Global,
    index: Ident,
    name: &NameText,
    out: &mut Tokens,
) -> Result<(), NoMemory>
    ensures { OnOk result (out.new ≡ out.old ++ spec.unparsed_stmt (Stmt.DropIndex index name.now)) }
{
    words(b"drop", b"index", out)?;
    ident(index, out)?;
    word(b"on", out)?;
    name.unparse(alloc, out)
}

#[tactic(auto, unfolding(crate::specs::Unparsed::unparsed_stmt))]
fn create_synonym(
    alloc: Global,
    synonym: Ident,
    name: &NameText,
    out: &mut Tokens,
) -> Result<(), NoMemory>
    ensures { OnOk result (out.new ≡ out.old ++ spec.unparsed_stmt (Stmt.CreateSynonym synonym name.now)) }
{
    words(b"create", b"synonym", out)?;
    ident(synonym, out)?;
    word(b"for", out)?;
    name.unparse(alloc, out)
}

#[tactic(auto, unfolding(crate::specs::Unparsed::unparsed_stmt))]
fn drop_synonym(synonym: Ident, out: &mut Tokens) -> Result<(), NoMemory>
    ensures { OnOk result (out.new ≡ out.old ++ spec.unparsed_stmt (Stmt.DropSynonym synonym)) }
{
    words(b"drop", b"synonym", out)?;
    ident(synonym, out)
}

#[tactic(auto, unfolding(crate::specs::Unparsed::unparsed_stmt))]
fn migrate(alloc: Global, name: &NameText, to: SiteNo, out: &mut Tokens) -> Result<(), NoMemory>
    ensures { OnOk result (out.new ≡ out.old ++ spec.unparsed_stmt (Stmt.Migrate name.now to)) }
{
    words(b"migrate", b"table", out)?;
    name.unparse(alloc, out)?;
    word(b"to", out)?;
    number(u64::from(to.number()), out)
}

// ---- programs

#[tactic(auto, unfolding(crate::specs::Unparsed::unparsed_step))]
fn step(alloc: Global, dml: &Dml, out: &mut Tokens) -> Result<(), NoMemory>
    ensures { OnOk result (out.new ≡ out.old ++ spec.unparsed_step dml.now) }
{
    dml.unparse(alloc, out)?;
    symbol(Symbol::Semicolon, out)
}

#[tactic(auto, unfolding(crate::specs::Unparsed::unparsed_steps))]
fn steps(alloc: Global, body: &[Dml], out: &mut Tokens) -> Result<(), NoMemory>
    ensures { OnOk result (out.new ≡ out.old ++ spec.unparsed_steps body.now) }
{
    for dml in body {
        step(alloc, dml, out)?;
    }
    Ok(())
}

#[tactic(auto, unfolding(crate::specs::Unparsed::unparsed_stmt))]
fn compile(
    alloc: Global,
    program: Ident,
    params: &[Ident],
    body: &[Dml],
    out: &mut Tokens,
) -> Result<(), NoMemory>
    ensures { OnOk result (out.new ≡ out.old ++ spec.unparsed_stmt (Stmt.Compile program params.now body.now)) }
{
    word(b"compile", out)?;
    ident(program, out)?;
    tuple(alloc, params, out)?;
    word(b"as", out)?;
    steps(alloc, body, out)?;
    word(b"end", out)
}

#[tactic(auto, unfolding(crate::specs::Unparsed::unparsed_stmt))]
fn drop_program(program: Ident, out: &mut Tokens) -> Result<(), NoMemory>
    ensures { OnOk result (out.new ≡ out.old ++ spec.unparsed_stmt (Stmt.DropProgram program)) }
{
    words(b"drop", b"program", out)?;
    ident(program, out)
}

#[tactic(auto, unfolding(crate::specs::Unparsed::unparsed_stmt))]
fn execute(
    alloc: Global,
    program: Ident,
    values: &[Value],
    out: &mut Tokens,
) -> Result<(), NoMemory>
    ensures { OnOk result (out.new ≡ out.old ++ spec.unparsed_stmt (Stmt.Execute program values.now)) }
{
    word(b"execute", out)?;
    ident(program, out)?;
    tuple(alloc, values, out)
}

#[tactic(auto, unfolding(crate::specs::Unparsed::unparsed_stmt))]
fn explain(alloc: Global, select: &Select, out: &mut Tokens) -> Result<(), NoMemory>
    ensures { OnOk result (out.new ≡ out.old ++ spec.unparsed_stmt (Stmt.Explain select.now)) }
{
    word(b"explain", out)?;
    select.unparse(alloc, out)
}

impl Unparse for Stmt {
    ghost use Rattle.rs_unparse.specs.Unparsed.{unparsed_stmt};

    ghost unparsed = { unparsed_stmt };

    #[tactic(auto, unfolding(crate::specs::Unparsed::unparsed_stmt))]
    fn unparse(&self, alloc: Global, out: &mut Tokens) -> Result<(), NoMemory> {
        match self {
            Stmt::CreateTable { name, columns } => {
                create_table(alloc, name, columns.as_slice(), out)
            }
            Stmt::DropTable { name } => drop_table(alloc, name, out),
            Stmt::CreateIndex {
                index,
                name,
                column,
            } => create_index(alloc, *index, name, *column, out),
            Stmt::DropIndex { index, name } => drop_index(alloc, *index, name, out),
            Stmt::CreateSynonym { synonym, name } => create_synonym(alloc, *synonym, name, out),
            Stmt::DropSynonym { synonym } => drop_synonym(*synonym, out),
            Stmt::Migrate { name, to } => migrate(alloc, name, *to, out),
            Stmt::Compile {
                program,
                params,
                body,
            } => compile(alloc, *program, params.as_slice(), body.as_slice(), out),
            Stmt::DropProgram { program } => drop_program(*program, out),
            Stmt::Execute { program, values } => execute(alloc, *program, values.as_slice(), out),
            Stmt::Explain(select) => explain(alloc, select, out),
            Stmt::ShowSections => words(b"show", b"sections", out),
            Stmt::ShowCache => words(b"show", b"cache", out),
            Stmt::Dml(dml) => dml.unparse(alloc, out),
        }
    }
}
