//! Tokens of predicates.

ghost use Rattle.std.specs.Prelude.{◌≡◌, ◌++◌, OnOk};
ghost use Rattle.rs_unparse.specs.Unparsed as spec;

use crate::unparse::value::param;
use crate::unparse::{Unparse, keyword, list, symbol, word};
use rs_ast::{Clause, Cmp, Op, Operand};
use rs_base::NoMemory;
use rs_token::{Symbol, Tokens};
use std::alloc::Global;

#[tactic(auto, unfolding(crate::specs::Unparsed::symbol_of))]
fn symbol_of(op: Op) -> Symbol
    ensures { result ≡ spec.symbol_of op }
{
    match op {
        Op::Eq => Symbol::Equal,
        Op::Ne => Symbol::NotEqual,
        Op::Lt => Symbol::Less,
        Op::Le => Symbol::LessOrEqual,
        Op::Gt => Symbol::Greater,
        Op::Ge => Symbol::GreaterOrEqual,
    }
}

impl Unparse for Operand {
    ghost use Rattle.rs_unparse.specs.Unparsed.{unparsed_operand};

    ghost unparsed = { unparsed_operand };

    #[tactic(auto, unfolding(crate::specs::Unparsed::unparsed_operand))]
    fn unparse(&self, alloc: Global, out: &mut Tokens) -> Result<(), NoMemory> {
        match self {
            Operand::Col(column) => column.unparse(alloc, out),
            Operand::Lit(value) => value.unparse(alloc, out),
            Operand::Param(name) => param(*name, out),
        }
    }
}

impl Unparse for Cmp {
    ghost use Rattle.rs_unparse.specs.Unparsed.{unparsed_cmp};

    ghost unparsed = { unparsed_cmp };

    #[tactic(auto, unfolding(crate::specs::Unparsed::unparsed_cmp))]
    fn unparse(&self, alloc: Global, out: &mut Tokens) -> Result<(), NoMemory> {
        self.left.unparse(alloc, out)?;
        symbol(symbol_of(self.op), out)?;
        self.right.unparse(alloc, out)
    }
}

fn any(alloc: Global, any: &[Cmp], out: &mut Tokens) -> Result<(), NoMemory>
    ensures { OnOk result (out.new ≡ out.old ++ spec.unparsed_any any.now) }
{
    symbol(Symbol::Open, out)?;
    list(alloc, &keyword(b"or"), any, out)?;
    symbol(Symbol::Close, out)
}

#[tactic(auto, unfolding(crate::specs::Unparsed::unparsed_cmps))]
fn cmps(alloc: Global, cmps: &[Cmp], out: &mut Tokens) -> Result<(), NoMemory>
    ensures { OnOk result (out.new ≡ out.old ++ spec.unparsed_cmps cmps.now) }
{
    match cmps {
        [cmp] => cmp.unparse(alloc, out),
        cmps => any(alloc, cmps, out),
    }
}

impl Unparse for Clause {
    ghost use Rattle.rs_unparse.specs.Unparsed.{unparsed_clause};

    ghost unparsed = { unparsed_clause };

    #[tactic(auto, unfolding(crate::specs::Unparsed::unparsed_clause))]
    fn unparse(&self, alloc: Global, out: &mut Tokens) -> Result<(), NoMemory> {
        cmps(alloc, self.any.as_slice(), out)
    }
}

#[tactic(auto, unfolding(crate::specs::Unparsed::unparsed_where))]
pub fn condition(alloc: Global, clauses: &[Clause], out: &mut Tokens) -> Result<(), NoMemory>
    ensures { OnOk result (out.new ≡ out.old ++ spec.unparsed_where clauses.now) }
{
    if clauses.is_empty() {
        return Ok(());
    }
    word(b"where", out)?;
    list(alloc, &keyword(b"and"), clauses, out)
}
