//! Tokens of the values of INSERT and the assignments of UPDATE.

ghost use Rattle.std.specs.Prelude.{◌≡◌, ◌++◌, OnOk};
ghost use Rattle.rs_unparse.specs.Unparsed as spec;

use crate::unparse::value::param;
use crate::unparse::{Unparse, ident, symbol, tuple};
use rs_ast::{Arith, Expr, Set, Term, TermRow};
use rs_base::NoMemory;
use rs_token::{Symbol, Tokens};
use std::alloc::Global;

impl Unparse for Term {
    ghost use Rattle.rs_unparse.specs.Unparsed.{unparsed_term};

    ghost unparsed = { unparsed_term };

    #[tactic(auto, unfolding(crate::specs::Unparsed::unparsed_term))]
    fn unparse(&self, alloc: Global, out: &mut Tokens) -> Result<(), NoMemory> {
        match self {
            Term::Col(column) => ident(*column, out),
            Term::Lit(value) => value.unparse(alloc, out),
            Term::Param(name) => param(*name, out),
        }
    }
}

impl Unparse for TermRow {
    ghost use Rattle.rs_unparse.specs.Unparsed.{unparsed_term_row};

    ghost unparsed = { unparsed_term_row };

    #[tactic(auto, unfolding(crate::specs::Unparsed::unparsed_term_row))]
    fn unparse(&self, alloc: Global, out: &mut Tokens) -> Result<(), NoMemory> {
        tuple(alloc, self.as_slice(), out)
    }
}

#[tactic(auto, unfolding(crate::specs::Unparsed::arith_symbol))]
fn arith_symbol(arith: Arith) -> Symbol
    ensures { result ≡ spec.arith_symbol arith }
{
    match arith {
        Arith::Add => Symbol::Plus,
        Arith::Sub => Symbol::Minus,
        Arith::Mul => Symbol::Star,
    }
}

#[tactic(auto, unfolding(crate::specs::Unparsed::unparsed_more))]
fn more(alloc: Global, more: &Option<(Arith, Term)>, out: &mut Tokens) -> Result<(), NoMemory>
    ensures { OnOk result (out.new ≡ out.old ++ spec.unparsed_more more.now) }
{
    let Some((arith, second)) = more else {
        return Ok(());
    };
    symbol(arith_symbol(*arith), out)?;
    second.unparse(alloc, out)
}

impl Unparse for Expr {
    ghost use Rattle.rs_unparse.specs.Unparsed.{unparsed_expr};

    ghost unparsed = { unparsed_expr };

    #[tactic(auto, unfolding(crate::specs::Unparsed::unparsed_expr))]
    fn unparse(&self, alloc: Global, out: &mut Tokens) -> Result<(), NoMemory> {
        self.first.unparse(alloc, out)?;
        more(alloc, &self.more, out)
    }
}

impl Unparse for Set {
    ghost use Rattle.rs_unparse.specs.Unparsed.{unparsed_set};

    ghost unparsed = { unparsed_set };

    #[tactic(auto, unfolding(crate::specs::Unparsed::unparsed_set))]
    fn unparse(&self, alloc: Global, out: &mut Tokens) -> Result<(), NoMemory> {
        ident(self.column, out)?;
        symbol(Symbol::Equal, out)?;
        self.expr.unparse(alloc, out)
    }
}
