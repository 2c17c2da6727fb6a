//! A cursor over tokens, and the readers of single tokens. A reader that fails with `Malformed` stays at the token that
//! it refuses.

ghost use Rattle.std.specs.Prelude.{◌≡◌, length};
ghost use Rattle.rs_parse.specs.Read.{Reads, begins, one_at};
ghost use Rattle.rs_token.specs.Token as tokens;
ghost use Rattle.rs_parse.specs.Reader as spec;

use crate::token::{
    arith_of, ident_of, is_dml, is_unsigned, kind_of, negated_of, op_of, ordinal_of, site_of,
    unsigned_of,
};
use rs_ast::{Arith, Op, Stmt};
use rs_base::{Ident, Kind, ReadFault, SiteNo, Value};
use rs_token::{Symbol, Token};
use std::alloc::Global;
use std::marker::Model;

/// A cursor over tokens: those that are still to be read.
#[derive(Drop)]
pub struct Cursor<'a> {
    left: &'a [Token],
}

impl<'a> Model for Cursor<'a> {
    ghost use Rattle.std.specs.Prelude.{List};
    ghost use Rattle.rs_token.specs.declared.token.Token.{Token};

    ghost Value = { List Token };

    ghost view = { λ cursor. cursor.left.now };
}

impl<'a> Cursor<'a> {
    pub fn new(tokens: &'a [Token]) -> Cursor<'a>
        ensures { result ≡ tokens.now }
    {
        Cursor { left: tokens }
    }

    pub fn len(&self) -> usize
        ensures { result ≡ length self.now }
    {
        self.left.len()
    }

    pub fn begins_with_word(&self, word: &[u8]) -> bool
        ensures { result ≡ begins (tokens.is_word word.now) self.now }
    {
        self.left.first().is_some_and(|first| first.is_word(word))
    }

    pub fn begins_with_symbol(&self, symbol: Symbol) -> bool
        ensures { result ≡ begins (tokens.is_symbol symbol) self.now }
    {
        self.left
            .first()
            .is_some_and(|first| first.is_symbol(symbol))
    }

    pub fn begins_with_ident(&self) -> bool
        ensures { result ≡ begins spec.is_ident_token self.now }
    {
        self.left
            .first()
            .is_some_and(|first| ident_of(first).is_some())
    }

    pub fn begins_with_arith(&self) -> bool
        ensures { result ≡ begins spec.is_arith_token self.now }
    {
        self.left
            .first()
            .is_some_and(|first| arith_of(first).is_some())
    }

    pub fn begins_with_literal(&self) -> bool
        ensures { result ≡ begins spec.begins_literal self.now }
    {
        self.left.first().is_some_and(|first| first.is_symbol(Symbol::Minus) || is_unsigned(first))
    }

    pub fn begins_with_dml(&self) -> bool
        ensures { result ≡ begins spec.begins_dml self.now }
    {
        self.left.first().is_some_and(is_dml)
    }

    /// Returns the statement, if no token follows it.
    pub fn expect_end(&self, stmt: Stmt) -> Result<Stmt, ReadFault>
        ensures { Reads (spec.at_end stmt self.now) result self.now }
    {
        match self.left {
            [] => Ok(stmt),
            [_, ..] => Err(ReadFault::Malformed),
        }
    }

    /// Advances past the first token, if there is one and it means a value, and returns the value.
    fn next_if<T: Drop>(&mut self, meant: Option<T>) -> Result<T, ReadFault>
        ensures { Reads (one_at (λ first. meant) self.old) result self.new }
    {
        let ([_, rest @ ..], Some(value)) = (self.left, meant) else {
            return Err(ReadFault::Malformed);
        };
        self.left = rest;
        Ok(value)
    }

    pub fn expect_symbol(&mut self, symbol: Symbol) -> Result<(), ReadFault>
        ensures { Reads (spec.symbol_at symbol self.old) result self.new }
    {
        self.next_if(self.begins_with_symbol(symbol).then_some(()))
    }

    pub fn expect_keyword(&mut self, word: &[u8]) -> Result<(), ReadFault>
        ensures { Reads (spec.word_at word.now self.old) result self.new }
    {
        self.next_if(self.begins_with_word(word).then_some(()))
    }

    /// Reads an identifier: a word that isn't reserved.
    #[tactic(auto, unfolding(crate::specs::Reader::ident_at))]
    pub fn ident(&mut self) -> Result<Ident, ReadFault>
        ensures { Reads (spec.ident_at self.old) result self.new }
    {
        self.next_if(self.left.first().and_then(ident_of))
    }

    #[tactic(auto, unfolding(crate::specs::Reader::site_at))]
    pub fn site(&mut self) -> Result<SiteNo, ReadFault>
        ensures { Reads (spec.site_at self.old) result self.new }
    {
        self.next_if(self.left.first().and_then(site_of))
    }

    #[tactic(auto, unfolding(crate::specs::Reader::kind_at))]
    pub fn kind(&mut self) -> Result<Kind, ReadFault>
        ensures { Reads (spec.kind_at self.old) result self.new }
    {
        self.next_if(self.left.first().and_then(kind_of))
    }

    #[tactic(auto, unfolding(crate::specs::Reader::op_at))]
    pub fn op(&mut self) -> Result<Op, ReadFault>
        ensures { Reads (spec.op_at self.old) result self.new }
    {
        self.next_if(self.left.first().and_then(op_of))
    }

    #[tactic(auto, unfolding(crate::specs::Reader::arith_at))]
    pub fn arith(&mut self) -> Result<Arith, ReadFault>
        ensures { Reads (spec.arith_at self.old) result self.new }
    {
        self.next_if(self.left.first().and_then(arith_of))
    }

    /// Reads the ordinal of a select item, below `2 ^ 32`.
    #[tactic(auto, unfolding(crate::specs::Reader::ordinal_at))]
    pub fn ordinal(&mut self) -> Result<u32, ReadFault>
        ensures { Reads (spec.ordinal_at self.old) result self.new }
    {
        self.next_if(self.left.first().and_then(ordinal_of))
    }

    /// Reads the number after `-`, below `2 ^ 63`, and negates it.
    #[tactic(auto, unfolding(crate::specs::Reader::negated_at))]
    pub fn negated(&mut self) -> Result<Value, ReadFault>
        ensures { Reads (spec.negated_at self.old) result self.new }
    {
        self.next_if(self.left.first().and_then(negated_of))
    }

    /// Reads a number without a sign, below `2 ^ 63`, or a text literal.
    #[tactic(auto, unfolding(crate::specs::Reader::unsigned_at))]
    pub fn unsigned(&mut self, alloc: Global) -> Result<Value, ReadFault>
        ensures { Reads (spec.unsigned_at self.old) result self.new }
    {
        let meant = match self.left {
            [] => None,
            [first, ..] => unsigned_of(alloc, first)?,
        };
        self.next_if(meant)
    }
}
