//! The meaning of single tokens.

ghost use Rattle.std.specs.Prelude.{◌≡◌, IfOk, is_some};
ghost use Rattle.rs_parse.specs.Reader as spec;

use rs_ast::{Arith, Op};
use rs_base::{Ident, Kind, NoMemory, SiteNo, Value};
use rs_token::{Symbol, Token, is_reserved};
use std::alloc::Global;

pub fn ident_of(token: &Token) -> Option<Ident>
    ensures { result ≡ spec.ident_of token.now }
{
    match token {
        Token::Word(word) => {
            if is_reserved(word.as_bytes()) {
                None
            } else {
                Some(*word)
            }
        }
        Token::Number(_) => None,
        Token::Text(_) => None,
        Token::Symbol(_) => None,
    }
}

pub fn site_of(token: &Token) -> Option<SiteNo>
    ensures { result ≡ spec.site_of token.now }
{
    match token {
        Token::Word(_) => None,
        Token::Number(n) => {
            if 1 <= *n && *n <= 16 {
                SiteNo::new(*n as u16)
            } else {
                None
            }
        }
        Token::Text(_) => None,
        Token::Symbol(_) => None,
    }
}

fn kind_of_word(word: &[u8]) -> Option<Kind>
    ensures { result ≡ spec.kind_of_word word.now }
{
    if word == b"int".as_slice() || word == b"integer".as_slice() {
        Some(Kind::Int)
    } else if word == b"text".as_slice() {
        Some(Kind::Text)
    } else {
        None
    }
}

pub fn kind_of(token: &Token) -> Option<Kind>
    ensures { result ≡ spec.kind_of token.now }
{
    match token {
        Token::Word(word) => kind_of_word(word.as_bytes()),
        Token::Number(_) => None,
        Token::Text(_) => None,
        Token::Symbol(_) => None,
    }
}

fn op_of_symbol(symbol: Symbol) -> Option<Op>
    ensures { result ≡ spec.op_of_symbol symbol }
{
    match symbol {
        Symbol::Equal => Some(Op::Eq),
        Symbol::NotEqual => Some(Op::Ne),
        Symbol::Less => Some(Op::Lt),
        Symbol::LessOrEqual => Some(Op::Le),
        Symbol::Greater => Some(Op::Gt),
        Symbol::GreaterOrEqual => Some(Op::Ge),
        _ => None,
    }
}

pub fn op_of(token: &Token) -> Option<Op>
    ensures { result ≡ spec.op_of token.now }
{
    match token {
        Token::Word(_) => None,
        Token::Number(_) => None,
        Token::Text(_) => None,
        Token::Symbol(symbol) => op_of_symbol(*symbol),
    }
}

fn arith_of_symbol(symbol: Symbol) -> Option<Arith>
    ensures { result ≡ spec.arith_of_symbol symbol }
{
    match symbol {
        Symbol::Plus => Some(Arith::Add),
        Symbol::Minus => Some(Arith::Sub),
        Symbol::Star => Some(Arith::Mul),
        _ => None,
    }
}

pub fn arith_of(token: &Token) -> Option<Arith>
    ensures { result ≡ spec.arith_of token.now }
{
    match token {
        Token::Word(_) => None,
        Token::Number(_) => None,
        Token::Text(_) => None,
        Token::Symbol(symbol) => arith_of_symbol(*symbol),
    }
}

/// Returns the ordinal of a select item, below `2 ^ 32`.
pub fn ordinal_of(token: &Token) -> Option<u32>
    ensures { result ≡ spec.ordinal_of token.now }
{
    match token {
        Token::Word(_) => None,
        Token::Number(n) => { if *n < 1 << 32 { Some(*n as u32) } else { None } }
        Token::Text(_) => None,
        Token::Symbol(_) => None,
    }
}

/// Returns the value of a number after `-`, below `2 ^ 63`.
pub fn negated_of(token: &Token) -> Option<Value>
    ensures { result ≡ spec.negated_of token.now }
{
    match token {
        Token::Word(_) => None,
        Token::Number(n) => {
            if *n < 1 << 63 {
                Some(Value::Int(-(*n as i64)))
            } else {
                None
            }
        }
        Token::Text(_) => None,
        Token::Symbol(_) => None,
    }
}

pub fn is_unsigned(token: &Token) -> bool
    ensures { result ≡ is_some (spec.unsigned_of token.now) }
{
    match token {
        Token::Word(_) => false,
        Token::Number(n) => *n < 1 << 63,
        Token::Text(_) => true,
        Token::Symbol(_) => false,
    }
}

/// Returns the value of a number without a sign, below `2 ^ 63`, or of a text literal.
pub fn unsigned_of(alloc: Global, token: &Token) -> Result<Option<Value>, NoMemory>
    ensures { IfOk result (λ value. value ≡ spec.unsigned_of token.now) }
{
    match token {
        Token::Word(_) => Ok(None),
        Token::Number(n) => {
            if *n < 1 << 63 {
                Ok(Some(Value::Int(*n as i64)))
            } else {
                Ok(None)
            }
        }
        Token::Text(text) => Ok(Some(Value::Text(text.copy(alloc)?))),
        Token::Symbol(_) => Ok(None),
    }
}

/// Returns whether a statement on rows may begin with the token.
pub fn is_dml(token: &Token) -> bool
    ensures { result ≡ spec.begins_dml token.now }
{
    token.is_word(b"select")
        || token.is_word(b"insert")
        || token.is_word(b"update")
        || token.is_word(b"delete")
}
