//! Printing of statements.

ghost use Rattle.std.specs.Prelude.{◌≡◌, ◌++◌, map, drop, take, OnOk, OnErr};
ghost use Rattle.std.specs.Char.{to_ascii_uppercase};
ghost use Rattle.rs_base.specs.Printing.{printed_text};
ghost use Rattle.rs_unparse.specs.Printed as spec;

use crate::ending::Ending;
use crate::unparse::Unparse;
use rs_ast::Stmt;
use rs_base::{Bytes, NoMemory, Txt, Value, print_number, print_value};
use rs_token::{Symbol, Token, Tokens, is_reserved};
use std::alloc::Global;

fn put_upper_case(out: &mut Bytes, word: &[u8]) -> Result<(), NoMemory>
    ensures { OnOk result (out.new ≡ out.old ++ map to_ascii_uppercase word.now) }
{
    for byte in word {
        out.push(byte.to_ascii_uppercase())?;
    }
    Ok(())
}

#[tactic(auto, unfolding(crate::specs::Printed::printed_word))]
fn put_word(out: &mut Bytes, word: &[u8]) -> Result<(), NoMemory>
    ensures { OnOk result (out.new ≡ out.old ++ spec.printed_word word.now) }
{
    if is_reserved(word) {
        put_upper_case(out, word)
    } else {
        out.extend(word)
    }
}

fn put_text(alloc: Global, out: &mut Bytes, text: &Txt) -> Result<(), NoMemory>
    ensures { OnOk result (out.new ≡ out.old ++ printed_text text.now) }
{
    let value = Value::Text(text.copy(alloc)?);
    print_value(alloc, &value, out)
}

#[tactic(auto, unfolding(crate::specs::Printed::printed_symbol))]
fn symbol_text(symbol: Symbol) -> &'static [u8]
    ensures { result.now ≡ spec.printed_symbol symbol }
{
    match symbol {
        Symbol::Open => b"(",
        Symbol::Close => b")",
        Symbol::Comma => b",",
        Symbol::Dot => b".",
        Symbol::Semicolon => b";",
        Symbol::At => b"@",
        Symbol::Star => b"*",
        Symbol::Colon => b":",
        Symbol::Plus => b"+",
        Symbol::Minus => b"-",
        Symbol::Equal => b"=",
        Symbol::NotEqual => b"<>",
        Symbol::Less => b"<",
        Symbol::LessOrEqual => b"<=",
        Symbol::Greater => b">",
        Symbol::GreaterOrEqual => b">=",
    }
}

#[tactic(auto, unfolding(crate::specs::Printed::printed_token))]
fn put_token(alloc: Global, out: &mut Bytes, token: &Token) -> Result<(), NoMemory>
    ensures { OnOk result (out.new ≡ out.old ++ spec.printed_token token.now) }
{
    match token {
        Token::Word(word) => put_word(out, word.as_bytes()),
        Token::Number(n) => print_number(alloc, *n, out),
        Token::Text(text) => put_text(alloc, out, text),
        Token::Symbol(symbol) => out.extend(symbol_text(*symbol)),
    }
}

/// Appends a token, after a space where the text's ending requires one.
#[tactic(auto, unfolding(crate::specs::Printed::printed_next))]
fn put_next(alloc: Global, out: &mut Bytes, before: Ending, token: &Token) -> Result<(), NoMemory>
    ensures { OnOk result (out.new ≡ out.old ++ spec.printed_next before token.now) }
{
    if !before.touches(token) {
        out.push(b' ')?;
    }
    put_token(alloc, out, token)
}

fn put_tokens(alloc: Global, out: &mut Bytes, tokens: &[Token]) -> Result<(), NoMemory>
    ensures { OnOk result (out.new ≡ out.old ++ spec.printed_tokens tokens.now) }
{
    let mut ending = Ending::Start;
    for token in tokens {
        put_next(alloc, out, ending, token)?;
        ending = ending.after(token);
    }
    Ok(())
}

/// Appends the text of a statement to `out`: reserved words in upper case, and a space between two tokens unless they
/// touch. On out of memory nothing changes. Linear in the text's length.
pub fn print_stmt(alloc: Global, stmt: &Stmt, out: &mut Bytes) -> Result<(), NoMemory>
    ensures ok { OnOk result (out.new ≡ out.old ++ spec.printed_stmt stmt.now) }
    ensures err { OnErr result (out.new ≡ out.old) }
{
    let mut tokens = Tokens::new(alloc);
    stmt.unparse(alloc, &mut tokens)?;
    let mut text = Bytes::new(alloc);
    put_tokens(alloc, &mut text, tokens.as_slice())?;
    out.extend(text.as_slice())
}
