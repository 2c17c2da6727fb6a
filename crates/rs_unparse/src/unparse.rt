//! Printing of statements as tokens.

ghost use Rattle.std.specs.Prelude.{◌≡◌, [], ◌∷◌, ◌++◌, flat_map, take, OnOk, IsTrue};
ghost use Rattle.rs_base.specs.Ident.{is_ident};
ghost use Rattle.rs_token.specs.declared.token.Token.TheVariants as tokens;
ghost use Rattle.rs_unparse.specs.Unparsed as spec;

mod change;
mod clause;
mod name;
mod select;
mod stmt;
mod value;

use rs_base::{Ident, NoMemory};
use rs_token::{Symbol, Token, Tokens};
use std::alloc::Global;

/// A part of a statement that prints as tokens.
pub trait Unparse {
    ghost use Rattle.std.specs.Prelude.{List};
    ghost use Rattle.rs_token.specs.declared.token.Token.{Token};

    // The part's tokens.
    ghost unparsed: { Self → List Token };

    /// Appends the part's tokens to `out`. On out of memory some of them may have been appended.
    fn unparse(&self, alloc: Global, out: &mut Tokens) -> Result<(), NoMemory>
        ensures { OnOk result (out.new ≡ out.old ++ unparsed self.now) };
}

/// Returns the token of a word, which is given in lower case.
fn keyword(word: &[u8]) -> Token
    requires { IsTrue (is_ident word.now) }
    ensures { result ≡ tokens.Word word.now }
{
    match Ident::new(word) {
        Some(word) => Token::Word(word),
        None => unreachable!(),
    }
}

fn word(word: &[u8], out: &mut Tokens) -> Result<(), NoMemory>
    requires { IsTrue (is_ident word.now) }
    ensures { OnOk result (out.new ≡ out.old ++ tokens.Word word.now ∷ []) }
{
    out.push(keyword(word))?;
    Ok(())
}

fn ident(ident: Ident, out: &mut Tokens) -> Result<(), NoMemory>
    ensures { OnOk result (out.new ≡ out.old ++ tokens.Word ident ∷ []) }
{
    out.push(Token::Word(ident))?;
    Ok(())
}

fn number(n: u64, out: &mut Tokens) -> Result<(), NoMemory>
    ensures { OnOk result (out.new ≡ out.old ++ tokens.Number n ∷ []) }
{
    out.push(Token::Number(n))?;
    Ok(())
}

fn symbol(symbol: Symbol, out: &mut Tokens) -> Result<(), NoMemory>
    ensures { OnOk result (out.new ≡ out.old ++ tokens.Symbol symbol ∷ []) }
{
    out.push(Token::Symbol(symbol))?;
    Ok(())
}

fn others_after<T: Unparse>(
    alloc: Global,
    separator: &Token,
    items: &[T],
    out: &mut Tokens,
) -> Result<(), NoMemory>
    ensures { OnOk result (out.new ≡ out.old ++ flat_map (spec.unparsed_after separator.now T.unparsed) items.now) }
{
    for item in items {
        out.push(separator.copy(alloc)?)?;
        item.unparse(alloc, out)?;
    }
    Ok(())
}

/// Appends the items, with a separator between each two.
#[tactic(auto, unfolding(crate::specs::Unparsed::unparsed_list))]
fn list<T: Unparse>(
    alloc: Global,
    separator: &Token,
    items: &[T],
    out: &mut Tokens,
) -> Result<(), NoMemory>
    ensures { OnOk result (out.new ≡ out.old ++ spec.unparsed_list separator.now T.unparsed items.now) }
{
    let [first, others @ ..] = items else {
        return Ok(());
    };
    first.unparse(alloc, out)?;
    others_after(alloc, separator, others, out)
}

/// Appends the items, separated by commas.
fn comma_list<T: Unparse>(alloc: Global, items: &[T], out: &mut Tokens) -> Result<(), NoMemory>
    ensures { OnOk result (out.new ≡ out.old ++ spec.unparsed_list spec.comma T.unparsed items.now) }
{
    list(alloc, &Token::Symbol(Symbol::Comma), items, out)
}

/// Appends the items in parentheses, separated by commas.
#[tactic(auto, unfolding(crate::specs::Unparsed::unparsed_tuple))]
fn tuple<T: Unparse>(alloc: Global, items: &[T], out: &mut Tokens) -> Result<(), NoMemory>
    ensures { OnOk result (out.new ≡ out.old ++ spec.unparsed_tuple T.unparsed items.now) }
{
    symbol(Symbol::Open, out)?;
    comma_list(alloc, items, out)?;
    symbol(Symbol::Close, out)
}
