//! Tokens of values and parameters.

ghost use Rattle.std.specs.Prelude.{◌≡◌, ◌++◌, OnOk};
ghost use Rattle.rs_unparse.specs.Unparsed as spec;

use crate::unparse::{Unparse, ident, number, symbol};
use rs_base::{Ident, NoMemory, Value};
use rs_token::{Symbol, Token, Tokens};
use std::alloc::Global;

#[tactic(auto, unfolding(crate::specs::Unparsed::unparsed_integer))]
fn integer(n: i64, out: &mut Tokens) -> Result<(), NoMemory>
    ensures { OnOk result (out.new ≡ out.old ++ spec.unparsed_integer n) }
{
    if n < 0 {
        symbol(Symbol::Minus, out)?;
    }
    number(n.unsigned_abs(), out)
}

impl Unparse for Value {
    ghost use Rattle.rs_unparse.specs.Unparsed.{unparsed_value};

    ghost unparsed = { unparsed_value };

    #[tactic(auto, unfolding(crate::specs::Unparsed::unparsed_value))]
    fn unparse(&self, alloc: Global, out: &mut Tokens) -> Result<(), NoMemory> {
        match self {
            Value::Int(n) => integer(*n, out),
            Value::Text(text) => {
                out.push(Token::Text(text.copy(alloc)?))?;
                Ok(())
            }
        }
    }
}

pub fn param(param: Ident, out: &mut Tokens) -> Result<(), NoMemory>
    ensures { OnOk result (out.new ≡ out.old ++ spec.unparsed_param param) }
{
    symbol(Symbol::Colon, out)?;
    ident(param, out)
}
