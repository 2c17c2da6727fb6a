//! Arithmetic on integers of 64 bits.

ghost use Rattle.std.specs.Prelude.{IsTrue, SomeIff};
ghost use Rattle.rs_base.specs.Integers.{is_i64};
ghost use Rattle.rs_eval.specs.Integers.{computed};

use rs_ast::Arith;

/// Returns the sum, difference or product, if it is an integer of 64 bits.
pub fn compute(op: Arith, x: i64, y: i64) -> Option<i64>
    ensures { SomeIff result (IsTrue (is_i64 (computed op x y))) (computed op x y) }
{
    match op {
        Arith::Add => x.checked_add(y),
        Arith::Sub => x.checked_sub(y),
        Arith::Mul => x.checked_mul(y),
    }
}
