//! Kinds of values, as far as they are known.

ghost use Rattle.std.specs.Prelude.{◌≡◌};
ghost use Rattle.rs_ast.specs.Kinds as spec;

use rs_base::Kind;

fn same_kind(one: Kind, other: Kind) -> bool
    ensures { result ≡ spec.same_kind one other }
{
    one == other
}

/// Returns whether two kinds are the same. An unknown one fits any.
pub fn kinds_fit(one: Option<Kind>, other: Option<Kind>) -> bool
    ensures { result ≡ spec.kinds_fit one other }
{
    match (one, other) {
        (Some(one), Some(other)) => same_kind(one, other),
        _ => true,
    }
}
