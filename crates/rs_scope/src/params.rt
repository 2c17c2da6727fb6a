//! Parameters by their names.

ghost use Rattle.std.specs.Prelude.{◌≡◌, find, position};
ghost use Rattle.std.specs.Option.{option_copied};
ghost use Rattle.rs_scope.specs.Scope as spec;

use crate::numbers::as_position;
use crate::scope::Param;
use rs_base::{Ident, Kind};

fn is_param(name: Ident, param: &Param) -> bool
    ensures { result ≡ spec.is_param name param.now }
{
    param.name == name
}

/// Returns whether there is a parameter of that name.
pub fn is_declared(params: &[Param], name: Ident) -> bool
    ensures { result ≡ spec.is_declared params.now name }
{
    params.iter().any(|param| is_param(name, param))
}

fn position_of(params: &[Param], name: Ident) -> Option<usize>
    ensures { result ≡ position (spec.is_param name) params.now }
{
    params.iter().position(|param| is_param(name, param))
}

/// Returns the position of the parameter of that name. It is meant for one that is declared.
#[tactic(auto, using(crate::proofs::Positions::position_or_end))]
pub fn param_index(params: &[Param], name: Ident) -> u8
    ensures { result ≡ spec.param_index params.now name }
{
    as_position(position_of(params, name).unwrap_or(params.len()))
}

fn param_named(params: &[Param], name: Ident) -> Option<&Param>
    ensures { option_copied result ≡ find (spec.is_param name) params.now }
{
    params.iter().find(|param| is_param(name, param))
}

/// Returns the kind of the parameter's value, if it has one.
pub fn param_kind(params: &[Param], name: Ident) -> Option<Kind>
    ensures { result ≡ spec.param_kind params.now name }
{
    param_named(params, name)?.kind
}
