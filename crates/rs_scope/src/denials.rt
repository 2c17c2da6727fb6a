//! The first denial of several items.

ghost use Rattle.std.specs.Prelude.{◌≡◌, List, flat_map};
ghost use Rattle.rs_scope.specs.DenialOf.{IsDenialBy};
ghost use Rattle.rs_scope.specs.Denials as spec;

use rs_base::Denial;

/// Returns the first denial of the items, if there is one.
pub fn first_denial<T, F: Fn(&T) -> Option<Denial>>(items: &[T], denial_of: F) -> Option<Denial>
    requires { F.IsAlwaysCallable denial_of }
    ensures { (tests : T → List spec.Test) → IsDenialBy tests (F.post denial_of)
        → result ≡ spec.first_denial (flat_map tests items.now) }
{
    for item in items {
        let denial = denial_of(item);
        if denial.is_some() {
            return denial;
        }
    }
    None
}
