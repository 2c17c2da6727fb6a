//! Laws of every bound statement. Each function here is a law: its contract states it, and its body does
//! nothing.

ghost use Rattle.rs_bind.specs.Laws.{BoundIsAsWritten, BoundIsOver, PlacesAreNamed};

/// A statement that keeps the limits and is bound over the entries of its tables, and not denied, is over them, fits the
/// values, if there are values, and has no parameter beyond the names.
pub fn bound_is_over()
    ensures { BoundIsOver }
{}

/// In a statement that keeps the limits, over the entries of its tables, a name that some column has is bound to the index
/// of such a column.
pub fn places_are_named()
    ensures { PlacesAreNamed }
{}

/// A statement that keeps the limits and is bound over the entries of its tables, and not denied, is bound as it is written:
/// each column, parameter, item, key and assignment to the one of its name, and constants, operators and the order stay.
pub fn bound_is_as_written()
    ensures { BoundIsAsWritten }
{}
