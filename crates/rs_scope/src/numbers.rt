//! Column indexes and positions as they are stored.

ghost use Rattle.std.specs.Prelude.{◌≡◌};
ghost use Rattle.rs_scope.specs.Scope as spec;

/// Returns a column index in 16 bits. A larger one becomes the largest.
pub fn as_u16(column_index: usize) -> u16
    ensures { result ≡ spec.as_u16 column_index }
{
    u16::try_from(column_index).unwrap_or(u16::MAX)
}

/// Returns a position in 8 bits. A larger one becomes the largest.
pub fn as_position(position: usize) -> u8
    ensures { result ≡ spec.as_position position }
{
    u8::try_from(position).unwrap_or(u8::MAX)
}
