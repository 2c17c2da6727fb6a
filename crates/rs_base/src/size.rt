//! The encoded size of a row.

ghost use Rattle.std.specs.Prelude.{◌≡◌, ◌≤◌, ◌+◌, ◌-◌, ◌^◌, min, take};
ghost use Rattle.rs_base.specs.Sizes as spec;

use crate::value::Value;

/// The zigzag number of an integer: its index among 0, -1, 1, -2, 2 and so on.
pub fn count_of(n: i64) -> u64
    ensures { result ≡ spec.count_of n }
{
    if n < 0 {
        2 * (-(n + 1)) as u64 + 1
    } else {
        2 * n as u64
    }
}

#[tactic(auto, using(crate::proofs::SizeLaws::groups_last), unfolding(crate::specs::Sizes::count_size))]
fn count_size(n: u64) -> u64
    ensures size { result ≡ spec.count_size n }
    ensures small { result ≤ 10 }
{
    let mut rest = n;
    for size in 1..10 {
        if rest < 128 {
            return size;
        }
        rest /= 128;
    }
    10
}

fn value_size(value: &Value) -> u64
    ensures { result ≡ spec.value_size value.now }
{
    match value {
        Value::Int(n) => 1 + count_size(count_of(*n)),
        Value::Text(text) => {
            let len = text.as_bytes().len() as u64;
            1 + count_size(len) + len
        }
    }
}

/// Returns the number of bytes that a row's values take encoded, at most 2 ^ 64 - 1. A value is a byte for its kind and
/// then an integer (zigzag, LEB128) or a text after its length; a number takes a byte for each seven bits.
pub fn row_size(row: &[Value]) -> u64
    ensures { result ≡ min (spec.row_size row.now) (2 ^ 64 - 1) }
{
    let mut size = 0u64;
    for value in row {
        size = size.saturating_add(value_size(value));
    }
    size
}
