//! Parsing of decimal numbers.

ghost use Rattle.std.specs.Prelude.{◌≡◌, ◌≤◌, length};
ghost use Rattle.rs_sched.specs.Numbers as spec;

fn is_digit(byte: u8) -> bool
    ensures { result ≡ spec.is_digit byte }
{
    b'0' <= byte && byte <= b'9'
}

fn are_digits(bytes: &[u8]) -> bool
    ensures { result ≡ spec.are_digits bytes.now }
{
    bytes.iter().all(|byte| is_digit(*byte))
}

fn begins_with_no_zero(digits: &[u8]) -> bool
    ensures { result ≡ spec.begins_with_no_zero digits.now }
{
    match digits {
        [] => false,
        [_] => true,
        [first, _, ..] => *first != b'0',
    }
}

fn is_numeral(digits: &[u8]) -> bool
    ensures { result ≡ spec.is_numeral digits.now }
{
    digits.len() <= 20 && begins_with_no_zero(digits) && are_digits(digits)
}

fn digits_value(digits: &[u8]) -> u128
    requires { length digits.now ≤ 20 }
    ensures { result ≡ spec.digits_value digits.now }
{
    let mut value = 0u128;
    for digit in digits {
        value = 10 * value + u128::from(digit.saturating_sub(b'0'));
    }
    value
}

/// Parses a decimal number below `2 ^ 64`, without a sign or a leading zero.
#[tactic(auto, unfolding(crate::specs::Numbers::number_of))]
pub fn number_of(digits: &[u8]) -> Option<u64>
    ensures { result ≡ spec.number_of digits.now }
{
    if !is_numeral(digits) {
        return None;
    }
    let value = digits_value(digits);
    if value < 1 << 64 {
        Some(value as u64)
    } else {
        None
    }
}
