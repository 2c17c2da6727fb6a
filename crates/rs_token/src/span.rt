//! The lengths of blanks, words and numbers.

ghost use Rattle.std.specs.Prelude.{◌≡◌, ◌≤◌, length};
ghost use Rattle.std.specs.List.{prefix_len};
ghost use Rattle.rs_token.specs.Tokens as spec;

fn is_blank(byte: u8) -> bool
    ensures { result ≡ spec.is_blank byte }
{
    byte == b' ' || byte == b'\t' || byte == b'\n' || byte == b'\r'
}

pub fn is_letter(byte: u8) -> bool
    ensures { result ≡ spec.is_letter byte }
{
    b'a' <= byte && byte <= b'z' || b'A' <= byte && byte <= b'Z'
}

pub fn is_digit(byte: u8) -> bool
    ensures { result ≡ spec.is_digit byte }
{
    b'0' <= byte && byte <= b'9'
}

fn is_word_byte(byte: u8) -> bool
    ensures { result ≡ spec.is_word_byte byte }
{
    is_letter(byte) || is_digit(byte) || byte == b'_'
}

/// Returns the length of the blanks that begin the bytes.
pub fn blanks(bytes: &[u8]) -> usize
    ensures len { result ≡ prefix_len spec.is_blank bytes.now }
    ensures within { result ≤ length bytes.now }
{
    bytes.iter().take_while(|byte| is_blank(**byte)).count()
}

/// Returns the length of the word that begins the bytes.
pub fn word_len(bytes: &[u8]) -> usize
    ensures len { result ≡ prefix_len spec.is_word_byte bytes.now }
    ensures within { result ≤ length bytes.now }
{
    bytes.iter().take_while(|byte| is_word_byte(**byte)).count()
}

/// Returns the length of the digits that begin the bytes.
pub fn number_len(bytes: &[u8]) -> usize
    ensures len { result ≡ prefix_len spec.is_digit bytes.now }
    ensures within { result ≤ length bytes.now }
{
    bytes.iter().take_while(|byte| is_digit(**byte)).count()
}
