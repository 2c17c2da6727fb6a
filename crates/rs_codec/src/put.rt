//! Encoders, which append a field to a byte buffer. On out of memory nothing changes.

ghost use Rattle.std.specs.Prelude.{◌≡◌, ◌≤◌, [], ◌∷◌, ◌++◌, take, OnOk, OnErr};
ghost use Rattle.std.specs.Int.{w32, w64, to_be_bytes};
ghost use Rattle.rs_codec.specs.Encoding.{IsCount, IsInt, IsText, Puts};
ghost use Rattle.rs_codec.specs.Written.{count_bytes, int_bytes, text_bytes};

use byteorder::{BigEndian, ByteOrder};
use rs_base::{Bytes, NoMemory, count_of};

/// The most bytes of a count's encoding: ten groups of seven bits hold 64 bits.
const LONGEST: usize = 10;

/// Appends one byte. On out of memory nothing changes.
pub fn put_byte(out: &mut Bytes, byte: u8) -> Result<(), NoMemory>
    ensures ok { OnOk result (out.new ≡ out.old ++ byte ∷ []) }
    ensures err { OnErr result (out.new ≡ out.old) }
{
    out.push(byte)
}

/// Appends a number as four big-endian bytes. On out of memory nothing changes.
pub fn put_u32(out: &mut Bytes, n: u32) -> Result<(), NoMemory>
    ensures ok { OnOk result (out.new ≡ out.old ++ to_be_bytes w32 n) }
    ensures err { OnErr result (out.new ≡ out.old) }
{
    let mut bytes = [0u8; 4];
    BigEndian::write_u32(&mut bytes, n);
    out.extend(&bytes)
}

/// Appends a number as eight big-endian bytes. On out of memory nothing changes.
pub fn put_u64(out: &mut Bytes, n: u64) -> Result<(), NoMemory>
    ensures ok { OnOk result (out.new ≡ out.old ++ to_be_bytes w64 n) }
    ensures err { OnErr result (out.new ≡ out.old) }
{
    let mut bytes = [0u8; 8];
    BigEndian::write_u64(&mut bytes, n);
    out.extend(&bytes)
}

/// Encodes a number in groups of seven bits over the first bytes, and returns the number of bytes written.
fn write_groups(bytes: &mut [u8; LONGEST], n: u64) -> usize
    ensures within { result ≤ 10 }
    ensures encoded { IsCount (take result bytes.new) n }
{
    let mut rest = n;
    for at in 0..LONGEST - 1 {
        if rest < 128 {
            bytes[at] = rest as u8;
            return at + 1;
        }
        bytes[at] = 128 + (rest % 128) as u8;
        rest /= 128;
    }
    bytes[LONGEST - 1] = rest as u8;
    LONGEST
}

/// Appends a number in the fewest groups of seven bits, the lowest first: one byte below 128, and ten at most. On out
/// of memory nothing changes.
pub fn put_count(out: &mut Bytes, n: u64) -> Result<(), NoMemory>
    ensures ok { OnOk result (Puts IsCount out.old out.new n) }
    ensures written { OnOk result (out.new ≡ out.old ++ count_bytes n) }
    ensures err { OnErr result (out.new ≡ out.old) }
{
    let mut bytes = [0u8; LONGEST];
    let len = write_groups(&mut bytes, n);
    out.extend(&bytes[..len])
}

/// Appends an integer as the count of its position in 0, -1, 1, -2, 2 and so on: one byte from -64 to 63, and ten at
/// most. On out of memory nothing changes.
pub fn put_int(out: &mut Bytes, n: i64) -> Result<(), NoMemory>
    ensures ok { OnOk result (Puts IsInt out.old out.new n) }
    ensures written { OnOk result (out.new ≡ out.old ++ int_bytes n) }
    ensures err { OnErr result (out.new ≡ out.old) }
{
    put_count(out, count_of(n))
}

/// Appends a text: the count of its bytes, then the bytes. On out of memory nothing changes.
pub fn put_text(out: &mut Bytes, text: &[u8]) -> Result<(), NoMemory>
    ensures ok { OnOk result (Puts IsText out.old out.new text.now) }
    ensures written { OnOk result (out.new ≡ out.old ++ text_bytes text.now) }
    ensures err { OnErr result (out.new ≡ out.old) }
{
    let before = out.len();
    put_count(out, text.len() as u64)?;
    if let Err(fault) = out.extend(text) {
        out.truncate(before);
        return Err(fault);
    }
    Ok(())
}
