//! Appends the printed text of values and names part by part. On out of memory the bytes that were there are a prefix of
//! the new ones: a part of the text may be left after them.

ghost use Rattle.std.specs.Prelude.{◌≡◌, ◌++◌, take, flat_map, decimal, codes, OnOk, OnErr};
ghost use Rattle.std.specs.Fmt.{signed_decimal};
ghost use Rattle.rs_base.specs.Keeping.{Keeps};
ghost use Rattle.rs_base.specs.Printing as spec;

use crate::bytes::Bytes;
use crate::fault::NoMemory;
use crate::name::Swn;
use crate::site_no::SiteNo;
use crate::value::Value;
use itoa::Buffer;

pub fn number(out: &mut Bytes, n: u64) -> Result<(), NoMemory>
    ensures ok { OnOk result (out.new ≡ out.old ++ decimal n) }
    ensures err { OnErr result (Keeps out.old out.new) }
{
    let mut buffer = Buffer::new();
    out.extend(buffer.format(n).as_bytes())
}

fn integer(out: &mut Bytes, n: i64) -> Result<(), NoMemory>
    ensures ok { OnOk result (out.new ≡ out.old ++ signed_decimal n) }
    ensures err { OnErr result (Keeps out.old out.new) }
{
    let mut buffer = Buffer::new();
    out.extend(buffer.format(n).as_bytes())
}

fn quoted_byte(out: &mut Bytes, byte: u8) -> Result<(), NoMemory>
    ensures ok { OnOk result (out.new ≡ out.old ++ spec.quoted_byte byte) }
    ensures err { OnErr result (Keeps out.old out.new) }
{
    if byte == b'\'' {
        out.push(byte)?;
    }
    out.push(byte)
}

fn quoted_bytes(out: &mut Bytes, bytes: &[u8]) -> Result<(), NoMemory>
    ensures ok { OnOk result (out.new ≡ out.old ++ flat_map spec.quoted_byte bytes.now) }
    ensures err { OnErr result (Keeps out.old out.new) }
{
    for byte in bytes {
        quoted_byte(out, *byte)?;
    }
    Ok(())
}

fn text(out: &mut Bytes, bytes: &[u8]) -> Result<(), NoMemory>
    ensures ok { OnOk result (out.new ≡ out.old ++ spec.printed_text bytes.now) }
    ensures err { OnErr result (Keeps out.old out.new) }
{
    out.extend(b"'")?;
    quoted_bytes(out, bytes)?;
    out.extend(b"'")
}

pub fn value(out: &mut Bytes, value: &Value) -> Result<(), NoMemory>
    ensures ok { OnOk result (out.new ≡ out.old ++ spec.printed_value value.now) }
    ensures err { OnErr result (Keeps out.old out.new) }
{
    match value {
        Value::Int(n) => integer(out, *n),
        Value::Text(bytes) => text(out, bytes.as_bytes()),
    }
}

pub fn site(out: &mut Bytes, site: SiteNo) -> Result<(), NoMemory>
    ensures ok { OnOk result (out.new ≡ out.old ++ decimal site) }
    ensures err { OnErr result (Keeps out.old out.new) }
{
    number(out, u64::from(site.number()))
}

pub fn swn(out: &mut Bytes, name: &Swn) -> Result<(), NoMemory>
    ensures ok { OnOk result (out.new ≡ out.old ++ spec.printed_swn name.now) }
    ensures err { OnErr result (Keeps out.old out.new) }
{
    out.extend(name.creator.as_bytes())?;
    out.extend(b"@")?;
    site(out, name.creator_site)?;
    out.extend(b".")?;
    out.extend(name.object.as_bytes())?;
    out.extend(b"@")?;
    site(out, name.birth)
}
