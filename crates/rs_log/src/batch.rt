//! The bytes of a batch.

ghost use Rattle.std.specs.Prelude.{◌≡◌, ◌<◌, ◌^◌, [], ◌∷◌, ◌++◌, length, IfOk};
ghost use Rattle.rs_log.specs.Format.{items_bytes, batch_bytes};

use rs_base::{Bytes, NoMemory};
use rs_codec::{put_text, put_u64};
use std::alloc::Global;

/// Returns the encoded items, each as the count of its length and its bytes. Linear in their length.
fn encode_items(alloc: Global, items: &[Bytes]) -> Result<Bytes, NoMemory>
    ensures { IfOk result (λ bytes. bytes ≡ items_bytes items.now) }
{
    let mut bytes = Bytes::new(alloc);
    for item in items {
        put_text(&mut bytes, item.as_slice())?;
    }
    Ok(bytes)
}

/// Returns the batch of these items with a closed gate after it. Linear in its length.
pub(crate) fn encode_batch(alloc: Global, items: &[Bytes]) -> Result<Bytes, NoMemory>
    ensures batch { IfOk result (λ bytes. bytes ≡ batch_bytes items.now ++ 0 ∷ []) }
    ensures fits { IfOk result (λ bytes. length bytes < 2 ^ 63) }
{
    let encoded = encode_items(alloc, items)?;
    let mut batch = Bytes::new(alloc);
    put_u64(&mut batch, encoded.len() as u64)?;
    batch.extend(encoded.as_slice())?;
    batch.push(0)?;
    Ok(batch)
}
