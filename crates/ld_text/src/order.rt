//! The order of keys in a report.

ghost use Rattle.std.specs.Prelude.{◌≡◌, IfOk, length};
ghost use Rattle.ld_text.specs.Names.{name_at};
ghost use Rattle.ld_text.specs.Clauses.{IsKeyOrder, name_cmp, numbers_below};

use crate::Tried;
use crate::words::name_of;
use ld_trace::{KeyId, KeyTable};
use std::alloc::{AllocError, Global};
use std::cmp::Ordering;

/// By the bytes of the names, and then by subclass.
pub(crate) fn compare(keys: &KeyTable, a: KeyId, b: KeyId) -> Ordering
    ensures { result ≡ name_cmp (name_at keys.now.names a) (name_at keys.now.names b) }
{
    name_of(keys, a).cmp(&name_of(keys, b))
}

// All keys of the table, in order of their numbers.
fn numbered_keys(alloc: Global, keys: &KeyTable) -> Tried<Vec<KeyId>>
    ensures { IfOk result (λ all. all.items ≡ numbers_below (length keys.now.names)) }
{
    let mut all = Vec::with_capacity(alloc, keys.len())?;
    for number in 0..keys.len() {
        if let Some(key) = KeyId::of_many(number as u16) {
            all.push(key)?;
        }
    }
    Ok(all)
}

/// All keys of the table, in the order of their names. Fails only if memory is refused.
pub fn sorted_keys(alloc: Global, keys: &KeyTable) -> Result<Vec<KeyId>, AllocError>
    ensures { IfOk result (λ sorted. IsKeyOrder keys.now.names sorted.items) }
{
    let mut sorted = numbered_keys(alloc, keys)?;
    sorted.sort_unstable_by(|a, b| compare(keys, *a, *b));
    Ok(sorted)
}
