//! Homes of keys: their parts, and their places there.

ghost use Rattle.std.specs.Prelude.{◌≤◌, Contains, IfOk, length, slice_index};
ghost use Rattle.ld_parts.specs.Inside.Parts.{AreHomes, AreHoused, IsAtPlace};
ghost use Rattle.ld_trace.specs.declared.key_id.TheConstants.{MAX_KEYS};

use crate::part::Part;
use crate::ranks::Ranks;
use std::alloc::{AllocError, Global};

// Where a key is: its part, and its place among the part's keys.
#[derive(Clone, Copy)]
pub(crate) struct Home {
    pub(crate) part: u16,
    pub(crate) place: u16,
}

// The homes of the keys below the bound.
pub(crate) fn homes_by_ranks(
    alloc: Global,
    bound: u16,
    ranks: &Ranks,
    parts: &[Part],
) -> Result<Vec<Home>, AllocError>
    requires { AreHoused bound (slice_index ranks.now) parts.now }
    ensures { IfOk result (λ homes. AreHomes bound (slice_index ranks.now) parts.now homes.items) }
{
    let mut homes = Vec::new(alloc);
    for key in 0..bound {
        let part = ranks.get(key);
        let place = place_in(&parts[usize::from(part)].keys, key);
        homes.push(Home { part, place })?;
    }
    Ok(homes)
}

// The key's place among the keys, of which it is one.
fn place_in(keys: &[u16], key: u16) -> u16
    requires few { length keys.now ≤ MAX_KEYS }
    requires listed { Contains keys.now key }
    ensures { IsAtPlace keys.now key result }
{
    for (place, known) in keys.iter().enumerate() {
        if *known == key {
            return place as u16;
        }
    }
    0
}
