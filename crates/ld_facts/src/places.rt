//! Places, by which the tables are indexed: a key together with whether the letter of arrival is R. A set of places is
//! a row of bits.

ghost use Rattle.std.specs.Prelude.{◌≡◌, ◌<◌};
ghost use Rattle.ld_facts.specs.Inside.Places.{place};

use ld_trace::GRAPH_KEYS;

/// How many places there are: two for each key.
pub const PLACES: usize = 2 * GRAPH_KEYS as usize;

/// How many words a row has.
pub const ROW_WORDS: usize = PLACES / 64;

/// A set of places.
pub type Row = [u64; ROW_WORDS];

/// The place of a key and a letter.
pub fn place_of(key: u16, at_r: bool) -> usize
    requires { key < GRAPH_KEYS }
    ensures value { result ≡ place key at_r }
    ensures below { result < PLACES }
{
    if at_r {
        usize::from(key) + usize::from(GRAPH_KEYS)
    } else {
        usize::from(key)
    }
}
