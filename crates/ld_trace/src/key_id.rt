//! Numbers of lock keys.

ghost use Rattle.std.specs.Prelude.{◌≡◌, ◌<◌, ◌↔◌, IsSome, IfSome};

use std::marker::Model;

/// The most lock keys in a table made by `KeyTable::new`, and so of a run as it is specified.
pub const GRAPH_KEYS: u16 = 256;

/// The most lock keys that there can be: each key's number is below it, and so fits in 13 bits.
pub const MAX_KEYS: u16 = 8_192;

/// The number of a lock key, below `MAX_KEYS`.
#[derive(Clone, Copy, PartialEq, Eq, Debug, Hash)]
pub struct KeyId {
    number: u16,
}

impl Model for KeyId {
    ghost use Rattle.std.specs.Prelude.{ℕ, ◌<◌};
    ghost use Rattle.ld_trace.specs.declared.key_id.TheConstants.{MAX_KEYS};

    ghost Value = { ℕ };

    ghost view = { λ k. k.number };

    ghost invariant = { λ k. k.number < MAX_KEYS };

    ghost inverse = { λ n. record { number = n } };
}

impl Default for KeyId {
    ghost is_default = { λ key. key ≡ 0 };

    fn default() -> Self {
        KeyId { number: 0 }
    }
}

impl KeyId {
    /// The key with this number. None exactly if it isn't below `GRAPH_KEYS`.
    pub fn new(number: u16) -> Option<KeyId>
        ensures exact { IsSome result ↔ (number < GRAPH_KEYS) }
        ensures value { IfSome result (λ key. key ≡ number) }
    {
        if number < GRAPH_KEYS {
            Some(KeyId { number })
        } else {
            None
        }
    }

    /// The key with this number, as in a table made for many keys. None exactly if it isn't below `MAX_KEYS`.
    pub fn of_many(number: u16) -> Option<KeyId>
        ensures exact { IsSome result ↔ (number < MAX_KEYS) }
        ensures value { IfSome result (λ key. key ≡ number) }
    {
        if number < MAX_KEYS {
            Some(KeyId { number })
        } else {
            None
        }
    }

    /// Its number.
    pub fn get(self) -> u16
        ensures value { result ≡ self }
        ensures below { result < MAX_KEYS }
    {
        self.number
    }

    // The key of the name at this place of a table.
    pub(crate) fn from_place(place: usize) -> KeyId
        requires { place < MAX_KEYS }
        ensures { result ≡ place }
    {
        KeyId {
            number: place as u16,
        }
    }
}
