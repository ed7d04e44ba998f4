//! The keys of a table by what their names are at a level: by classes, or by types.

ghost use Rattle.std.specs.Prelude.{◌≡◌, ◌<◌, ◌≤◌, ◌∷◌, ◌++◌, [], All, IfOk, OnOk, length, map};
ghost use Rattle.ld_trace.specs.Classes.{name_by, numbers_at};
ghost use Rattle.ld_trace.specs.declared.key_id.TheConstants.{MAX_KEYS};
ghost use Rattle.ld_trace.specs.Names.{place_of, with_name};
ghost use Rattle.ld_trace.specs.TakingIn.{with_all};
ghost use Rattle.ld_trace.specs.Writing.{name_at};

use crate::{KeyFault, KeyTable, Level, MAX_KEYS};
use std::alloc::{AllocError, Global};

/// The keys of a table at a level.
#[derive(Drop)]
pub struct Renaming {
    /// The names at the level, each once, in the order in which the table has them first.
    pub names: KeyTable,
    /// For each key of the table the number that its name has among these.
    pub keys: Vec<u16>,
}

impl Renaming {
    /// What the names of the table are at a level. It fails only if memory is refused.
    pub fn of(alloc: Global, table: &KeyTable, level: Level) -> Result<Renaming, AllocError>
        ensures names { IfOk result (λ r. r.names.names ≡ with_all [] (map (name_by level) table.now.names)) }
        ensures keys { IfOk result (λ r. r.keys.items ≡ numbers_at level table.now.names r.names.names) }
        ensures below { IfOk result (λ r. All (λ key. key < length r.names.names) r.keys.items) }
    {
        let Ok(mut names) = KeyTable::with_room(alloc, MAX_KEYS) else {
            unreachable!();
        };
        let mut keys = Vec::new(alloc);
        for place in 0..table.len() {
            add_name(&mut names, &mut keys, table, place, level)?;
        }
        Ok(Renaming { names, keys })
    }
}

// Adds the name of the key at this place of a table, and its number.
fn add_name(
    names: &mut KeyTable,
    keys: &mut Vec<u16>,
    table: &KeyTable,
    place: usize,
    level: Level,
) -> Result<(), AllocError>
    requires within { place < length table.now.names }
    requires room { names.old.room ≡ MAX_KEYS }
    requires few { length names.old.names ≤ place }
    requires small { place < MAX_KEYS }
    ensures names { OnOk result (names.new.names ≡ with_name names.old.names (name_by level (name_at table.now.names place))) }
    ensures numbers { OnOk result (keys.new.items
        ≡ keys.old.items ++ place_of names.old.names (name_by level (name_at table.now.names place)) ∷ []) }
    ensures room { names.new.room ≡ names.old.room }
{
    let Some((name, sub)) = table.name_at(place) else {
        unreachable!();
    };
    match names.number_name(level.text_of(name), sub) {
        Ok(key) => {
            keys.push(key.get())?;
            Ok(())
        }
        Err(KeyFault::Full) => unreachable!(),
        Err(_) => Err(AllocError),
    }
}
