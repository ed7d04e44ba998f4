//! The table that numbers lock keys.

ghost use Rattle.std.specs.Prelude.{◌≡◌, ◌≤◌, ◌<◌, ◌↔◌, [], IsOk, IsOkAnd, IfOk, IfErr, OnErr, IsErrOf, IfSome, OnOk, length, slice_get, take, option_map, true, false, ◌⊎◌};
ghost use Rattle.ld_trace.specs.Names.{AreNumbered, is_class_name, is_known, is_name, is_one_too_many, is_same, place_of, with_name};
ghost use Rattle.ld_trace.specs.Inside.KnownLines.{ReadsOn};
ghost use Rattle.ld_trace.specs.Inside.Stored.{name_of, names_of};
ghost use Rattle.ld_trace.specs.Inside.Written.{IsBetween};
ghost use Rattle.csv.specs.Writing.{writer_pending};
ghost use Rattle.ld_trace.specs.declared.raw_trace.TheConstants.{MAX_EVENTS};
ghost use Rattle.std.specs.List.{IsDistinct};

use crate::known_lines::{Lines, append_event};
use crate::stored_name::{StoredName, is_class_name};
use crate::version::Version;
use crate::{Event, GRAPH_KEYS, KeyFault, KeyId, MAX_KEYS, MAX_NAME};
use csv::Writer;
use indexmap::IndexSet;
use std::alloc::{AllocError, Global};
use std::marker::Model;
use std::mem;

/// The greatest subclass.
pub const MAX_SUB: u8 = 7;

/// The names of the lock keys, numbered 0, 1, and so on in order of first sight.
///
/// A name is that of a lock class, 1 to 64 bytes of 0x21 to 0x7E, together with a subclass, 0 to 7. A table holds none twice,
/// and at most as many as it was made for: 256, or another number up to 8,192.
#[derive(Drop)]
pub struct KeyTable {
    names: IndexSet<StoredName>,
    // The most names that it takes.
    room: u16,
    // Lines of traces whose keys it has.
    lines: Lines,
    // Room for the bytes of a trace, kept from one to the next.
    block: Vec<u8>,
}

impl Model for KeyTable {
    ghost use Rattle.ld_trace.specs.Names.{AreNumbered, Table};
    ghost use Rattle.ld_trace.specs.Inside.KnownLines.{IsKnownLine};
    ghost use Rattle.ld_trace.specs.Inside.Stored.{names_of};
    ghost use Rattle.std.specs.Prelude.{All};

    ghost Value = { Table };

    ghost view = { λ t. record { room = t.room; names = names_of t.names } };

    ghost invariant = { λ t. AreNumbered (record { room = t.room; names = names_of t.names }) × All (IsKnownLine (names_of t.names)) t.lines.known.items };
}

impl KeyTable {
    /// A table without names, with room for 256 of them. It takes no memory yet; K4 is the only refusal that its type leaves
    /// room for.
    pub fn new(alloc: Global) -> Result<KeyTable, KeyFault>
        ensures { IsOkAnd result (λ table. (table.room ≡ GRAPH_KEYS) × (table.names ≡ [])) }
    {
        KeyTable::with_room(alloc, GRAPH_KEYS)
    }

    /// A table without names, with room for `room` of them, at most `MAX_KEYS`. It takes no memory yet; K4 is the only refusal
    /// that its type leaves room for.
    pub fn with_room(alloc: Global, room: u16) -> Result<KeyTable, KeyFault>
        requires { room ≤ MAX_KEYS }
        ensures { IsOkAnd result (λ table. (table.room ≡ room) × (table.names ≡ [])) }
    {
        Ok(KeyTable {
            names: IndexSet::new(alloc),
            room,
            lines: Lines::new(alloc),
            block: Vec::new(alloc),
        })
    }

    /// How many keys have numbers, at most as many as there is room for.
    pub fn len(&self) -> usize
        ensures count { result ≡ length self.now.names }
        ensures numbered { AreNumbered self.now }
    {
        self.names.len()
    }

    /// The number of the key of this class's name and subclass: the one that it has, or else the next one.
    ///
    /// Refusals, in this order: K1 if the name isn't 1 to 64 bytes of 0x21 to 0x7E, K2 if the subclass is above 7,
    /// K3 if the key would be one more than there is room for (of a table of `new`, the 257th), K4 if memory for a new
    /// key was refused. After a refusal the table is unchanged. The number of a key that is there is returned without
    /// taking memory.
    pub fn number(&mut self, name: &str, sub: u8) -> Result<KeyId, KeyFault>
        ensures value { IfOk result (λ key. key ≡ place_of self.old.names (name.now, sub)) }
        ensures names { IfOk result (λ _. self.new.names ≡ with_name self.old.names (name.now, sub)) }
        ensures room { self.new.room ≡ self.old.room }

        ensures bad_name { IsErrOf result KeyFault.BadName ↔ (is_class_name name.now ≡ false) }
        ensures bad_sub { IsErrOf result KeyFault.BadSub ↔ ((is_class_name name.now ≡ true)
            × (MAX_SUB < sub)) }
        ensures full { IsErrOf result KeyFault.Full ↔ ((is_name (name.now, sub) ≡ true)
            × (is_one_too_many self.old.room self.old.names (name.now, sub) ≡ true)) }
        ensures known { is_name (name.now, sub) ≡ true
            → is_known self.old.names (name.now, sub) ≡ true → IsOk result }

        ensures refused { OnErr result (self.new ≡ self.old) }
    {
        if !is_class_name(name.as_bytes()) {
            return Err(KeyFault::BadName);
        }
        if sub > MAX_SUB {
            return Err(KeyFault::BadSub);
        }
        self.number_name(name, sub)
    }

    // The same for a name and a subclass that were looked at before, so only K3 and K4 are returned.
    pub(crate) fn number_name(&mut self, name: &str, sub: u8) -> Result<KeyId, KeyFault>
        requires { is_name (name.now, sub) ≡ true }
        ensures value { IfOk result (λ key. key ≡ place_of self.old.names (name.now, sub)) }
        ensures names { IfOk result (λ _. self.new.names ≡ with_name self.old.names (name.now, sub)) }
        ensures room { self.new.room ≡ self.old.room }
        ensures full { IsErrOf result KeyFault.Full
            ↔ (is_one_too_many self.old.room self.old.names (name.now, sub) ≡ true) }
        ensures known { is_known self.old.names (name.now, sub) ≡ true → IsOk result }
        ensures either { IfErr result (λ fault. (fault ≡ KeyFault.Full)
            ⊎ (fault ≡ KeyFault.Memory)) }
        ensures refused { OnErr result (self.new ≡ self.old) }
    {
        let place = place_among(&mut self.names, self.room, StoredName::new(name, sub))?;
        Ok(KeyId::from_place(place))
    }

    // The class's name and the subclass at this place. None exactly if there is none.
    pub(crate) fn name_at(&self, place: usize) -> Option<(&str, u8)>
        ensures value { option_map (λ name. (name.0.now, name.1)) result ≡ slice_get self.now.names place }
        ensures named { IfSome result (λ name. is_name (name.0.now, name.1) ≡ true) }
    {
        let name = self.names.get_index(place)?;
        Some((name.text.as_str(), name.sub))
    }

    // Does nothing. Its clause is what a table keeps, for proofs outside of this file.
    pub(crate) fn keeps_its_rule(&self)
        ensures numbered { AreNumbered self.now }
    {
        let _names = &self.names;
    }

    // Learns the line of an event, if the table has its key and there is room for it. The writer is for texts of events.
    pub(crate) fn learn(
        &mut self,
        rows: &mut Writer<Vec<u8>>,
        event: Event,
    ) -> Result<(), AllocError>
        requires between { IsBetween rows.old }
        requires out { writer_pending rows.old ≡ [] }
        ensures same { self.new ≡ self.old }
        ensures between { OnOk result (IsBetween rows.new) }
        ensures out { OnOk result (writer_pending rows.new ≡ []) }
    {
        if event.key_is_below(self.len() as u16) {
            let at = append_event(rows, self, event)?;
            self.lines.learn(&rows.get_ref().as_slice()[at..], event);
        }
        Ok(())
    }

    // Whether it knows a line of this hash.
    pub(crate) fn knows(&self, hash: u64) -> bool {
        self.lines.knows(hash)
    }

    // Takes lines that it knows from the front of the bytes as events, and returns how many bytes these have. Its first `seen` names are
    // those of the trace so far; a line may need the next one, and is not taken if it needs a later one.
    pub(crate) fn take_known(
        &self,
        version: Version,
        bytes: &[u8],
        seen: &mut u16,
        events: &mut Vec<Event>,
    ) -> usize
        requires seen { seen.old ≤ length self.now.names }
        requires few { length events.old.items ≤ MAX_EVENTS }
        ensures few { length events.new.items ≤ MAX_EVENTS }
        ensures within { result ≤ length bytes.now }
        ensures seen { (seen.old ≤ seen.new) × (seen.new ≤ length self.now.names) }
        ensures on { ReadsOn version self.now.room (take seen.old self.now.names) (take seen.new self.now.names) events.old.items events.new.items
            (take result bytes.now) }
    {
        self.lines.take(version, bytes, seen, events)
    }

    // Lends its room for the bytes of a trace, without any.
    pub(crate) fn lend_block(&mut self, alloc: Global) -> Vec<u8>
        ensures none { result.items ≡ [] }
        ensures same { self.new ≡ self.old }
    {
        let mut block = mem::replace(&mut self.block, Vec::new(alloc));
        block.clear();
        block
    }

    // Gets it back.
    pub(crate) fn keep_block(&mut self, block: Vec<u8>)
        ensures { self.new ≡ self.old }
    {
        self.block = block;
    }

    // Removes the names from this place on.
    pub(crate) fn forget_from(&mut self, place: usize)
        ensures names { self.new.names ≡ take place self.old.names }
        ensures room { self.new.room ≡ self.old.room }
    {
        if place < self.names.len() {
            self.names.truncate(place);
            self.lines.clear();
        }
    }

    /// The class's name and the subclass of the key of this number. None exactly if no key has it.
    pub fn name_of(&self, id: KeyId) -> Option<(&str, u8)>
        ensures value { option_map (λ name. (name.0.now, name.1)) result ≡ slice_get self.now.names id }
        ensures short { IfSome result (λ name. length name.0.now ≤ MAX_NAME) }
        ensures digit { IfSome result (λ name. name.1 ≤ MAX_SUB) }
    {
        let name = self.names.get_index(id.get() as usize)?;
        Some((name.text.as_str(), name.sub))
    }
}

// The place of a name among those of a table with this room, in which a new one goes last.
fn place_among(
    names: &mut IndexSet<StoredName>,
    room: u16,
    name: StoredName,
) -> Result<usize, KeyFault>
    requires { length names.old.keys ≤ room }
    ensures value { IfOk result (λ place. place ≡ place_of (names_of names.old) (name_of name)) }
    ensures within { IfOk result (λ place. place < room) }
    ensures names { IfOk result
        (λ _. names_of names.new ≡ with_name (names_of names.old) (name_of name)) }
    ensures few { length names.new.keys ≤ room }
    ensures full { IsErrOf result KeyFault.Full
        ↔ (is_one_too_many room (names_of names.old) (name_of name) ≡ true) }
    ensures known { is_known (names_of names.old) (name_of name) ≡ true → IsOk result }
    ensures either { IfErr result (λ fault. (fault ≡ KeyFault.Full) ⊎ (fault ≡ KeyFault.Memory)) }
    ensures refused { OnErr result (names_of names.new ≡ names_of names.old) }
    ensures unique { IsDistinct is_same (names_of names.new) }
{
    if names.len() >= room as usize {
        return match names.get_index_of(&name) {
            Some(place) => Ok(place),
            None => Err(KeyFault::Full),
        };
    }
    match names.insert_full(name) {
        Ok((place, _)) => Ok(place),
        Err(_) => Err(KeyFault::Memory),
    }
}
