//! The tables that number names and messages, in the order of their first appearance.

ghost use Rattle.std.specs.Prelude.{◌≡◌, ◌≤◌, ◌<◌, [], IfErr, IfOk, OnOk, length, option_map, slice_get, true, false};
ghost use Rattle.ld_schedule.specs.Names.{is_known, is_name, is_one_too_many, place_of, with_name};
ghost use Rattle.ld_schedule.specs.Inside.Stored.{names_of};
ghost use Rattle.ld_schedule.specs.Numbers.{is_message_too_many, place_of_message, with_known_message};
ghost use Rattle.ld_schedule.specs.ReadFaults.{is_of_text};

use crate::limits::{MAX_NAME, MAX_RECORDS};
use crate::read_fault::ReadFaultKind;
use arrayvec::ArrayString;
use indexmap::IndexSet;
use std::alloc::Global;
use std::marker::Model;

// A name, stored in place, without memory of its own.
#[derive(Clone, Copy, PartialEq, Eq, Hash, Debug)]
pub(crate) struct StoredName {
    pub(crate) text: ArrayString<MAX_NAME>,
}

impl StoredName {
    // Keeps a name of at most 64 bytes.
    fn new(text: &str) -> StoredName
        requires { length text.now ≤ MAX_NAME }
        ensures { result.text.bytes ≡ text.now }
    {
        let mut kept = ArrayString::new();
        kept.push_str(text);
        StoredName { text: kept }
    }
}

/// Names, each with its place as its number.
#[derive(Drop)]
pub struct NameTable {
    names: IndexSet<StoredName>,
}

impl Model for NameTable {
    ghost use Rattle.std.specs.Prelude.{List, length, ◌≤◌};
    ghost use Rattle.ld_schedule.specs.Names.{Text};
    ghost use Rattle.ld_schedule.specs.Inside.Stored.{names_of};
    ghost use Rattle.ld_schedule.specs.declared.limits.TheConstants.{MAX_RECORDS};

    ghost Value = { List Text };

    ghost view = { λ t. names_of t.names };

    ghost invariant = { λ t. length t.names.keys ≤ MAX_RECORDS };
}

impl NameTable {
    // A table without names.
    pub(crate) fn new(alloc: Global) -> NameTable
        ensures { result ≡ [] }
    {
        NameTable {
            names: IndexSet::new(alloc),
        }
    }

    /// How many names it has.
    pub fn len(&self) -> usize
        ensures { result ≡ length self.now }
    {
        self.names.len()
    }

    /// The name with this number. None exactly if there is none.
    pub fn name_of(&self, number: u32) -> Option<&str>
        ensures { option_map (λ name. name.now) result ≡ slice_get self.now number }
    {
        let name = self.names.get_index(number as usize)?;
        Some(name.text.as_str())
    }

    // Whether it has the name.
    pub(crate) fn has(&self, name: &str) -> bool
        requires { is_name name.now ≡ true }
        ensures { result ≡ is_known self.now name.now }
    {
        self.names.contains(&StoredName::new(name))
    }

    // The number of a name: the one that it has, or else the next one. `TooManyNames` if it would be one more than a history may have.
    pub(crate) fn number(&mut self, name: &str) -> Result<u32, ReadFaultKind>
        requires { is_name name.now ≡ true }
        ensures value { IfOk result (λ number. number ≡ place_of self.old name.now) }
        ensures names { OnOk result (self.new ≡ with_name self.old name.now) }
        ensures fits { OnOk result (is_one_too_many self.old name.now ≡ false) }
        ensures over { IfErr result (λ fault. is_of_text fault ≡ true
            → (fault ≡ ReadFaultKind.TooManyNames) × (is_one_too_many self.old name.now ≡ true)) }
    {
        let place = place_among(&mut self.names, StoredName::new(name))?;
        Ok(place as u32)
    }
}

// The place of a name among those of a set, in which a new one goes last.
fn place_among(names: &mut IndexSet<StoredName>, name: StoredName) -> Result<usize, ReadFaultKind>
    requires { length names.old.keys ≤ MAX_RECORDS }
    ensures value { IfOk result (λ place. place ≡ place_of (names_of names.old) name.text.bytes) }
    ensures within { IfOk result (λ place. place < MAX_RECORDS) }
    ensures names { OnOk result (names_of names.new ≡ with_name (names_of names.old) name.text.bytes) }
    ensures few { length names.new.keys ≤ MAX_RECORDS }
    ensures fits { OnOk result (is_one_too_many (names_of names.old) name.text.bytes ≡ false) }
    ensures over { IfErr result (λ fault. is_of_text fault ≡ true
        → (fault ≡ ReadFaultKind.TooManyNames) × (is_one_too_many (names_of names.old) name.text.bytes ≡ true)) }
{
    if names.len() >= MAX_RECORDS {
        return match names.get_index_of(&name) {
            Some(place) => Ok(place),
            None => Err(ReadFaultKind::TooManyNames),
        };
    }
    match names.insert_full(name) {
        Ok((place, _)) => Ok(place),
        Err(_) => Err(ReadFaultKind::Memory),
    }
}

/// Messages, each with its place as its number.
#[derive(Drop)]
pub(crate) struct MessageTable {
    messages: IndexSet<u32>,
}

impl Model for MessageTable {
    ghost use Rattle.std.specs.Prelude.{List, length, ◌≤◌, ℕ};
    ghost use Rattle.ld_schedule.specs.declared.limits.TheConstants.{MAX_RECORDS};

    ghost Value = { List ℕ };

    ghost view = { λ t. t.messages.keys };

    ghost invariant = { λ t. length t.messages.keys ≤ MAX_RECORDS };
}

impl MessageTable {
    // A table without messages.
    pub(crate) fn new(alloc: Global) -> MessageTable
        ensures { result ≡ [] }
    {
        MessageTable {
            messages: IndexSet::new(alloc),
        }
    }

    // The number of a message: the one that it has, or else the next one. `TooManyNames` if it would be one more than a history may have.
    pub(crate) fn number(&mut self, message: u32) -> Result<u32, ReadFaultKind>
        ensures value { IfOk result (λ number. number ≡ place_of_message self.old message) }
        ensures messages { OnOk result (self.new ≡ with_known_message self.old message) }
        ensures fits { OnOk result (is_message_too_many self.old message ≡ false) }
        ensures over { IfErr result (λ fault. is_of_text fault ≡ true
            → (fault ≡ ReadFaultKind.TooManyNames) × (is_message_too_many self.old message ≡ true)) }
    {
        let place = message_place_among(&mut self.messages, message)?;
        Ok(place as u32)
    }
}

// The place of a message among those of a set, in which a new one goes last.
fn message_place_among(messages: &mut IndexSet<u32>, message: u32) -> Result<usize, ReadFaultKind>
    requires { length messages.old.keys ≤ MAX_RECORDS }
    ensures value { IfOk result (λ place. place ≡ place_of_message messages.old.keys message) }
    ensures within { IfOk result (λ place. place < MAX_RECORDS) }
    ensures messages { OnOk result (messages.new.keys ≡ with_known_message messages.old.keys message) }
    ensures few { length messages.new.keys ≤ MAX_RECORDS }
    ensures fits { OnOk result (is_message_too_many messages.old.keys message ≡ false) }
    ensures over { IfErr result (λ fault. is_of_text fault ≡ true
        → (fault ≡ ReadFaultKind.TooManyNames) × (is_message_too_many messages.old.keys message ≡ true)) }
{
    if messages.len() >= MAX_RECORDS {
        return match messages.get_index_of(&message) {
            Some(place) => Ok(place),
            None => Err(ReadFaultKind::TooManyNames),
        };
    }
    match messages.insert_full(message) {
        Ok((place, _)) => Ok(place),
        Err(_) => Err(ReadFaultKind::Memory),
    }
}
