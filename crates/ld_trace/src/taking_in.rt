//! Taking in a trace that was read over a table of its own.

ghost use Rattle.std.specs.Prelude.{◌≡◌, ◌≤◌, ◌<◌, ◌∷◌, ◌++◌, ◌⊎◌, ℕ, [], true, List, length, take, IfOk, IfErr, OnOk, OnErr};
ghost use Rattle.ld_trace.specs.Events.{KeysBelow};
ghost use Rattle.ld_trace.specs.Names.{Name, is_one_too_many, place_of, with_name};
ghost use Rattle.ld_trace.specs.Reading.{ReadsTo};
ghost use Rattle.ld_trace.specs.TakingIn.{Leads, all_moved, with_all};
ghost use Rattle.ld_trace.specs.Writing.{name_at};

use crate::{KeyFault, KeyId, KeyTable, RawTrace};
use std::alloc::Global;
use std::marker::Model;

/// The numbers that the keys of the first names of one table have in another, in the order of those names.
///
/// It is for one pair of tables, and grows with what the second takes in of the first.
#[derive(Drop)]
pub struct Renumbering {
    numbers: Vec<KeyId>,
}

impl Model for Renumbering {
    ghost use Rattle.std.specs.Prelude.{ℕ, List};

    ghost Value = { List ℕ };

    ghost view = { λ r. r.numbers.items };
}

impl Renumbering {
    /// A renumbering of no names.
    pub fn new(alloc: Global) -> Renumbering
        ensures { result ≡ [] }
    {
        Renumbering {
            numbers: Vec::new(alloc),
        }
    }

    /// How many of the names have been taken in.
    pub fn len(&self) -> usize
        ensures { result ≡ length self.now }
    {
        self.numbers.len()
    }
}

impl KeyTable {
    /// Takes in a trace that was read over the table `own`, which had `count` names after it: first those of the names that aren't
    /// taken in yet, then the events, each with the number that its key's name has here.
    ///
    /// K3 if the names that are new here are more than there is room for, K4 if memory runs out; then nothing is changed, and the
    /// trace is dropped. That the renumbering is of these two tables is the caller's condition.
    pub fn take_in(
        &mut self,
        own: &KeyTable,
        count: usize,
        by: &mut Renumbering,
        trace: RawTrace,
    ) -> Result<RawTrace, KeyFault>
        requires leads { Leads own.now.names by.old self.old.names }
        requires more { length by.old ≤ count }
        requires few { count ≤ length own.now.names }
        requires below { KeysBelow count trace }
        ensures names { OnOk result (self.new.names ≡ with_all self.old.names (take count own.now.names)) }
        ensures events { IfOk result (λ taken. taken ≡ all_moved (take count own.now.names) self.new.names trace) }
        ensures count { OnOk result (length by.new ≡ count) }
        ensures leads { Leads own.now.names by.new self.new.names }
        ensures room { self.new.room ≡ self.old.room }
        ensures kept { (added : List Name) × (self.new.names ≡ self.old.names ++ added) }
        ensures either { IfErr result (λ fault. ((fault ≡ KeyFault.Full) × (self.old.room < length (with_all self.old.names (take count own.now.names))))
            ⊎ (fault ≡ KeyFault.Memory)) }
        ensures refused { OnErr result ((self.new ≡ self.old) × (by.new ≡ by.old)) }

        // So it is as if the trace had been read over this table.
        ensures reads { IfOk result (λ taken. (any : ℕ) (bytes : List ℕ)
            → ReadsTo any (take (length by.old) own.now.names) bytes (take count own.now.names) trace
            → ReadsTo self.old.room self.old.names bytes self.new.names taken) }
        ensures below { IfOk result (KeysBelow (length self.new.names)) }
    {
        let (before, known) = (self.len(), by.len());
        match take_in_names(self, own, count, by) {
            Ok(()) => {
                self.keeps_its_rule();
                Ok(trace.renumbered(by.numbers.as_slice()))
            }
            Err(fault) => {
                self.forget_from(before);
                by.numbers.truncate(known);
                Err(fault)
            }
        }
    }
}

// Takes in the names of a table up to this number. After a refusal some of them may have been taken in.
fn take_in_names(
    keys: &mut KeyTable,
    own: &KeyTable,
    count: usize,
    by: &mut Renumbering,
) -> Result<(), KeyFault>
    requires leads { Leads own.now.names by.old keys.old.names }
    requires few { count ≤ length own.now.names }
    requires more { length by.old ≤ count }
    ensures names { OnOk result (keys.new.names ≡ with_all keys.old.names (take count own.now.names)) }
    ensures count { OnOk result (length by.new ≡ count) }
    ensures leads { Leads own.now.names by.new keys.new.names }
    ensures kept { (added : List Name) × (keys.new.names ≡ keys.old.names ++ added) }
    ensures kept_numbers { (added : List ℕ) × (by.new ≡ by.old ++ added) }
    ensures room { keys.new.room ≡ keys.old.room }
    ensures either { IfErr result (λ fault. ((fault ≡ KeyFault.Full) × (keys.old.room < length (with_all keys.old.names (take count own.now.names))))
        ⊎ (fault ≡ KeyFault.Memory)) }
{
    for place in by.len()..count {
        take_in_name(keys, own, place, by)?;
    }
    Ok(())
}

// Takes in the name at this place of a table.
fn take_in_name(
    keys: &mut KeyTable,
    own: &KeyTable,
    place: usize,
    by: &mut Renumbering,
) -> Result<(), KeyFault>
    requires within { place < length own.now.names }
    ensures names { OnOk result (keys.new.names ≡ with_name keys.old.names (name_at own.now.names place)) }
    ensures numbers { OnOk result (by.new ≡ by.old ++ place_of keys.old.names (name_at own.now.names place) ∷ []) }
    ensures room { keys.new.room ≡ keys.old.room }
    ensures either { IfErr result (λ fault. ((fault ≡ KeyFault.Full)
        × (is_one_too_many keys.old.room keys.old.names (name_at own.now.names place) ≡ true)) ⊎ (fault ≡ KeyFault.Memory)) }
    ensures refused { OnErr result ((keys.new ≡ keys.old) × (by.new ≡ by.old)) }
{
    let Some((class, sub)) = own.name_at(place) else {
        unreachable!();
    };
    if by.numbers.reserve(1).is_err() {
        return Err(KeyFault::Memory);
    }
    let key = keys.number_name(class, sub)?;
    by.numbers.push_reserved(key);
    Ok(())
}
