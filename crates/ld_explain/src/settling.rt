//! What is settled about traces at each level of what their locks are called.

ghost use Rattle.std.specs.Prelude.{◌<◌, ◌↔◌, ◌≡◌, ◌≤◌, All, Contains, Err, IfOk, IfSome, IsFalse, IsNone, IsTrue, List, Ok, if◌then◌else◌, length, slice_index};
ghost use Rattle.ld_explain.specs.Names.{AreSame, Event, GRAPH_KEYS, HasFact, Image, IsClean, IsWellFormed, MAX_KEYS, MAX_TRACES, TooTangled, TracesHave, is_rest, name_at};
ghost use Rattle.ld_explain.specs.Clauses.{AreLevels, AreSureNumbers, AreTypes, AreVerdictsAt, AreWhereabouts, Borrows, IsSure, NoCircleIsLost, no_key};

use crate::whereabouts::whereabouts_of;
use crate::{
    Levels, Naming, Tried, Verdict, Whereabouts, circles_of_locks_are_seen,
    own_names_change_nothing, verdicts_of,
};
use ld_facts::Facts;
use ld_parts::{PartedGraph, PartingFault, Settled};
use ld_trace::{KeyId, KeyTable, Level, RawTrace, Renaming, is_rest};
use std::alloc::{AllocError, Global};
use std::marker::Model;

/// What is settled between the types of the locks of some traces, and what these are called.
#[derive(Drop)]
pub struct SettledTypes {
    settled: Settled,
    by_type: Renaming,
}

impl Model for SettledTypes {
    ghost use Rattle.ld_explain.specs.Settling.{TypeParts};

    ghost Value = { TypeParts };

    ghost view = { λ s. record {
      types = s.settled;
      type_of = s.by_type.keys.items;
      type_names = s.by_type.names.names;
    } };
}

impl SettledTypes {
    /// Settles these facts of traces by the types of their locks. It fails if more than 256 types lead to one another, or if memory
    /// is refused.
    pub fn of(alloc: Global, facts: Facts, by_type: Renaming) -> Result<SettledTypes, PartingFault>
        ensures value { IfOk result (λ s. s ≡ record { types = facts; type_of = by_type.keys.items; type_names = by_type.names.names }) }
        ensures tangled { result ≡ Err TooTangled → GRAPH_KEYS < facts.keys }
    {
        let settled = settled(alloc, facts)?;
        Ok(SettledTypes { settled, by_type })
    }

    /// Whether nothing was found between the types.
    pub fn is_clean(&self) -> bool
        ensures { IsTrue result ↔ IsClean (HasFact self.now.types) }
    {
        self.settled.is_clean()
    }

    fn settled(&self) -> &Settled
        ensures { result.now ≡ self.now.types }
    {
        &self.settled
    }

    fn type_of(&self) -> &[u16]
        ensures { result.now ≡ self.now.type_of }
    {
        &self.by_type.keys
    }

    fn type_names(&self) -> &KeyTable
        ensures { result.now.names ≡ self.now.type_names }
    {
        &self.by_type.names
    }
}

/// What is settled about some traces at each level, and what their locks are called there.
#[derive(Drop)]
pub struct SettledLevels {
    locks: Option<Settled>,
    // Only if some name stands for several locks; otherwise the facts are those of `locks`.
    sure: Option<Settled>,
    has_several: bool,
    // Only if some class isn't a type; otherwise the facts are those of `types`.
    classes: Option<Settled>,
    has_places: bool,
    types: SettledTypes,
    by_class: Renaming,
}

impl Model for SettledLevels {
    ghost use Rattle.std.specs.Prelude.{Some, if◌then◌else◌};
    ghost use Rattle.ld_explain.specs.Settling.{LevelParts};

    ghost Value = { LevelParts };

    ghost view = { λ s. record {
      locks = s.locks;
      sure = if s.has_several then s.sure else s.locks;
      classes = if s.has_places then s.classes else Some s.types.types;
      types = s.types.types;
      class_of = s.by_class.keys.items;
      type_of = s.types.type_of;
      type_names = s.types.type_names;
    } };
}

impl SettledLevels {
    /// Those of types alone, between which nothing was found: nothing will be asked of the other levels, and they are left open. It
    /// fails only if memory is refused.
    pub fn of_clean_types(
        alloc: Global,
        types: SettledTypes,
        names: &KeyTable,
    ) -> Result<SettledLevels, AllocError>
        requires { IsClean (HasFact types.types) }
        ensures { (traces : List (List Event)) → AreTypes traces names.now.names types → IfOk result (AreLevels traces names.now.names) }
    {
        let by_class = Renaming::of(alloc, names, Level::Classes)?;
        Ok(SettledLevels {
            locks: None,
            sure: None,
            has_several: true,
            classes: None,
            has_places: true,
            types,
            by_class,
        })
    }

    /// Those of types, and of these facts of the same traces at each other level of the names of their keys. A level at which more
    /// than 256 keys lead to one another is left open. It fails only if memory is refused.
    pub fn of(
        alloc: Global,
        types: SettledTypes,
        facts: Facts,
        names: &KeyTable,
    ) -> Result<SettledLevels, AllocError>
        requires { facts.keys ≡ length names.now.names }
        ensures { (traces : List (List Event)) → AreTypes traces names.now.names types → AreSame (HasFact facts) (TracesHave traces)
            → IfOk result (AreLevels traces names.now.names) }
    {
        ld_facts::renamed_facts_are_the_image();
        let by_class = Renaming::of(alloc, names, Level::Classes)?;
        let singles = single_keys(alloc, names)?;
        let has_several = has_several(&singles);
        let has_places = differ(&by_class.keys, types.type_of());
        let classes = classes_unless_types(alloc, &facts, &by_class, has_places)?;
        let sure = sure_unless_all(alloc, &facts, names, &singles, has_several)?;
        let locks = unless_tangled(settled(alloc, facts))?;
        Ok(SettledLevels {
            locks,
            sure,
            has_several,
            classes,
            has_places,
            types,
            by_class,
        })
    }

    /// The levels, to be asked.
    pub fn levels(&self) -> Levels<'_>
        ensures { Borrows result self.now }
    {
        Levels {
            locks: self.locks.as_ref(),
            sure: if self.has_several {
                self.sure.as_ref()
            } else {
                self.locks.as_ref()
            },
            classes: if self.has_places {
                self.classes.as_ref()
            } else {
                Some(self.types.settled())
            },
            types: self.types.settled(),
            class_of: &self.by_class.keys,
            type_of: self.types.type_of(),
        }
    }

    /// What was found in the traces, at most 4,096, between the types of their locks, among `type_keys` and in their order, each with
    /// what it was seen between among `lock_keys`; see `verdicts_of`. No circle of single locks is lost. It fails only if memory is
    /// refused.
    pub fn verdicts(
        &self,
        alloc: Global,
        traces: &[RawTrace],
        names: &KeyTable,
        type_keys: &[KeyId],
        lock_keys: &[KeyId],
    ) -> Result<Vec<Verdict>, AllocError>
        requires few { length traces.now ≤ MAX_TRACES }
        requires well_formed { All IsWellFormed traces.now }
        requires levels { AreLevels traces.now names.now.names self.now }
        ensures are { IfOk result (λ verdicts. AreVerdictsAt traces.now self.now type_keys.now lock_keys.now verdicts.items) }
        ensures kept { IfOk result (λ verdicts. NoCircleIsLost traces.now names.now.names (slice_index self.now.type_of)
            type_keys.now verdicts.items) }
    {
        own_names_change_nothing();
        circles_of_locks_are_seen();
        verdicts_of(alloc, &self.levels(), traces, type_keys, lock_keys)
    }

    /// In which of the traces, at most 4,096, the dependencies of these verdicts of theirs are, and what the traces hold at their end.
    /// It fails only if memory is refused.
    pub fn whereabouts(
        &self,
        alloc: Global,
        traces: &[RawTrace],
        verdicts: &[Verdict],
    ) -> Result<Whereabouts, AllocError>
        requires few { length traces.now ≤ MAX_TRACES }
        requires well_formed { All IsWellFormed traces.now }
        ensures { IfOk result (AreWhereabouts traces.now (slice_index self.now.type_of) verdicts.now) }
    {
        let types = Naming::Renamed(self.types.type_of());
        whereabouts_of(alloc, traces, types, verdicts)
    }

    /// The names of the types.
    pub fn type_names(&self) -> &KeyTable
        ensures { result.now.names ≡ self.now.type_names }
    {
        self.types.type_names()
    }
}

fn settled(alloc: Global, facts: Facts) -> Result<Settled, PartingFault>
    ensures value { IfOk result (λ settled. settled ≡ facts) }
    ensures tangled { result ≡ Err TooTangled → GRAPH_KEYS < facts.keys }
{
    Ok(Settled::by_rank(PartedGraph::new(alloc, facts)?))
}

// The facts by what their keys are called at a level, with graphs.
fn settled_by(alloc: Global, facts: &Facts, by: &Renaming) -> Result<Settled, PartingFault>
    requires all { facts.now.keys ≡ length by.now.keys.items }
    requires below { All (λ key. key < length by.now.names.names) by.now.keys.items }
    ensures exact { IfOk result (λ s. AreSame (HasFact s) (Image (slice_index by.now.keys.items) (HasFact facts.now))) }
    ensures tangled { result ≡ Err TooTangled → GRAPH_KEYS < length by.now.names.names }
{
    let renamed = facts.renamed(alloc, by.names.len() as u16, &by.keys)?;
    settled(alloc, renamed)
}

// What is settled, or None where too many keys lead to one another.
fn unless_tangled(tried: Result<Settled, PartingFault>) -> Tried<Option<Settled>>
    ensures some { IfOk result (λ s. IfSome s (λ facts. tried ≡ Ok facts)) }
    ensures none { IfOk result (λ s. IsNone s → tried ≡ Err TooTangled) }
{
    match tried {
        Ok(settled) => Ok(Some(settled)),
        Err(PartingFault::TooTangled) => Ok(None),
        Err(PartingFault::Memory) => Err(AllocError),
    }
}

fn differ(a: &[u16], b: &[u16]) -> bool
    ensures { IsFalse result ↔ (a.now ≡ b.now) }
{
    a != b
}

// What is settled between classes, if some class isn't a type.
fn classes_unless_types(
    alloc: Global,
    facts: &Facts,
    by_class: &Renaming,
    has_places: bool,
) -> Tried<Option<Settled>>
    requires all { facts.now.keys ≡ length by_class.now.keys.items }
    requires below { All (λ key. key < length by_class.now.names.names) by_class.now.keys.items }
    ensures exact { IfOk result (λ s. IfSome s (λ settled.
        AreSame (HasFact settled) (Image (slice_index by_class.now.keys.items) (HasFact facts.now)))) }
    ensures open { IfOk result (λ s. IsNone s → IsTrue has_places → GRAPH_KEYS < length by_class.now.names.names) }
{
    if !has_places {
        return Ok(None);
    }
    unless_tangled(settled_by(alloc, facts, by_class))
}

// What is settled between single locks for sure, if some name stands for several.
fn sure_unless_all(
    alloc: Global,
    facts: &Facts,
    names: &KeyTable,
    singles: &[u16],
    has_several: bool,
) -> Tried<Option<Settled>>
    requires { AreSureNumbers names.now.names facts.now.keys singles.now }
    ensures exact { IfOk result (λ s. IfSome s (λ sure. AreSame (HasFact sure) (λ x. HasFact facts.now x × IsSure names.now.names x))) }
    ensures open { IfOk result (λ s. IsNone s → IsTrue has_several → GRAPH_KEYS < facts.now.keys) }
{
    if !has_several {
        return Ok(None);
    }
    let sure = sure_facts(alloc, facts, names, singles)?;
    unless_tangled(settled(alloc, sure))
}

// Whether a key has none of its own in the list.
fn has_several(singles: &[u16]) -> bool
    ensures { IsTrue result ↔ Contains singles.now no_key }
{
    singles.contains(&SEVERAL)
}

// The facts without those about names that stand for several locks, which have no key of their own in the list.
fn sure_facts(alloc: Global, facts: &Facts, names: &KeyTable, singles: &[u16]) -> Tried<Facts>
    requires { AreSureNumbers names.now.names facts.now.keys singles.now }
    ensures keys { IfOk result (λ sure. sure.keys ≡ facts.now.keys) }
    ensures exact { IfOk result (λ sure. AreSame (HasFact sure) (λ x. HasFact facts.now x × IsSure names.now.names x)) }
{
    facts.renamed(alloc, facts.keys(), singles)
}

// Stands for the key of each name that stands for several locks.
const SEVERAL: u16 = u16::MAX;

// Each key of the table, but `SEVERAL` for one that stands for several locks.
fn single_keys(alloc: Global, names: &KeyTable) -> Tried<Vec<u16>>
    ensures { IfOk result (λ keys. AreSureNumbers names.now.names (length names.now.names) keys.items) }
{
    let mut keys = Vec::new(alloc);
    for number in 0..names.len() {
        if let Some(key) = KeyId::of_many(number as u16) {
            keys.push(single_key(names, key))?;
        }
    }
    Ok(keys)
}

// The key's number, or `SEVERAL` if it stands for several locks.
fn single_key(names: &KeyTable, key: KeyId) -> u16
    ensures { result ≡ (if is_rest (name_at names.now.names key).0 then no_key else key) }
{
    let (name, _) = names.name_of(key).unwrap_or(("", 0));
    if is_rest(name) { SEVERAL } else { key.get() }
}
