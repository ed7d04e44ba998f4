//! Condensing: one trace that has exactly the facts of a run.
//!
//! The trace is made from the facts alone, part by part, and then walked. The walk checks that it has the facts, so no
//! proof depends on how it was made.

ghost use Rattle.std.specs.Prelude.{◌≡◌, ◌≢◌, ◌≤◌, ◌<◌, IfErr, IfOk, IfSome, length};
ghost use Rattle.ld_trace.specs.declared.key_id.TheConstants.{MAX_KEYS};
ghost use Rattle.ld_trace.specs.declared.raw_trace.TheConstants.{MAX_EVENTS};
ghost use Rattle.ld_trace.specs.Events.{KeysBelow};
ghost use Rattle.ld_task.specs.WellFormed.{IsWellFormed};
ghost use Rattle.ld_facts.specs.FactBits.{HasFact, dependency_count};
ghost use Rattle.ld_facts.specs.Facts.{AreSame, TraceHas};
ghost use Rattle.ld_run.specs.Condensing.{IsCondensed, events_enough};

use crate::condense_fault::CondenseFault;
use crate::known_steps::KnownSteps;
use crate::trace_facts::add_trace;
use ld_facts::{Fact, Facts};
use ld_graph::{Kind, Mark};
use ld_parts::Settled;
use ld_trace::{Event, Irq, KeyId, MAX_EVENTS, Mode, RawTrace};
use std::alloc::{AllocError, Global};

// For so many dependencies a trace may have events enough: each is an acquisition and a release at least.
const MOST_DEPENDENCIES: u64 = 500_000;

/// One trace that has exactly the settled facts, made from them alone: the same facts in the same order of keys give
/// the same trace, and condensing the result again gives the result. It has no try, so version 1 of the format can
/// write it, and of 256 keys it has at most about 540,000 events.
///
/// The order has each key that the facts are about, once. Refusals: E2 if memory is refused; E3 if the trace would have
/// more than 1,000,000 events, which never comes of up to 190,000 dependencies; E1 if the trace that was made doesn't
/// have exactly the facts, for example because the order lacks a key. For facts of well-formed traces, in an order that
/// has all keys, no test has met E1; that it can't happen isn't proved.
pub fn condense(
    alloc: Global,
    settled: &Settled,
    order: &[KeyId],
) -> Result<RawTrace, CondenseFault>
    ensures ok { IfOk result (IsCondensed settled.now.keys (HasFact settled.now)) }
    ensures long { IfErr result (λ fault. fault ≡ CondenseFault.TooLong → MAX_EVENTS < events_enough settled.now) }
{
    let wanted = settled.facts();
    let trace = trace_of(alloc, wanted, order)?;
    if trace.has_try() || !trace.keys_below(wanted.keys()) {
        return Err(CondenseFault::Unequal);
    }
    let found = facts_of(alloc, &trace, wanted.keys())?;
    if found.same(wanted) {
        Ok(trace)
    } else {
        Err(CondenseFault::Unequal)
    }
}

// The facts of a trace, if each of its events is allowed.
fn facts_of(alloc: Global, trace: &RawTrace, keys: u16) -> Result<Facts, CondenseFault>
    requires few { keys ≤ MAX_KEYS }
    requires below { KeysBelow keys trace.now }
    ensures keys { IfOk result (λ facts. facts.keys ≡ keys) }
    ensures well_formed { IfOk result (λ _. IsWellFormed trace.now) }
    ensures short { IfErr result (λ fault. fault ≢ CondenseFault.TooLong) }
    ensures facts { IfOk result (λ facts. AreSame (TraceHas trace.now) (HasFact facts)) }
{
    let mut facts = Facts::new(alloc, keys)?;
    match add_trace(&mut facts, trace, None, &mut KnownSteps::none(alloc)) {
        Ok(()) => Ok(facts),
        Err(_) => Err(CondenseFault::Unequal),
    }
}

// The trace of the facts, part after part.
fn trace_of(alloc: Global, facts: &Facts, order: &[KeyId]) -> Result<RawTrace, CondenseFault>
    ensures long { IfErr result (λ fault. fault ≡ CondenseFault.TooLong → MAX_EVENTS < events_enough facts.now) }
{
    if facts.dependencies() > MOST_DEPENDENCIES {
        return Err(CondenseFault::TooLong);
    }
    let mut events = Vec::new(alloc);
    add_parts(alloc, &mut events, facts, order)?;
    match RawTrace::from_events(events) {
        Some(trace) => Ok(trace),
        None => Err(fault_of_long(facts)),
    }
}

// Why there is no trace of so many events, which is never for few facts.
fn fault_of_long(facts: &Facts) -> CondenseFault
    requires few { dependency_count facts.now ≤ 500000 }
    ensures { result ≡ CondenseFault.TooLong → MAX_EVENTS < events_enough facts.now }
{
    let enough = 4 + facts.dependencies() * 4 + u64::from(facts.keys()) * 28;
    if enough > MAX_EVENTS as u64 {
        CondenseFault::TooLong
    } else {
        CondenseFault::Unequal
    }
}

// All parts, each after the flags that it needs.
fn add_parts(
    alloc: Global,
    events: &mut Vec<Event>,
    facts: &Facts,
    order: &[KeyId],
) -> Result<(), AllocError> {
    events.push(Event::TurnOff { irq: Irq::Hard })?;
    add_dependencies(alloc, events, facts, order)?;
    events.push(Event::TurnOn { irq: Irq::Hard })?;
    events.push(Event::TurnOff { irq: Irq::Soft })?;
    add_enabled(events, facts, order, Irq::Hard)?;
    events.push(Event::TurnOn { irq: Irq::Soft })?;
    add_enabled(events, facts, order, Irq::Soft)?;
    add_used_in(events, facts, order, Irq::Hard)?;
    add_used_in(events, facts, order, Irq::Soft)
}

// The keys' dependencies, with hardirqs off, so that an acquisition marks its key as ever used and no more. A key that
// is in none is taken by itself. For this the keys are renamed by their places in the order.
fn add_dependencies(
    alloc: Global,
    events: &mut Vec<Event>,
    facts: &Facts,
    order: &[KeyId],
) -> Result<(), AllocError> {
    let places = places_of(alloc, facts.keys(), order)?;
    let by_place = facts.renamed(alloc, facts.keys(), places.as_slice())?;
    let targets = targets_of(alloc, &by_place)?;
    for place in 0..facts.keys() {
        add_key(events, &by_place, order, place, targets.as_slice())?;
    }
    Ok(())
}

// For each key its place in the order, or the number of keys if it has none.
fn places_of(alloc: Global, keys: u16, order: &[KeyId]) -> Result<Vec<u16>, AllocError>
    ensures { IfOk result (λ places. length places.items ≡ keys) }
{
    let mut places = vec![in alloc; keys; usize::from(keys)]?;
    for place in 0..keys {
        if let Some(key) = order.get(usize::from(place))
            && let Some(own) = places.get_mut(usize::from(key.get()))
        {
            *own = place;
        }
    }
    Ok(places)
}

// For each key whether there is a dependency to it.
fn targets_of(alloc: Global, facts: &Facts) -> Result<Vec<bool>, AllocError> {
    let keys = usize::from(facts.keys());
    let mut targets = vec![in alloc; false; keys]?;
    let mut n = 0;
    while let Some(found) = facts.next_dependency(n) {
        if let Some(is_target) = targets.get_mut(found / 4 % keys) {
            *is_target = true;
        }
        n = found + 1;
    }
    Ok(targets)
}

// The dependencies from the key at this place, or, if it is in none, the key by itself.
fn add_key(
    events: &mut Vec<Event>,
    facts: &Facts,
    order: &[KeyId],
    place: u16,
    targets: &[bool],
) -> Result<(), AllocError> {
    let is_target = targets.get(usize::from(place)) == Some(&true);
    if is_target || facts.leads_on(place) {
        add_dependencies_from(events, facts, order, place, false)?;
        add_dependencies_from(events, facts, order, place, true)
    } else if facts.has_mark(place, Mark::Used) {
        add_use_at(events, order, place, Mode::Write)
    } else {
        Ok(())
    }
}

// The dependencies from a key whose first letter is this one: the key is held while the others are taken.
fn add_dependencies_from(
    events: &mut Vec<Event>,
    facts: &Facts,
    order: &[KeyId],
    from: u16,
    first_is_s: bool,
) -> Result<(), AllocError> {
    let Some(key) = order.get(usize::from(from)) else {
        return Ok(());
    };
    let mode = form(first_is_s);
    let mut is_held = false;
    let mut next = 0;
    while let Some(to) = next_to(facts, from, next) {
        if leads_by(facts, from, to, first_is_s) {
            if !is_held {
                events.push(Event::Acquire { mode, key: *key })?;
                is_held = true;
            }
            add_dependency(events, facts, order, from, to, first_is_s)?;
        }
        next = to + 1;
    }
    if is_held {
        events.push(Event::Release { key: *key })?;
    }
    Ok(())
}

// The first key from `start` on to which there is a dependency from the other one.
fn next_to(facts: &Facts, from: u16, start: u16) -> Option<u16>
    ensures { IfSome result (λ to. (start ≤ to) × (to < facts.now.keys) × (to < MAX_KEYS)) }
{
    let keys = usize::from(facts.keys());
    let first = (usize::from(from) * keys + usize::from(start)) * 4;
    let found = facts.next_dependency(first)?;
    match Fact::of_number(facts.keys(), found) {
        Fact::Dependency {
            from: holder,
            to,
            ..
        } if holder == from => Some(to),
        _ => None,
    }
}

// Whether there is a dependency with this first letter.
fn leads_by(facts: &Facts, from: u16, to: u16, first_is_s: bool) -> bool {
    has_dep(facts, from, to, first_is_s, true) || has_dep(facts, from, to, first_is_s, false)
}

// Whether there is a dependency with these letters.
fn has_dep(facts: &Facts, from: u16, to: u16, first_is_s: bool, second_is_r: bool) -> bool {
    facts.has_dep(from, to, Kind::of_letters(first_is_s, second_is_r))
}

// The second key of dependencies with this first letter is taken in the forms that they have.
fn add_dependency(
    events: &mut Vec<Event>,
    facts: &Facts,
    order: &[KeyId],
    from: u16,
    to: u16,
    first_is_s: bool,
) -> Result<(), AllocError> {
    if has_dep(facts, from, to, first_is_s, true) {
        add_use_at(events, order, to, Mode::RecRead)?;
    }
    if has_dep(facts, from, to, first_is_s, false) {
        add_use_at(events, order, to, Mode::Write)?;
    }
    Ok(())
}

// A mode of this form: by a reader, or by a writer.
fn form(read: bool) -> Mode {
    if read { Mode::RecRead } else { Mode::Write }
}

// The key is taken and released.
fn add_use(events: &mut Vec<Event>, key: KeyId, mode: Mode) -> Result<(), AllocError> {
    events.push(Event::Acquire { mode, key })?;
    events.push(Event::Release { key })?;
    Ok(())
}

// The key at this place is taken and released.
fn add_use_at(
    events: &mut Vec<Event>,
    order: &[KeyId],
    place: u16,
    mode: Mode,
) -> Result<(), AllocError> {
    match order.get(usize::from(place)) {
        Some(key) => add_use(events, *key, mode),
        None => Ok(()),
    }
}

// The keys that were used with the state enabled: write form before read form.
fn add_enabled(
    events: &mut Vec<Event>,
    facts: &Facts,
    order: &[KeyId],
    irq: Irq,
) -> Result<(), AllocError> {
    for key in order {
        if facts.has_mark(key.get(), Mark::Enabled { irq, read: false }) {
            add_use(events, *key, Mode::Write)?;
        }
        if facts.has_mark(key.get(), Mark::Enabled { irq, read: true }) {
            add_use(events, *key, Mode::RecRead)?;
        }
    }
    Ok(())
}

// The keys that were used in the state: write form before read form.
fn add_used_in(
    events: &mut Vec<Event>,
    facts: &Facts,
    order: &[KeyId],
    irq: Irq,
) -> Result<(), AllocError> {
    for key in order {
        if facts.has_mark(key.get(), Mark::UsedIn { irq, read: false }) {
            add_use_in(events, irq, *key, Mode::Write)?;
        }
        if facts.has_mark(key.get(), Mark::UsedIn { irq, read: true }) {
            add_use_in(events, irq, *key, Mode::RecRead)?;
        }
    }
    Ok(())
}

// The key is taken and released in a frame of the state, with hardirqs off.
fn add_use_in(events: &mut Vec<Event>, irq: Irq, key: KeyId, mode: Mode) -> Result<(), AllocError> {
    events.push(Event::Enter { irq })?;
    if irq == Irq::Soft {
        events.push(Event::TurnOff { irq: Irq::Hard })?;
    }
    add_use(events, key, mode)?;
    events.push(Event::Leave)?;
    Ok(())
}
