//! Traces as they were read.

ghost use Rattle.std.specs.Prelude.{◌≡◌, ◌+◌, ◌≤◌, ◌++◌, ◌↔◌, IsTrue, IsFalse, IsSome, IfSome, length, map, slice_get, sum_by};
ghost use Rattle.ld_trace.specs.Events.{KeysBelow, has_try};
ghost use Rattle.ld_trace.specs.Inside.Renumbered.{event_with};

use crate::{Event, KeyId};
use std::marker::Model;

/// The most events that a trace may have.
pub const MAX_EVENTS: usize = 1_000_000;

/// The most traces that are taken together.
pub const MAX_TRACES: usize = 4096;

/// One task's events in order, at most 1,000,000 of them, not yet checked against each other.
#[derive(Drop, Debug)]
pub struct RawTrace {
    events: Vec<Event>,
}

impl Model for RawTrace {
    ghost use Rattle.std.specs.Prelude.{List, ◌≤◌, length};
    ghost use Rattle.ld_trace.specs.declared.event.Event.{Event};
    ghost use Rattle.ld_trace.specs.declared.raw_trace.TheConstants.{MAX_EVENTS};

    ghost Value = { List Event };

    ghost view = { λ t. t.events.items };

    ghost invariant = { λ t. length t.events.items ≤ MAX_EVENTS };
}

impl RawTrace {
    /// The trace of these events. None exactly if there are more than 1,000,000, and then they are dropped.
    pub fn from_events(events: Vec<Event>) -> Option<RawTrace>
        ensures exact { IsSome result ↔ (length events.items ≤ MAX_EVENTS) }
        ensures events { IfSome result (λ trace. trace ≡ events.items) }
    {
        if events.len() <= MAX_EVENTS {
            Some(RawTrace::of_few(events))
        } else {
            None
        }
    }

    // The trace of these events, at most 1,000,000 of them.
    pub(crate) fn of_few(events: Vec<Event>) -> RawTrace
        requires { length events.items ≤ MAX_EVENTS }
        ensures { result ≡ events.items }
    {
        RawTrace { events }
    }

    // The events.
    pub(crate) fn into_events(self) -> Vec<Event>
        ensures events { result.items ≡ self }
        ensures few { length result.items ≤ MAX_EVENTS }
    {
        self.events
    }

    /// How many events there are, at most 1,000,000.
    pub fn len(&self) -> usize
        ensures count { result ≡ length self.now }
        ensures most { result ≤ MAX_EVENTS }
    {
        self.events.len()
    }

    /// The events in order.
    pub fn as_slice(&self) -> &[Event]
        ensures { result.now ≡ self.now }
    {
        &self.events
    }

    /// The event at this place, counted from 0. None exactly if the place isn't below the length.
    pub fn event(&self, i: usize) -> Option<Event>
        ensures { result ≡ slice_get self.now i }
    {
        self.events.get(i).copied()
    }

    /// Whether every key of the events is below `n`.
    pub fn keys_below(&self, n: u16) -> bool
        ensures { IsTrue result ↔ KeysBelow n self.now }
    {
        self.events.iter().all(|event| event.key_is_below(n))
    }

    /// Whether one of the events takes a lock by a try, which only version 2 of the format can say.
    pub fn has_try(&self) -> bool
        ensures { result ≡ has_try self.now }
    {
        self.events.iter().any(|event| event.is_try())
    }

    // The trace with other numbers: for each key the one at its place of the list.
    pub(crate) fn renumbered(mut self, numbers: &[KeyId]) -> RawTrace
        requires { KeysBelow (length numbers.now) self }
        ensures { result ≡ map (event_with numbers.now) self }
    {
        renumber(self.events.as_mut_slice(), numbers);
        self
    }
}

/// How many events the traces have together.
pub fn event_count(traces: &[RawTrace]) -> u128
    ensures { result ≡ sum_by length traces.now }
{
    let mut events = 0u128;
    for trace in traces {
        events += trace.len() as u128;
    }
    events
}

// Gives each key of the events the number at its place of the list.
fn renumber(events: &mut [Event], numbers: &[KeyId])
    requires { KeysBelow (length numbers.now) events.old }
    ensures { events.new ≡ map (event_with numbers.now) events.old }
{
    for event in events.iter_mut() {
        *event = event.renumbered(numbers);
    }
}
