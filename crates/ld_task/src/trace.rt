//! Well-formed traces.

ghost use Rattle.std.specs.Prelude.{◌≡◌, ◌≤◌, ◌↔◌, IfErr, IfNone, IfOk, IfSome, IsOk, IsTrue, length, slice_get};
ghost use Rattle.ld_trace.specs.Events.{KeysBelow};
ghost use Rattle.ld_trace.specs.declared.raw_trace.TheConstants.{MAX_EVENTS};
ghost use Rattle.ld_task.specs.WellFormed.{IsFirstFault, IsWellFormed};

use crate::fault::StepAt;
use crate::state::TaskState;
use ld_trace::{Event, RawTrace};
use std::marker::Model;

/// One task's events in order, each allowed after those before it; at most 1,000,000 of them.
#[derive(Drop, Debug)]
pub struct Trace {
    events: RawTrace,
}

impl Model for Trace {
    ghost use Rattle.std.specs.Prelude.{List};
    ghost use Rattle.ld_trace.specs.declared.event.Event.{Event};
    ghost use Rattle.ld_task.specs.WellFormed.{IsWellFormed};

    ghost Value = { List Event };

    ghost view = { λ t. t.events };

    ghost invariant = { λ t. IsWellFormed t.events };
}

impl Trace {
    /// How many events there are, at most 1,000,000.
    pub fn len(&self) -> usize
        ensures count { result ≡ length self.now }
        ensures most { result ≤ MAX_EVENTS }
        ensures well_formed { IsWellFormed self.now }
    {
        self.events.len()
    }

    /// The events in order.
    pub fn as_slice(&self) -> &[Event]
        ensures { result.now ≡ self.now }
    {
        self.events.as_slice()
    }

    /// The event at this place, counted from 0. None exactly if the place isn't below the length.
    pub fn event(&self, i: usize) -> Option<Event>
        ensures { result ≡ slice_get self.now i }
    {
        self.events.event(i)
    }

    /// Whether every key of the events is below `n`.
    pub fn keys_below(&self, n: u16) -> bool
        ensures { IsTrue result ↔ KeysBelow n self.now }
    {
        self.events.keys_below(n)
    }
}

/// The well-formed trace of these events. Succeeds exactly if each event is allowed after those before it; otherwise
/// the first one that isn't is returned, with its fault, and the events are dropped. Takes no memory.
pub fn check(events: RawTrace) -> Result<Trace, StepAt>
    ensures accepts { IsOk result ↔ IsWellFormed events }
    ensures keeps { IfOk result (λ trace. trace ≡ events) }
    ensures refuses { IfErr result (IsFirstFault events) }
{
    match first_fault(&events) {
        Some(found) => Err(found),
        None => Ok(Trace { events }),
    }
}

// The first event that isn't allowed.
fn first_fault(events: &RawTrace) -> Option<StepAt>
    ensures none { IfNone result (IsWellFormed events.now) }
    ensures found { IfSome result (IsFirstFault events.now) }
{
    let mut state = TaskState::new();
    for (place, event) in events.as_slice().iter().enumerate() {
        if let Err(fault) = state.step(*event) {
            return Some(StepAt { fault, place });
        }
    }
    None
}
