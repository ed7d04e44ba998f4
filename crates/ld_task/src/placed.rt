//! The state of a task together with the positions of its locks.

ghost use Rattle.std.specs.Prelude.{◌≡◌, ℕ, ◌+◌, ◌<◌, List, length, IsTrue, OnErr, Some, slice_get};
ghost use Rattle.ld_trace.specs.declared.event.Event.{Event};
ghost use Rattle.ld_task.specs.Events.{makes_chain};
ghost use Rattle.ld_task.specs.Placed.{held_positions, IsPlacedAfter, GoesOnPlaced};
ghost use Rattle.ld_task.specs.Inside.Placing.{DoesPlaced};

use crate::chain::Chain;
use crate::fault::StepFault;
use crate::lock::MAX_HELD;
use crate::state::TaskState;
use arrayvec::ArrayVec;
use ld_trace::{Event, KeyId, Mode};
use std::marker::Model;

/// The state of a task between two events, as `TaskState`, and the positions at which the locks that it keeps were
/// taken.
#[derive(Drop, Debug)]
pub struct PlacedState {
    state: TaskState,
    places: ArrayVec<u32, MAX_HELD>,
}

impl Model for PlacedState {
    ghost use Rattle.std.specs.Prelude.{◌≡◌, length};
    ghost use Rattle.ld_task.specs.Placed.{PlacedParts};

    ghost Value = { PlacedParts };

    ghost view = { λ s. record { state = s.state; places = s.places.items } };

    ghost invariant = { λ s. length s.places.items ≡ length s.state.locks };
}

impl PlacedState {
    /// The state before the first event.
    pub fn new() -> PlacedState
        ensures { (t : List Event) → IsPlacedAfter t 0 result }
    {
        PlacedState {
            state: TaskState::new(),
            places: ArrayVec::new(),
        }
    }

    fn acquire(&mut self, place: u32, key: KeyId, mode: Mode) -> Result<Option<Chain>, StepFault>
        ensures { DoesPlaced self.old place (Event.Acquire mode key) self.new result }
    {
        let answer = self.state.acquire(key, mode)?;
        self.places.push(place);
        Ok(answer)
    }

    // Releases the newest lock of the key in this frame.
    fn release(&mut self, place: u32, key: KeyId) -> Result<Option<Chain>, StepFault>
        ensures { DoesPlaced self.old place (Event.Release key) self.new result }
    {
        let gone = self.state.give_back(key)?;
        self.places.remove(gone);
        Ok(None)
    }

    fn advance(&mut self, place: u32, event: Event) -> Result<Option<Chain>, StepFault>
        ensures { DoesPlaced self.old place event self.new result }
    {
        match event {
            Event::Acquire { key, mode } => self.acquire(place, key, mode),
            Event::Release { key } => self.release(place, key),
            Event::Enter { irq } => self.state.enter(irq),
            Event::Leave => self.state.leave(),
            Event::TurnOn { irq } => self.state.turn_on(irq),
            Event::TurnOff { irq } => self.state.turn_off(irq),
        }
    }

    /// Advances by one event, which is at the position `place` of its trace, and returns the chain of an acquisition or
    /// an opening. An event that isn't allowed is refused, and nothing changes. The refusals are those of
    /// `TaskState::step`. Takes no memory.
    pub fn step(&mut self, place: u32, event: Event) -> Result<Option<Chain>, StepFault>
        ensures goes_on { (t : List Event) → IsPlacedAfter t place self.old → slice_get t place ≡ Some event
            → GoesOnPlaced t place self.new result }
        ensures refused { OnErr result (self.new ≡ self.old) }
    {
        self.advance(place, event)
    }

    /// The positions at which the locks that the task keeps were taken, oldest first: those of all its frames.
    pub fn kept(&self) -> &[u32]
        ensures { result.now ≡ self.now.places }
    {
        self.places.as_slice()
    }

    /// After an event that made a chain: the position at which the chain's held lock number `n`, counted from the
    /// oldest, was taken. The result means nothing if the chain holds no such lock.
    pub fn held_place(&self, n: usize) -> Option<u32>
        ensures { (t : List Event) (j : ℕ) (event : Event) → IsPlacedAfter t (j + 1) self.now
            → slice_get t j ≡ Some event → IsTrue (makes_chain event) → n < length (held_positions t j)
            → result ≡ slice_get (held_positions t j) n }
    {
        self.state.place_of_held(&self.places, n)
    }
}
