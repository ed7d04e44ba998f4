//! Steps that are known: from which state an event led to which, once the facts of its chain were gathered.

ghost use Rattle.std.specs.Prelude.{◌≡◌, ◌≤◌, ◌<◌, ◌++◌, ℕ, List, Some, IfSome, length, slice_get};
ghost use Rattle.ld_task.specs.EndState.{EndState};
ghost use Rattle.ld_run.specs.Inside.KnownSteps.{AreKnown, Follows, IsFound, Keeps, Learns, Reaches, event_code, irq_number};
ghost use Rattle.ld_run.specs.Inside.Walks.{Store};
ghost use Rattle.ld_task.specs.Locks.{mode_number};
ghost use Rattle.ld_task.specs.Steps.{IsStateAfter};
ghost use Rattle.ld_trace.specs.declared.event.Event.{Event};
ghost use Rattle.ld_trace.specs.declared.raw_trace.TheConstants.{MAX_EVENTS};

use crate::runs::makes_chain;
use ld_task::TaskState;
use ld_trace::{Event, Irq, Mode, RawTrace};
use std::alloc::Global;

// The most states that are kept.
const MOST_STATES: usize = 8_192;

// The most locks of a state that is kept.
const MOST_LOCKS: usize = 16;

// How many slots there are for steps.
const STEP_SLOTS: usize = 16_384;

// How many slots there are for states.
const STATE_SLOTS: usize = 16_384;

// How many slots are looked at for a state.
const LOOKS: usize = 16;

// In a slot without a state, and in a step that isn't one.
const NO_STATE: u16 = u16::MAX;

// How many steps may be missed at first.
const FIRST_BALANCE: usize = 1_024;

// How many may be missed at most, however many were known before.
const MOST_BALANCE: usize = 4_096;

// How many known steps make up for one that was missed.
const KNOWN_FOR_MISSED: usize = 4;

// A step: the event's code, and the numbers of the states before and after it.
#[derive(Clone, Copy)]
pub(crate) struct KnownStep {
    code: u16,
    from: u16,
    to: u16,
}

// States that were met, by number, and steps between them, each in the slot of its state and event, or in the one beside it.
// Where a state is found, and whether there are still enough known steps, are hints.
#[derive(Drop)]
pub(crate) struct KnownSteps {
    states: Vec<TaskState>,
    steps: Vec<KnownStep>,
    slots: Vec<u16>,
    balance: usize,
}

// Where a walk along a trace is: how many of its events were walked, the state after them, and how many chains they made.
#[derive(Drop)]
pub(crate) struct Walk {
    pub(crate) place: usize,
    pub(crate) state: TaskState,
    pub(crate) number: u64,
}

// Where known steps lead to: how many events were walked, the number of the state after them, and how many chains they made.
#[derive(Clone, Copy)]
struct Reached {
    place: usize,
    state: u16,
    number: u64,
}

impl Walk {
    // Before the first event.
    pub(crate) fn new() -> Walk
        ensures place { result.place ≡ 0 }
        ensures number { result.number ≡ 0 }
        ensures start { (t : List Event) → IsStateAfter t 0 result.state }
    {
        Walk {
            place: 0,
            state: TaskState::new(),
            number: 0,
        }
    }
}

impl KnownSteps {
    // No steps. If there is no memory, none are learnt.
    pub(crate) fn new(alloc: Global) -> KnownSteps
        ensures { (store : Store) → AreKnown store result }
    {
        let none = KnownStep {
            code: 0,
            from: NO_STATE,
            to: NO_STATE,
        };
        let mut steps = Vec::new(alloc);
        let mut slots = Vec::new(alloc);
        let have_room = steps.resize(STEP_SLOTS, none).is_ok()
            && slots.resize(STATE_SLOTS, NO_STATE).is_ok();
        KnownSteps {
            states: Vec::new(alloc),
            steps,
            slots,
            balance: if have_room { FIRST_BALANCE } else { 0 },
        }
    }

    // No steps, and none are learnt.
    pub(crate) fn none(alloc: Global) -> KnownSteps
        ensures { (store : Store) → AreKnown store result }
    {
        KnownSteps {
            states: Vec::new(alloc),
            steps: Vec::new(alloc),
            slots: Vec::new(alloc),
            balance: 0,
        }
    }

    // Whether enough steps were known to go on with them.
    pub(crate) fn are_worth_it(&self) -> bool {
        self.balance > 0
    }

    // Walks on by known steps, and returns the event that comes next, whose step is missed, unless the trace ends there.
    // The number of the state, if it has one, becomes that of the state there.
    pub(crate) fn next_missed(
        &mut self,
        events: &RawTrace,
        here: &mut Option<u16>,
        walk: &mut Walk,
    ) -> Option<Event>
        requires within { walk.old.place ≤ length events.now }
        requires few { walk.old.number ≤ walk.old.place }
        ensures few { walk.new.number ≤ walk.new.place }
        ensures on { walk.old.place ≤ walk.new.place }
        ensures follows { Follows self.old events.now here.old walk.old here.new walk.new }
        ensures next { result ≡ slice_get events.now walk.new.place }
        ensures room { IfSome result (λ _. walk.new.place < MAX_EVENTS) }
        ensures states { self.new.states ≡ self.old.states }
        ensures steps { self.new.steps ≡ self.old.steps }
    {
        let before = walk.place;
        *here = self.follow(events, *here, walk);
        let missed = walk.place < events.len();
        self.pay(walk.place - before, missed);
        events.event(walk.place)
    }

    // Takes note of so many steps that were known, and of whether one was missed after them.
    fn pay(&mut self, known: usize, missed: bool)
        ensures states { self.new.states ≡ self.old.states }
        ensures steps { self.new.steps ≡ self.old.steps }
    {
        let earned = self.balance.saturating_add(known / KNOWN_FOR_MISSED);
        self.balance = earned.min(MOST_BALANCE).saturating_sub(usize::from(missed));
    }

    // Walks on by known steps from the state of this number, as far as they lead, and returns the number of the state there.
    fn follow(&self, events: &RawTrace, here: Option<u16>, walk: &mut Walk) -> Option<u16>
        requires within { walk.old.place ≤ length events.now }
        requires few { walk.old.number ≤ walk.old.place }
        ensures within { walk.new.place ≤ length events.now }
        ensures few { walk.new.number ≤ walk.new.place }
        ensures on { walk.old.place ≤ walk.new.place }
        ensures follows { Follows self.now events.now here walk.old result walk.new }
    {
        let from = here?;
        let reached = self.reached_from(events, from, walk.place, walk.number);
        if reached.place == walk.place {
            return Some(from);
        }
        let state = self.states.get(usize::from(reached.state))?;
        *walk = Walk {
            place: reached.place,
            state: state.copied(),
            number: reached.number,
        };
        Some(reached.state)
    }

    // Where known steps lead to from the state of a number, at a place of the events, after so many chains.
    fn reached_from(&self, events: &RawTrace, from: u16, start: usize, chains: u64) -> Reached
        requires within { start ≤ length events.now }
        requires few { chains ≤ start }
        ensures within { result.place ≤ length events.now }
        ensures few { result.number ≤ result.place }
        ensures on { start ≤ result.place }
        ensures reaches { Reaches self.now events.now (record { place = start; state = from; number = chains }) result }
    {
        let mut state = from;
        let mut number = chains;
        for place in start..events.len() {
            let Some(event) = events.event(place) else {
                unreachable!();
            };
            let Some(to) = self.find(state, &event) else {
                return Reached {
                    place,
                    state,
                    number,
                };
            };
            state = to;
            number += u64::from(makes_chain(event));
        }
        Reached {
            place: events.len(),
            state,
            number,
        }
    }

    // The number of the state that the event leads to from that of a number, if that step is known.
    fn find(&self, from: u16, event: &Event) -> Option<u16>
        ensures { IfSome result (IsFound self.now from event.now) }
    {
        let slot = slot_of(from, code_of(event));
        match self.step_in(slot, from, event) {
            None => self.step_in(beside(slot), from, event),
            found => found,
        }
    }

    // The same, if the step is in this slot.
    #[inline(always)]
    fn step_in(&self, slot: usize, from: u16, event: &Event) -> Option<u16>
        ensures { IfSome result (IsFound self.now from event.now) }
    {
        let step = self.steps.get(slot)?;
        if step.from == from && step.code == code_of(event) {
            Some(step.to)
        } else {
            None
        }
    }

    // Takes in that the event led from the state of a number, if it has one, to this one, whose number is returned, if it gets one.
    pub(crate) fn learn(&mut self, here: Option<u16>, event: &Event, to: &TaskState) -> Option<u16>
        ensures there { IfSome result (λ n. slice_get self.new.states.items n ≡ Some to.now) }
        ensures learns { Learns self.old here event.now to.now self.new }
    {
        let number = self.number_of(to)?;
        if let Some(from) = here {
            self.keep(from, event, number);
        }
        Some(number)
    }

    // Keeps a step between states that have numbers, in its slot.
    fn keep(&mut self, from: u16, event: &Event, to: u16)
        ensures states { self.new.states ≡ self.old.states }
        ensures keeps { Keeps self.old from event.now to self.new }
    {
        let code = code_of(event);
        let slot = slot_of(from, code);
        self.make_room(slot);
        if slot < self.steps.len() {
            self.steps[slot] = KnownStep { code, from, to };
        }
    }

    // Keeps the step of a slot, if it has one, in the slot beside it.
    fn make_room(&mut self, slot: usize)
        ensures states { self.new.states ≡ self.old.states }
        ensures known { (store : Store) → AreKnown store self.old → AreKnown store self.new }
    {
        let other = beside(slot);
        let count = self.steps.len();
        if slot < count && other < count && self.steps[slot].from != NO_STATE {
            self.steps[other] = self.steps[slot];
        }
    }

    // The number of a state. It gets one if it has none yet, keeps few locks, and there is room.
    pub(crate) fn number_of(&mut self, state: &TaskState) -> Option<u16>
        ensures there { IfSome result (λ n. slice_get self.new.states.items n ≡ Some state.now) }
        ensures more { (more : List EndState) × (self.new.states.items ≡ self.old.states.items ++ more) }
        ensures few { length self.old.states.items ≤ NO_STATE → length self.new.states.items ≤ NO_STATE }
        ensures steps { self.new.steps ≡ self.old.steps }
    {
        if state.kept_len() > MOST_LOCKS {
            return None;
        }
        let hash = state.hint();
        for look in 0..LOOKS {
            let slot = (hash as usize % STATE_SLOTS).wrapping_add(look) % STATE_SLOTS;
            let number = *self.slots.get(slot)?;
            let Some(known) = self.states.get(usize::from(number)) else {
                return self.add(slot, state);
            };
            if known.same(state) {
                return Some(number);
            }
        }
        None
    }

    // Adds a state with the next number, which it notes in a slot, if there is room.
    fn add(&mut self, slot: usize, state: &TaskState) -> Option<u16>
        ensures there { IfSome result (λ n. slice_get self.new.states.items n ≡ Some state.now) }
        ensures more { (more : List EndState) × (self.new.states.items ≡ self.old.states.items ++ more) }
        ensures few { length self.old.states.items ≤ NO_STATE → length self.new.states.items ≤ NO_STATE }
        ensures steps { self.new.steps ≡ self.old.steps }
    {
        if self.states.len() >= MOST_STATES {
            return None;
        }
        let number = self.states.len() as u16;
        self.states.push(state.copied()).ok()?;
        if let Some(free) = self.slots.get_mut(slot) {
            *free = number;
        }
        Some(number)
    }
}

// The slot of the step from the state of this number by the event of this code. The number is all that a walk waits for, so
// little is reckoned with it.
#[inline(always)]
fn slot_of(from: u16, code: u16) -> usize {
    let spread = u32::from(code).wrapping_mul(0x9E37_79B1) >> 18;
    (spread as usize).wrapping_add(usize::from(from) * 9) % STEP_SLOTS
}

// The slot that a step is kept in if another one has its own.
fn beside(slot: usize) -> usize {
    slot ^ 1
}

// Each event has a code of its own.
fn code_of(event: &Event) -> u16
    ensures { result ≡ event_code event.now }
{
    match *event {
        Event::Acquire { mode, key } => key.get() * 8 + mode_code(mode),
        Event::Release { key } => key.get() * 8 + 6,
        Event::Enter { irq } => 7 + irq_code(irq) * 8,
        Event::Leave => 23,
        Event::TurnOn { irq } => 31 + irq_code(irq) * 8,
        Event::TurnOff { irq } => 47 + irq_code(irq) * 8,
    }
}

fn mode_code(mode: Mode) -> u16
    ensures { result ≡ mode_number mode }
{
    match mode {
        Mode::Write => 0,
        Mode::Read => 1,
        Mode::RecRead => 2,
        Mode::TryWrite => 3,
        Mode::TryRead => 4,
        Mode::TryRecRead => 5,
    }
}

fn irq_code(irq: Irq) -> u16
    ensures { result ≡ irq_number irq }
{
    match irq {
        Irq::Hard => 0,
        Irq::Soft => 1,
    }
}
