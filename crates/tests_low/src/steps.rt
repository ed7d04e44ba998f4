//! Traces as constants, and what they give.

use ld_facts::{Fact, Facts, Kind, Mark};
use ld_task::{Chain, TaskState};
use ld_trace::{Event, Irq, KeyId, MAX_KEYS, Mode, RawTrace};
use std::alloc::Global;

// The first keys, by the letters of the examples.
pub const A: u16 = 0;

pub const B: u16 = 1;

pub const C: u16 = 2;

pub const D: u16 = 3;

// Two locks, taken in both orders.
pub const BOTH_ORDERS: &[&[Step]] = &[
    &[Step::Write(A), Step::Write(B), Step::Give(B), Step::Give(A)],
    &[Step::Write(B), Step::Write(A), Step::Give(A), Step::Give(B)],
];

// An event, by the number of its key.
#[derive(Clone, Copy, Drop)]
pub enum Step {
    // Taken by a writer.
    Write(u16),
    // Taken by a non-recursive reader.
    Read(u16),
    // Taken by a recursive reader.
    Reread(u16),
    TryWrite(u16),
    TryRead(u16),
    TryReread(u16),
    Give(u16),
    Enter(Irq),
    Leave,
    TurnOn(Irq),
    TurnOff(Irq),
}

impl Step {
    pub fn event(self) -> Event {
        match self {
            Step::Write(number) => take(number, Mode::Write),
            Step::Read(number) => take(number, Mode::Read),
            Step::Reread(number) => take(number, Mode::RecRead),
            Step::TryWrite(number) => take(number, Mode::TryWrite),
            Step::TryRead(number) => take(number, Mode::TryRead),
            Step::TryReread(number) => take(number, Mode::TryRecRead),
            Step::Give(number) => Event::Release { key: key(number) },
            Step::Enter(irq) => Event::Enter { irq },
            Step::Leave => Event::Leave,
            Step::TurnOn(irq) => Event::TurnOn { irq },
            Step::TurnOff(irq) => Event::TurnOff { irq },
        }
    }
}

// A fact, by the numbers of its keys.
#[derive(Clone, Copy, Drop)]
pub enum ShortFact {
    Depends(u16, u16, Kind),
    Used(u16),
    // Whether by a reader.
    UsedIn(u16, Irq, bool),
    // Whether by a reader.
    Enabled(u16, Irq, bool),
}

impl ShortFact {
    pub fn fact(self) -> Fact {
        let (key, mark) = match self {
            ShortFact::Depends(from, to, kind) => return Fact::Dependency { from, to, kind },
            ShortFact::Used(key) => (key, Mark::Used),
            ShortFact::UsedIn(key, irq, read) => (key, Mark::UsedIn { irq, read }),
            ShortFact::Enabled(key, irq, read) => (key, Mark::Enabled { irq, read }),
        };
        Fact::Marked { key, mark }
    }
}

fn take(number: u16, mode: Mode) -> Event {
    Event::Acquire {
        key: key(number),
        mode,
    }
}

pub fn key(number: u16) -> KeyId {
    KeyId::new(number).unwrap_or(KeyId::default())
}

fn push_events(events: &mut Vec<Event>, steps: &[Step]) -> Option<()> {
    for step in steps {
        events.push(step.event()).ok()?;
    }
    Some(())
}

// The trace of steps that are taken `rounds` times. None if it is too long, or memory is refused.
pub fn trace_of(alloc: Global, steps: &[Step], rounds: u32) -> Option<RawTrace> {
    let mut events = Vec::new(alloc);
    for _ in 0..rounds {
        push_events(&mut events, steps)?;
    }
    RawTrace::from_events(events)
}

// The trace of the steps of all parts. None if it is too long, or memory is refused.
pub fn trace_in_parts(alloc: Global, parts: &[&[Step]]) -> Option<RawTrace> {
    let mut events = Vec::new(alloc);
    for steps in parts {
        push_events(&mut events, *steps)?;
    }
    RawTrace::from_events(events)
}

fn push_traces(traces: &mut Vec<RawTrace>, alloc: Global, given: &[&[Step]]) -> Option<()> {
    for steps in given {
        traces.push(trace_of(alloc, *steps, 1)?).ok()?;
    }
    Some(())
}

// The traces, `times` times over.
pub fn traces_of(alloc: Global, given: &[&[Step]], times: u32) -> Option<Vec<RawTrace>> {
    let mut traces = Vec::new(alloc);
    for _ in 0..times {
        push_traces(&mut traces, alloc, given)?;
    }
    Some(traces)
}

fn push_chains(chains: &mut Vec<Chain>, steps: &[Step]) -> Option<()> {
    let mut state = TaskState::new();
    for step in steps {
        if let Some(chain) = state.step(step.event()).ok()? {
            chains.push(chain).ok()?;
        }
    }
    Some(())
}

// The chains of the traces. None if one isn't well formed, or memory is refused.
pub fn chains_of(alloc: Global, given: &[&[Step]]) -> Option<Vec<Chain>> {
    let mut chains = Vec::new(alloc);
    for steps in given {
        push_chains(&mut chains, *steps)?;
    }
    Some(chains)
}

// The chain of the last step that gives one.
pub fn last_chain(steps: &[Step]) -> Option<Chain> {
    let mut state = TaskState::new();
    let mut last = None;
    for step in steps {
        if let Some(chain) = state.step(step.event()).ok()? {
            last = Some(chain);
        }
    }
    last
}

// Adds the facts of the chains whose keys are in range.
fn add_chains(facts: &mut Facts, chains: &[Chain]) {
    for chain in chains {
        if chain.keys_below(facts.keys()) {
            facts.add_chain(chain);
        }
    }
}

// The facts of the traces about the keys below the bound, without a run.
pub fn facts_of(alloc: Global, given: &[&[Step]], keys: u16) -> Option<Facts> {
    if keys > MAX_KEYS {
        return None;
    }
    let chains = chains_of(alloc, given)?;
    let mut facts = Facts::new(alloc, keys).ok()?;
    add_chains(&mut facts, &chains);
    Some(facts)
}
