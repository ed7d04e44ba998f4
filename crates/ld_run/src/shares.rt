//! Many traces, of which each of several threads walks a share.

ghost use Rattle.std.specs.Prelude.{◌≤◌, ℕ, List, Option, All, drop, length, take};
ghost use Rattle.std.specs.Borrow.{Bor};
ghost use denote.Param.Send.{IsSync};
ghost use Rattle.ld_trace.specs.declared.key_id.TheConstants.{MAX_KEYS};
ghost use Rattle.ld_task.specs.WellFormed.{IsWellFormed};
ghost use Rattle.ld_run.specs.Inside.Walked.{CallsBelow, EndsWalk, StopsWalk};

use crate::known_steps::KnownSteps;
use crate::trace_facts::add_trace;
use ld_facts::Facts;
use ld_task::StepAt;
use ld_trace::{RawTrace, event_count};
use std::alloc::Global;
use std::thread;
use std::thread::Threads;

/// Why not all traces were walked.
#[derive(Clone, Copy, Debug)]
pub(crate) enum Unwalked {
    /// Memory was refused.
    Memory,
    /// A trace isn't well formed: the place of the first such trace, and its first event that isn't allowed.
    Refused { trace: usize, first: StepAt },
}

// The facts of all traces by what their keys are called, if they are well formed; see `add_trace`. Half of the threads walk the first
// of them, and the others the rest, each into facts of its own; if a thread can't be made, the calling thread does its work.
#[cycle(halves)]
pub(crate) fn facts_of_all<R: Threads + Sync>(
    rt: &R,
    alloc: Global,
    traces: &[RawTrace],
    others: Option<&[u16]>,
    keys: u16,
    threads: usize,
) -> Result<Facts, Unwalked>
    requires few { keys ≤ MAX_KEYS }
    requires below { All (CallsBelow others keys) traces.now }
    ensures { EndsWalk others.entry keys traces.now result }
{
    if threads < 2 || traces.len() < 2 {
        return facts_in_turn(alloc, traces, others, keys);
    }
    let part = threads / 2;
    let rest = threads - part;
    let place = place_of_share(traces, threads);
    let (low, high) = traces.split_at(place);
    let first = move || -> Result<Facts, Unwalked>
        requires { IsSync R.row × (keys ≤ MAX_KEYS) × All (CallsBelow others keys) low.now }
        ensures { EndsWalk others.entry keys low.entry.now result }
    { facts_of_all(rt, alloc, low, others, keys, part) };
    let second = move || -> Result<Facts, Unwalked>
        requires { IsSync R.row × (keys ≤ MAX_KEYS) × All (CallsBelow others keys) high.now }
        ensures { EndsWalk others.entry keys high.entry.now result }
    { facts_of_all(rt, alloc, high, others, keys, rest) };
    let (first, second) = thread::join(rt, first, second);
    united(traces, place, first, second)
}

// The facts of all traces, if they are well formed, walked one after the other by the calling thread. Steps that one of
// them made known are known in the next.
fn facts_in_turn(
    alloc: Global,
    traces: &[RawTrace],
    others: Option<&[u16]>,
    keys: u16,
) -> Result<Facts, Unwalked>
    requires few { keys ≤ MAX_KEYS }
    requires below { All (CallsBelow others keys) traces.now }
    ensures { EndsWalk others.entry keys traces.now result }
{
    let Ok(mut facts) = Facts::new(alloc, keys) else {
        return Err(Unwalked::Memory);
    };
    let mut known = KnownSteps::new(alloc);
    for trace in 0..traces.len() {
        if let Err(first) = add_trace(&mut facts, &traces[trace], others, &mut known) {
            return Err(Unwalked::Refused { trace, first });
        }
    }
    Ok(facts)
}

// What both parts of the traces have, of which the first ends before this place. If memory was refused to one of them, that is returned.
fn united(
    traces: &[RawTrace],
    place: usize,
    first: Result<Facts, Unwalked>,
    second: Result<Facts, Unwalked>,
) -> Result<Facts, Unwalked>
    requires place { place ≤ length traces.now }
    requires parts { (others : Option (Bor (List ℕ))) × (keys : ℕ) × EndsWalk others keys (take place traces.now) first
        × EndsWalk others keys (drop place traces.now) second }
    ensures { (others : Option (Bor (List ℕ))) (keys : ℕ) → EndsWalk others keys (take place traces.now) first
        → EndsWalk others keys (drop place traces.now) second → EndsWalk others keys traces.now result }
{
    if lacks_memory(&first) || lacks_memory(&second) {
        return Err(Unwalked::Memory);
    }
    let mut facts = first?;
    match second {
        Ok(others) => {
            facts.unite(&others);
            Ok(facts)
        }
        Err(unwalked) => Err(unwalked_of_all(traces, place, unwalked)),
    }
}

// Whether memory was refused.
fn lacks_memory(part: &Result<Facts, Unwalked>) -> bool {
    matches!(part, Err(Unwalked::Memory))
}

// The same for all traces, if only those from this place on were walked.
fn unwalked_of_all(traces: &[RawTrace], place: usize, unwalked: Unwalked) -> Unwalked
    requires place { place ≤ length traces.now }
    requires stops { StopsWalk (drop place traces.now) unwalked }
    ensures { All IsWellFormed (take place traces.now) → StopsWalk traces.now result }
{
    match unwalked {
        Unwalked::Memory => Unwalked::Memory,
        Unwalked::Refused { trace, first } => Unwalked::Refused {
            trace: place + trace,
            first,
        },
    }
}

// The place before which the traces have about half of all events; with an odd number of threads, the share of the smaller half of them.
fn place_of_share(traces: &[RawTrace], threads: usize) -> usize
    requires { 2 ≤ threads }
    ensures { result ≤ length traces.now }
{
    let share = (event_count(traces) / threads as u128).saturating_mul(threads as u128 / 2);
    let mut before = 0u128;
    for place in 0..traces.len() {
        let events = traces[place].len() as u128;
        if share <= before.saturating_add(events / 2) {
            return place;
        }
        before = before.saturating_add(events);
    }
    traces.len()
}

// How many of the workers are worth facts of their own. To make and unite these takes about as long as to walk an event for every
// four of their words.
pub(crate) fn useful_threads(traces: &[RawTrace], keys: u16, workers: usize) -> usize
    ensures { result ≤ workers }
{
    let words = usize::from(keys) * usize::from(keys) / 16;
    (workers as u128).min(event_count(traces) / (words as u128 / 4 + 1)) as usize
}
