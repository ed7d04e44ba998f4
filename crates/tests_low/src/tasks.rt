//! What a task's traces give, by example.

use crate::steps::Step::{
    Enter, Give, Leave, Read, Reread, TryRead, TryReread, TryWrite, TurnOff, TurnOn, Write,
};
use crate::steps::{A, B, C, D, Step, key, last_chain, trace_of};
use ld_task::{Chain, Frame, PlacedState, TaskState, check};
use ld_trace::Irq::{Hard, Soft};
use ld_trace::{Event, Mode};
use std::alloc::Global;
use std::hash::{DefaultHasher, Hash, Hasher};

// Steps, and the place and the code of the first that isn't allowed.
struct Refusal {
    about: &'static str,
    steps: &'static [Step],
    at: Option<(usize, &'static str)>,
}

static REFUSALS: [Refusal; 6] = [
    Refusal {
        about: "a release of what isn't held",
        steps: &[Give(A)],
        at: Some((0, "S1 NotHeld")),
    },
    Refusal {
        about: "a hardirq in a hardirq",
        steps: &[Enter(Hard), Enter(Hard)],
        at: Some((1, "S3 BadEnter")),
    },
    Refusal {
        about: "a return from the task itself",
        steps: &[Leave],
        at: Some((0, "S4 LeaveTask")),
    },
    Refusal {
        about: "a return with a lock held",
        steps: &[Enter(Hard), Write(A), Leave],
        at: Some((2, "S5 LeaveHeld")),
    },
    Refusal {
        about: "softirqs turned on in a softirq",
        steps: &[
            Enter(Soft),
            TurnOff(Hard),
            Write(A),
            TurnOn(Hard),
            TurnOn(Soft),
        ],
        at: Some((4, "S6 BadFlag")),
    },
    Refusal {
        about: "hardirqs turned on in a softirq",
        steps: &[Enter(Soft), TurnOff(Hard), Write(A), TurnOn(Hard)],
        at: None,
    },
];

// Whether the first step that isn't allowed is at this place and has this code.
fn is_refused(
    alloc: Global,
    steps: &[Step],
    wanted: Option<(usize, &'static str)>,
) -> Option<bool> {
    match check(trace_of(alloc, steps, 1)?) {
        Ok(_) => Some(wanted.is_none()),
        Err(at) => Some(wanted == Some((at.place, at.fault.code()))),
    }
}

fn misrefused(alloc: Global) -> Option<&'static str> {
    REFUSALS
        .iter()
        .find(|refusal| is_refused(alloc, refusal.steps, refusal.at) != Some(true))
        .map(|refusal| refusal.about)
}

#[test]
fn each_refusal_names_its_place_and_its_code(rt: HostRuntime) {
    assert_eq!(rt; misrefused(rt.alloc()), None);
}

// The first locks, taken one after the other.
fn takes(alloc: Global, locks: u16) -> Option<Vec<Step>> {
    let mut steps = Vec::new(alloc);
    for number in 0..locks {
        steps.push(Write(number)).ok()?;
    }
    Some(steps)
}

// How many dependencies the steps bring, each from a lock that is held to one that is taken.
fn dependencies_of(steps: &[Step]) -> Option<u64> {
    let mut state = TaskState::new();
    let mut dependencies = 0u64;
    for step in steps {
        if let Some(chain) = state.step(step.event()).ok()? {
            dependencies = dependencies.saturating_add(chain.held_len() as u64);
        }
    }
    Some(dependencies)
}

// Whether a 49th lock is refused in each mode.
fn is_the_last_too_deep(alloc: Global, steps: &mut Vec<Step>) -> Option<bool> {
    for last in [Write(48), TryWrite(48), TryRead(48), TryReread(48)] {
        steps.push(last).ok()?;
        if !is_refused(alloc, &*steps, Some((48, "S2 TooDeep")))? {
            return Some(false);
        }
        steps.pop();
    }
    Some(true)
}

// Each of 48 locks is held when the later ones are taken: half of 48 times 47 pairs.
fn are_forty_eight_held(alloc: Global) -> Option<bool> {
    let mut steps = takes(alloc, 48)?;
    let are_held = is_refused(alloc, &steps, None)? && dependencies_of(&steps)? == 1128;
    Some(are_held && is_the_last_too_deep(alloc, &mut steps)?)
}

#[test]
fn forty_eight_locks_are_held_and_no_more(rt: HostRuntime) {
    assert_eq!(rt; are_forty_eight_held(rt.alloc()), Some(true));
}

// Steps, and their last chain: the locks that are held, the oldest first, the lock that is taken, whether hardirqs and
// softirqs are on, and the least number above those of its keys.
struct Last {
    about: &'static str,
    steps: &'static [Step],
    held: &'static [(u16, Mode)],
    taken: Option<(u16, Mode, Frame)>,
    on: (bool, bool),
    keys: u16,
}

static LAST: [Last; 5] = [
    Last {
        about: "a try is held, and makes a chain",
        steps: &[Write(A), TryRead(B), TryWrite(C)],
        held: &[(A, Mode::Write), (B, Mode::TryRead)],
        taken: Some((C, Mode::TryWrite, Frame::Task)),
        on: (true, true),
        keys: 3,
    },
    Last {
        about: "locks are given back out of order",
        steps: &[Write(A), Write(B), Give(A), Write(C)],
        held: &[(B, Mode::Write)],
        taken: Some((C, Mode::Write, Frame::Task)),
        on: (true, true),
        keys: 3,
    },
    Last {
        about: "a release gives back the newest lock of its key",
        steps: &[Reread(A), Write(A), Give(A), Write(B)],
        held: &[(A, Mode::RecRead)],
        taken: Some((B, Mode::Write, Frame::Task)),
        on: (true, true),
        keys: 2,
    },
    Last {
        about: "an interrupt holds no lock of the frame that it came in",
        steps: &[Write(A), Enter(Hard), Write(B)],
        held: &[],
        taken: Some((B, Mode::Write, Frame::Hardirq)),
        on: (false, false),
        keys: 2,
    },
    Last {
        about: "an opening has the held locks and the flags after it",
        steps: &[TurnOff(Hard), Read(A), TurnOn(Hard)],
        held: &[(A, Mode::Read)],
        taken: None,
        on: (true, true),
        keys: 1,
    },
];

// Whether the chain holds these locks, and no other.
fn holds(chain: &Chain, held: &[(u16, Mode)]) -> bool {
    let lock = |i: usize| held.get(i).map(|(number, mode)| (key(*number), *mode));
    chain.held_len() == held.len() && (0..=held.len()).all(|i| chain.held(i) == lock(i))
}

fn takes_it(chain: &Chain, taken: Option<(u16, Mode, Frame)>) -> bool {
    match taken {
        Some((number, mode, frame)) => chain.taken() == Some((key(number), mode, frame)),
        None => chain.taken() == None,
    }
}

fn is_last(last: &Last) -> Option<bool> {
    let chain = last_chain(last.steps)?;
    let are_below = chain.keys_below(last.keys) && !chain.keys_below(last.keys.saturating_sub(1));
    let are_flags = (chain.hard_on(), chain.soft_on()) == last.on;
    Some(are_below && are_flags && takes_it(&chain, last.taken) && holds(&chain, last.held))
}

fn misled() -> Option<&'static str> {
    LAST.iter()
        .find(|last| is_last(last) != Some(true))
        .map(|last| last.about)
}

#[test]
fn a_chain_has_what_is_held_and_taken(rt: HostRuntime) {
    assert_eq!(rt; misled(), None);
}

// Steps, how many of them are refused, and where the locks were taken that the last chain holds.
struct Placed {
    about: &'static str,
    steps: &'static [Step],
    refused: usize,
    places: &'static [u32],
}

static PLACED: [Placed; 3] = [
    Placed {
        about: "a lock in the middle was given back",
        steps: &[Reread(A), Write(B), Reread(A), Give(B), Write(C)],
        refused: 0,
        places: &[0, 2],
    },
    Placed {
        about: "the newest lock of a key was given back, and a release refused",
        steps: &[
            Reread(A),
            Write(B),
            Reread(A),
            Give(B),
            Write(C),
            Give(A),
            Give(B),
            Write(D),
        ],
        refused: 1,
        places: &[0, 4],
    },
    Placed {
        about: "in an interrupt the locks are those of its frame",
        steps: &[Write(A), Enter(Hard), Write(B), Write(C)],
        refused: 0,
        places: &[2],
    },
];

// Goes through the steps, and returns how many are refused.
fn refused_of(state: &mut PlacedState, steps: &[Step]) -> usize {
    let mut refused = 0usize;
    let mut place = 0u32;
    for step in steps {
        if state.step(place, step.event()).is_err() {
            refused = refused.saturating_add(1);
        }
        place = place.saturating_add(1);
    }
    refused
}

fn are_places(state: &PlacedState, places: &[u32]) -> bool {
    (0..places.len()).all(|i| state.held_place(i) == Some(places[i]))
}

fn misplaced() -> Option<&'static str> {
    for placed in &PLACED {
        let mut state = PlacedState::new();
        let refused = refused_of(&mut state, placed.steps);
        if refused != placed.refused || !are_places(&state, placed.places) {
            return Some(placed.about);
        }
    }
    None
}

#[test]
fn a_placed_state_knows_where_its_locks_were_taken(rt: HostRuntime) {
    assert_eq!(rt; misplaced(), None);
}

fn hash_of(chain: &Chain) -> u64 {
    let mut state = DefaultHasher::new();
    chain.hash(&mut state);
    state.finish()
}

// Whether two ways to the same chain give equal chains, and a chain of a reader is another.
fn are_compared_whole() -> Option<bool> {
    let writes = last_chain(&[Write(A), Write(B)])?;
    let again = last_chain(&[Read(C), Give(C), Write(A), Write(B)])?;
    let reads = last_chain(&[Read(A), Write(B)])?;
    Some(writes == again && hash_of(&writes) == hash_of(&again) && writes != reads)
}

#[test]
fn chains_are_compared_whole(rt: HostRuntime) {
    assert_eq!(rt; are_compared_whole(), Some(true));
}

fn keeps_its_events(alloc: Global) -> Option<bool> {
    let trace = check(trace_of(alloc, &[Write(A), Give(A)], 1)?).ok()?;
    let are_kept = trace.len() == 2 && trace.event(1) == Some(Give(A).event());
    Some(are_kept && trace.keys_below(1) && !trace.keys_below(0))
}

#[test]
fn a_checked_trace_keeps_its_events(rt: HostRuntime) {
    assert_eq!(rt; keeps_its_events(rt.alloc()), Some(true));
}

#[test]
fn locks_and_chains_are_small(rt: HostRuntime) {
    assert_eq!(rt; (size_of::<Event>(), size_of::<Chain>()), (4, 112));
}
