//! What a gate sees of a run.

use super::run_over;
use ld_graph::Mark;
use ld_run::Gate;
use ld_trace::{Irq, RawTrace};
use std::alloc::Global;
use std::process::Abort;
use std::sync::Wait;
use std::sync::atomic::{AtomicBool, AtomicU64, Ordering};
use std::thread::Threads;
use tests_low::steps::Step::{Give, TurnOff, Write};
use tests_low::steps::{A, B, BOTH_ORDERS, C, Step, traces_of};

// A gate in which the workers of two traces wait for one another.
#[derive(Drop)]
pub(crate) struct Meeting {
    calls: [AtomicU64; 2],
    here: [AtomicBool; 2],
    missed: AtomicBool,
}

impl Gate for Meeting {
    fn before_record(&self, trace: usize, number: u64) {
        if trace > 1 || number > 0 {
            self.missed.store(true, Ordering::SeqCst);
            return;
        }
        self.calls[trace].fetch_add(1, Ordering::SeqCst);
        self.here[trace].store(true, Ordering::SeqCst);
        for _ in 0..1_000_000_000 {
            if self.here[1 - trace].load(Ordering::SeqCst) {
                return;
            }
        }
        self.missed.store(true, Ordering::SeqCst);
    }
}

impl Meeting {
    pub(crate) fn new() -> Meeting {
        Meeting {
            calls: [AtomicU64::new(0), AtomicU64::new(0)],
            here: [AtomicBool::new(false), AtomicBool::new(false)],
            missed: AtomicBool::new(false),
        }
    }

    // Whether both were here at once, each of them once.
    pub(crate) fn was_held(&self) -> bool {
        let once = self
            .calls
            .iter()
            .all(|calls| calls.load(Ordering::SeqCst) == 1);
        once && !self.missed.load(Ordering::SeqCst)
    }
}

// Two traces, each with a lock of its own.
pub(crate) fn one_lock_each(alloc: Global) -> Option<Vec<RawTrace>> {
    traces_of(alloc, &[&[Write(A)], &[Write(B)]], 1)
}

// Whether two workers are in the gate at once.
fn meet<R: Threads + Wait + Sync + Abort>(rt: &R, alloc: Global) -> Option<bool> {
    let traces = one_lock_each(alloc)?;
    let gate = Meeting::new();
    let settled = run_over(rt, alloc, &traces, 2, 2, &gate).ok()?;
    let marks = settled.has_mark(A, Mark::Used) && settled.has_mark(B, Mark::Used);
    Some(marks && gate.was_held())
}

#[test]
fn gate_two(rt: HostRuntime) {
    assert_eq!(rt; meet(&rt, rt.alloc()), Some(true));
}

// A gate that counts its calls, and has the numbers of the chains, of which none is above 9, as the digits of one
// number.
#[derive(Drop)]
struct Counting {
    calls: AtomicU64,
    numbers: AtomicU64,
}

impl Gate for Counting {
    fn before_record(&self, _trace: usize, number: u64) {
        self.calls.fetch_add(1, Ordering::SeqCst);
        let numbers = self.numbers.load(Ordering::SeqCst);
        self.numbers.store(
            numbers.wrapping_mul(10).wrapping_add(number),
            Ordering::SeqCst,
        );
    }
}

// Traces that one worker walks, how often the whole list of them is given, how often the gate is called, and the
// numbers of the chains that it is called for.
struct Calls {
    about: &'static str,
    traces: &'static [&'static [Step]],
    times: u32,
    calls: u64,
    numbers: u64,
}

static CALLS: [Calls; 4] = [
    Calls {
        about: "of the four chains of both orders the third, B by itself, brings nothing new",
        traces: BOTH_ORDERS,
        times: 1,
        calls: 3,
        numbers: 0_1_1,
    },
    Calls {
        about: "a trace that is repeated is recorded once",
        traces: &[&[Write(A), Write(B), Give(B), Give(A)]],
        times: 100,
        calls: 2,
        numbers: 0_1,
    },
    Calls {
        about: "chains are numbered, and events are not",
        traces: &[&[
            TurnOff(Irq::Hard),
            Write(A),
            Give(A),
            Write(B),
            Give(B),
            TurnOff(Irq::Hard),
            Write(C),
        ]],
        times: 1,
        calls: 3,
        numbers: 0_1_2,
    },
    Calls {
        about: "chains of steps that were taken before are numbered too",
        traces: &[&[
            Write(A),
            Give(A),
            Write(A),
            Give(A),
            Write(A),
            Give(A),
            Write(B),
        ]],
        times: 1,
        calls: 2,
        numbers: 0_3,
    },
];

fn is_called<R: Threads + Wait + Sync + Abort>(
    rt: &R,
    alloc: Global,
    wanted: &Calls,
) -> Option<bool> {
    let traces = traces_of(alloc, wanted.traces, wanted.times)?;
    let gate = Counting {
        calls: AtomicU64::new(0),
        numbers: AtomicU64::new(0),
    };
    run_over(rt, alloc, &traces, 3, 1, &gate).ok()?;
    let calls = gate.calls.load(Ordering::SeqCst) == wanted.calls;
    Some(calls && gate.numbers.load(Ordering::SeqCst) == wanted.numbers)
}

// The first of these for which the gate is called otherwise.
fn misfit<R: Threads + Wait + Sync + Abort>(
    rt: &R,
    alloc: Global,
    rows: &[Calls],
) -> Option<&'static str> {
    rows.iter()
        .find(|wanted| is_called(rt, alloc, wanted) != Some(true))
        .map(|wanted| wanted.about)
}

#[test]
fn the_gate_is_called_for_chains_that_bring_something(rt: HostRuntime) {
    assert_eq!(rt; misfit(&rt, rt.alloc(), &CALLS), None);
}
