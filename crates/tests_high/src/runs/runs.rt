//! What runs return, with any number of workers.

use super::run_over;
use ld_graph::{Kind, Mark};
use ld_run::{BoardFault, CondenseFault, OpenGate, RunFault, Settled};
use ld_task::StepFault;
use ld_trace::Irq;
use std::alloc::Global;
use std::process::Abort;
use std::sync::Wait;
use std::thread::Threads;
use tests_low::steps::Step::{Enter, Give, Leave, TurnOff, TurnOn, Write};
use tests_low::steps::{A, B, BOTH_ORDERS, Step, facts_of, trace_of, traces_of};

// Traces, how often the whole list of them is given, with how many workers they are run, and how each of these runs
// ends.
struct Run {
    about: &'static str,
    keys: u16,
    traces: &'static [&'static [Step]],
    times: u32,
    workers: &'static [u16],
    fault: Option<RunFault>,
    // The dependencies, all of which are on a circle, or none.
    dependencies: &'static [(u16, u16, Kind)],
    clean: bool,
    // The keys that are used.
    used: &'static [u16],
}

// A run of one worker that finds nothing.
const CLEAN: Run = Run {
    about: "nothing",
    keys: 2,
    traces: &[],
    times: 1,
    workers: &[1],
    fault: None,
    dependencies: &[],
    clean: true,
    used: &[],
};

const NOT_HELD: RunFault = RunFault::Refused {
    trace: 1,
    place: 0,
    fault: StepFault::NotHeld,
};

static RUNS: [Run; 12] = [
    Run {
        about: "two locks in both orders",
        traces: BOTH_ORDERS,
        workers: &[1, 2, 4, 8, 64],
        dependencies: &[(A, B, Kind::En), (B, A, Kind::En)],
        clean: false,
        used: &[A, B],
        ..CLEAN
    },
    Run {
        about: "the same trace a hundred times",
        traces: &[&[Write(A), Write(B), Give(B), Give(A)]],
        times: 100,
        workers: &[1, 8],
        dependencies: &[(A, B, Kind::En)],
        used: &[A, B],
        ..CLEAN
    },
    Run {
        about: "two locks in both orders, with as many workers as are allowed at work",
        traces: BOTH_ORDERS,
        times: 50,
        workers: &[64],
        dependencies: &[(A, B, Kind::En), (B, A, Kind::En)],
        clean: false,
        used: &[A, B],
        ..CLEAN
    },
    Run {
        about: "no traces",
        keys: 0,
        traces: &[],
        ..CLEAN
    },
    Run {
        about: "as many traces as are allowed",
        traces: &[&[]],
        times: 4096,
        workers: &[2],
        ..CLEAN
    },
    Run {
        about: "one trace more",
        traces: &[&[]],
        times: 4097,
        workers: &[2],
        fault: Some(RunFault::TooManyTraces),
        ..CLEAN
    },
    Run {
        about: "too few and too many workers, which are refused before the traces are",
        traces: &[&[]],
        times: 4097,
        workers: &[0, 65],
        fault: Some(RunFault::BadWorkers),
        ..CLEAN
    },
    Run {
        about: "the first of two traces that aren't well formed",
        traces: &[&[Write(B)], &[Give(A)], &[Leave]],
        workers: &[1, 2, 8],
        fault: Some(NOT_HELD),
        ..CLEAN
    },
    Run {
        about: "more keys than a board takes, with traces enough for several threads",
        keys: 300,
        traces: BOTH_ORDERS,
        times: 800,
        workers: &[1, 2, 3, 64],
        dependencies: &[(A, B, Kind::En), (B, A, Kind::En)],
        clean: false,
        used: &[A, B],
        ..CLEAN
    },
    Run {
        about: "the first of many traces that aren't well formed, of more keys than a board takes",
        keys: 300,
        traces: &[&[Write(B), Give(B)], &[Give(A)], &[Leave]],
        times: 1000,
        workers: &[1, 2, 3, 64],
        fault: Some(NOT_HELD),
        ..CLEAN
    },
    Run {
        about: "steps that come again, some of them in interrupts, of more keys than a board takes",
        keys: 300,
        traces: &[
            &[
                TurnOff(Irq::Hard),
                Write(A),
                Write(B),
                Give(B),
                Give(A),
                TurnOn(Irq::Hard),
            ],
            &[Enter(Irq::Hard), Write(B), Give(B), Leave],
        ],
        times: 800,
        workers: &[1, 2, 3, 64],
        dependencies: &[(A, B, Kind::En)],
        used: &[A, B],
        ..CLEAN
    },
    Run {
        about: "an event that isn't allowed after steps that come again, of more keys than a board takes",
        keys: 300,
        traces: &[
            &[Write(A), Give(A), Write(B), Give(B)],
            &[Write(A), Give(A), Write(B), Give(B), Give(B)],
        ],
        times: 1000,
        workers: &[1, 2, 3, 64],
        fault: Some(RunFault::Refused {
            trace: 1,
            place: 4,
            fault: StepFault::NotHeld,
        }),
        ..CLEAN
    },
];

fn has_used(settled: &Settled, keys: &[u16]) -> bool {
    keys.iter().all(|key| settled.has_mark(*key, Mark::Used))
}

// Whether these are the dependencies, and each is on a circle if one is to be.
fn has_dependencies(settled: &Settled, all: &[(u16, u16, Kind)], circle: bool) -> bool {
    for (from, to, kind) in all {
        if !settled.has_dep(*from, *to, *kind) || settled.on_circle(*from, *to, *kind) != circle {
            return false;
        }
    }
    settled.dependencies() == all.len() as u64
}

// Whether the run has the facts of its traces, and those that are listed.
fn is_settled(alloc: Global, settled: &Settled, run: &Run) -> Option<bool> {
    let facts = facts_of(alloc, run.traces, run.keys)?;
    Some(
        settled.facts().same(&facts)
            && settled.is_clean() == run.clean
            && has_dependencies(settled, run.dependencies, !run.clean)
            && has_used(settled, run.used),
    )
}

fn is_ended(alloc: Global, ended: Result<Settled, RunFault>, run: &Run) -> bool {
    match ended {
        Ok(settled) => run.fault.is_none() && is_settled(alloc, &settled, run) == Some(true),
        Err(fault) => run.fault == Some(fault),
    }
}

// Whether the run ends as expected with each number of workers.
fn ends_as_told<R: Threads + Wait + Sync + Abort>(
    rt: &R,
    alloc: Global,
    run: &Run,
) -> Option<bool> {
    let traces = traces_of(alloc, run.traces, run.times)?;
    for workers in run.workers {
        let ended = run_over(rt, alloc, &traces, run.keys, *workers, &OpenGate);
        if !is_ended(alloc, ended, run) {
            return None;
        }
    }
    Some(true)
}

// The first run that ends in another way.
fn misfit<R: Threads + Wait + Sync + Abort>(
    rt: &R,
    alloc: Global,
    runs: &[Run],
) -> Option<&'static str> {
    runs.iter()
        .find(|run| ends_as_told(rt, alloc, run) != Some(true))
        .map(|run| run.about)
}

#[test]
fn runs_by_any_number_of_workers(rt: HostRuntime) {
    assert_eq!(rt; misfit(&rt, rt.alloc(), &RUNS), None);
}

// What the run over these traces settles.
fn settled_of<R: Threads + Wait + Sync + Abort>(
    rt: &R,
    alloc: Global,
    given: &[&[Step]],
) -> Option<Settled> {
    let traces = traces_of(alloc, given, 1)?;
    run_over(rt, alloc, &traces, 2, 2, &OpenGate).ok()
}

fn tells_doubles_and_inversions(settled: &Settled) -> bool {
    let doubles = settled.is_double(Irq::Hard, A)
        && !settled.is_double(Irq::Hard, B)
        && settled.double_forms(Irq::Hard, A) == Some((false, false));
    doubles && settled.is_inversion(Irq::Hard, A, B) && !settled.is_inversion(Irq::Hard, B, A)
}

fn tells_its_circle(settled: &Settled) -> Option<bool> {
    let walk = settled.circle_through(A, B, Kind::En)?;
    let none = settled.circle_through(A, B, Kind::Sn).is_none();
    Some(none && walk.len() == 2 && walk.get(0) == Some((A, B, Kind::En)))
}

fn tells_its_inversion(settled: &Settled) -> Option<bool> {
    let found = settled.inversion_walk(Irq::Hard, A, B)?;
    let none = settled.inversion_walk(Irq::Soft, A, B).is_none();
    let members = found.walk.len() == 1 && found.walk.get(0) == Some((A, B, Kind::En));
    let inside = settled.in_inversion(A, B, Kind::En) && !settled.in_inversion(A, B, Kind::Sn);
    Some(none && members && inside && !found.enabled_read && !found.used_read)
}

// A lock that is used in an interrupt, and with interrupts on, and another that is taken under it and then the other
// way round.
fn tells_its_findings<R: Threads + Wait + Sync + Abort>(rt: &R, alloc: Global) -> Option<bool> {
    let used: &[Step] = &[Enter(Irq::Hard), Write(A)];
    let under: &[Step] = &[Write(A), Write(B), Give(B), Give(A)];
    let over: &[Step] = &[Write(B), Write(A), Give(A), Give(B)];
    let one_way = settled_of(rt, alloc, &[used, under])?;
    let settled = settled_of(rt, alloc, &[used, under, over])?;
    let counted = settled.facts().keys() == 2 && settled.facts().dependencies() == 2;
    let told = tells_doubles_and_inversions(&one_way)
        && settled.double_forms(Irq::Hard, A).is_some();
    Some(counted && told && tells_its_circle(&settled)? && tells_its_inversion(&settled)?)
}

#[test]
fn a_run_tells_its_findings(rt: HostRuntime) {
    assert_eq!(rt; tells_its_findings(&rt, rt.alloc()), Some(true));
}

// Whether a trace of a hundred thousand events is clean.
fn is_clean_for_long<R: Threads + Wait + Sync + Abort>(rt: &R, alloc: Global) -> Option<bool> {
    let mut traces = Vec::new(alloc);
    traces
        .push(trace_of(alloc, &[Write(A), Give(A)], 50_000)?)
        .ok()?;
    let settled = run_over(rt, alloc, &traces, 1, 2, &OpenGate).ok()?;
    Some(settled.is_clean() && settled.has_mark(A, Mark::Used) && traces[0].len() == 100_000)
}

#[test]
fn a_trace_of_a_hundred_thousand_events(rt: HostRuntime) {
    assert_eq!(rt; is_clean_for_long(&rt, rt.alloc()), Some(true));
}

static CODES: [(RunFault, &str); 6] = [
    (RunFault::BadWorkers, "N1 BadWorkers"),
    (RunFault::TooManyTraces, "N2 TooManyTraces"),
    (RunFault::Unsettled, "N3 Unsettled"),
    (RunFault::Memory, "N4 Memory"),
    (NOT_HELD, "N5 Refused"),
    (RunFault::TooTangled, "M1 TooTangled"),
];

fn have_codes(codes: &[(RunFault, &str)]) -> bool {
    codes.iter().all(|(fault, code)| fault.code() == *code)
}

#[test]
fn the_codes_of_faults(rt: HostRuntime) {
    let board = BoardFault::Seats.code() == "C1 Seats" && BoardFault::Memory.code() == "C2 Memory";
    let condense = CondenseFault::Unequal.code() == "E1 Unequal"
        && CondenseFault::TooLong.code() == "E3 TooLong";
    assert!(rt; have_codes(&CODES) && board && condense);
}
