//! Where the facts of small traces come from.

mod want_of_memory;

ghost use Rattle.std.specs.Prelude.{◌≤◌, All, IsTrue, length};
ghost use Rattle.ld_task.specs.WellFormed.{IsWellFormed};
ghost use Rattle.ld_trace.specs.declared.raw_trace.TheConstants.{MAX_TRACES};

use ld_explain::{Asked, Evidence, Naming, Origin, Origins};
use ld_facts::Fact;
use ld_graph::Kind::{En, Er, Sn, Sr};
use ld_run::{OpenGate, run};
use ld_trace::Irq::{Hard, Soft};
use ld_trace::RawTrace;
use std::alloc::Global;
use std::process::Abort;
use std::sync::Wait;
use std::thread::Threads;
use tests_low::steps::ShortFact::{Depends, Enabled, Used, UsedIn};
use tests_low::steps::Step::{Enter, Give, Reread, TryRead, TryWrite, TurnOff, TurnOn, Write};
use tests_low::steps::{A, B, C, ShortFact, Step, traces_of};

// Where a fact comes from.
#[derive(Clone, Copy)]
enum Place {
    // From a held lock: its trace, the event that took the lock, and the event that gives the fact.
    By(u32, u32, u32),
    // From an acquisition alone: its trace, and the event.
    At(u32, u32),
    // It isn't there.
    Nowhere,
}

use Place::{At, By, Nowhere};

impl Place {
    fn origin(self) -> Option<Origin> {
        match self {
            By(trace, held, place) => Some(Origin {
                trace,
                place,
                held: Some(held),
            }),
            At(trace, place) => Some(Origin {
                trace,
                place,
                held: None,
            }),
            Nowhere => None,
        }
    }
}

// A fact, and where it comes from.
type Known = (ShortFact, Place);

// Traces of three keys, and where facts of them come from.
struct Row {
    about: &'static str,
    traces: &'static [&'static [Step]],
    facts: &'static [Known],
}

static ROWS: [Row; 8] = [
    Row {
        about: "two orders come from two traces",
        traces: &[
            &[Write(A), Write(B), Give(B), Give(A)],
            &[Write(C), Give(C), Write(B), Write(A), Give(A), Give(B)],
            &[Write(B), Write(A)],
        ],
        facts: &[
            (Depends(A, B, En), By(0, 0, 1)),
            (Depends(B, A, En), By(1, 2, 3)),
            (Used(A), At(0, 0)),
            (Used(B), At(0, 1)),
            (Used(C), At(1, 0)),
            (Enabled(B, Hard, false), At(0, 1)),
        ],
    },
    Row {
        about: "what isn't there has no origin",
        traces: &[&[Write(A), Write(B), Give(A), Write(C)]],
        facts: &[
            (Depends(B, C, En), By(0, 1, 3)),
            (Depends(A, C, En), Nowhere),
            (Depends(A, B, Er), Nowhere),
            (Depends(B, A, En), Nowhere),
            (Depends(A, 3, En), Nowhere),
            (Enabled(A, Hard, true), Nowhere),
            (UsedIn(A, Hard, false), Nowhere),
            (Used(3), Nowhere),
        ],
    },
    Row {
        about: "of two held locks of a key it is the newest",
        traces: &[&[Reread(A), Write(B), Reread(A), Give(B), Write(C)]],
        facts: &[
            (Depends(A, C, Sn), By(0, 2, 4)),
            (Depends(B, A, Er), By(0, 1, 2)),
            (Depends(B, C, En), Nowhere),
        ],
    },
    Row {
        about: "the newest that is left is the one",
        traces: &[&[Reread(A), Reread(A), Give(A), Write(B)]],
        facts: &[
            (Depends(A, B, Sn), By(0, 0, 3)),
            (Depends(A, A, Sr), By(0, 0, 1)),
        ],
    },
    Row {
        about: "a release takes out the place of its own lock",
        traces: &[&[
            Write(A),
            TurnOn(Hard),
            Write(B),
            Give(A),
            Write(C),
            Give(B),
            Write(A),
        ]],
        facts: &[
            (Depends(B, C, En), By(0, 2, 4)),
            (Depends(C, A, En), By(0, 4, 6)),
            (Depends(B, A, En), Nowhere),
        ],
    },
    Row {
        about: "held locks are those of the frame",
        traces: &[&[Write(A), Enter(Hard), Write(B), Write(C)]],
        facts: &[
            (Depends(B, C, En), By(0, 2, 3)),
            (Depends(A, C, En), Nowhere),
            (UsedIn(B, Hard, false), At(0, 2)),
            (Enabled(A, Hard, false), At(0, 0)),
            (Enabled(B, Hard, false), Nowhere),
        ],
    },
    Row {
        about: "an opening is where a held lock is marked",
        traces: &[&[
            TurnOff(Hard),
            TurnOff(Soft),
            Reread(A),
            Reread(A),
            Write(B),
            TurnOn(Hard),
            TurnOn(Soft),
            Write(C),
        ]],
        facts: &[
            (Used(A), At(0, 2)),
            (Enabled(A, Hard, true), By(0, 3, 5)),
            (Enabled(B, Hard, false), By(0, 4, 5)),
            (Enabled(A, Soft, true), By(0, 3, 6)),
            (Enabled(C, Soft, false), At(0, 7)),
            (Enabled(C, Hard, true), Nowhere),
        ],
    },
    Row {
        about: "a try begins dependencies and ends none",
        traces: &[&[TryWrite(A), Write(B), TryRead(C), Give(B), Give(A)]],
        facts: &[
            (Depends(A, B, En), By(0, 0, 1)),
            (Depends(A, C, En), Nowhere),
            (Depends(B, C, En), Nowhere),
            (Used(C), At(0, 2)),
        ],
    },
];

// Asks about a fact, if its keys are below the bound.
fn ask(asked: &mut Asked, fact: Fact) {
    if fact.is_below(asked.keys()) {
        asked.add(fact);
    }
}

// These facts of three keys.
fn asked_about(alloc: Global, facts: &[Known]) -> Option<Asked> {
    let mut asked = Asked::new(alloc, 3).ok()?;
    for (fact, _) in facts {
        ask(&mut asked, fact.fact());
    }
    Some(asked)
}

// Whether a run completes traces of three keys, so that they are well formed.
fn are_run<R: Threads + Wait + Sync + Abort>(rt: &R, alloc: Global, traces: &[RawTrace]) -> bool
    ensures well_formed { IsTrue result → All IsWellFormed traces.now }
    ensures few { IsTrue result → length traces.now ≤ MAX_TRACES }
{
    assert!(rt; traces.iter().all(|trace| trace.keys_below(3)));
    match run(rt, alloc, traces, 3, 1, &OpenGate) {
        Ok(_) => true,
        Err(_) => false,
    }
}

// What traces of three keys say about these facts.
fn evidence_of<R: Threads + Wait + Sync + Abort>(
    rt: &R,
    alloc: Global,
    traces: &[RawTrace],
    facts: &[Known],
) -> Option<Evidence> {
    let asked = asked_about(alloc, facts)?;
    if are_run(rt, alloc, traces) {
        Evidence::of(alloc, traces, Naming::Own, &asked).ok()
    } else {
        None
    }
}

fn are_known(origins: &Origins, facts: &[Known]) -> bool {
    facts.iter().all(|(fact, place)| origins.origin(fact.fact()) == place.origin())
}

fn is_as_told<R: Threads + Wait + Sync + Abort>(rt: &R, alloc: Global, row: &Row) -> Option<bool> {
    let traces = traces_of(alloc, row.traces, 1)?;
    let evidence = evidence_of(rt, alloc, &traces, row.facts)?;
    Some(are_known(&evidence.origins, row.facts))
}

// The first of these whose facts come from elsewhere.
fn misfit<R: Threads + Wait + Sync + Abort>(
    rt: &R,
    alloc: Global,
    rows: &[Row],
) -> Option<&'static str> {
    rows.iter()
        .find(|row| is_as_told(rt, alloc, row) != Some(true))
        .map(|row| row.about)
}

#[test]
fn facts_have_their_origins(rt: HostRuntime) {
    assert_eq!(rt; misfit(&rt, rt.alloc(), &ROWS), None);
}
