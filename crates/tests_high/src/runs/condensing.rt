//! That condensing refuses none of the facts that traces have, and which trace small sets of facts give.

use super::run_over;
use ld_run::{CondenseFault, OpenGate, Settled, condense};
use ld_task::TaskState;
use ld_trace::Irq::{Hard, Soft};
use ld_trace::{Event, KeyId, Mode, RawTrace};
use std::alloc::Global;
use std::process::Abort;
use std::sync::Wait;
use std::test::Fail;
use std::thread::Threads;
use tests_low::steps::Step::{Enter, Give, Leave, Reread, TurnOff, TurnOn, Write};
use tests_low::steps::{A, B, BOTH_ORDERS, C, Step, trace_in_parts, traces_of};

// Traces, and the trace that has their facts, with the last key first, in parts.
struct Row {
    about: &'static str,
    keys: u16,
    traces: &'static [&'static [Step]],
    trace: &'static [&'static [Step]],
}

static ROWS: [Row; 4] = [
    Row {
        about: "no facts at all",
        keys: 3,
        traces: &[],
        trace: &[
            &[TurnOff(Hard), TurnOn(Hard)],
            &[TurnOff(Soft), TurnOn(Soft)],
        ],
    },
    Row {
        about: "two locks in both orders",
        keys: 2,
        traces: BOTH_ORDERS,
        trace: &[
            &[TurnOff(Hard), Write(B), Write(A), Give(A), Give(B)],
            &[Write(A), Write(B), Give(B), Give(A), TurnOn(Hard)],
            &[TurnOff(Soft), Write(B), Give(B)],
            &[Write(A), Give(A), TurnOn(Soft)],
            &[Write(B), Give(B), Write(A), Give(A)],
        ],
    },
    Row {
        about: "each kind of dependency",
        keys: 3,
        traces: &[&[
            TurnOff(Hard),
            Write(A),
            Write(B),
            Reread(B),
            Give(B),
            Give(B),
            Give(A),
            Reread(A),
            Write(B),
            Reread(B),
            Give(B),
            Give(B),
            Give(A),
            Write(C),
        ]],
        trace: &[
            &[TurnOff(Hard), Write(C), Give(C)],
            &[Write(B), Reread(B), Give(B), Give(B)],
            &[Write(A), Reread(B), Give(B), Write(B), Give(B), Give(A)],
            &[Reread(A), Reread(B), Give(B), Write(B), Give(B), Give(A)],
            &[TurnOn(Hard), TurnOff(Soft), TurnOn(Soft)],
        ],
    },
    Row {
        about: "each mark",
        keys: 3,
        traces: &[&[
            TurnOff(Soft),
            Write(A),
            Give(A),
            TurnOn(Soft),
            Reread(B),
            Give(B),
            Enter(Hard),
            Reread(A),
            Give(A),
            Leave,
            Enter(Soft),
            TurnOff(Hard),
            Write(C),
            Give(C),
            Leave,
        ]],
        trace: &[
            &[TurnOff(Hard), Write(C), Give(C), Write(B), Give(B)],
            &[Write(A), Give(A), TurnOn(Hard)],
            &[TurnOff(Soft), Reread(B), Give(B)],
            &[Write(A), Give(A), TurnOn(Soft)],
            &[Reread(B), Give(B)],
            &[Enter(Hard), Reread(A), Give(A), Leave],
            &[Enter(Soft), TurnOff(Hard), Write(C), Give(C), Leave],
        ],
    },
];

// The keys below the bound, the last first.
fn backwards(alloc: Global, keys: u16) -> Option<Vec<KeyId>> {
    let mut order = Vec::new(alloc);
    for number in (0..keys).rev() {
        order.push(KeyId::new(number)?).ok()?;
    }
    Some(order)
}

// The facts of the traces.
fn settled_of<R: Threads + Wait + Sync + Abort>(
    rt: &R,
    alloc: Global,
    traces: &[RawTrace],
    keys: u16,
) -> Option<Settled> {
    run_over(rt, alloc, traces, keys, 2, &OpenGate).ok()
}

// The facts of one trace.
fn settled_of_one<R: Threads + Wait + Sync + Abort>(
    rt: &R,
    alloc: Global,
    trace: RawTrace,
    keys: u16,
) -> Option<Settled> {
    let mut traces = Vec::new(alloc);
    traces.push(trace).ok()?;
    settled_of(rt, alloc, &traces, keys)
}

// Condenses. None if condensing the result again gives another trace, or if it has other facts.
fn condensed<R: Threads + Wait + Sync + Abort>(
    rt: &R,
    alloc: Global,
    settled: &Settled,
) -> Option<RawTrace> {
    let keys = settled.facts().keys();
    let order = backwards(alloc, keys)?;
    let once = condense(alloc, settled, &order).ok()?;
    let again = condense(alloc, settled, &order).ok()?;
    let of_once = settled_of_one(rt, alloc, again, keys)?;
    let twice = condense(alloc, &of_once, &order).ok()?;
    let same = of_once.facts().same(settled.facts()) && of_once.is_clean() == settled.is_clean();
    if same && once.as_slice() == twice.as_slice() {
        Some(once)
    } else {
        None
    }
}

fn is_condensed<R: Threads + Wait + Sync + Abort>(
    rt: &R,
    alloc: Global,
    row: &Row,
) -> Option<bool> {
    let traces = traces_of(alloc, row.traces, 1)?;
    let settled = settled_of(rt, alloc, &traces, row.keys)?;
    let trace = condensed(rt, alloc, &settled)?;
    Some(trace.as_slice() == trace_in_parts(alloc, row.trace)?.as_slice())
}

// The first of these whose facts are condensed to another trace.
fn misfit<R: Threads + Wait + Sync + Abort>(
    rt: &R,
    alloc: Global,
    rows: &[Row],
) -> Option<&'static str> {
    rows.iter()
        .find(|row| is_condensed(rt, alloc, row) != Some(true))
        .map(|row| row.about)
}

#[test]
fn small_facts_are_condensed(rt: HostRuntime) {
    assert_eq!(rt; misfit(&rt, rt.alloc(), &ROWS), None);
}

// Why facts aren't condensed in an order that lacks a key.
fn lacking<R: Threads + Wait + Sync + Abort>(rt: &R, alloc: Global) -> Option<CondenseFault> {
    let traces = traces_of(alloc, &[&[Write(A), Write(B)]], 1)?;
    let settled = settled_of(rt, alloc, &traces, 2)?;
    condense(alloc, &settled, &backwards(alloc, 1)?).err()
}

#[test]
fn an_order_that_lacks_a_key(rt: HostRuntime) {
    assert_eq!(rt; lacking(&rt, rt.alloc()), Some(CondenseFault::Unequal));
}

// Numbers that look random, the same in every run.
#[derive(Drop)]
struct Chance {
    state: u32,
}

impl Chance {
    ghost use Rattle.std.specs.Prelude.{◌<◌};

    fn below(&mut self, bound: u32) -> u32
        requires { 0 < bound }
        ensures { result < bound }
    {
        self.state = self
            .state
            .wrapping_mul(1_664_525)
            .wrapping_add(1_013_904_223);
        (self.state >> 8) % bound
    }
}

// An event of one of five keys.
fn any_event(chance: &mut Chance) -> Event {
    let key = KeyId::new(chance.below(5) as u16).unwrap_or(KeyId::default());
    let irq = if chance.below(2) == 0 { Hard } else { Soft };
    match chance.below(12) {
        0 | 1 | 2 | 3 => Event::Acquire {
            mode: any_mode(chance),
            key,
        },
        4 | 5 | 6 => Event::Release { key },
        7 => Event::Enter { irq },
        8 => Event::Leave,
        9 => Event::TurnOff { irq },
        _ => Event::TurnOn { irq },
    }
}

fn any_mode(chance: &mut Chance) -> Mode {
    match chance.below(8) {
        0 | 1 => Mode::Write,
        2 => Mode::Read,
        3 | 4 => Mode::RecRead,
        5 => Mode::TryWrite,
        6 => Mode::TryRead,
        _ => Mode::TryRecRead,
    }
}

// A well-formed trace of up to `tried` events: of those tried, the ones that are allowed.
fn any_trace(alloc: Global, chance: &mut Chance, tried: usize) -> Result<RawTrace, Fail> {
    let mut events = Vec::new(alloc);
    let mut state = TaskState::new();
    for _ in 0..tried {
        let event = any_event(chance);
        if state.step(event).is_ok() {
            events.push(event)?;
        }
    }
    Ok(RawTrace::from_events(events).ok_or("too many events")?)
}

fn any_traces(alloc: Global, chance: &mut Chance, turn: usize) -> Result<Vec<RawTrace>, Fail> {
    let mut traces = Vec::new(alloc);
    for _ in 0..turn % 4 + 1 {
        traces.push(any_trace(alloc, chance, turn.saturating_add(20))?)?;
    }
    Ok(traces)
}

// Whether the facts of the traces of five keys are condensed.
fn are_condensed<R: Threads + Wait + Sync + Abort>(
    rt: &R,
    alloc: Global,
    traces: &[RawTrace],
) -> Option<bool> {
    condensed(rt, alloc, &settled_of(rt, alloc, traces, 5)?)?;
    Some(true)
}

#[test]
fn the_facts_of_any_traces(rt: HostRuntime) -> Result<(), Fail> {
    let mut chance = Chance { state: 1 };
    for turn in 0..60 {
        let traces = any_traces(rt.alloc(), &mut chance, turn)?;
        assert!(rt; are_condensed(&rt, rt.alloc(), &traces) == Some(true));
    }
    Ok(())
}

#[test]
fn want_of_memory_in_condensing(rt: HostRuntime) -> Result<(), Fail> {
    let settled = run_over(&rt, rt.alloc(), &[], 2, 1, &OpenGate);
    let settled = match settled {
        Ok(settled) => settled,
        Err(_) => run_over(&rt, rt.alloc(), &[], 2, 1, &OpenGate)?,
    };
    let trace = match condense(rt.alloc(), &settled, &[]) {
        Ok(trace) => trace,
        Err(fault) => {
            println!(&rt; "refused: {}", fault.code())?;
            assert_eq!(rt; fault, CondenseFault::Memory);
            condense(rt.alloc(), &settled, &[])?
        }
    };
    assert!(rt; trace.len() == 4);
    Ok(())
}
