//! Traces that several threads read ahead.

ghost use Rattle.std.specs.Prelude.{None};

use ld_read::{ReadFault, Sources, Unread, read_all};
use ld_trace::{KeyId, KeyTable, RawTrace, TraceFault, TraceFaultKind, trace_text};
use std::alloc::{AllocError, Global};
use std::process::Abort;
use std::sync::Wait;
use std::sync::atomic::{AtomicBool, AtomicUsize, Ordering};
use std::thread::Threads;

// Texts as sources. If the first one is opened ahead, it waits there until another one is: so two are read at once. Those that are opened
// in their turn are counted.
#[derive(Drop)]
struct Texts<'t> {
    texts: &'t [&'t str],
    others: AtomicBool,
    met: AtomicBool,
    in_turn: AtomicUsize,
}

impl<'t> Texts<'t> {
    fn text(&self, place: usize) -> Option<&'t [u8]> {
        let text = *self.texts.get(place)?;
        Some(text.as_bytes())
    }

    fn wait_for_others(&self) {
        for _ in 0..1_000_000_000 {
            if self.others.load(Ordering::SeqCst) {
                self.met.store(true, Ordering::SeqCst);
                return;
            }
        }
    }
}

impl<'t> Sources for Texts<'t> {
    type Source = &'t [u8];

    ghost holds = { λ texts place. None };

    fn ahead(&self, place: usize) -> Option<&'t [u8]> {
        if place == 0 {
            self.wait_for_others();
        }
        if place > 0 {
            self.others.store(true, Ordering::SeqCst);
        }
        self.text(place)
    }

    fn open(&self, place: usize) -> Option<&'t [u8]> {
        self.in_turn.fetch_add(1, Ordering::SeqCst);
        self.text(place)
    }
}

// What stops a trace: the fault, and the record.
pub(crate) type Stop = Option<(TraceFaultKind, usize)>;

// Traces, how many of the first ones can be read; what stops the next one; and the names then.
type Case<'t> = (&'t [&'t str], usize, Stop, &'t [&'t str]);

static CASES: [Case<'_>; 4] = [
    (
        &[
            "lockdep,1\nacq,B,0,w\nrel,B,0\n",
            "lockdep,1\nacq,A,0,w\nacq,B,0,r\nrel,B,0\nrel,A,0\n",
            "lockdep,1\nenter,hardirq\nacq,C,1,rr\nrel,C,1\nacq,A,0,w\n",
        ],
        3,
        None,
        &["B", "A", "C"],
    ),
    (
        &[
            "lockdep,1\nacq,A,0,w\n",
            "lockdep,1\nacq,D,0,w\nacq,E,9,w\n",
            "lockdep,1\nacq,F,0,w\n",
        ],
        1,
        Some((TraceFaultKind::BadSub, 3)),
        &["A", "D"],
    ),
    (
        &[
            "lockdep,1\nacq,A,0,w\n",
            "lockdep,1\nacq,B,0,w\n",
            "lockdep,1\nacq,B,0,w\nacq,A,0,w\n",
            "lockdep,1\nacq,C,0,w\nacq,B,0,w\n",
            "lockdep,2\nacq,C,0,tw\n",
        ],
        5,
        None,
        &["A", "B", "C"],
    ),
    (
        &["lockdep\n", "lockdep,1\nacq,A,0,w\n"],
        0,
        Some((TraceFaultKind::NoHeader, 1)),
        &[],
    ),
];

// Whether the first texts are what the traces say.
fn are_written(
    alloc: Global,
    texts: &[&str],
    traces: &[RawTrace],
    keys: &KeyTable,
) -> Result<bool, AllocError> {
    for place in 0..traces.len() {
        let written = trace_text(alloc, &traces[place], keys)?;
        if texts.get(place).map(|text| text.as_bytes()) != Some(written.as_slice()) {
            return Ok(false);
        }
    }
    Ok(true)
}

// Whether these are the names of the table, in its order.
fn are_named(names: &[&str], keys: &KeyTable) -> bool {
    for place in 0..names.len() {
        let Ok(number) = u16::try_from(place) else {
            return false;
        };
        let found = KeyId::new(number).and_then(|key| keys.name_of(key));
        if found.map(|name| name.0) != Some(names[place]) {
            return false;
        }
    }
    names.len() == keys.len()
}

// Whether this many threads read of the sources the traces that are written like this, are stopped like this at the next one, and leave
// these names.
pub(crate) fn are_read<R: Threads + Sync, S: Sources + Sync>(
    rt: &R,
    alloc: Global,
    threads: usize,
    (sources, count): (&S, usize),
    (written, stop, names): (&[&str], Stop, &[&str]),
) -> Option<bool> {
    let mut keys = KeyTable::new(alloc).ok()?;
    let mut traces = Vec::new(alloc);
    let read = read_all(rt, alloc, threads, sources, count, &mut keys, &mut traces);
    let wanted = match stop {
        Some((kind, at)) => Err(Unread {
            place: written.len(),
            fault: ReadFault::Trace(TraceFault { kind, at }),
        }),
        None => Ok(()),
    };
    let same = are_written(alloc, written, traces.as_slice(), &keys).ok()?;
    let all = traces.len() == written.len() && same && are_named(names, &keys);
    Some(read == wanted && all)
}

// Whether this many threads give what the case says, whether two of them read at once, and how many texts were opened in their turn.
fn reads<R: Threads + Wait + Sync + Abort>(
    rt: &R,
    alloc: Global,
    threads: usize,
    case: &Case<'_>,
) -> Option<(bool, bool, usize)> {
    let (texts, count, stop, names) = *case;
    let sources = Texts {
        texts,
        others: AtomicBool::new(false),
        met: AtomicBool::new(false),
        in_turn: AtomicUsize::new(0),
    };
    let wanted = (texts.get(..count)?, stop, names);
    let right = are_read(rt, alloc, threads, (&sources, texts.len()), wanted)?;
    let met = sources.met.load(Ordering::SeqCst);
    Some((right, met, sources.in_turn.load(Ordering::SeqCst)))
}

// How many texts are opened in their turn: all that one thread reads; by several the first that is refused, if there is one.
fn opened_in_turn(threads: usize, case: &Case<'_>) -> usize {
    let read = if threads > 1 { 0 } else { case.1 };
    read.saturating_add(case.2.is_some() as usize)
}

#[test]
fn threads_read_as_one(rt: HostRuntime) {
    for case in &CASES {
        for threads in [1, 2, 4] {
            let got = reads(&rt, rt.alloc(), threads, case);
            let opened = opened_in_turn(threads, case);
            assert_eq!(rt; got, Some((true, threads > 1, opened)));
        }
    }
}

// Two texts in turn, at every place.
#[derive(Clone, Copy)]
struct InTurn;

static IN_TURN: [&str; 2] = ["lockdep,1\nacq,A,0,w\n", "lockdep,1\nacq,B,0,w\nrel,B,0\n"];

impl Sources for InTurn {
    type Source = &'static [u8];

    ghost holds = { λ texts place. None };

    fn ahead(&self, place: usize) -> Option<&'static [u8]> {
        self.open(place)
    }

    fn open(&self, place: usize) -> Option<&'static [u8]> {
        Some(IN_TURN[place % 2].as_bytes())
    }
}

// How many of 4,096 sources have the trace that is at its place, read by this many threads.
fn right_ones<R: Threads + Sync>(rt: &R, alloc: Global, threads: usize) -> Option<usize> {
    let mut keys = KeyTable::new(alloc).ok()?;
    let mut traces = Vec::new(alloc);
    read_all(rt, alloc, threads, &InTurn, 4096, &mut keys, &mut traces).ok()?;
    let events = traces.iter().map(|trace: &RawTrace| trace.len());
    Some(
        events
            .enumerate()
            .filter(|(place, len)| *len == place % 2 + 1)
            .count(),
    )
}

#[test]
fn as_many_as_a_run_takes_are_read(rt: HostRuntime) {
    for threads in [1, 4] {
        assert_eq!(rt; right_ones(&rt, rt.alloc(), threads), Some(4096));
    }
}
