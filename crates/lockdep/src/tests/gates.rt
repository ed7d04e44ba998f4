//! Sessions whose gate shows that the workers really run side by side.

use crate::tests::helpers::{session_of, text_in};
use ld_run::Gate;
use std::sync::atomic::{AtomicBool, AtomicU64, Ordering};
use std::test::Fail;

// What one of the two workers did at the gate.
#[derive(Drop)]
struct Visit {
    calls: AtomicU64,
    here: AtomicBool,
}

impl Visit {
    fn none() -> Visit {
        Visit {
            calls: AtomicU64::new(0),
            here: AtomicBool::new(false),
        }
    }
}

// A gate in which the workers of two traces wait for one another.
#[derive(Drop)]
struct Meeting {
    first: Visit,
    second: Visit,
    missed: AtomicBool,
}

impl Gate for Meeting {
    fn before_record(&self, trace: usize, number: u64) {
        if trace > 1 || number > 0 {
            self.missed.store(true, Ordering::SeqCst);
            return;
        }
        let (mine, other) = if trace == 0 {
            (&self.first, &self.second)
        } else {
            (&self.second, &self.first)
        };
        mine.calls.fetch_add(1, Ordering::SeqCst);
        mine.here.store(true, Ordering::SeqCst);
        for _ in 0..1_000_000_000 {
            if other.here.load(Ordering::SeqCst) {
                return;
            }
        }
        self.missed.store(true, Ordering::SeqCst);
    }
}

// The report of two locks that were taken by two tasks.
const REPORT: &str =
    "traces 2\nevents 2\nkeys 2\ndependencies 0\nclean yes\nusage A/0 {+.+.}\nusage B/0 {+.+.}\n";

#[test]
fn two_workers_meet_in_the_gate(rt: HostRuntime) -> Result<(), Fail> {
    let session = session_of(rt.alloc(), &["1 acq,A,0,w", "1 acq,B,0,w"])?;
    let gate = Meeting {
        first: Visit::none(),
        second: Visit::none(),
        missed: AtomicBool::new(false),
    };
    let mut text = Vec::new(rt.alloc());
    let returned = session.report(&rt, rt.alloc(), 2, &gate, &mut text);
    let visits = (
        gate.first.calls.load(Ordering::SeqCst),
        gate.second.calls.load(Ordering::SeqCst),
        gate.missed.load(Ordering::SeqCst),
    );
    assert_eq!(rt;
        (returned, text_in(text.as_slice()), visits),
        (Ok(true), REPORT, (1, 1, false))
    );
    Ok(())
}
