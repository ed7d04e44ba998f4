//! Runs over small traces.

mod condensing;
pub(crate) mod gates;
mod runs;
mod settling;
mod want_of_memory;

use ld_run::{Gate, RunFault, Settled, run};
use ld_trace::{MAX_KEYS, RawTrace};
use std::alloc::Global;
use std::process::Abort;
use std::sync::Wait;
use std::thread::Threads;

// The run, over traces whose keys are below this bound.
pub(crate) fn run_over<R: Threads + Wait + Sync + Abort, G: Gate + Sync>(
    rt: &R,
    alloc: Global,
    traces: &[RawTrace],
    keys: u16,
    workers: u16,
    gate: &G,
) -> Result<Settled, RunFault> {
    assert!(rt; keys <= MAX_KEYS && traces.iter().all(|trace| trace.keys_below(keys)));
    run(rt, alloc, traces, keys, workers, gate)
}
