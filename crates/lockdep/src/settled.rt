//! What is settled about the traces of a session.

ghost use Rattle.std.specs.Prelude.{◌+◌, ◌<◌, ◌≡◌, ◌≢◌, All, IfErr, IfOk, IsSomeAnd, List, Option, length, slice_get, ℕ};
ghost use Rattle.lockdep.specs.Names.{CompletesRun, Format, KeysBelow, Name, StopsRun, Text};
ghost use Rattle.lockdep.specs.Clauses.{OutputView, StopsText, StopsVerdicts};

use crate::fault::ReportFault;
use ld_run::{Gate, RunFault, Settled, run};
use ld_trace::{KeyTable, RawTrace};
use std::alloc::Global;
use std::sync::Wait;
use std::thread::Threads;

/// The facts of the traces, by a run of the workers, and what they mean.
pub(crate) fn settled_of<R: Threads + Wait + Sync, G: Gate + Sync>(
    rt: &R,
    alloc: Global,
    workers: u16,
    gate: &G,
    traces: &[RawTrace],
    keys: &KeyTable,
) -> Result<Settled, ReportFault>
    requires { All (KeysBelow (length keys.now.names)) traces.now }
    ensures ok { IfOk result (CompletesRun traces.now workers) }
    ensures keys { IfOk result (λ settled. settled.keys ≡ length keys.now.names) }
    ensures refused { IfErr result (λ fault. (known : Option (List ℕ)) (output : OutputView)
        → StopsText output traces.now keys.now.names workers known known fault) }
{
    match run(rt, alloc, traces, keys.len() as u16, workers, gate) {
        Ok(settled) => Ok(settled),
        Err(fault) => Err(run_fault(fault, traces)),
    }
}

// The fault of a session whose run was refused.
pub(crate) fn run_fault(fault: RunFault, traces: &[RawTrace]) -> ReportFault
    requires { (keys : ℕ) × (workers : ℕ) × StopsRun traces.now keys workers fault }
    ensures text { (workers : ℕ) (known : Option (List ℕ)) (names : List Name) (output : OutputView)
        → StopsRun traces.now (length names) workers fault
        → StopsText output traces.now names workers known known result }
    ensures verdicts { (workers keys : ℕ) (known : Option (List ℕ)) (names : List Name) (format : Format) (files : List Text)
        → StopsRun traces.now keys workers fault → (fault ≢ RunFault.Unsettled) → (fault ≢ RunFault.TooTangled)
        → StopsVerdicts format files names traces.now workers known known result }
{
    match fault {
        RunFault::Refused {
            trace,
            place,
            fault,
        } => ReportFault::Step {
            trace,
            at: record_of(traces, trace, place),
            fault,
        },
        other => ReportFault::Run(other),
    }
}

// The number of the record of an event, counted from 1 with the header.
fn record_of(traces: &[RawTrace], trace: usize, place: usize) -> usize
    requires within { IsSomeAnd (slice_get traces.now trace) (λ refused. place < length refused) }
    ensures { result ≡ place + 2 }
{
    let Some(refused) = traces.get(trace) else {
        unreachable!();
    };
    prove!(place < refused.len());
    place + 2
}
