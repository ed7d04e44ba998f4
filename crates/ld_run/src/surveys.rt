//! A survey: a run over traces of many keys; and the facts of traces without a graph.

ghost use Rattle.std.specs.Prelude.{◌≡◌, ◌≤◌, ℕ, [], All, IfErr, IfOk, IsErrOf, length, map, slice_index};
ghost use Rattle.ld_trace.specs.Classes.{name_by, numbers_at};
ghost use Rattle.ld_trace.specs.TakingIn.{with_all};
ghost use Rattle.ld_trace.specs.declared.key_id.TheConstants.{MAX_KEYS};
ghost use Rattle.ld_trace.specs.Events.{KeysBelow};
ghost use Rattle.ld_run.specs.Runs.{CompletesRun, CompletesRunBy, IsCrew, StopsRun};
ghost use Rattle.ld_run.specs.Inside.Walked.{CallsBelow, CompletesCalled};

use crate::fault::{RunFault, refused_by};
use crate::runs::allow;
use crate::shares::{Unwalked, facts_of_all, useful_threads};
use ld_facts::Facts;
use ld_parts::{PartedGraph, PartingFault, Settled};
use ld_trace::{KeyTable, Level, MAX_TRACES, RawTrace, Renaming};
use std::alloc::Global;
use std::thread::Threads;

/// The facts of all traces together, whose keys are below `keys`: each worker walks its share of the traces, and what they
/// gather is united. No graph is made of them.
///
/// The caller makes sure that all keys of the traces are below `keys`, and that `keys` is at most 8,192.
///
/// Refusals, in this order: N1 if `workers` isn't 1 to 64; N2 if there are more than 4,096 traces; N4 if memory is refused;
/// N5 if a trace isn't well formed, with the first such trace and its first event that isn't allowed.
pub fn facts_of<R: Threads + Sync>(
    rt: &R,
    alloc: Global,
    traces: &[RawTrace],
    keys: u16,
    workers: u16,
) -> Result<Facts, RunFault>
    requires few { keys ≤ MAX_KEYS }
    requires below { All (KeysBelow keys) traces.now }
    ensures ok { IfOk result (CompletesRun traces.now workers) }
    ensures keys { IfOk result (λ facts. facts.keys ≡ keys) }
    ensures no_graph { ¬ IsErrOf result RunFault.Unsettled × ¬ IsErrOf result RunFault.TooTangled }
    ensures refused { IfErr result (StopsRun traces.now keys workers) }
{
    allow(workers, traces)?; // before memory is asked for
    gathered(rt, alloc, traces, None, keys, usize::from(workers))
}

/// The same by what the keys of the traces are called at a level, which is returned too; `names` are their names.
///
/// The caller makes sure that all keys of the traces have names. Refusals are those of `facts_of`.
pub fn facts_at<R: Threads + Sync>(
    rt: &R,
    alloc: Global,
    traces: &[RawTrace],
    names: &KeyTable,
    level: Level,
    workers: u16,
) -> Result<(Facts, Renaming), RunFault>
    requires below { All (KeysBelow (length names.now.names)) traces.now }
    ensures ok { IfOk result (λ found. CompletesRunBy (slice_index found.1.keys.items) traces.now workers found.0) }
    ensures keys { IfOk result (λ found. found.0.keys ≡ length found.1.names.names) }
    ensures names { IfOk result (λ found. found.1.names.names ≡ with_all [] (map (name_by level) names.now.names)) }
    ensures numbers { IfOk result (λ found. found.1.keys.items ≡ numbers_at level names.now.names found.1.names.names) }
    ensures no_graph { ¬ IsErrOf result RunFault.Unsettled × ¬ IsErrOf result RunFault.TooTangled }
    ensures refused { IfErr result (StopsRun traces.now (length names.now.names) workers) }
{
    ld_facts::renamed_facts_are_the_image();
    allow(workers, traces)?;
    let Ok(by) = Renaming::of(alloc, names, level) else {
        return Err(RunFault::Memory);
    };
    let keys = by.names.len() as u16;
    let others = Some(by.keys.as_slice());
    let facts = gathered(rt, alloc, traces, others, keys, usize::from(workers))?;
    Ok((facts, by))
}

// The facts by what the keys are called, for numbers of workers and traces that are allowed.
fn gathered<R: Threads + Sync>(
    rt: &R,
    alloc: Global,
    traces: &[RawTrace],
    others: Option<&[u16]>,
    keys: u16,
    workers: usize,
) -> Result<Facts, RunFault>
    requires few { keys ≤ MAX_KEYS }
    requires below { All (CallsBelow others keys) traces.now }
    requires crew { IsCrew workers }
    requires traces { length traces.now ≤ MAX_TRACES }
    ensures ok { IfOk result (CompletesCalled others.entry traces.now workers) }
    ensures keys { IfOk result (λ facts. facts.keys ≡ keys) }
    ensures allowed { ¬ IsErrOf result RunFault.BadWorkers × ¬ IsErrOf result RunFault.TooManyTraces }
    ensures no_graph { ¬ IsErrOf result RunFault.Unsettled × ¬ IsErrOf result RunFault.TooTangled }
    ensures refused { (bound : ℕ) → IfErr result (StopsRun traces.now bound workers) }
{
    let threads = useful_threads(traces, keys, workers);
    match facts_of_all(rt, alloc, traces, others, keys, threads) {
        Ok(facts) => Ok(facts),
        Err(Unwalked::Memory) => Err(RunFault::Memory),
        Err(Unwalked::Refused { trace, first }) => Err(refused_by(trace, first)),
    }
}

// The run, for numbers of workers and traces that are allowed, if the keys can be split into parts of at most 256.
pub(crate) fn survey<R: Threads + Sync>(
    rt: &R,
    alloc: Global,
    traces: &[RawTrace],
    keys: u16,
    workers: usize,
) -> Result<Settled, RunFault>
    requires few { keys ≤ MAX_KEYS }
    requires below { All (KeysBelow keys) traces.now }
    requires crew { IsCrew workers }
    requires traces { length traces.now ≤ MAX_TRACES }
    ensures ok { IfOk result (CompletesRun traces.now workers) }
    ensures keys { IfOk result (λ settled. settled.keys ≡ keys) }
    ensures allowed { ¬ IsErrOf result RunFault.BadWorkers × ¬ IsErrOf result RunFault.TooManyTraces }
    ensures refused { IfErr result (StopsRun traces.now keys workers) }
{
    let facts = gathered(rt, alloc, traces, None, keys, workers)?;
    match PartedGraph::new(alloc, facts) {
        Ok(graph) => Ok(Settled::by_rank(graph)),
        Err(PartingFault::TooTangled) => Err(RunFault::TooTangled),
        Err(PartingFault::Memory) => Err(RunFault::Memory),
    }
}
