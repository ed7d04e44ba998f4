//! The verdicts of a session's traces: the findings between types of locks, each with what it was seen between.

ghost use Rattle.std.specs.Prelude.{◌<◌, ◌≡◌, ◌≤◌, All, Err, IfErr, IfOk, List, OnOk, Option, length, map, ℕ};
ghost use Rattle.lockdep.specs.Names.{Appends, AreLevels, AreTypes, IsCrew, IsWellFormed, KeysBelow, StopsWriting, Text};
ghost use Rattle.lockdep.specs.Clauses.{IsTextOfVerdicts, SaysVerdicts, StopsVerdicts, WritesVerdicts, fault_of_parting};

use crate::fault::ReportFault;
use crate::request::VerdictRequest;
use crate::settled::run_fault;
use ld_explain::{SettledLevels, SettledTypes, Verdict, has_finding};
use ld_parts::PartingFault;
use ld_run::{MAX_TRACES, RunFault, facts_at, facts_of};
use ld_text::{Format, VerdictFormat, WriteFault, verdicts_of_traces, write_verdicts};
use ld_trace::{KeyTable, Level, RawTrace};
use std::alloc::Global;
use std::io::Write;
use std::thread::Threads;

// The facts of the traces, settled at each level of what their locks are called. Each circle of single locks has an image among their
// types, so if nothing was found between these, the facts of single locks aren't gathered.
fn levels_of<R: Threads + Sync>(
    rt: &R,
    alloc: Global,
    workers: u16,
    traces: &[RawTrace],
    keys: &KeyTable,
) -> Result<SettledLevels, ReportFault>
    requires { All (KeysBelow (length keys.now.names)) traces.now }
    ensures levels { IfOk result (AreLevels traces.now keys.now.names) }
    ensures ok { OnOk result (IsCrew workers × (length traces.now ≤ MAX_TRACES) × All IsWellFormed traces.now) }
    ensures refused { IfErr result (λ fault. (known : Option (List ℕ)) (format : Format) (files : List Text)
        → StopsVerdicts format files keys.now.names traces.now workers known known fault) }
{
    let types = types_of(rt, alloc, workers, traces, keys)?;
    if types.is_clean() {
        return match SettledLevels::of_clean_types(alloc, types, keys) {
            Ok(levels) => Ok(levels),
            Err(_) => Err(ReportFault::Run(RunFault::Memory)),
        };
    }
    let facts = match facts_of(rt, alloc, traces, keys.len() as u16, workers) {
        Ok(facts) => facts,
        Err(fault) => return Err(run_fault(fault, traces)),
    };
    match SettledLevels::of(alloc, types, facts, keys) {
        Ok(levels) => Ok(levels),
        Err(_) => Err(ReportFault::Run(RunFault::Memory)),
    }
}

// The facts of the traces, settled between the types of their locks.
fn types_of<R: Threads + Sync>(
    rt: &R,
    alloc: Global,
    workers: u16,
    traces: &[RawTrace],
    keys: &KeyTable,
) -> Result<SettledTypes, ReportFault>
    requires { All (KeysBelow (length keys.now.names)) traces.now }
    ensures types { IfOk result (AreTypes traces.now keys.now.names) }
    ensures ok { OnOk result (IsCrew workers × (length traces.now ≤ MAX_TRACES) × All IsWellFormed traces.now) }
    ensures refused { IfErr result (λ fault. (known : Option (List ℕ)) (format : Format) (files : List Text)
        → StopsVerdicts format files keys.now.names traces.now workers known known fault) }
{
    let (facts, by_type) = match facts_at(rt, alloc, traces, keys, Level::Types, workers) {
        Ok(found) => found,
        Err(fault) => return Err(run_fault(fault, traces)),
    };
    match SettledTypes::of(alloc, facts, by_type) {
        Ok(types) => Ok(types),
        Err(fault) => Err(ReportFault::Run(fault_of_parting(fault))),
    }
}

// The fault of a run whose types can't be settled.
fn fault_of_parting(fault: PartingFault) -> RunFault
    ensures { result ≡ fault_of_parting fault }
{
    match fault {
        PartingFault::TooTangled => RunFault::TooTangled,
        PartingFault::Memory => RunFault::Memory,
    }
}

/// Writes the verdicts of these traces of the files, and returns whether one of them counts. Refusals are those of `Session::write`
/// for an explanation, but that M1 is of the types alone.
pub(crate) fn write_verdicts_of<R: Threads + Sync, W: Write>(
    rt: &R,
    alloc: Global,
    workers: u16,
    traces: &[RawTrace],
    keys: &KeyTable,
    request: VerdictRequest<'_, '_>,
    w: &mut W,
) -> Result<bool, ReportFault>
    requires { All (KeysBelow (length keys.now.names)) traces.now }
    ensures ok { IfOk result (WritesVerdicts request.entry.format request.entry.confirmed_only
        (map (λ file. file.now) request.entry.files.now) keys.now.names traces.now (W.contents w.old) (W.contents w.new)) }
    ensures crew { OnOk result (IsCrew workers × (length traces.now ≤ MAX_TRACES) × All IsWellFormed traces.now) }
    ensures refused { IfErr result (StopsVerdicts request.entry.format (map (λ file. file.now) request.entry.files.now)
        keys.now.names traces.now workers (W.contents w.old) (W.contents w.new)) }
{
    let levels = levels_of(rt, alloc, workers, traces, keys)?;
    match write_levels(alloc, &levels, traces, keys, request, w) {
        Ok(found) => Ok(found),
        Err(fault) => Err(ReportFault::Out(fault)),
    }
}

// Writes the verdicts of traces that are settled so, and returns whether one of them counts.
fn write_levels<W: Write>(
    alloc: Global,
    levels: &SettledLevels,
    traces: &[RawTrace],
    keys: &KeyTable,
    request: VerdictRequest<'_, '_>,
    w: &mut W,
) -> Result<bool, WriteFault>
    requires few { length traces.now ≤ MAX_TRACES }
    requires well_formed { All IsWellFormed traces.now }
    requires levels { AreLevels traces.now keys.now.names levels.now }
    ensures ok { IfOk result (WritesVerdicts request.entry.format request.entry.confirmed_only
        (map (λ file. file.now) request.entry.files.now) keys.now.names traces.now (W.contents w.old) (W.contents w.new)) }
    ensures err { IfErr result (StopsWriting (SaysVerdicts request.entry.format traces.now keys.now.names
        (map (λ file. file.now) request.entry.files.now)) (W.contents w.old) (W.contents w.new)) }
{
    let Ok(verdicts) = verdicts_of_traces(alloc, levels, traces, keys) else {
        return Err(WriteFault::Memory);
    };
    write_in_format(alloc, levels, &verdicts, traces, keys, request, w)?;
    Ok(has_finding(&verdicts, request.confirmed_only))
}

// Writes these verdicts of the traces as it is asked for: as lines, or as JSON with their whereabouts.
fn write_in_format<W: Write>(
    alloc: Global,
    levels: &SettledLevels,
    verdicts: &[Verdict],
    traces: &[RawTrace],
    keys: &KeyTable,
    request: VerdictRequest<'_, '_>,
    w: &mut W,
) -> Result<(), WriteFault>
    requires few { length traces.now ≤ MAX_TRACES }
    requires well_formed { All IsWellFormed traces.now }
    requires levels { AreLevels traces.now keys.now.names levels.now }
    ensures ok { OnOk result ((text : List ℕ) × IsTextOfVerdicts request.entry.format traces.now keys.now.names
        (map (λ file. file.now) request.entry.files.now) verdicts.now text × Appends (W.contents w.old) (W.contents w.new) text) }
    ensures err { IfErr result (StopsWriting (IsTextOfVerdicts request.entry.format traces.now keys.now.names
        (map (λ file. file.now) request.entry.files.now) verdicts.now) (W.contents w.old) (W.contents w.new)) }
{
    let types = levels.type_names();
    match request.format {
        Format::Lines => {
            let format = VerdictFormat::Lines;
            write_verdicts(
                alloc,
                w,
                verdicts,
                traces,
                types,
                keys,
                request.files,
                format,
            )
        }
        Format::Json => {
            let Ok(whereabouts) = levels.whereabouts(alloc, traces, verdicts) else {
                return Err(WriteFault::Memory);
            };
            let format = VerdictFormat::Json(&whereabouts);
            write_verdicts(
                alloc,
                w,
                verdicts,
                traces,
                types,
                keys,
                request.files,
                format,
            )
        }
    }
}
