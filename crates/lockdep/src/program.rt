//! The program: a command line, the traces that it names, and what is written for them.

ghost use Rattle.std.specs.Prelude.{[], ◌<◌, ◌≡◌, ◌≤◌, All, Bool, Err, IfErr, IfOk, List, Ok, OnOk, if◌then◌else◌, length, map, ℕ};
ghost use Rattle.lockdep.specs.Names.{Appends, IsCrew, IsLineFault, IsWellFormed, MAX_KEYS, MAX_TRACES};
ghost use Rattle.lockdep.specs.Clauses.{AreTracesOf, DoesLine, DoesVerdicts, DoesWords, IsReportRefusal, IsRunOf, Refusal, RefusesHelp, RefusesLine, RefusesNoLine, RefusesOutput, RefusesTraces, RefusesVerdicts, RefusesVerdictsOf, RefusesWords, StopsReading, WritesHelp, WritesOutput, WritesText, WritesVerdicts, output_asked, room_of, status_of, verdicts_asked, view_of, write_refusal_of};

use crate::chains::answer_chains;
use crate::fault::ReportFault;
use crate::output::Output;
use crate::refusal::{REFUSED, Refusal, Tells};
use crate::request::{OutputRequest, Request, VerdictRequest, request_of};
use crate::schedules::answer_schedules;
use crate::session::Session;
use crate::source::Source;
use crate::trace_files::{Adds, InTurn, add_trace};
use ld_run::OpenGate;
use ld_text::{STDIN, WriteFault, file_of, write_text};
use ld_trace::{GRAPH_KEYS, MAX_KEYS};
use ld_words::{Line, LineFault, command_line};
use std::alloc::Global;
use std::io::{Read, Write};
use std::rt::Files;
use std::sync::Wait;
use std::thread::Threads;

/// The status if the facts are clean, or if the condensed trace, the chains or help was written.
pub(crate) const DONE: u8 = 0;

/// The status if another output was written of facts that aren't clean, or if tasks stand still at a ring of a history.
pub(crate) const NOT_CLEAN: u8 = 1;

/// The program. The words begin with its name, `input` stands for standard input, `out` for standard output and `err` for
/// standard error. `lockdep check [--workers N] [--many] [FILE...]` writes the report of the traces in these files, `lockdep
/// explain [--json]` what was found in them and the records that it comes from, with `--locks` or `--confirmed-only` what
/// each finding was seen between, `lockdep graph [--findings]` a picture of their facts, `lockdep condense` one trace that
/// has exactly their facts, `lockdep schedule [--json] [FILE...]` whether recorded steps can stand still in another order, and
/// `lockdep chains [FILE]` the chains of a trace. Without a file one trace or history is read from the input. Each file is opened and read before the next one is. `lockdep --version` writes the version, and `lockdep help`
/// how the program is called.
///
/// The status is 0 if the facts are clean, if the condensed trace or the chains were written, or if help or the version was
/// asked for; 1 if a report, an explanation or a picture was written of facts that aren't clean, verdicts of which one
/// counts, or what is said of histories of which one can stand still; and 2 if the program refused.
/// Then `err` is told why, in exactly one line, and otherwise nothing; how telling it ends is ignored. This project's own.
pub fn program<R: Files + Threads + Wait + Sync, I: Read + Drop, O: Write, T: Tells>(
    rt: &R,
    alloc: Global,
    words: &[&str],
    input: I,
    out: &mut O,
    err: &mut T,
) -> u8
    ensures run { IsRunOf (map (λ word. word.now) words.entry.now) (I.remaining input)
        (O.contents out.old) (O.contents out.new) (λ refusal ended. T.tells err.old refusal ended err.new) result }
    ensures quiet { result < 2 → err.new ≡ err.old }
{
    run_program(rt, &InTurn { rt }, alloc, words, input, out, err)
}

/// The same program, and the same in every word, but the runtime reads the files: with several workers, or many small
/// files, later ones may be opened before an earlier one was read whole. What is written, and the status, are those of
/// reading them in turn; but if opening or reading one of several files fails ahead and then succeeds in its turn, that
/// isn't told.
pub fn program_side_by_side<
    R: Files + Adds + Threads + Wait + Sync,
    I: Read + Drop,
    O: Write,
    T: Tells,
>(rt: &R, alloc: Global, words: &[&str], input: I, out: &mut O, err: &mut T) -> u8
    ensures run { IsRunOf (map (λ word. word.now) words.entry.now) (I.remaining input)
        (O.contents out.old) (O.contents out.new) (λ refusal ended. T.tells err.old refusal ended err.new) result }
    ensures quiet { result < 2 → err.new ≡ err.old }
{
    run_program(rt, rt, alloc, words, input, out, err)
}

// The program, with this way to read files.
fn run_program<R: Files + Threads + Wait + Sync, A: Adds, I: Read + Drop, O: Write, T: Tells>(
    rt: &R,
    adds: &A,
    alloc: Global,
    words: &[&str],
    input: I,
    out: &mut O,
    err: &mut T,
) -> u8
    ensures run { IsRunOf (map (λ word. word.now) words.entry.now) (I.remaining input)
        (O.contents out.old) (O.contents out.new) (λ refusal ended. T.tells err.old refusal ended err.new) result }
    ensures quiet { result < 2 → err.new ≡ err.old }
{
    match answer_or_refuse(rt, adds, alloc, words, input, out, err) {
        Ok(status) => status,
        Err(_) => REFUSED,
    }
}

// Does what the words ask for, or tells why not, and returns the status; or how telling it failed, if it did.
fn answer_or_refuse<R: Files + Threads + Wait + Sync, A: Adds, I: Read + Drop, O: Write, T: Tells>(
    rt: &R,
    adds: &A,
    alloc: Global,
    words: &[&str],
    input: I,
    out: &mut O,
    err: &mut T,
) -> Result<u8, WriteFault>
    ensures status { IfOk result (λ status. status ≤ 2) }
    ensures done { IfOk result (λ status. status < 2 → DoesWords (map (λ word. word.now) words.entry.now) (I.remaining input)
        (O.contents out.old) (O.contents out.new) status) }
    ensures quiet { IfOk result (λ status. status < 2 → err.new ≡ err.old) }
    ensures refused { IfOk result (λ status. status ≡ 2 → (refusal : Refusal)
        × RefusesWords (map (λ word. word.now) words.entry.now) (I.remaining input)
        (O.contents out.old) (O.contents out.new) refusal × T.tells err.old refusal (Ok status) err.new) }

    // Nothing but telling the refusal ends like this.
    ensures untold { IfErr result (λ fault. (refusal : Refusal)
        × RefusesWords (map (λ word. word.now) words.entry.now) (I.remaining input)
        (O.contents out.old) (O.contents out.new) refusal × T.tells err.old refusal (Err fault) err.new) }
{
    match answer(rt, adds, alloc, words, input, out) {
        Ok(status) => Ok(status),
        Err(refusal) => err.tell(refusal),
    }
}

// Does what the words ask for, and returns the status.
fn answer<'a, R: Files + Threads + Wait + Sync, A: Adds, I: Read + Drop, O: Write>(
    rt: &R,
    adds: &A,
    alloc: Global,
    words: &'a [&'a str],
    input: I,
    out: &mut O,
) -> Result<u8, Refusal<'a>>
    ensures ok { IfOk result (DoesWords (map (λ word. word.now) words.entry.now) (I.remaining input)
        (O.contents out.old) (O.contents out.new)) }
    ensures few { IfOk result (λ status. status ≤ 1) }
    ensures err { IfErr result (RefusesWords (map (λ word. word.now) words.entry.now) (I.remaining input)
        (O.contents out.old) (O.contents out.new)) }
{
    match command_line(alloc, words) {
        Ok(line) => answer_line(rt, adds, alloc, &line, input, out),
        Err(fault) => answer_fault(alloc, &fault, out),
    }
}

// Does what the line asks for, and returns the status.
fn answer_line<'a, R: Files + Threads + Wait + Sync, A: Adds, I: Read + Drop, O: Write>(
    rt: &R,
    adds: &A,
    alloc: Global,
    line: &Line<'a>,
    input: I,
    out: &mut O,
) -> Result<u8, Refusal<'a>>
    ensures ok { IfOk result (DoesLine line.entry.now (I.remaining input) (O.contents out.old) (O.contents out.new)) }
    ensures few { IfOk result (λ status. status ≤ 1) }
    ensures err { IfErr result (RefusesLine line.entry.now (I.remaining input) (O.contents out.old) (O.contents out.new)) }
{
    match request_of(line) {
        Request::Output(request) => answer_output(rt, adds, alloc, request, input, out),
        Request::Verdicts(request) => answer_verdicts(rt, adds, alloc, request, input, out),
        Request::Schedules(request) => answer_schedules(rt, alloc, request, input, out),
        Request::Chains(file) => answer_chains(rt, alloc, file, input, out),
    }
}

// Writes the text that was asked for, or returns why the command line is refused.
fn answer_fault<'a, O: Write>(
    alloc: Global,
    fault: &LineFault,
    out: &mut O,
) -> Result<u8, Refusal<'a>>
    ensures ok { (words : List (List ℕ)) → IsLineFault words fault.now
        → IfOk result (WritesHelp words (O.contents out.old) (O.contents out.new)) }
    ensures few { IfOk result (λ status. status ≤ 1) }
    ensures err { (words : List (List ℕ)) → IsLineFault words fault.now
        → IfErr result (RefusesNoLine words (O.contents out.old) (O.contents out.new)) }
{
    match fault {
        LineFault::Help(help) => answer_help(alloc, help, out),
        LineFault::Refused => Err(Refusal::BadCommandLine),
        LineFault::Memory => Err(Refusal::Memory),
    }
}

fn answer_help<'a, O: Write>(
    alloc: Global,
    help: &clap::Error,
    out: &mut O,
) -> Result<u8, Refusal<'a>>
    ensures ok { IfOk result (λ status. (status ≡ 0)
        × ((text : List ℕ) × Appends (O.contents out.old) (O.contents out.new) text)) }
    ensures err { IfErr result (RefusesHelp (O.contents out.old) (O.contents out.new)) }
{
    let Ok(text) = help.to_string(alloc) else {
        return Err(Refusal::Memory);
    };
    match write_text(out, text.as_str().as_bytes()) {
        Ok(()) => Ok(DONE),
        Err(_) => Err(Refusal::Output),
    }
}

// Writes the output for the traces in the files, or for the one on standard input if there are no files.
fn answer_output<'a, R: Files + Threads + Wait + Sync, A: Adds, I: Read + Drop, O: Write>(
    rt: &R,
    adds: &A,
    alloc: Global,
    request: OutputRequest<'_, 'a>,
    input: I,
    out: &mut O,
) -> Result<u8, Refusal<'a>>
    ensures ok { IfOk result (WritesOutput (output_asked request.entry) (I.remaining input)
        (O.contents out.old) (O.contents out.new)) }
    ensures few { IfOk result (λ status. status ≤ 1) }
    ensures err { IfErr result (RefusesOutput (output_asked request.entry) (I.remaining input)
        (O.contents out.old) (O.contents out.new)) }
{
    let Ok(mut session) = Session::with_room(alloc, room_of(request.many)) else {
        return Err(Refusal::Memory);
    };
    match add_traces(
        rt,
        adds,
        &mut session,
        request.workers,
        request.files,
        input,
    ) {
        Ok(()) => write_session(rt, alloc, request, session, out),
        Err(refusal) => Err(refusal),
    }
}

// Writes the verdicts of the traces in the files, or of the one on standard input if there are no files.
fn answer_verdicts<'a, R: Files + Threads + Wait + Sync, A: Adds, I: Read + Drop, O: Write>(
    rt: &R,
    adds: &A,
    alloc: Global,
    request: VerdictRequest<'_, 'a>,
    input: I,
    out: &mut O,
) -> Result<u8, Refusal<'a>>
    ensures ok { IfOk result (DoesVerdicts (verdicts_asked request.entry) (I.remaining input)
        (O.contents out.old) (O.contents out.new)) }
    ensures few { IfOk result (λ status. status ≤ 1) }
    ensures err { IfErr result (RefusesVerdicts (verdicts_asked request.entry) (I.remaining input)
        (O.contents out.old) (O.contents out.new)) }
{
    let Ok(mut session) = Session::with_room(alloc, MAX_KEYS) else {
        return Err(Refusal::Memory);
    };
    match add_traces(
        rt,
        adds,
        &mut session,
        request.workers,
        request.files,
        input,
    ) {
        Ok(()) => write_session_verdicts(rt, alloc, request, session, out),
        Err(refusal) => Err(refusal),
    }
}

// Writes the verdicts of the session's traces, which are those of the files, by as many of the workers as are worth their threads.
fn write_session_verdicts<'a, R: Threads + Sync, O: Write>(
    rt: &R,
    alloc: Global,
    request: VerdictRequest<'_, 'a>,
    session: Session,
    out: &mut O,
) -> Result<u8, Refusal<'a>>
    ensures ok { IfOk result (λ status. IsCrew request.entry.workers × (length session.traces ≤ MAX_TRACES)
        × All IsWellFormed session.traces × ((found : Bool)
        × WritesVerdicts request.entry.format request.entry.confirmed_only (map (λ file. file.now) request.entry.files.now)
        session.names session.traces (O.contents out.old) (O.contents out.new) found
        × (status ≡ (if found then 1 else 0)))) }
    ensures few { IfOk result (λ status. status ≤ 1) }
    ensures err { IfErr result (RefusesVerdictsOf (verdicts_asked request.entry) session.names session.traces
        (O.contents out.old) (O.contents out.new)) }
{
    let workers = session.useful_workers(request.workers);
    match session.write_verdicts(rt, alloc, workers, request, out) {
        Ok(found) => Ok(if found { NOT_CLEAN } else { DONE }),
        Err(fault) => Err(report_refusal(request.files, fault)),
    }
}

fn room_of(many: bool) -> u16
    ensures value { result ≡ room_of many }
    ensures few { result ≤ MAX_KEYS }
{
    if many { MAX_KEYS } else { GRAPH_KEYS }
}

// Writes the output for the session's traces, which are those of the files, by as many of the workers as are worth their threads:
// the text is the same for each number of them.
fn write_session<'a, R: Threads + Wait + Sync, O: Write>(
    rt: &R,
    alloc: Global,
    request: OutputRequest<'_, 'a>,
    session: Session,
    out: &mut O,
) -> Result<u8, Refusal<'a>>
    ensures ok { IfOk result (WritesText (view_of request.entry.output) request.entry.workers
        session.names session.traces (O.contents out.old) (O.contents out.new)) }
    ensures few { IfOk result (λ status. status ≤ 1) }
    ensures err { IfErr result (RefusesTraces (view_of request.entry.output) request.entry.workers
        (map (λ file. file.now) request.entry.files.now) session.names session.traces
        (O.contents out.old) (O.contents out.new)) }
{
    let workers = session.useful_workers(request.workers);
    match session.write(rt, alloc, workers, &OpenGate, request.output, out) {
        Ok(clean) => Ok(status_of(request.output, clean)),
        Err(fault) => Err(report_refusal(request.files, fault)),
    }
}

// The status after an output was written: 1 if the facts aren't clean, and 0 otherwise and after a condensed trace.
fn status_of(output: Output<'_>, clean: bool) -> u8
    ensures value { result ≡ status_of (view_of output.entry) clean }
    ensures few { result ≤ 1 }
{
    match output {
        Output::Condensed => DONE,
        _ => if clean { DONE } else { NOT_CLEAN },
    }
}

// Reads the traces of the files, or that of the input if there are no files, into a session that has none.
fn add_traces<'a, R: Files + Threads + Sync, A: Adds, I: Read + Drop>(
    rt: &R,
    adds: &A,
    session: &mut Session,
    workers: u16,
    files: &[&'a str],
    input: I,
) -> Result<(), Refusal<'a>>
    requires no_names { session.old.names ≡ [] }
    requires no_traces { session.old.traces ≡ [] }
    ensures ok { OnOk result (AreTracesOf session.old.room (map (λ file. file.now) files.entry.now) (I.remaining input)
        session.new.names session.new.traces) }
    ensures err { IfErr result (StopsReading session.old.room (map (λ file. file.now) files.entry.now) (I.remaining input)) }
{
    if files.is_empty() {
        return add_trace::<I, R::File>(session, STDIN, Source::Input(input));
    }
    adds.add_files(rt, session, workers, files)
}

fn write_refusal<'a>(fault: WriteFault) -> Refusal<'a>
    ensures { result ≡ write_refusal_of fault }
{
    match fault {
        WriteFault::Failed | WriteFault::Stuck => Refusal::Output,
        WriteFault::Memory => Refusal::Memory,
    }
}

// The refusal for the traces of these files, if their output wasn't written whole.
fn report_refusal<'a>(files: &[&'a str], fault: ReportFault) -> Refusal<'a>
    ensures { IsReportRefusal (map (λ file. file.now) files.entry.now) fault result }
{
    match fault {
        ReportFault::Step { trace, at, fault } => Refusal::Step {
            file: file_of(files, trace),
            at,
            fault,
        },
        ReportFault::Run(fault) => Refusal::Run(fault),
        ReportFault::Condensing(fault) => Refusal::Condensing(fault),
        ReportFault::Out(fault) => write_refusal(fault),
    }
}
