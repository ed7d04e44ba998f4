//! The chains of one trace, as `lockdep chains` writes them.

ghost use Rattle.std.specs.Prelude.{◌≡◌, ◌≤◌, IfErr, IfOk, List, length, option_map};
ghost use Rattle.lockdep.specs.Names.{Appends, Event, IsFirstFault, IsWellFormed, MAX_EVENTS, chains_text};
ghost use Rattle.lockdep.specs.Clauses.{IsStepRefusal, RefusesChains, RefusesOpened, RefusesTrace, WritesChains, known_of, remaining_in};

use crate::program::DONE;
use crate::refusal::Refusal;
use crate::source::Source;
use ld_task::{StepAt, check};
use ld_text::{STDIN, write_chains};
use ld_trace::{KeyTable, RawTrace, read_trace};
use std::alloc::Global;
use std::fs::File;
use std::io::{Read, Write};
use std::rt::Files;

/// Writes the chains of the trace in the file, or of that in the input if no file is named.
pub(crate) fn answer_chains<'a, R: Files, I: Read + Drop, O: Write>(
    rt: &R,
    alloc: Global,
    file: Option<&'a str>,
    input: I,
    out: &mut O,
) -> Result<u8, Refusal<'a>>
    ensures ok { IfOk result (WritesChains (known_of (option_map (λ word. word.now) file.entry) (I.remaining input))
        (O.contents out.old) (O.contents out.new)) }
    ensures err { IfErr result (RefusesChains (option_map (λ word. word.now) file.entry) (I.remaining input)
        (O.contents out.old) (O.contents out.new)) }
{
    let Some(file) = file else {
        return answer_chains_of::<I, R::File, O>(alloc, STDIN, Source::Input(input), out);
    };
    match File::open(rt, file) {
        Ok(opened) => answer_chains_of::<I, R::File, O>(alloc, file, Source::File(opened), out),
        Err(_) => Err(Refusal::CannotOpen { file }),
    }
}

// Writes the chains of the trace of a file that is open.
fn answer_chains_of<'a, I: Read + Drop, F: Read + Drop, O: Write>(
    alloc: Global,
    file: &'a str,
    opened: Source<I, F>,
    out: &mut O,
) -> Result<u8, Refusal<'a>>
    ensures ok { IfOk result (WritesChains (remaining_in I.remaining F.remaining opened)
        (O.contents out.old) (O.contents out.new)) }
    ensures err { IfErr result (RefusesOpened file.entry.now (remaining_in I.remaining F.remaining opened)
        (O.contents out.old) (O.contents out.new)) }
{
    let Ok(mut keys) = KeyTable::new(alloc) else {
        return Err(Refusal::Memory);
    };
    match read_trace(alloc, opened, &mut keys) {
        Ok(read) => answer_trace(file, read, &keys, out),
        Err(fault) => Err(Refusal::Reading { file, fault }),
    }
}

fn answer_trace<'a, O: Write>(
    file: &'a str,
    read: RawTrace,
    keys: &KeyTable,
    out: &mut O,
) -> Result<u8, Refusal<'a>>
    ensures ok { IfOk result (λ status. IsWellFormed read × (status ≡ 0)
        × Appends (O.contents out.old) (O.contents out.new) (chains_text keys.now.names read)) }
    ensures err { IfErr result (RefusesTrace file.entry.now keys.now.names read (O.contents out.old) (O.contents out.new)) }
{
    let trace = match check(read) {
        Ok(trace) => trace,
        Err(found) => return Err(step_refusal(file, found)),
    };
    match write_chains(out, &trace, keys) {
        Ok(()) => Ok(DONE),
        Err(_) => Err(Refusal::Output),
    }
}

// The refusal of a trace that isn't well formed. The record of an event is counted from 1 with the header.
fn step_refusal<'a>(file: &'a str, found: StepAt) -> Refusal<'a>
    requires { (trace : List Event) × IsFirstFault trace found × (length trace ≤ MAX_EVENTS) }
    ensures { (trace : List Event) → IsFirstFault trace found → IsStepRefusal file.entry.now trace result }
{
    Refusal::Step {
        file,
        at: found.place + 2,
        fault: found.fault,
    }
}
