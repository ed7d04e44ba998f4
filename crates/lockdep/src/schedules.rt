//! What is said of histories, as `lockdep schedule` writes it.

ghost use Rattle.std.specs.Prelude.{◌<◌, ◌≡◌, ◌≤◌, IfErr, IfOk, length, map};
ghost use Rattle.lockdep.specs.Clauses.{IsHistoryRefusal, IsRefusalOfFiles, IsRefusalOfHistory, IsTextWritten, RefusesHelp, RefusesSchedules, WritesSchedules, schedules_asked};

use crate::program::{DONE, NOT_CLEAN};
use crate::refusal::Refusal;
use crate::request::ScheduleRequest;
use ld_schedule::{ScheduleText, read_history};
use ld_text::{STDIN, write_text};
use std::alloc::Global;
use std::fs::File;
use std::io::{Read, Write};
use std::rt::Files;

/// Writes what is said of the histories in the files, or of the one in the input if no file is named.
pub(crate) fn answer_schedules<'a, R: Files, I: Read + Drop, O: Write>(
    rt: &R,
    alloc: Global,
    request: ScheduleRequest<'_, 'a>,
    input: I,
    out: &mut O,
) -> Result<u8, Refusal<'a>>
    ensures ok { IfOk result (WritesSchedules (schedules_asked request.entry) (I.remaining input)
        (O.contents out.old) (O.contents out.new)) }
    ensures few { IfOk result (λ status. status ≤ 1) }
    ensures err { IfErr result (RefusesSchedules (schedules_asked request.entry) (I.remaining input)
        (O.contents out.old) (O.contents out.new)) }
{
    match text_of(rt, alloc, request, input) {
        Ok(text) => write_schedules(text, out),
        Err(refusal) => Err(refusal),
    }
}

// The text of what is said of the histories.
fn text_of<'a, R: Files, I: Read + Drop>(
    rt: &R,
    alloc: Global,
    request: ScheduleRequest<'_, 'a>,
    input: I,
) -> Result<ScheduleText, Refusal<'a>>
    ensures { IfErr result (IsHistoryRefusal (map (λ file. file.now) request.entry.files.now) (I.remaining input)) }
{
    let Ok(mut text) = ScheduleText::new(alloc, request.json) else {
        return Err(Refusal::Memory);
    };
    if request.files.is_empty() {
        return match add_history(alloc, STDIN, input, &mut text) {
            Ok(()) => Ok(text),
            Err(refusal) => Err(refusal),
        };
    }
    match add_histories(rt, alloc, request.files, &mut text) {
        Ok(()) => Ok(text),
        Err(refusal) => Err(refusal),
    }
}

// Adds the histories of the files, in their order.
fn add_histories<'a, R: Files>(
    rt: &R,
    alloc: Global,
    files: &[&'a str],
    text: &mut ScheduleText,
) -> Result<(), Refusal<'a>>
    ensures { IfErr result IsRefusalOfFiles }
{
    for file in files {
        match add_file(rt, alloc, file, text) {
            Ok(()) => {}
            Err(refusal) => return Err(refusal),
        }
    }
    Ok(())
}

fn add_file<'a, R: Files>(
    rt: &R,
    alloc: Global,
    file: &'a str,
    text: &mut ScheduleText,
) -> Result<(), Refusal<'a>>
    ensures { IfErr result IsRefusalOfFiles }
{
    match File::open(rt, file) {
        Ok(opened) => add_history(alloc, file, opened, text),
        Err(_) => Err(Refusal::CannotOpen { file }),
    }
}

// Reads a history, and adds what is said of it.
fn add_history<'a, S: Read + Drop>(
    alloc: Global,
    file: &'a str,
    source: S,
    text: &mut ScheduleText,
) -> Result<(), Refusal<'a>>
    ensures { IfErr result (IsRefusalOfHistory file.entry.now (S.remaining source)) }
{
    match read_history(alloc, source) {
        Ok(named) => match text.add(alloc, file, &named) {
            Ok(()) => Ok(()),
            Err(_) => Err(Refusal::Memory),
        },
        Err(refusal) => Err(Refusal::History { file, refusal }),
    }
}

// Writes the text, and returns the status.
fn write_schedules<'a, O: Write>(text: ScheduleText, out: &mut O) -> Result<u8, Refusal<'a>>
    ensures ok { IfOk result (λ status. (status ≤ 1) × IsTextWritten (O.contents out.old) (O.contents out.new)) }
    ensures err { IfErr result (RefusesHelp (O.contents out.old) (O.contents out.new)) }
{
    let status = if text.is_any_possible() {
        NOT_CLEAN
    } else {
        DONE
    };
    let Ok(bytes) = text.into_bytes() else {
        return Err(Refusal::Memory);
    };
    match write_text(out, bytes.as_slice()) {
        Ok(()) => Ok(status),
        Err(_) => Err(Refusal::Output),
    }
}
