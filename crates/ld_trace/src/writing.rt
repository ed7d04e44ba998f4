//! Writing a trace.

ghost use Rattle.std.specs.Prelude.{◌≡◌, ◌≤◌, ◌∷◌, [], IfOk, OnOk, map};
ghost use Rattle.std.specs.Io.KnownBytes.{Appends};
ghost use Rattle.std.specs.List.{flat_map};
ghost use Rattle.csv.specs.Writing.{text_written};
ghost use Rattle.ld_trace.specs.Writing.{event_text, header_of, name_at, record_text, trace_text, version_for};
ghost use Rattle.ld_trace.specs.Inside.Written.{IsBetween};
ghost use Rattle.ld_trace.specs.declared.key_table.TheConstants.{MAX_SUB};

use crate::version::Version;
use crate::{Event, KeyId, KeyTable, RawTrace};
use csv::{Writer, WriterBuilder};
use std::alloc::{AllocError, Global};
use std::io::Write;

/// The text of a trace, with the names that its keys have in the table: version 1 of the format if none of its events
/// is a try, and otherwise version 2.
///
/// Each record ends with one newline byte. A name with a comma or a double quote is written between double quotes, each
/// double quote in it twice; no other field is. A key that isn't in the table is written with an empty name, which no
/// reader accepts. It fails only if memory is refused.
pub fn trace_text(alloc: Global, events: &RawTrace, keys: &KeyTable) -> Result<Vec<u8>, AllocError>
    ensures { IfOk result (λ text. text.items ≡ trace_text keys.now.names events.now) }
{
    let mut rows = WriterBuilder::new()
        .flexible(true)
        .from_writer(Vec::new(alloc));
    write_records(&mut rows, events, keys)?;
    rows.into_inner().map_err(|_| AllocError)
}

// Writes the header and a record for each event.
fn write_records<W: Write + Drop>(
    rows: &mut Writer<W>,
    events: &RawTrace,
    keys: &KeyTable,
) -> Result<(), AllocError>
    requires { IsBetween rows.old }
    ensures { OnOk result (Appends (text_written W.contents rows.old) (text_written W.contents rows.new)
        (trace_text keys.now.names events.now)) }
{
    write_header(rows, version_for(events))?;
    write_events(rows, events.as_slice(), keys)
}

// Writes a record for each of the events.
fn write_events<W: Write + Drop>(
    rows: &mut Writer<W>,
    events: &[Event],
    keys: &KeyTable,
) -> Result<(), AllocError>
    requires { IsBetween rows.old }
    ensures { OnOk result (Appends (text_written W.contents rows.old) (text_written W.contents rows.new)
        (flat_map (event_text keys.now.names) events.now)) }
{
    for event in events {
        write_event(rows, keys, *event)?;
    }
    Ok(())
}

// The first version that has all of the events.
fn version_for(events: &RawTrace) -> Version
    ensures { result ≡ version_for events.now }
{
    if events.has_try() {
        Version::Two
    } else {
        Version::One
    }
}

fn write_header<W: Write + Drop>(rows: &mut Writer<W>, version: Version) -> Result<(), AllocError>
    requires { IsBetween rows.old }
    ensures between { OnOk result (IsBetween rows.new) }
    ensures text { OnOk result (Appends (text_written W.contents rows.old) (text_written W.contents rows.new)
        (record_text (header_of version))) }
{
    match version {
        Version::One => write_record(rows, &[b"lockdep", b"1"]),
        Version::Two => write_record(rows, &[b"lockdep", b"2"]),
    }
}

pub(crate) fn write_event<W: Write + Drop>(
    rows: &mut Writer<W>,
    keys: &KeyTable,
    event: Event,
) -> Result<(), AllocError>
    requires { IsBetween rows.old }
    ensures between { OnOk result (IsBetween rows.new) }
    ensures text { OnOk result (Appends (text_written W.contents rows.old) (text_written W.contents rows.new)
        (event_text keys.now.names event)) }
{
    match event {
        Event::Acquire { mode, key } => {
            let (class, sub) = name_of(keys, key);
            write_four(rows, b"acq", class, &[b'0' + sub], mode.word().as_bytes())
        }
        Event::Release { key } => {
            let (class, sub) = name_of(keys, key);
            write_three(rows, b"rel", class, &[b'0' + sub])
        }
        Event::Enter { irq } => write_record(rows, &[b"enter", irq.word().as_bytes()]),
        Event::Leave => write_record(rows, &[b"leave"]),
        Event::TurnOn { irq } => write_record(rows, &[b"on", irq.word().as_bytes()]),
        Event::TurnOff { irq } => write_record(rows, &[b"off", irq.word().as_bytes()]),
    }
}

// The bytes of the class's name and the subclass of a key; an empty name if there is no such key.
fn name_of(keys: &KeyTable, key: KeyId) -> (&[u8], u8)
    ensures name { (result.0.now, result.1) ≡ name_at keys.now.names key }
    ensures digit { result.1 ≤ MAX_SUB }
{
    match keys.name_of(key) {
        Some((class, sub)) => (class.as_bytes(), sub),
        None => (b"", 0),
    }
}

fn write_record<W: Write + Drop>(rows: &mut Writer<W>, fields: &[&[u8]]) -> Result<(), AllocError>
    requires { IsBetween rows.old }
    ensures between { OnOk result (IsBetween rows.new) }
    ensures text { OnOk result (Appends (text_written W.contents rows.old) (text_written W.contents rows.new)
        (record_text (map (λ field. field.now) fields.now))) }
{
    let Ok(()) = rows.write_fields(fields) else {
        return Err(AllocError);
    };
    Ok(())
}

// Writes a record of three fields.
fn write_three<'f, W: Write + Drop>(
    rows: &mut Writer<W>,
    verb: &'f [u8],
    class: &'f [u8],
    sub: &'f [u8],
) -> Result<(), AllocError>
    requires { IsBetween rows.old }
    ensures between { OnOk result (IsBetween rows.new) }
    ensures text { OnOk result (Appends (text_written W.contents rows.old) (text_written W.contents rows.new)
        (record_text (verb.now ∷ class.now ∷ sub.now ∷ []))) }
{
    write_record(rows, &[verb, class, sub])
}

// Writes a record of four fields.
fn write_four<'f, W: Write + Drop>(
    rows: &mut Writer<W>,
    verb: &'f [u8],
    class: &'f [u8],
    sub: &'f [u8],
    mode: &'f [u8],
) -> Result<(), AllocError>
    requires { IsBetween rows.old }
    ensures between { OnOk result (IsBetween rows.new) }
    ensures text { OnOk result (Appends (text_written W.contents rows.old) (text_written W.contents rows.new)
        (record_text (verb.now ∷ class.now ∷ sub.now ∷ mode.now ∷ []))) }
{
    write_record(rows, &[verb, class, sub, mode])
}
