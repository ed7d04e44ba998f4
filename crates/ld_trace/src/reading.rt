//! Reading a trace.

ghost use Rattle.std.specs.Prelude.{◌≡◌, ◌≤◌, ◌<◌, ◌+◌, ◌++◌, ◌∷◌, ℕ, suc, [], List, Option, length, true, false, IfOk, IfErr, IfSome, OnOk, OnErr, Some, ◌⊎◌, ◌≢◌};
ghost use Rattle.csv.specs.Reading.{ReadRecord, error_kind};
ghost use Rattle.csv.specs.Records.{fields_of};
ghost use Rattle.ld_trace.specs.Events.{KeysBelow};
ghost use Rattle.ld_trace.specs.Lines.{Record, line_of_record, version_of};
ghost use Rattle.ld_trace.specs.Names.{Name};
ghost use Rattle.ld_trace.specs.Inside.Progress.{AreRead, AreRefused, HasGiven, HasTaken, IsFresh, ReadsPlain, Returns, ReturnsLast, TakesBefore, TakesLast, TakesLine, TakesOn, read_fault};
ghost use Rattle.ld_trace.specs.Reading.{ReadsTo, StopsAt, line_fault};
ghost use Rattle.ld_trace.specs.TraceFaults.{is_of_text};

use crate::record::{line_of, version_of};
use crate::version::Version;
use crate::{Event, KeyTable, MAX_EVENTS, RawTrace, TraceFault, TraceFaultKind};
use csv::{ByteRecord, ErrorKind, Reader, ReaderBuilder};
use std::alloc::Global;
use std::io::Read;

// Reads a trace, each record by CSV.
pub(crate) fn read_by_csv<R: Read + Drop>(
    alloc: Global,
    reader: R,
    keys: &mut KeyTable,
) -> Result<RawTrace, TraceFault>
    ensures ok { IfOk result (λ trace. IfSome (R.remaining reader)
        (λ bytes. ReadsTo keys.old.room keys.old.names bytes keys.new.names trace)) }
    ensures refused { IfErr result (λ fault. IfSome (R.remaining reader)
        (λ bytes. StopsAt keys.old.room keys.old.names bytes keys.new.names fault)) }

    // These hold for any reader, even if its bytes aren't known.
    ensures numbered { IfOk result (λ trace. KeysBelow (length keys.new.names) trace) }
    ensures kept { (added : List Name) × (keys.new.names ≡ keys.old.names ++ added) }
    ensures room { keys.new.room ≡ keys.old.room }
{
    let mut source = plain_reader(alloc, reader);
    let mut row = ByteRecord::new(alloc);
    let mut events = Vec::new(alloc);
    take_records(&mut source, &mut row, &mut events, keys)?;
    Ok(RawTrace::of_few(events))
}

// A reader of records as the format has them, which has returned none yet.
pub(crate) fn plain_reader<R: Read>(alloc: Global, reader: R) -> Reader<R>
    ensures plain { ReadsPlain result }
    ensures fresh { IsFresh R.remaining reader result }
    ensures none { HasGiven R.remaining (R.remaining reader) result [] }
{
    ReaderBuilder::new()
        .has_headers(false)
        .flexible(true)
        .from_reader(alloc, reader)
}

// Takes records as those of a trace, up to the end or to one that is refused, which then stands in the row.
pub(crate) fn take_records<R: Read>(
    source: &mut Reader<R>,
    row: &mut ByteRecord,
    events: &mut Vec<Event>,
    keys: &mut KeyTable,
) -> Result<(), TraceFault>
    requires plain { ReadsPlain source.old }
    requires none { events.old.items ≡ [] }
    ensures few { length events.new.items ≤ MAX_EVENTS }
    ensures ok { OnOk result (TakesLast R.remaining source.old keys.old.room keys.old.names keys.new.names events.new.items) }
    ensures refused { IfErr result (λ fault. (known : Option (List ℕ))
        → HasGiven R.remaining known source.old []
        → AreRefused keys.old.room known keys.old.names keys.new.names fault.kind fault.at) }
    ensures before { IfErr result (λ fault. fault.kind ≡ TraceFaultKind.BadRecord → ReadsPlain source.new
        × TakesBefore R.remaining source.old source.new keys.old.room keys.old.names keys.new.names events.new.items (fields_of row.new)) }
    ensures kept { (added : List Name) × (keys.new.names ≡ keys.old.names ++ added) }
    ensures room { keys.new.room ≡ keys.old.room }
{
    let version = match take_header(source, row) {
        Ok(version) => version,
        Err(kind) => return Err(TraceFault { kind, at: 1 }),
    };
    take_events(version, source, row, events, keys)
}

// Takes the records after some that were taken as these events, up to the end or to one that is refused, which then stands in the row.
pub(crate) fn take_events<R: Read>(
    version: Version,
    source: &mut Reader<R>,
    row: &mut ByteRecord,
    events: &mut Vec<Event>,
    keys: &mut KeyTable,
) -> Result<(), TraceFault>
    requires plain { ReadsPlain source.old }
    requires few { length events.old.items ≤ MAX_EVENTS }
    ensures few { length events.new.items ≤ MAX_EVENTS }
    ensures ok { OnOk result ((more : List Record) × ReturnsLast R.remaining source.old more
        × TakesOn keys.old.room version keys.old.names keys.new.names events.old.items events.new.items more) }
    ensures refused { IfErr result (λ fault. (known : Option (List ℕ)) (old : List Name)
        → HasTaken R.remaining known source.old keys.old.room version old keys.old.names events.old.items
        → AreRefused keys.old.room known old keys.new.names fault.kind fault.at) }
    ensures before { IfErr result (λ fault. fault.kind ≡ TraceFaultKind.BadRecord → ReadsPlain source.new
        × (more : List Record) × Returns R.remaining source.old source.new (more ++ fields_of row.new ∷ [])
        × TakesOn keys.old.room version keys.old.names keys.new.names events.old.items events.new.items more) }
    ensures kept { (added : List Name) × (keys.new.names ≡ keys.old.names ++ added) }
    ensures room { keys.new.room ≡ keys.old.room }
{
    'records: loop {
        match take_event(version, source, row, events, keys) {
            Ok(true) => {}
            Ok(false) => return Ok(()),
            Err(kind) => {
                let at = events.len() + 2;
                return Err(TraceFault { kind, at });
            }
        }
    }
}

// Takes the first record, which has to be the header, and returns the version that it names.
fn take_header<R: Read>(
    source: &mut Reader<R>,
    row: &mut ByteRecord,
) -> Result<Version, TraceFaultKind>
    requires { ReadsPlain source.old }
    ensures plain { OnOk result (ReadsPlain source.new) }
    ensures taken { IfOk result (λ version. (header : Record)
        × ReadRecord R.remaining source.old source.new true header × (version_of header ≡ Some version)) }
    ensures refused { IfErr result (λ kind. (known : Option (List ℕ)) (room : ℕ) (old : List Name)
        → HasGiven R.remaining known source.old []
        → AreRefused room known old old kind 1) }
    ensures other { IfErr result (λ kind. kind ≢ TraceFaultKind.BadRecord) }
{
    if !get_record(source, row)? {
        return Err(TraceFaultKind::NoHeader);
    }
    match version_of(row) {
        Some(version) => Ok(version),
        None => Err(TraceFaultKind::NoHeader),
    }
}

// Takes the next record as an event, and returns whether there was one.
fn take_event<R: Read>(
    version: Version,
    source: &mut Reader<R>,
    row: &mut ByteRecord,
    events: &mut Vec<Event>,
    keys: &mut KeyTable,
) -> Result<bool, TraceFaultKind>
    requires plain { ReadsPlain source.old }
    requires few { length events.old.items ≤ MAX_EVENTS }
    ensures plain { OnOk result (ReadsPlain source.new) }
    ensures more { IfOk result (λ found. found ≡ true
        → (length events.new.items ≡ suc (length events.old.items))
        × (length events.new.items ≤ MAX_EVENTS)) }
    ensures no_more { IfOk result (λ found. found ≡ false
        → (keys.new ≡ keys.old) × (events.new.items ≡ events.old.items)) }
    ensures kept { OnErr result ((keys.new ≡ keys.old) × (events.new.items ≡ events.old.items)) }
    ensures kept_names { (added : List Name) × (keys.new.names ≡ keys.old.names ++ added) }
    ensures room { keys.new.room ≡ keys.old.room }

    ensures taken { IfOk result (λ found. found ≡ true → (length events.old.items < MAX_EVENTS) × (next : Record)
        × ReadRecord R.remaining source.old source.new true next
        × TakesLine keys.old.room version keys.old.names keys.new.names events.old.items events.new.items next) }
    ensures ended { IfOk result (λ found. found ≡ false
        → ReadRecord R.remaining source.old source.new false (fields_of row.new)) }
    ensures refused { IfErr result (λ kind. (known : Option (List ℕ)) (old : List Name)
        → HasTaken R.remaining known source.old keys.old.room version old keys.old.names events.old.items
        → AreRefused keys.old.room known old keys.new.names kind (length events.old.items + 2)) }
    ensures read { IfErr result (λ kind. is_of_text kind ≡ true → ReadsPlain source.new
        × ReadRecord R.remaining source.old source.new true (fields_of row.new)) }
{
    if !get_record(source, row)? {
        return Ok(false);
    }
    if events.len() == MAX_EVENTS {
        return Err(TraceFaultKind::TooManyRecords);
    }
    take_record(version, row, events, keys)?;
    Ok(true)
}

// Gets the next record, and returns whether there was one.
fn get_record<R: Read>(source: &mut Reader<R>, row: &mut ByteRecord) -> Result<bool, TraceFaultKind>
    requires { ReadsPlain source.old }
    ensures reads { IfOk result
        (λ found. ReadRecord R.remaining source.old source.new found (fields_of row.new)) }
    ensures plain { OnOk result (ReadsPlain source.new) }
    ensures failed { IfErr result (λ kind. is_of_text kind ≡ false) }
{
    match source.read_byte_record(row) {
        Ok(found) => Ok(found),
        Err(error) => Err(fault_of(&error)),
    }
}

// The fault for an error in getting a record: out of memory, or else a failure of the source.
fn fault_of(error: &csv::Error) -> TraceFaultKind
    ensures value { result ≡ read_fault (error_kind error.now) }
    ensures not_text { is_of_text result ≡ false }
{
    match error.kind() {
        ErrorKind::OutOfMemory => TraceFaultKind::Memory,
        _ => TraceFaultKind::Source,
    }
}

// Takes a record as an event, and numbers its key. After a refusal nothing is changed.
fn take_record(
    version: Version,
    row: &ByteRecord,
    events: &mut Vec<Event>,
    keys: &mut KeyTable,
) -> Result<(), TraceFaultKind>
    ensures room { keys.new.room ≡ keys.old.room }
    ensures taken { OnOk result (TakesLine keys.old.room version keys.old.names keys.new.names events.old.items events.new.items
        (fields_of row.now)) }
    ensures fault { IfErr result (λ kind. is_of_text kind ≡ true
        → line_fault keys.old.room keys.old.names (line_of_record version (fields_of row.now)) ≡ Some kind) }
    ensures either { IfErr result (λ kind. (is_of_text kind ≡ true)
        ⊎ (kind ≡ TraceFaultKind.Memory)) }
    ensures refused { OnErr result ((keys.new ≡ keys.old) × (events.new.items ≡ events.old.items)) }
{
    let line = line_of(version, row)?;
    if events.reserve(1).is_err() {
        return Err(TraceFaultKind::Memory);
    }
    let event = line.numbered(keys)?;
    events.push_reserved(event);
    Ok(())
}
