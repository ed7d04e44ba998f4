//! Reading the text of a history.

ghost use Rattle.std.specs.Prelude.{◌≡◌, ◌≤◌, ◌<◌, ◌+◌, suc, ℕ, [], List, Option, length, true, false, IfOk, IfErr, OnOk};
ghost use Rattle.csv.specs.Reading.{ReadRecord, error_kind};
ghost use Rattle.csv.specs.Records.{fields_of};
ghost use Rattle.ld_trace.specs.Inside.Progress.{HasGiven, IsFresh, ReadsPlain};
ghost use Rattle.ld_schedule.specs.Inside.Progress.{AreRead, AreRefused, HasTaken, nothing_read, read_fault};
ghost use Rattle.ld_schedule.specs.ReadFaults.{is_of_text};
ghost use Rattle.ld_schedule.specs.Records.{Record, is_header};

use crate::draft::Draft;
use crate::limits::MAX_RECORDS;
use crate::read_fault::{ReadFault, ReadFaultKind};
use crate::record::{is_header, line_of};
use csv::{ByteRecord, ErrorKind, Reader, ReaderBuilder};
use std::alloc::Global;
use std::io::Read;

// Reads the text of a history, each record by CSV.
pub(crate) fn read_draft<R: Read + Drop>(alloc: Global, reader: R) -> Result<Draft, ReadFault>
    ensures ok { IfOk result (AreRead (R.remaining reader)) }
    ensures refused { IfErr result (λ fault. AreRefused (R.remaining reader) fault.kind fault.at) }
{
    let mut source = plain_reader(alloc, reader);
    let mut row = ByteRecord::new(alloc);
    if let Err(kind) = take_header(&mut source, &mut row) {
        return Err(ReadFault { kind, at: 1 });
    }
    let mut draft = Draft::new(alloc);
    take_records(&mut source, &mut row, &mut draft)?;
    Ok(draft)
}

// A reader of records as the format has them, which has returned none yet.
fn plain_reader<R: Read>(alloc: Global, reader: R) -> Reader<R>
    ensures plain { ReadsPlain result }
    ensures none { HasGiven R.remaining (R.remaining reader) result [] }
{
    ReaderBuilder::new()
        .has_headers(false)
        .flexible(true)
        .from_reader(alloc, reader)
}

// Takes the first record, which has to be the header.
fn take_header<R: Read>(source: &mut Reader<R>, row: &mut ByteRecord) -> Result<(), ReadFaultKind>
    requires { ReadsPlain source.old }
    ensures plain { OnOk result (ReadsPlain source.new) }
    ensures taken { OnOk result ((known : Option (List ℕ)) → HasGiven R.remaining known source.old []
        → HasTaken R.remaining known source.new 0 nothing_read) }
    ensures refused { IfErr result (λ kind. (known : Option (List ℕ)) → HasGiven R.remaining known source.old []
        → AreRefused known kind 1) }
{
    if !get_record(source, row)? {
        return Err(ReadFaultKind::NoHeader);
    }
    if !is_header(row) {
        return Err(ReadFaultKind::NoHeader);
    }
    Ok(())
}

// Takes the records after the header, up to the end or to one that is refused.
fn take_records<R: Read>(
    source: &mut Reader<R>,
    row: &mut ByteRecord,
    draft: &mut Draft,
) -> Result<(), ReadFault>
    requires plain { ReadsPlain source.old }
    ensures ok { OnOk result ((known : Option (List ℕ)) → HasTaken R.remaining known source.old 0 draft.old
        → AreRead known draft.new) }
    ensures refused { IfErr result (λ fault. (known : Option (List ℕ)) → HasTaken R.remaining known source.old 0 draft.old
        → AreRefused known fault.kind fault.at) }
{
    let mut count = 0usize;
    'records: loop {
        match take_next(source, row, draft, count) {
            Ok(true) => count += 1,
            Ok(false) => return Ok(()),
            Err(kind) => {
                let at = count + 2;
                return Err(ReadFault { kind, at });
            }
        }
    }
}

// Takes the next record after the header and `count` others, and returns whether there was one.
fn take_next<R: Read>(
    source: &mut Reader<R>,
    row: &mut ByteRecord,
    draft: &mut Draft,
    count: usize,
) -> Result<bool, ReadFaultKind>
    requires plain { ReadsPlain source.old }
    requires few { count ≤ MAX_RECORDS }
    ensures plain { OnOk result (ReadsPlain source.new) }
    ensures more { IfOk result (λ found. found ≡ true → (count < MAX_RECORDS)
        × ((known : Option (List ℕ)) → HasTaken R.remaining known source.old count draft.old
        → HasTaken R.remaining known source.new (suc count) draft.new)) }
    ensures ended { IfOk result (λ found. found ≡ false → (known : Option (List ℕ))
        → HasTaken R.remaining known source.old count draft.old → AreRead known draft.new) }
    ensures refused { IfErr result (λ kind. (known : Option (List ℕ))
        → HasTaken R.remaining known source.old count draft.old → AreRefused known kind (count + 2)) }
{
    if !get_record(source, row)? {
        return Ok(false);
    }
    if count == MAX_RECORDS {
        return Err(ReadFaultKind::TooManyRecords);
    }
    let line = line_of(row)?;
    draft.take(count as u32 + 2, line)?;
    Ok(true)
}

// Gets the next record, and returns whether there was one.
fn get_record<R: Read>(source: &mut Reader<R>, row: &mut ByteRecord) -> Result<bool, ReadFaultKind>
    requires { ReadsPlain source.old }
    ensures reads { IfOk result
        (λ found. ReadRecord R.remaining source.old source.new found (fields_of row.new)) }
    ensures plain { OnOk result (ReadsPlain source.new) }
    ensures failed { IfErr result (λ kind. is_of_text kind ≡ false) }
{
    match source.read_byte_record(row) {
        Ok(found) => Ok(found),
        Err(error) => Err(fault_of(&error)),
    }
}

// The fault for an error in getting a record: out of memory, or else a failure of the source.
fn fault_of(error: &csv::Error) -> ReadFaultKind
    ensures value { result ≡ read_fault (error_kind error.now) }
    ensures not_text { is_of_text result ≡ false }
{
    match error.kind() {
        ErrorKind::OutOfMemory => ReadFaultKind::Memory,
        _ => ReadFaultKind::Source,
    }
}
