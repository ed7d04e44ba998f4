//! Reading one record of a trace.

ghost use Rattle.std.specs.Prelude.{◌≡◌, ◌<◌, codes, length, true, Ok, Err, IfErr, IsTrue, Some, option_map, if◌then◌else◌};
ghost use Rattle.std.specs.Str.{bytes_eq};
ghost use Rattle.csv.specs.Records.{field_at, fields_of};
ghost use Rattle.ld_trace.specs.Lines.{acquire_line, irq_of, leave_line, mode_of, name_of_fields, release_line, line_of_record, irq_line, sub_of, version_named, version_of};
ghost use Rattle.ld_trace.specs.Names.{is_class_name};
ghost use Rattle.ld_trace.specs.Inside.ReadLines.{Says, SaysName};
ghost use Rattle.ld_trace.specs.TraceFaults.{is_of_text};

use crate::line::{Line, LineName};
use crate::stored_name::is_class_name;
use crate::version::Version;
use crate::{Irq, Mode, TraceFaultKind};
use csv::ByteRecord;
use std::str;

// The version that a record names, if it is a header.
pub(crate) fn version_of(row: &ByteRecord) -> Option<Version>
    ensures { result ≡ version_of (fields_of row.now) }
{
    if row.len() != 2 {
        return None;
    }
    let word = field(row, 0);
    let version = field(row, 1);
    if is_word(word, b"lockdep") {
        version_named(version)
    } else {
        None
    }
}

fn version_named(word: &[u8]) -> Option<Version>
    ensures { result ≡ version_named word.now }
{
    match word {
        [b'1'] => Some(Version::One),
        [b'2'] => Some(Version::Two),
        _ => None,
    }
}

// What a record of a trace of this version says, or its fault.
pub(crate) fn line_of(version: Version, row: &ByteRecord) -> Result<Line<'_>, TraceFaultKind>
    ensures says { Says (line_of_record version (fields_of row.now)) result }
    ensures text { IfErr result (λ kind. is_of_text kind ≡ true) }
{
    match row.len() {
        1 => leave_line(field(row, 0)),
        2 => irq_line(field(row, 0), field(row, 1)),
        3 => release_line(field(row, 0), field(row, 1), field(row, 2)),
        4 => acquire_line(
            version,
            field(row, 0),
            field(row, 1),
            field(row, 2),
            field(row, 3),
        ),
        _ => Err(TraceFaultKind::BadRecord),
    }
}

// What `leave` says.
fn leave_line(verb: &[u8]) -> Result<Line<'_>, TraceFaultKind>
    ensures says { Says (leave_line verb.now) result }
    ensures text { IfErr result (λ kind. is_of_text kind ≡ true) }
{
    if is_word(verb, b"leave") {
        Ok(Line::Leaves)
    } else {
        Err(TraceFaultKind::BadRecord)
    }
}

// What `enter`, `on` or `off` and a state say.
fn irq_line<'r>(verb: &[u8], irq: &'r [u8]) -> Result<Line<'r>, TraceFaultKind>
    ensures says { Says (irq_line verb.now (irq_of irq.now)) result }
    ensures text { IfErr result (λ kind. is_of_text kind ≡ true) }
{
    let irq = irq_of(irq).ok_or(TraceFaultKind::BadRecord)?;
    if is_word(verb, b"enter") {
        Ok(Line::Enters(irq))
    } else if is_word(verb, b"on") {
        Ok(Line::TurnsOn(irq))
    } else if is_word(verb, b"off") {
        Ok(Line::TurnsOff(irq))
    } else {
        Err(TraceFaultKind::BadRecord)
    }
}

// Whether a record of this verb takes a lock.
pub(crate) fn is_acquire(verb: &[u8]) -> bool
    ensures { result ≡ bytes_eq verb.now (codes "acq") }
{
    matches!(verb, [b'a', b'c', b'q'])
}

// Whether a record of this verb releases a lock.
pub(crate) fn is_release(verb: &[u8]) -> bool
    ensures { result ≡ bytes_eq verb.now (codes "rel") }
{
    matches!(verb, [b'r', b'e', b'l'])
}

// What `rel` and a name say.
fn release_line<'r>(verb: &[u8], class: &'r [u8], sub: &[u8]) -> Result<Line<'r>, TraceFaultKind>
    ensures says { Says (release_line verb.now (name_of_fields class.now (sub_of sub.now))) result }
    ensures text { IfErr result (λ kind. is_of_text kind ≡ true) }
{
    if !is_release(verb) {
        return Err(TraceFaultKind::BadRecord);
    }
    Ok(Line::GivesBack(name_of(class, sub)?))
}

// What `acq`, a name and a mode say.
fn acquire_line<'r>(
    version: Version,
    verb: &[u8],
    class: &'r [u8],
    sub: &[u8],
    mode: &[u8],
) -> Result<Line<'r>, TraceFaultKind>
    ensures says { Says (acquire_line verb.now (name_of_fields class.now (sub_of sub.now))
        (mode_of version mode.now)) result }
    ensures text { IfErr result (λ kind. is_of_text kind ≡ true) }
{
    if !is_acquire(verb) {
        return Err(TraceFaultKind::BadRecord);
    }
    let name = name_of(class, sub)?;
    let mode = mode_of(version, mode).ok_or(TraceFaultKind::BadMode)?;
    Ok(Line::Takes(name, mode))
}

// The name in these two fields; the class's name is checked first.
fn name_of<'r>(class: &'r [u8], sub: &[u8]) -> Result<LineName<'r>, TraceFaultKind>
    ensures says { SaysName (name_of_fields class.now (sub_of sub.now)) result }
    ensures text { IfErr result (λ kind. is_of_text kind ≡ true) }
{
    let class = class_of(class).ok_or(TraceFaultKind::BadName)?;
    let sub = sub_of(sub).ok_or(TraceFaultKind::BadSub)?;
    Ok(LineName { class, sub })
}

// The class's name of this field: 1 to 64 bytes, each 0x21 to 0x7E.
fn class_of(class: &[u8]) -> Option<&str>
    ensures { option_map (λ text. text.now) result ≡
        (if is_class_name class.now then Some class.now else None) }
{
    if is_class_name(class) {
        Some(unsafe { str::from_utf8_unchecked(class) })
    } else {
        None
    }
}

// The subclass of this field: one digit, 0 to 7.
pub(crate) fn sub_of(sub: &[u8]) -> Option<u8>
    ensures { result ≡ sub_of sub.now }
{
    match sub {
        [digit @ b'0'..=b'7'] => Some(digit - b'0'),
        _ => None,
    }
}

// The mode of this field; version 1 has no tries.
pub(crate) fn mode_of(version: Version, word: &[u8]) -> Option<Mode>
    ensures { result ≡ mode_of version word.now }
{
    match (version, word) {
        (_, [b'w']) => Some(Mode::Write),
        (_, [b'r']) => Some(Mode::Read),
        (_, [b'r', b'r']) => Some(Mode::RecRead),
        (Version::Two, [b't', b'w']) => Some(Mode::TryWrite),
        (Version::Two, [b't', b'r']) => Some(Mode::TryRead),
        (Version::Two, [b't', b'r', b'r']) => Some(Mode::TryRecRead),
        _ => None,
    }
}

// The state of this field.
fn irq_of(word: &[u8]) -> Option<Irq>
    ensures { result ≡ irq_of word.now }
{
    if is_word(word, b"hardirq") {
        Some(Irq::Hard)
    } else if is_word(word, b"softirq") {
        Some(Irq::Soft)
    } else {
        None
    }
}

fn is_word(field: &[u8], word: &[u8]) -> bool
    ensures { result ≡ bytes_eq field.now word.now }
{
    field == word
}

pub(crate) fn field(row: &ByteRecord, place: usize) -> &[u8]
    requires { place < length (fields_of row.now) }
    ensures { field_at (fields_of row.now) place ≡ Some result.now }
{
    match row.get(place) {
        Some(field) => field,
        None => unreachable!(),
    }
}
