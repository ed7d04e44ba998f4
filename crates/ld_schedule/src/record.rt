//! Reading one record of a history.

ghost use Rattle.std.specs.Prelude.{◌≡◌, ◌<◌, length, codes, Some, option_map};
ghost use Rattle.std.specs.Str.{bytes_eq};
ghost use Rattle.csv.specs.Records.{field_at, fields_of};
ghost use Rattle.ld_schedule.specs.Names.{are_visible, is_name};
ghost use Rattle.ld_schedule.specs.Records.{are_digits, declaration, has_leading_zero, is_decimal, is_header, kind_of, line_of_record, message_of, mode_of, short_deed, short_line, take_line};
ghost use Rattle.ld_schedule.specs.Inside.ReadLines.{Says, SaysDeed, SaysName};

use crate::limits::MAX_NAME;
use crate::line::{Deed, Line, LineName};
use crate::read_fault::ReadFaultKind;
use crate::step::{HoldMode, LockKind, Wait};
use csv::ByteRecord;
use std::str;

// The most digits of a number below 2^32.
const MOST_DIGITS: usize = 10;

// Whether a record is the first one of a history.
pub(crate) fn is_header(row: &ByteRecord) -> bool
    ensures { result ≡ is_header (fields_of row.now) }
{
    if row.len() != 2 {
        return false;
    }
    is_word(field(row, 0), b"history") && is_word(field(row, 1), b"1")
}

// What a record after the first says, or its fault.
pub(crate) fn line_of(row: &ByteRecord) -> Result<Line<'_>, ReadFaultKind>
    ensures { Says (line_of_record (fields_of row.now)) result }
{
    match row.len() {
        2 => declaration(field(row, 0), field(row, 1)),
        3 => short_line(field(row, 0), field(row, 1), field(row, 2)),
        4 => take_line(field(row, 0), field(row, 1), field(row, 2), field(row, 3)),
        _ => Err(ReadFaultKind::BadRecord),
    }
}

// What `thread` or `once` and a lock say.
fn declaration<'r>(word: &[u8], lock: &'r [u8]) -> Result<Line<'r>, ReadFaultKind>
    ensures { Says (declaration (kind_of word.now) lock.now) result }
{
    let kind = kind_of(word).ok_or(ReadFaultKind::BadRecord)?;
    let lock = name_of(lock)?;
    Ok(Line::Declares(lock, kind))
}

fn kind_of(word: &[u8]) -> Option<LockKind>
    ensures { result ≡ kind_of word.now }
{
    if is_word(word, b"thread") {
        Some(LockKind::Thread)
    } else if is_word(word, b"once") {
        Some(LockKind::Once)
    } else {
        None
    }
}

// What a task, a verb, and a lock or a message say.
fn short_line<'r>(task: &'r [u8], verb: &[u8], what: &'r [u8]) -> Result<Line<'r>, ReadFaultKind>
    ensures { Says (short_line task.now (short_deed verb.now what.now)) result }
{
    let deed = short_deed(verb, what)?;
    let task = name_of(task)?;
    Ok(Line::Does(task, deed))
}

fn short_deed<'r>(verb: &[u8], what: &'r [u8]) -> Result<Deed<'r>, ReadFaultKind>
    ensures { SaysDeed (short_deed verb.now what.now) result }
{
    if is_word(verb, b"release") {
        Ok(Deed::Releases(name_of(what)?))
    } else if is_word(verb, b"give") {
        Ok(Deed::Gives(message_of(what).ok_or(ReadFaultKind::BadRecord)?))
    } else if is_word(verb, b"get") {
        Ok(Deed::Gets(message_of(what).ok_or(ReadFaultKind::BadRecord)?))
    } else if is_word(verb, b"again") {
        Ok(Deed::TakesAgain(name_of(what)?))
    } else {
        Err(ReadFaultKind::BadRecord)
    }
}

// What a task, `take`, a lock and a mode say; the names are checked before the mode.
fn take_line<'r>(
    task: &'r [u8],
    verb: &[u8],
    lock: &'r [u8],
    mode: &[u8],
) -> Result<Line<'r>, ReadFaultKind>
    ensures { Says (take_line task.now verb.now lock.now mode.now) result }
{
    if !is_word(verb, b"take") {
        return Err(ReadFaultKind::BadRecord);
    }
    let task = name_of(task)?;
    let lock = name_of(lock)?;
    let (mode, wait) = mode_of(mode).ok_or(ReadFaultKind::BadMode)?;
    Ok(Line::Does(task, Deed::Takes(lock, mode, wait)))
}

// The mode of this field, and whether the taking waits.
fn mode_of(word: &[u8]) -> Option<(HoldMode, Wait)>
    ensures { result ≡ mode_of word.now }
{
    match word {
        [b'w'] => Some((HoldMode::Write, Wait::Forever)),
        [b'r'] => Some((HoldMode::Read, Wait::Forever)),
        [b'r', b'r'] => Some((HoldMode::RecRead, Wait::Forever)),
        [b't', b'w'] => Some((HoldMode::Write, Wait::Never)),
        [b't', b'r'] => Some((HoldMode::Read, Wait::Never)),
        [b't', b'r', b'r'] => Some((HoldMode::RecRead, Wait::Never)),
        [b'l', b'w'] => Some((HoldMode::Write, Wait::Limited)),
        [b'l', b'r'] => Some((HoldMode::Read, Wait::Limited)),
        [b'l', b'r', b'r'] => Some((HoldMode::RecRead, Wait::Limited)),
        _ => None,
    }
}

// The message of this field.
fn message_of(word: &[u8]) -> Option<u32>
    ensures { result ≡ message_of word.now }
{
    if !is_decimal(word) {
        return None;
    }
    let text = unsafe { str::from_utf8_unchecked(word) };
    text.parse::<u32>().ok()
}

// Whether the field is a decimal number of at most 10 digits without leading zeros.
fn is_decimal(word: &[u8]) -> bool
    ensures { result ≡ is_decimal word.now }
{
    !word.is_empty() && word.len() <= MOST_DIGITS && are_digits(word) && !has_leading_zero(word)
}

fn are_digits(word: &[u8]) -> bool
    ensures { result ≡ are_digits word.now }
{
    word.iter().all(|&byte| 48 <= byte && byte <= 57)
}

// Whether more follows a first digit 0.
fn has_leading_zero(word: &[u8]) -> bool
    ensures { result ≡ has_leading_zero word.now }
{
    match word {
        [first, _, ..] => *first == b'0',
        _ => false,
    }
}

// The name in this field: 1 to 64 bytes, each 0x21 to 0x7E.
fn name_of(text: &[u8]) -> Result<LineName<'_>, ReadFaultKind>
    ensures { SaysName text.now result }
{
    if !is_name(text) {
        return Err(ReadFaultKind::BadName);
    }
    let text = unsafe { str::from_utf8_unchecked(text) };
    Ok(LineName { text })
}

fn is_name(text: &[u8]) -> bool
    ensures { result ≡ is_name text.now }
{
    !text.is_empty() && text.len() <= MAX_NAME && are_visible(text)
}

// Whether each of these bytes is 0x21 to 0x7E.
fn are_visible(bytes: &[u8]) -> bool
    ensures { result ≡ are_visible bytes.now }
{
    bytes.iter().all(|&byte| 0x21 <= byte && byte <= 0x7E)
}

fn is_word(field: &[u8], word: &[u8]) -> bool
    ensures { result ≡ bytes_eq field.now word.now }
{
    field == word
}

fn field(row: &ByteRecord, place: usize) -> &[u8]
    requires { place < length (fields_of row.now) }
    ensures { field_at (fields_of row.now) place ≡ Some result.now }
{
    match row.get(place) {
        Some(field) => field,
        None => unreachable!(),
    }
}
