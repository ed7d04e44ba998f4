//! Texts and what they read as, and readers that are slow or fail.

use ld_trace::TraceFaultKind::{
    BadMode, BadName, BadRecord, BadSub, NoHeader, TooManyKeys, TooManyRecords,
};
use ld_trace::{
    Event, Irq, KeyId, KeyTable, Mode, RawTrace, TraceFault, TraceFaultKind, read_trace,
};
use std::alloc::Global;
use std::io;
use std::io::Read;

// Gives one byte per call, and returns an error instead of the byte at this place.
#[derive(Drop)]
struct Slow<'t> {
    text: &'t [u8],
    given: usize,
    fails_at: Option<usize>,
}

impl Read for Slow<'_> {
    fn read(&mut self, buf: &mut [u8]) -> io::Result<usize> {
        if self.fails_at == Some(self.given) {
            return Err(io::Error::from(io::ErrorKind::Other));
        }
        match (self.text.get(self.given), buf.first_mut()) {
            (Some(byte), Some(place)) => {
                *place = *byte;
                self.given = self.given.saturating_add(1);
                Ok(1)
            }
            _ => Ok(0),
        }
    }
}

// The number of a trace's events, read over a table of its own, or why it is refused and at which record.
type Ends = Result<usize, (TraceFaultKind, usize)>;

fn events_of(alloc: Global, text: &[u8]) -> Ends {
    let Ok(mut keys) = KeyTable::new(alloc) else {
        return Err((TraceFaultKind::Memory, 0));
    };
    match read_trace(alloc, text, &mut keys) {
        Ok(trace) => Ok(trace.len()),
        Err(TraceFault { kind, at }) => Err((kind, at)),
    }
}

static READINGS: [(&[u8], Ends); 26] = [
    // First records that are no header.
    (b"lockdep,3\n", Err((NoHeader, 1))),
    (b"Lockdep,1\n", Err((NoHeader, 1))),
    (b"lockdep,1,\n", Err((NoHeader, 1))),
    (b"acq,A,0,w\n", Err((NoHeader, 1))),
    (b"\n", Err((NoHeader, 1))),
    // Malformed second records.
    (b"lockdep,1\nacq,,9,x\n", Err((BadName, 2))),
    (
        b"lockdep,1\nacq,nnnnnnnnnnnnnnnnnnnnnnnnnnnnnnnnnnnnnnnnnnnnnnnnnnnnnnnnnnnnnnnnn,0,w\n",
        Err((BadName, 2)),
    ),
    (b"lockdep,1\nacq,\xff,0,w\n", Err((BadName, 2))),
    (b"lockdep,1\nrel,A,8\n", Err((BadSub, 2))),
    (b"lockdep,1\nacq,m,8,w\n", Err((BadSub, 2))),
    (b"lockdep,1\nacq,A,00,w\n", Err((BadSub, 2))),
    (b"lockdep,1\nacq,A,0,W\n", Err((BadMode, 2))),
    (b"lockdep,1\nleave,x\n", Err((BadRecord, 2))),
    (b"lockdep,1\nenter,irq\n", Err((BadRecord, 2))),
    (b"lockdep,1\nAcq,A,0,w\n", Err((BadRecord, 2))),
    (b"lockdep,1\nacq,A,0\n", Err((BadRecord, 2))),
    (b"lockdep,1\nlockdep,1\n", Err((BadRecord, 2))),
    (b"lockdep,1\n\"\"\n", Err((BadRecord, 2))),
    // Tries are modes only in version 2.
    (b"lockdep,1\nacq,A,0,tw\n", Err((BadMode, 2))),
    (b"lockdep,1\nacq,A,0,tr\n", Err((BadMode, 2))),
    (b"lockdep,1\nacq,A,0,trr\n", Err((BadMode, 2))),
    (b"lockdep,2\nacq,A,0,t\n", Err((BadMode, 2))),
    (b"lockdep,2\nacq,A,0,twr\n", Err((BadMode, 2))),
    (b"lockdep,2\nlockdep,2\n", Err((BadRecord, 2))),
    // A text in which nothing is wrong, and one with a fault after others.
    (b"lockdep,1\nacq,A,0,w\nrel,A,0\n", Ok(2)),
    (
        b"lockdep,1\nacq,A,0,w\nacq,B,0,w\nacq,C,0,x\nacq,D,0,w\n",
        Err((BadMode, 4)),
    ),
];

// The place of the first text that reads otherwise.
fn misread(alloc: Global, rows: &[(&[u8], Ends)]) -> Option<u8> {
    let mut place = 0u8;
    for (text, ends) in rows {
        if events_of(alloc, text) != *ends {
            return Some(place);
        }
        place = place.saturating_add(1);
    }
    None
}

// How a text of two records ends that is cut short after this many bytes.
fn end_of_cut(bytes: usize) -> Ends {
    match bytes {
        0..=8 => Err((NoHeader, 1)),
        9 | 10 => Ok(0),
        11..=17 => Err((BadRecord, 2)),
        18 => Err((BadMode, 2)),
        _ => Ok(1),
    }
}

fn misread_cut(alloc: Global, text: &[u8; 20]) -> Option<usize> {
    for bytes in 0..21 {
        if events_of(alloc, &text[..bytes]) != end_of_cut(bytes) {
            return Some(bytes);
        }
    }
    None
}

#[test]
fn short_texts(rt: HostRuntime) {
    assert_eq!(rt; misread(rt.alloc(), &READINGS), None);
    assert_eq!(rt; misread_cut(rt.alloc(), b"lockdep,1\nacq,A,0,w\n"), None);
}

// Whether these are the trace's events, and no others.
fn has_events(trace: &RawTrace, wanted: &[Event]) -> bool {
    let same = (0..=wanted.len()).all(|i| trace.event(i) == wanted.get(i).copied());
    same && trace.len() == wanted.len()
}

fn take(key: KeyId, mode: Mode) -> Event {
    Event::Acquire { key, mode }
}

// A text in many forms: blank lines, ends of lines of both kinds, quotes, a name with a comma.
fn reads_as_its_records_say(alloc: Global) -> Option<bool> {
    let text =
        b"\r\n\nlockdep,1\r\nacq,A,0,w\n\n\"acq\",\"a,b\",7,rr\nacq,A,1,r\nrel,A,0\nenter,hardirq\nleave\noff,softirq\non,softirq";
    let mut keys = KeyTable::new(alloc).ok()?;
    let trace = read_trace(alloc, text.as_slice(), &mut keys).ok()?;
    let (first, second, third) = (KeyId::new(0)?, KeyId::new(1)?, KeyId::new(2)?);
    let wanted = [
        take(first, Mode::Write),
        take(second, Mode::RecRead),
        take(third, Mode::Read),
        Event::Release { key: first },
        Event::Enter { irq: Irq::Hard },
        Event::Leave,
        Event::TurnOff { irq: Irq::Soft },
        Event::TurnOn { irq: Irq::Soft },
    ];
    let named = keys.name_of(second) == Some(("a,b", 7)) && keys.name_of(third) == Some(("A", 1));
    let below = trace.keys_below(3) && !trace.keys_below(2) && keys.len() == 3;
    Some(has_events(&trace, &wanted) && named && below)
}

fn reads_tries(alloc: Global) -> Option<bool> {
    let text = b"lockdep,2\nacq,A,0,tw\nacq,A,0,tr\nacq,A,0,trr\nacq,A,0,w\nacq,A,0,rr\n";
    let mut keys = KeyTable::new(alloc).ok()?;
    let trace = read_trace(alloc, text.as_slice(), &mut keys).ok()?;
    let key = KeyId::new(0)?;
    let wanted = [
        take(key, Mode::TryWrite),
        take(key, Mode::TryRead),
        take(key, Mode::TryRecRead),
        take(key, Mode::Write),
        take(key, Mode::RecRead),
    ];
    Some(has_events(&trace, &wanted))
}

// A second trace shares the numbers of the first. A refused record leaves its key out.
fn shares_numbers(alloc: Global) -> Option<bool> {
    let mut keys = KeyTable::new(alloc).ok()?;
    let first = b"lockdep,1\nacq,A,0,w\nacq,B,0,w\n";
    let first = read_trace(alloc, first.as_slice(), &mut keys).ok()?;
    let second = b"lockdep,1\nacq,C,0,w\nacq,A,0,w\n";
    let second = read_trace(alloc, second.as_slice(), &mut keys).ok()?;
    let third = b"lockdep,1\nacq,D,0,w\nacq,E,0,x\nacq,F,0,w\n";
    let fault = read_trace(alloc, third.as_slice(), &mut keys).err()?;
    let refused = fault.code() == "T5 BadMode" && fault.at == 3;
    Some(second.event(1) == first.event(0) && refused && keys.len() == 4)
}

#[test]
fn whole_texts(rt: HostRuntime) {
    assert_eq!(rt; reads_as_its_records_say(rt.alloc()), Some(true));
    assert_eq!(rt; reads_tries(rt.alloc()), Some(true));
    assert_eq!(rt; shares_numbers(rt.alloc()), Some(true));
}

const SLOW: &[u8; 38] = b"lockdep,1\nacq,A,0,w\nacq,B,0,w\nrel,A,0\n";

// Whether a reader that fails after this many bytes ends the reading at the record that it was in, with the names of
// those before.
fn fails_after(alloc: Global, bytes: usize) -> Option<bool> {
    let mut keys = KeyTable::new(alloc).ok()?;
    let slow = Slow {
        text: SLOW,
        given: 0,
        fails_at: Some(bytes),
    };
    let whole = SLOW
        .iter()
        .take(bytes)
        .filter(|byte| **byte == b'\n')
        .count();
    let fault = read_trace(alloc, slow, &mut keys).err()?;
    let here = fault.code() == "T8 Source" && fault.at == whole.saturating_add(1);
    Some(here && keys.len() == whole.saturating_sub(1).min(2))
}

fn misread_slowly(alloc: Global) -> Option<usize> {
    for bytes in 0..39 {
        if fails_after(alloc, bytes) != Some(true) {
            return Some(bytes);
        }
    }
    None
}

fn reads_slowly(alloc: Global) -> Option<usize> {
    let mut keys = KeyTable::new(alloc).ok()?;
    let slow = Slow {
        text: SLOW,
        given: 0,
        fails_at: None,
    };
    Some(read_trace(alloc, slow, &mut keys).ok()?.len())
}

#[test]
fn a_reader_of_one_byte_a_call_fails_at_any_call(rt: HostRuntime) {
    assert_eq!(rt; misread_slowly(rt.alloc()), None);
    assert_eq!(rt; reads_slowly(rt.alloc()), Some(3));
}

// How a text that continues like this ends.
fn end_with(alloc: Global, text: &[u8], more: &[u8]) -> Option<Ends> {
    let mut longer = Vec::new(alloc);
    longer.extend_from_slice(text).ok()?;
    longer.extend_from_slice(more).ok()?;
    Some(events_of(alloc, longer.as_slice()))
}

// The first of these ends of a text with which it ends otherwise.
fn misread_end(
    alloc: Global,
    text: &[u8],
    ends: &[(&'static [u8], Ends)],
) -> Option<&'static [u8]> {
    for (more, wanted) in ends {
        if end_with(alloc, text, more) != Some(*wanted) {
            return Some(more);
        }
    }
    None
}

fn a_million_events(alloc: Global) -> Option<Vec<u8>> {
    let mut text = Vec::new(alloc);
    text.extend_from_slice(b"lockdep,1\n").ok()?;
    for _ in 0..500_000 {
        text.extend_from_slice(b"acq,A,0,w\nrel,A,0\n").ok()?;
    }
    Some(text)
}

fn all_keys(alloc: Global) -> Option<Vec<u8>> {
    let mut text = Vec::new(alloc);
    text.extend_from_slice(b"lockdep,1\n").ok()?;
    for i in 0..256 {
        let uses = format!(in alloc; "acq,n{i},0,w\nrel,n{i},0\n").ok()?;
        text.extend_from_slice(uses.as_bytes()).ok()?;
    }
    Some(text)
}

static AFTER_A_MILLION: [(&[u8], Ends); 3] = [
    (b"", Ok(1_000_000)),
    (b"leave\n", Err((TooManyRecords, 1_000_002))),
    (b"x\n", Err((TooManyRecords, 1_000_002))),
];

static AFTER_ALL_KEYS: [(&[u8], Ends); 4] = [
    (b"", Ok(512)),
    (b"acq,n256,0,w\n", Err((TooManyKeys, 514))),
    (b"rel,n256,0\n", Err((TooManyKeys, 514))),
    (b"rel,n255,0\n", Ok(513)),
];

fn misread_long_texts(alloc: Global) -> Option<&'static [u8]> {
    let Some(million) = a_million_events(alloc) else {
        return Some(b"a million events");
    };
    let Some(keys) = all_keys(alloc) else {
        return Some(b"all keys");
    };
    let first = misread_end(alloc, million.as_slice(), &AFTER_A_MILLION);
    first.or(misread_end(alloc, keys.as_slice(), &AFTER_ALL_KEYS))
}

#[test]
fn a_million_events_and_all_keys_and_one_more(rt: HostRuntime) {
    assert_eq!(rt; misread_long_texts(rt.alloc()), None);
}
