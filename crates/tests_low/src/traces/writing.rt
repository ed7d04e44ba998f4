//! The texts of traces, to the byte, and what they read as.

use ld_trace::{Event, Irq, KeyId, KeyTable, RawTrace, read_trace, trace_text};
use std::alloc::Global;
use std::io::Print;
use std::process::Abort;
use std::test::Fail;

// Names with commas and double quotes.
const MARKED: &[u8] =
    b"lockdep,1\nacq,\"a,b\",0,w\nacq,\"say\"\"so\"\"\",1,r\nacq,\"\"\"\",2,rr\nacq,it's;%_~!,4,w\nrel,\"a,b\",0\n";

const ALL: &[u8] =
    b"lockdep,1\nacq,A,0,w\nacq,mm->lock#2,7,r\nacq,A,1,rr\nrel,A,0\nenter,hardirq\nenter,softirq\nleave\non,hardirq\noff,softirq\n";

const TRIES: &[u8] = b"lockdep,2\nacq,A,0,w\nacq,A,0,tw\nacq,A,0,tr\nacq,A,0,trr\n";

const FIRST: &[u8] = b"lockdep,1\nacq,A,0,w\nacq,B,0,r\n";

// Texts of traces, each with a name that the table has before them and with the text that the trace is written as.
static REWRITTEN: [(&str, &[u8], &[u8]); 6] = [
    // What is in the plainest form is written as it was; with a try it is of version 2.
    ("A", ALL, ALL),
    ("A", TRIES, TRIES),
    // What is in another form is written in the plainest.
    (
        "A",
        b"\"lockdep\",2\r\n\r\n\"acq\",\"A\",0,w\r\nrel,A,\"0\"",
        b"lockdep,1\nacq,A,0,w\nrel,A,0\n",
    ),
    // Names with a comma or a double quote are quoted.
    ("A", MARKED, MARKED),
    ("A", b"lockdep,2\n", b"lockdep,1\n"),
    // The numbers of keys are in no text.
    ("B", FIRST, FIRST),
];

// The text that a trace of this text is written as.
fn rewritten(alloc: Global, before: &str, text: &[u8]) -> Option<Vec<u8>> {
    let mut keys = KeyTable::new(alloc).ok()?;
    keys.number(before, 0).ok()?;
    let events = read_trace(alloc, text, &mut keys).ok()?;
    trace_text(alloc, &events, &keys).ok()
}

// Whether that is this text.
fn is_rewritten(alloc: Global, before: &str, text: &[u8], wanted: &[u8]) -> bool {
    match rewritten(alloc, before, text) {
        Some(written) => written.as_slice() == wanted,
        None => false,
    }
}

// The place of the first that is written otherwise.
fn miswritten(alloc: Global, rows: &[(&str, &[u8], &[u8])]) -> Option<u8> {
    let mut place = 0u8;
    for (before, text, wanted) in rows {
        if !is_rewritten(alloc, before, text, wanted) {
            return Some(place);
        }
        place = place.saturating_add(1);
    }
    None
}

// Whether the table has this name at this number.
fn has_name(keys: &KeyTable, number: u16, name: (&str, u8)) -> bool {
    match KeyId::new(number) {
        Some(key) => keys.name_of(key) == Some(name),
        None => false,
    }
}

fn reads_between_the_quotes(alloc: Global) -> Option<bool> {
    let mut keys = KeyTable::new(alloc).ok()?;
    read_trace(alloc, MARKED, &mut keys).ok()?;
    let marked = has_name(&keys, 0, ("a,b", 0)) && has_name(&keys, 1, ("say\"so\"", 1));
    Some(marked && has_name(&keys, 2, ("\"", 2)) && has_name(&keys, 3, ("it's;%_~!", 4)))
}

// A key that the table has no name for is written with an empty name.
fn writes_no_name(alloc: Global) -> Option<bool> {
    let mut events = Vec::new(alloc);
    let key = KeyId::default();
    events.push(Event::Release { key }).ok()?;
    events.push(Event::TurnOn { irq: Irq::Soft }).ok()?;
    let events = RawTrace::from_events(events)?;
    let keys = KeyTable::new(alloc).ok()?;
    let text = trace_text(alloc, &events, &keys).ok()?;
    Some(text.as_slice() == b"lockdep,1\nrel,,0\non,softirq\n".as_slice())
}

#[test]
fn texts_of_traces(rt: HostRuntime) {
    assert_eq!(rt; miswritten(rt.alloc(), &REWRITTEN), None);
    assert_eq!(rt; reads_between_the_quotes(rt.alloc()), Some(true));
    assert_eq!(rt; writes_no_name(rt.alloc()), Some(true));
}

// Writes a trace of this many events, whose text has this many bytes.
fn writes(rt: &(impl Abort + AllocGlobal + Print), count: usize, bytes: usize) -> Result<(), Fail> {
    let mut events = Vec::new(rt.alloc());
    for _ in 0..count {
        if events.push(Event::Leave).is_err() {
            events.push(Event::Leave)?;
        }
    }
    let events = RawTrace::from_events(events).ok_or("too many events")?;
    let keys = KeyTable::new(rt.alloc())?;
    let text = match trace_text(rt.alloc(), &events, &keys) {
        Ok(text) => text,
        Err(_) => {
            println!(rt; "refused: the text")?;
            trace_text(rt.alloc(), &events, &keys)?
        }
    };
    assert_eq!(rt; text.len(), bytes);
    Ok(())
}

#[test]
fn want_of_memory_in_writing(rt: HostRuntime) -> Result<(), Fail> {
    writes(&rt, 0, 10)?;
    writes(&rt, 2_000, 12_010)
}
