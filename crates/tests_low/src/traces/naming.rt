//! Names of keys, and their numbers.

use ld_trace::{Event, KeyFault, KeyId, KeyTable, RawTrace};
use std::alloc::Global;

// Calls of `number` on one table with room for two, each with the number that is returned, or why none is.
static NUMBERS: [((&str, u8), Result<u16, KeyFault>); 6] = [
    (("m", 0), Ok(0)),
    (("m", 1), Ok(1)),
    (("m", 0), Ok(0)),
    (("", 9), Err(KeyFault::BadName)),
    (("m", 8), Err(KeyFault::BadSub)),
    (("m", 2), Err(KeyFault::Full)),
];

// The first of these calls that returns something else.
fn misnumbered(keys: &mut KeyTable, calls: &[((&str, u8), Result<u16, KeyFault>)]) -> Option<u8> {
    let mut place = 0u8;
    for ((name, sub), wanted) in calls {
        if keys.number(name, *sub).map(KeyId::get) != *wanted {
            return Some(place);
        }
        place = place.saturating_add(1);
    }
    None
}

fn numbers_two_keys(alloc: Global) -> Option<bool> {
    let mut keys = KeyTable::with_room(alloc, 2).ok()?;
    Some(misnumbered(&mut keys, &NUMBERS).is_none() && keys.len() == 2)
}

fn number_all(keys: &mut KeyTable, alloc: Global) -> Option<()> {
    for i in 0..256 {
        let name = format!(in alloc; "n{i}").ok()?;
        keys.number(name.as_str(), 0).ok()?;
    }
    Some(())
}

// A table with no more room than a run has: 256 keys, and not one more, but a known one again.
fn numbers_256_keys(alloc: Global) -> Option<bool> {
    let mut keys = KeyTable::new(alloc).ok()?;
    number_all(&mut keys, alloc)?;
    let full = keys.number("more", 0) == Err(KeyFault::Full);
    let known = keys.number("n255", 0).map(KeyId::get) == Ok(255);
    Some(full && known && keys.len() == 256)
}

#[test]
fn a_key_keeps_its_number(rt: HostRuntime) {
    assert_eq!(rt; numbers_two_keys(rt.alloc()), Some(true));
    assert_eq!(rt; numbers_256_keys(rt.alloc()), Some(true));
}

// Numbers of keys: which a table with room for many can give, and which one without can.
static KEYS: [(u16, bool, bool); 5] = [
    (255, true, true),
    (256, true, false),
    (8_191, true, false),
    (8_192, false, false),
    (u16::MAX, false, false),
];

fn misfit(rows: &[(u16, bool, bool)]) -> Option<u16> {
    for (number, of_many, new) in rows {
        let many = KeyId::of_many(*number).map(KeyId::get) == Some(*number);
        if many != *of_many || KeyId::new(*number).is_some() != *new {
            return Some(*number);
        }
    }
    None
}

fn make_a_trace(alloc: Global) -> Option<bool> {
    let mut events = Vec::new(alloc);
    events.push(Event::Leave).ok()?;
    let trace = RawTrace::from_events(events)?;
    Some(trace.event(0) == Some(Event::Leave) && trace.keys_below(0))
}

#[test]
fn keys_and_traces_of_ones_own(rt: HostRuntime) {
    assert_eq!(rt; misfit(&KEYS), None);
    assert_eq!(rt; make_a_trace(rt.alloc()), Some(true));
    assert_eq!(rt; KeyFault::BadSub.code(), "K2 BadSub");
}
