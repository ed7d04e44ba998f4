//! Single locks, classes and types: what names tell, and facts by other keys.

use ld_facts::{Fact, Facts};
use ld_task::Kind;
use ld_trace::{KeyTable, Level, MAX_KEYS, Renaming, is_rest};
use std::alloc::Global;

// Names, each with what it tells: its class, its type, and whether it stands for several locks.
static NAMES: [(&str, &str, &str, bool); 11] = [
    ("accounts", "accounts", "accounts", false),
    ("accounts#3", "accounts", "accounts", false),
    ("accounts#rest", "accounts", "accounts", true),
    ("accounts#1@7", "accounts", "accounts", false),
    ("accounts#rest@7", "accounts", "accounts", true),
    ("S::m@main:a#3", "S::m@main:a", "S::m", false),
    ("S::m@main:a", "S::m@main:a", "S::m", false),
    ("a#b#c", "a#b", "a#b", false),
    ("#3", "#3", "#3", false),
    ("#rest", "#rest", "#rest", false),
    ("@x#1", "@x", "@x", false),
];

// The first name that tells something else.
fn mistold(names: &[(&'static str, &str, &str, bool)]) -> Option<&'static str> {
    for (name, class, kind, several) in names {
        let is_class = Level::Classes.text_of(name) == *class;
        let is_kind = Level::Types.text_of(name) == *kind;
        let is_itself = Level::Locks.text_of(name) == *name;
        if !is_class || !is_kind || !is_itself || is_rest(name) != *several {
            return Some(*name);
        }
    }
    None
}

#[test]
fn names_tell_their_classes_and_types(rt: HostRuntime) {
    assert_eq!(rt; mistold(&NAMES), None);
}

// Two locks of a class, and one of another that was taken between them.
fn locks(alloc: Global) -> Option<KeyTable> {
    let mut names = KeyTable::new(alloc).ok()?;
    for name in ["accounts#1", "journal#1", "accounts#2"] {
        names.number(name, 0).ok()?;
    }
    Some(names)
}

fn order(from: u16, to: u16) -> Fact {
    Fact::Dependency {
        from,
        to,
        kind: Kind::En,
    }
}

// Adds a fact, if its keys are below the bound.
fn add(facts: &mut Facts, fact: Fact) {
    if fact.is_below(facts.keys()) {
        facts.add(fact);
    }
}

// The facts by other keys, if each of their keys has one.
fn renamed(alloc: Global, facts: &Facts, keys: u16, others: &[u16]) -> Option<Facts> {
    if keys > MAX_KEYS || others.len() < usize::from(facts.keys()) {
        return None;
    }
    facts.renamed(alloc, keys, others).ok()
}

// The journal was taken under the first of the accounts, and the second under the journal.
fn orders(alloc: Global) -> Option<Facts> {
    let mut facts = Facts::new(alloc, 3).ok()?;
    add(&mut facts, order(0, 1));
    add(&mut facts, order(1, 2));
    Some(facts)
}

// Between the classes both orders are there, and nothing else.
fn classes_are_taken_both_ways(alloc: Global) -> Option<bool> {
    let classes = Renaming::of(alloc, &locks(alloc)?, Level::Classes).ok()?;
    let facts = renamed(alloc, &orders(alloc)?, 2, classes.keys.as_slice())?;
    let both = facts.has(order(0, 1)) && facts.has(order(1, 0));
    Some(both && classes.names.len() == 2 && facts.dependencies() == 2 && facts.marks() == 0)
}

// Without the second of the accounts one order is left.
fn a_key_is_left_out(alloc: Global) -> Option<bool> {
    let kept = renamed(alloc, &orders(alloc)?, 3, &[0, 1, u16::MAX])?;
    Some(kept.has(order(0, 1)) && kept.dependencies() == 1)
}

#[test]
fn facts_get_other_keys(rt: HostRuntime) {
    assert_eq!(rt; classes_are_taken_both_ways(rt.alloc()), Some(true));
    assert_eq!(rt; a_key_is_left_out(rt.alloc()), Some(true));
}
