//! Facts that are added one by one.

use super::facts::{are_all, has_by_its_parts};
use crate::steps::ShortFact::{Depends, Used, UsedIn};
use crate::steps::{A, B, C, ShortFact};
use ld_facts::Facts;
use ld_task::Kind::{En, Er, Sn};
use ld_trace::Irq::Soft;
use ld_trace::{GRAPH_KEYS, MAX_KEYS};
use std::alloc::Global;

// Facts about keys below a bound, those that aren't there, and how many words hold them.
struct Singles {
    about: &'static str,
    keys: u16,
    facts: &'static [ShortFact],
    absent: &'static [ShortFact],
    words: usize,
}

const LAST: u16 = MAX_KEYS - 1;

static SINGLES: [Singles; 3] = [
    Singles {
        about: "a dependency between two keys",
        keys: 2,
        facts: &[Depends(A, B, En)],
        absent: &[
            Depends(B, A, En),
            Depends(A, B, Sn),
            Depends(A, C, En),
            Used(A),
            Used(C),
        ],
        words: 1,
    },
    Singles {
        about: "as many keys as a graph takes",
        keys: GRAPH_KEYS,
        facts: &[UsedIn(255, Soft, true)],
        absent: &[Depends(255, 255, Sn)],
        words: 4132,
    },
    Singles {
        about: "as many keys as there are",
        keys: MAX_KEYS,
        facts: &[Depends(LAST, LAST, Sn), Depends(LAST, 300, Er), Used(LAST)],
        absent: &[Depends(300, LAST, Er), Used(MAX_KEYS)],
        words: 4195456,
    },
];

// Adds each of the facts once, and once more. Whether each is new only the first time.
fn add_each(facts: &mut Facts, all: &[ShortFact]) -> bool {
    for fact in all {
        let fact = fact.fact();
        if !fact.is_below(facts.keys()) || facts.has(fact) || !facts.add(fact) || facts.add(fact) {
            return false;
        }
    }
    true
}

fn has_none(facts: &Facts, absent: &[ShortFact]) -> bool {
    absent.iter().all(|fact| !facts.has(fact.fact()) && !has_by_its_parts(facts, fact.fact()))
}

fn are_kept(alloc: Global, singles: &Singles) -> Option<bool> {
    if singles.keys > MAX_KEYS {
        return None;
    }
    let mut facts = Facts::new(alloc, singles.keys).ok()?;
    let added = add_each(&mut facts, singles.facts);
    let words = facts.words() == singles.words && facts.word(singles.words).is_none();
    let last = facts.word(singles.words.saturating_sub(1)).is_some();
    Some(
        added
            && words
            && last
            && are_all(&facts, singles.facts)
            && has_none(&facts, singles.absent),
    )
}

fn lost(alloc: Global, rows: &[Singles]) -> Option<&'static str> {
    rows.iter()
        .find(|singles| are_kept(alloc, singles) != Some(true))
        .map(|singles| singles.about)
}

#[test]
fn single_facts_are_kept(rt: HostRuntime) {
    assert_eq!(rt; lost(rt.alloc(), &SINGLES), None);
}
