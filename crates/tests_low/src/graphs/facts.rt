//! Facts of chains, and their bits.

ghost use Rattle.std.specs.Prelude.{◌≤◌};
ghost use Rattle.ld_task.specs.Chains.{ChainKeysBelow};
ghost use Rattle.ld_trace.specs.declared.key_id.TheConstants.{GRAPH_KEYS};

use crate::steps::ShortFact::{Depends, Enabled, Used};
use crate::steps::Step::{Read, Reread, TurnOff, TurnOn, Write};
use crate::steps::{A, B, C, ShortFact, Step, last_chain};
use ld_facts::{Fact, FactWords, Facts};
use ld_task::Chain;
use ld_task::Kind::{En, Sn};
use ld_trace::GRAPH_KEYS;
use ld_trace::Irq::{Hard, Soft};
use std::alloc::Global;

// The facts of the last chain of a trace, and the words that hold their bits.
struct Last {
    about: &'static str,
    keys: u16,
    trace: &'static [Step],
    facts: &'static [ShortFact],
    words: &'static [(usize, u64)],
}

static LASTS: [Last; 7] = [
    Last {
        about: "a lock by itself",
        keys: 2,
        trace: &[Write(A)],
        facts: &[Used(A), Enabled(A, Hard, false), Enabled(A, Soft, false)],
        words: &[(0, 1 << 16 | 1 << 19 | 1 << 23)],
    },
    Last {
        about: "a lock under another",
        keys: 2,
        trace: &[Write(A), Write(B)],
        facts: &[
            Depends(A, B, En),
            Used(B),
            Enabled(B, Hard, false),
            Enabled(B, Soft, false),
        ],
        words: &[(0, 1 << 5 | 1 << 25 | 1 << 28 | 1 << 32)],
    },
    Last {
        about: "a lock with hardirqs off",
        keys: 1,
        trace: &[TurnOff(Hard), Write(A)],
        facts: &[Used(A)],
        words: &[(0, 1 << 4)],
    },
    Last {
        about: "hardirqs turned on while a lock is held",
        keys: 1,
        trace: &[TurnOff(Hard), Write(A), TurnOn(Hard)],
        facts: &[Enabled(A, Hard, false), Enabled(A, Soft, false)],
        words: &[(0, 1 << 7 | 1 << 11)],
    },
    Last {
        about: "a reader under a writer and a recursive reader",
        keys: 3,
        trace: &[Write(A), Reread(C), Read(B)],
        facts: &[
            Depends(A, B, En),
            Depends(C, B, Sn),
            Used(B),
            Enabled(B, Hard, true),
            Enabled(B, Soft, true),
        ],
        words: &[(0, 1 << 5 | 1 << 31 | 1 << 45 | 1 << 49 | 1 << 53)],
    },
    Last {
        about: "softirqs turned on while two locks are held",
        keys: 3,
        trace: &[TurnOff(Soft), Read(C), Write(A), TurnOn(Soft)],
        facts: &[
            Enabled(C, Hard, true),
            Enabled(C, Soft, true),
            Enabled(A, Hard, false),
            Enabled(A, Soft, false),
        ],
        words: &[(0, 1 << 39 | 1 << 43 | 1 << 58 | 1 << 62)],
    },
    Last {
        about: "no lock is held where hardirqs are turned on",
        keys: 1,
        trace: &[TurnOff(Hard), TurnOn(Hard)],
        facts: &[],
        words: &[],
    },
];

fn has_words(words: &FactWords, wanted: &[(usize, u64)]) -> bool {
    let same = (0..=wanted.len()).all(|i| words.get(i) == wanted.get(i).copied());
    same && words.len() == wanted.len()
}

pub(crate) fn has_by_its_parts(facts: &Facts, fact: Fact) -> bool {
    match fact {
        Fact::Dependency { from, to, kind } => facts.has_dep(from, to, kind),
        Fact::Marked { key, mark } => facts.has_mark(key, mark),
    }
}

// Adds a fact about keys below the bound, and returns whether it is new.
pub(crate) fn add(facts: &mut Facts, fact: ShortFact) -> Option<bool> {
    let fact = fact.fact();
    if !fact.is_below(facts.keys()) {
        return None;
    }
    Some(facts.add(fact))
}

// Whether these are the facts, and no other.
pub(crate) fn are_all(facts: &Facts, wanted: &[ShortFact]) -> bool {
    let mut dependencies = 0u64;
    for fact in wanted {
        if !facts.has(fact.fact()) || !has_by_its_parts(facts, fact.fact()) {
            return false;
        }
        if matches!(fact, Depends(..)) {
            dependencies = dependencies.saturating_add(1);
        }
    }
    let all = facts.dependencies().saturating_add(facts.marks());
    facts.dependencies() == dependencies && all == wanted.len() as u64
}

// Unites the words of a chain with the facts, one by one.
fn unite_words(facts: &mut Facts, chain: &Chain)
    requires few { facts.old.keys ≤ GRAPH_KEYS }
    requires below { ChainKeysBelow facts.old.keys chain.now }
{
    let mut words = FactWords::new();
    words.set_to(chain, facts.keys());
    for i in 0..words.len() {
        if let Some((n, bits)) = words.get(i) {
            facts.unite_word(n, bits);
        }
    }
}

// The facts of the chain, which are new once, and its words.
fn facts_of(alloc: Global, chain: &Chain, keys: u16, words: &mut FactWords) -> Option<Facts> {
    if keys > GRAPH_KEYS || !chain.keys_below(keys) {
        return None;
    }
    let mut facts = Facts::new(alloc, keys).ok()?;
    words.set_to(chain, keys);
    if facts.add_chain(chain) == (words.len() == 0) || facts.add_chain(chain) {
        return None;
    }
    Some(facts)
}

// The same facts, by their words.
fn facts_by_words(alloc: Global, chain: &Chain, keys: u16) -> Option<Facts> {
    if keys > GRAPH_KEYS || !chain.keys_below(keys) {
        return None;
    }
    let mut facts = Facts::new(alloc, keys).ok()?;
    unite_words(&mut facts, chain);
    Some(facts)
}

// The same facts, united with an empty set.
fn united(alloc: Global, facts: &Facts) -> Option<Facts> {
    let mut all = Facts::new(alloc, facts.keys()).ok()?;
    if all.same(facts) {
        return None;
    }
    all.unite(facts);
    Some(all)
}

// Whether the words of the last chain, which replace others, and its facts, added in each way, are as expected.
fn is_as_wanted(alloc: Global, last: &Last, words: &mut FactWords) -> Option<bool> {
    let chain = last_chain(last.trace)?;
    let facts = facts_of(alloc, &chain, last.keys, words)?;
    let by_words = facts_by_words(alloc, &chain, last.keys)?;
    let same = by_words.same(&facts)
        && (last.facts.is_empty() || united(alloc, &facts)?.same(&facts));
    let first = match last.words.first() {
        Some((_, bits)) => *bits,
        None => 0,
    };
    let told = facts.words() == 1 && facts.word(0) == Some(first) && facts.word(1).is_none();
    Some(same && told && has_words(words, last.words) && are_all(&facts, last.facts))
}

fn misfit(alloc: Global, lasts: &[Last]) -> Option<&'static str> {
    let mut words = FactWords::new();
    lasts
        .iter()
        .find(|last| is_as_wanted(alloc, last, &mut words) != Some(true))
        .map(|last| last.about)
}

// Whether uniting the words of each of these traces' last chains gives what adding the chains gives, over the facts of
// those before.
fn are_united_in_turn(alloc: Global, traces: &[&[Step]]) -> Option<bool> {
    let mut facts = Facts::new(alloc, 3).ok()?;
    let mut by_words = Facts::new(alloc, 3).ok()?;
    for trace in traces {
        let chain = last_chain(trace)?;
        if !chain.keys_below(3) || facts.keys() != 3 || by_words.keys() != 3 {
            return None;
        }
        facts.add_chain(&chain);
        if by_words.same(&facts) {
            return Some(false);
        }
        unite_words(&mut by_words, &chain);
        if !by_words.same(&facts) {
            return Some(false);
        }
    }
    Some(true)
}

static IN_TURN: [&[Step]; 2] = [
    &[Write(A), Reread(C), Read(B)],
    &[TurnOff(Soft), Read(C), Write(A), TurnOn(Soft)],
];

#[test]
fn the_facts_of_a_chain_are_bits(rt: HostRuntime) {
    assert_eq!(rt; misfit(rt.alloc(), &LASTS), None);
    assert_eq!(rt; are_united_in_turn(rt.alloc(), &IN_TURN), Some(true));
}
