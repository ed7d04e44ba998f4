//! The words that hold a chain's facts.

ghost use Rattle.std.specs.Prelude.{◌≡◌, ◌≢◌, ℕ, ◌+◌, ◌*◌, ◌/◌, ◌%◌, ◌^◌, ◌<◌, ◌≤◌, [], Some, None, length, slice_get};
ghost use Rattle.std.specs.Option.{ForSome};
ghost use Rattle.ld_task.specs.Chains.{ChainKeysBelow};
ghost use Rattle.ld_facts.specs.FactBits.{FactBelow};
ghost use Rattle.ld_facts.specs.ChainFacts.{fact_slots};
ghost use Rattle.ld_facts.specs.Inside.WordTable.{AreWords, HasWord, StandsAt, UnitesPair, TakesFact, TakesRun, TakesMarkBit, Gathered};
ghost use Rattle.ld_facts.specs.WordPairs.{AreWordsOf};
ghost use Rattle.ld_task.specs.declared.lock.TheConstants.{MAX_HELD};
ghost use Rattle.ld_trace.specs.declared.key_id.TheConstants.{GRAPH_KEYS};

use crate::chain_facts::MARKS_TAKEN;
use crate::fact::{Fact, first_mark, mark_index};
use crate::{bits, chain_facts};
use ld_task::{Chain, Frame};
use ld_trace::{KeyId, Mode};
use std::marker::Model;

// The most words that hold a chain's facts: those of the two marks that an opening gives each of 48 held locks.
const MAX_WORDS: usize = 96;

// How long the run of a key's marks is.
const RUN_LEN: usize = 9;

// How many words a bit for each word of facts takes: there are at most 4,132.
const SEEN_WORDS: usize = 65;

/// The words that hold facts of a chain, each once, and each with just the bits of these facts. There are at most 96.
#[derive(Drop)]
pub struct FactWords {
    // Only the first `len` are in use.
    pairs: [(u16, u64); MAX_WORDS],
    len: usize,
    // A bit for each word of facts: whether it is among the pairs. With 48 held locks a search would take six times as long.
    seen: [u64; SEEN_WORDS],
}

impl Model for FactWords {
    ghost use Rattle.std.specs.Prelude.{◌≡◌, ◌≤◌, List, length, take, ℕ};
    ghost use Rattle.ld_facts.specs.declared.chain_words.TheConstants.{MAX_WORDS};
    ghost use Rattle.ld_facts.specs.Inside.WordTable.{IsTable};

    ghost Value = { List (ℕ × ℕ) };

    ghost view = { λ w. take w.len w.pairs };

    ghost invariant = { λ w. (w.len ≤ MAX_WORDS) × (length w.pairs ≡ MAX_WORDS) × IsTable (take w.len w.pairs) w.seen };
}

impl FactWords {
    /// No words.
    pub fn new() -> FactWords
        ensures { result ≡ [] }
    {
        FactWords {
            pairs: [(0, 0); MAX_WORDS],
            len: 0,
            seen: [0; SEEN_WORDS],
        }
    }

    /// Replaces the words with those of a chain. The chain's keys are below `keys`, which is at most 256.
    pub fn set_to(&mut self, chain: &Chain, keys: u16)
        requires few { keys ≤ GRAPH_KEYS }
        requires below { ChainKeysBelow keys chain.now }
        ensures { AreWordsOf keys chain.now self.new }
    {
        self.clear();
        match chain.taken() {
            Some((key, mode, frame)) => {
                self.add_dependencies(chain, key, mode, frame, keys);
                self.add_marks_of_new(chain, key, mode, frame, keys);
            }
            None => self.add_marks_of_held(chain, keys),
        }
    }

    /// How many words there are, at most 96.
    pub fn len(&self) -> usize
        ensures exact { result ≡ length self.now }
        ensures at_most { result ≤ MAX_WORDS }
    {
        self.len
    }

    /// The number of the word at place `i` and its bits, or None if there is none.
    pub fn get(&self, i: usize) -> Option<(usize, u64)>
        ensures { result ≡ slice_get self.now i }
    {
        let (word, bits) = *self.pairs[..self.len].get(i)?;
        Some((usize::from(word), bits))
    }
}

impl FactWords {
    fn clear(&mut self)
        ensures { self.new ≡ [] }
    {
        self.len = 0;
        self.seen = [0; SEEN_WORDS];
    }

    // Adds the dependencies of an acquisition.
    fn add_dependencies(&mut self, chain: &Chain, key: KeyId, mode: Mode, frame: Frame, keys: u16)
        requires few { keys ≤ GRAPH_KEYS }
        requires below { ChainKeysBelow keys chain.now }
        requires taken { chain.now.new_lock ≡ Some (record { key = key; mode = mode }, frame) }
        requires none { self.old ≡ [] }
        ensures gathered { Gathered keys chain.now self.new (length chain.now.held_locks) }
        ensures few { length self.new ≤ MAX_HELD }
    {
        for i in 0..chain.held_len() {
            self.add_if(chain_facts::dependency_of(chain, i, key, mode), keys);
        }
    }

    // Adds the marks that an acquisition gives, after its dependencies.
    fn add_marks_of_new(&mut self, chain: &Chain, key: KeyId, mode: Mode, frame: Frame, keys: u16)
        requires few { keys ≤ GRAPH_KEYS }
        requires below { ChainKeysBelow keys chain.now }
        requires taken { chain.now.new_lock ≡ Some (record { key = key; mode = mode }, frame) }
        requires few_before { length self.old ≤ MAX_HELD }
        requires before { Gathered keys chain.now self.old (length chain.now.held_locks) }
        ensures { Gathered keys chain.now self.new (fact_slots chain.now) }
    {
        let mut run = 0;
        for n in 0..MARKS_TAKEN {
            run = with_mark(run, chain_facts::mark_of_new(chain, n, key, mode, frame));
        }
        self.add_run(first_mark(keys, key.get()), run);
    }

    // Adds the marks that an opening gives.
    fn add_marks_of_held(&mut self, chain: &Chain, keys: u16)
        requires few { keys ≤ GRAPH_KEYS }
        requires below { ChainKeysBelow keys chain.now }
        requires opening { chain.now.new_lock ≡ None }
        requires none { self.old ≡ [] }
        ensures { Gathered keys chain.now self.new (fact_slots chain.now) }
    {
        for i in 0..chain.held_len() {
            if let Some((key, _)) = chain.held(i) {
                let run = with_mark(0, chain_facts::mark_of_old(chain, i, 0));
                let run = with_mark(run, chain_facts::mark_of_old(chain, i, 1));
                self.add_run(first_mark(keys, key.get()), run);
            }
        }
    }

    // Adds a fact's bit, if there is a fact.
    #[inline(always)]
    fn add_if(&mut self, fact: Option<Fact>, keys: u16)
        requires room { length self.old < MAX_WORDS }
        requires few { keys ≤ GRAPH_KEYS }
        requires below { ForSome fact (FactBelow keys) }
        requires words { AreWords self.old }
        ensures { TakesFact keys self.old self.new fact }
    {
        if let Some(fact) = fact {
            self.add(fact.number(keys));
        }
    }

    // Sets bit `n`.
    #[inline(always)]
    fn add(&mut self, n: usize)
        requires room { length self.old < MAX_WORDS }
        requires low { n < 64 * (64 * SEEN_WORDS) }
        requires words { AreWords self.old }
        ensures bits { UnitesPair self.old self.new (n / 64) (2 ^ (n % 64)) }
        ensures words { AreWords self.new }
        ensures few { length self.new ≤ length self.old + 1 }
    {
        self.add_bits(n / 64, 1 << (n % 64));
    }

    // Adds the nine bits of a run, from bit `first` on.
    #[inline(always)]
    fn add_run(&mut self, first: usize, run: u64)
        requires room { length self.old + 2 ≤ MAX_WORDS }
        requires low { first + RUN_LEN ≤ 64 * (64 * SEEN_WORDS) }
        requires short { run < 2 ^ RUN_LEN }
        requires words { AreWords self.old }
        ensures { TakesRun self.old self.new first run }
    {
        let word = first / 64;
        let shift = first % 64;
        self.add_bits(word, run << shift);
        if shift > 64 - RUN_LEN {
            self.add_bits(word + 1, run >> (64 - shift));
        }
    }

    #[inline(always)]
    fn add_bits(&mut self, word: usize, bits: u64)
        requires room { length self.old < MAX_WORDS }
        requires low { word < 64 * SEEN_WORDS }
        requires words { AreWords self.old }
        ensures bits { UnitesPair self.old self.new word bits }
        ensures words { AreWords self.new }
        ensures few { length self.new ≤ length self.old + 1 }
    {
        if bits == 0 {
            return;
        }
        if bits::has(&self.seen, word) {
            self.unite(word as u16, bits);
        } else {
            self.push(word as u16, bits);
        }
    }

    // Adds a word that isn't here yet.
    fn push(&mut self, word: u16, bits: u64)
        requires room { length self.old < MAX_WORDS }
        requires low { word < 64 * SEEN_WORDS }
        requires fresh { ¬ HasWord self.old word }
        requires some { bits ≢ 0 }
        ensures bits { UnitesPair self.old self.new word bits }
        ensures words { AreWords self.new }
        ensures len { length self.new ≡ length self.old + 1 }
    {
        self.pairs[self.len] = (word, bits);
        self.len += 1;
        bits::insert(&mut self.seen, usize::from(word));
    }

    // Adds bits to a word that is already here.
    fn unite(&mut self, word: u16, bits: u64)
        requires known { HasWord self.old word }
        ensures bits { UnitesPair self.old self.new word bits }
        ensures words { AreWords self.new }
        ensures len { length self.new ≡ length self.old }
    {
        let i = self.find(word);
        self.pairs[i].1 |= bits;
    }

    // The place of a word that is here. The search begins at the last word, which it usually is.
    fn find(&self, word: u16) -> usize
        requires { HasWord self.now word }
        ensures { StandsAt self.now word result }
    {
        let mut i = self.len - 1;
        while self.pairs[i].0 != word {
            i -= 1;
        }
        i
    }
}

// The run of a key's marks with that of a fact, if there is one and it is a mark. Each mark has its place among the
// nine.
fn with_mark(run: u64, fact: Option<Fact>) -> u64
    requires short { run < 2 ^ RUN_LEN }
    ensures short { result < 2 ^ RUN_LEN }
    ensures bits { TakesMarkBit run result fact }
{
    match fact {
        Some(Fact::Marked { mark, .. }) => run | 1 << mark_index(mark),
        _ => run,
    }
}
