//! A journal of chains, with what belongs to it.

ghost use Rattle.std.specs.Prelude.{◌≡◌, ◌≤◌, ◌++◌, ◌↔◌, [], ◌∷◌, length, option_map, slice_get, IfOk, OnOk, OnErr, IfErr, IsErrOf, IsTrue, IsFalse};
ghost use Rattle.ld_task.specs.Chains.{ChainKeysBelow};
ghost use Rattle.ld_facts.specs.Counting.{IsNumberOf};
ghost use Rattle.ld_facts.specs.FactBits.{HasFact};
ghost use Rattle.ld_facts.specs.Facts.{Adds, AreSame, ChainHas, DependenciesOf, Holds};
ghost use Rattle.ld_graph.specs.Links.{IsClean};
ghost use Rattle.ld_facts.specs.declared.fact.Fact.{Fact};
ghost use Rattle.ld_book.specs.Books.{JournalHas, StandsIn, acquisition_count, opening_count};
ghost use Rattle.ld_book.specs.Inside.Journals.{HasRoomForNew};

use crate::fault::BookFault;
use crate::journal::Journal;
use ld_graph::Graph;
use ld_task::{Chain, Kind, Mark};
use ld_trace::GRAPH_KEYS;
use std::alloc::{AllocError, Global};
use std::marker::Model;

/// What an entry brought.
#[derive(Clone, Copy, PartialEq, Eq, Debug)]
pub struct News {
    /// A dependency or a mark of the chain is new to the book.
    pub fresh: bool,
    /// The book's facts are clean afterwards.
    pub clean: bool,
}

/// Totals derived from the journal.
#[derive(Clone, Copy, PartialEq, Eq, Debug)]
pub struct Totals {
    /// The number of entries.
    pub entries: u64,
    /// How many of them are acquisitions.
    pub acquisitions: u64,
    /// How many of them are openings.
    pub openings: u64,
    /// The number of distinct dependencies.
    pub dependencies: u64,
}

/// A journal of chains, each with the trace that it comes from, and the facts of these chains [this project's own; the
/// rules of the facts are those of the sections "Multi-lock dependency rules" and "Single-lock state rules"]. The keys
/// are below a bound of at most 256, and the journal is no longer than a limit. Everything that a book returns is
/// derived from its journal, even after a refused entry.
#[derive(Drop)]
pub struct Book {
    journal: Journal,
    graph: Graph,
    acquisitions: u64,
    limit: u64,
}

impl Model for Book {
    ghost use Rattle.ld_book.specs.Books.{BookParts, IsLawful};

    ghost Value = { BookParts };

    ghost view = { λ b. record {
      journal = b.journal.written;
      keys = b.graph.facts.keys;
      limit = b.limit;
    } };

    ghost invariant = { λ b. IsLawful b.graph.facts b.journal.written b.acquisitions b.limit };
}

impl Book {
    /// A book without entries, for keys below `keys`, which is at most 256, and for at most `limit` entries. B2 if
    /// memory is refused, and then no book is made.
    pub fn new(alloc: Global, keys: u16, limit: u64) -> Result<Book, BookFault>
        requires { keys ≤ GRAPH_KEYS }
        ensures empty { IfOk result (λ b. b ≡ record {
          journal = [];
          keys = keys;
          limit = limit;
        }) }
        ensures err { IfErr result (λ fault. fault ≡ BookFault.Memory) }
    {
        let Ok(graph) = Graph::new(alloc, keys) else {
            return Err(BookFault::Memory);
        };
        Ok(Book {
            journal: Journal::new(alloc),
            graph,
            acquisitions: 0,
            limit,
        })
    }

    /// Appends a chain of a trace, and returns what it brought. The chain is consumed in every case.
    ///
    /// Refusals, in this order: B1 exactly if the journal has as many entries as the limit, B3 exactly if a key of the
    /// chain isn't below the book's bound, B2 if memory is refused. After each nothing is changed.
    ///
    /// A chain that brings a new fact is kept without a look-up, since no chain before it had that fact. When one comes
    /// that brings none, the chains that were kept that way move to the set of known chains; a chain that is already
    /// there costs one look-up.
    pub fn record(&mut self, trace: u32, chain: Chain) -> Result<News, BookFault>
        ensures recorded { OnOk result (self.new ≡ record {
          journal = self.old.journal ++ (trace, chain) ∷ [];
          keys = self.old.keys;
          limit = self.old.limit;
        }) }
        ensures fresh { IfOk result (λ news. IsFalse news.fresh
            ↔ Holds (JournalHas self.old.journal) (ChainHas chain)) }
        ensures clean { IfOk result (λ news. IsTrue news.clean
            ↔ IsClean (JournalHas self.new.journal)) }

        ensures full { IsErrOf result BookFault.Full ↔ (length self.old.journal ≡ self.old.limit) }
        ensures bad_key { IsErrOf result BookFault.BadKey
            ↔ (¬ (length self.old.journal ≡ self.old.limit) × ¬ ChainKeysBelow self.old.keys chain) }
        ensures refused { OnErr result (self.new ≡ self.old) }
    {
        if self.len() as u64 == self.limit {
            return Err(BookFault::Full);
        }
        if !chain.keys_below(self.keys()) {
            return Err(BookFault::BadKey);
        }
        if self.journal.make_room().is_err() {
            return Err(BookFault::Memory);
        }
        let is_acquisition = chain.taken().is_some();
        let Ok(fresh) = enter(&mut self.journal, &mut self.graph, trace, chain) else {
            return Err(BookFault::Memory);
        };
        self.acquisitions += u64::from(is_acquisition);
        Ok(News {
            fresh,
            clean: self.is_clean(),
        })
    }

    /// The bound on the keys, at most 256.
    pub fn keys(&self) -> u16
        ensures value { result ≡ self.now.keys }
        ensures few { result ≤ GRAPH_KEYS }
    {
        self.graph.keys()
    }

    /// The number of entries, at most the limit.
    pub fn len(&self) -> usize
        ensures value { result ≡ length self.now.journal }
        ensures within { result ≤ self.now.limit }
    {
        self.journal.len()
    }

    /// The entry at place `i`, counted from 0 in the order of recording: its trace and its chain. None exactly if there
    /// is none.
    pub fn entry(&self, i: usize) -> Option<(u32, &Chain)>
        ensures { option_map (λ e. (e.0, e.1.now)) result ≡ slice_get self.now.journal i }
    {
        self.journal.entry(i)
    }

    /// Whether the dependency is one of a chain of the journal. False if a key isn't below the bound.
    pub fn has_dep(&self, from: u16, to: u16, kind: Kind) -> bool
        ensures { IsTrue result ↔ JournalHas self.now.journal (Fact.Dependency from to kind) }
    {
        self.graph.facts().has_dep(from, to, kind)
    }

    /// Whether the key has the mark by a chain of the journal. False if the key isn't below the bound.
    pub fn has_mark(&self, key: u16, mark: Mark) -> bool
        ensures { IsTrue result ↔ JournalHas self.now.journal (Fact.Marked key mark) }
    {
        self.graph.facts().has_mark(key, mark)
    }

    /// Whether the facts of the journal are clean: no dependency is on a circle, and there is no double and no
    /// inversion.
    pub fn is_clean(&self) -> bool
        ensures { IsTrue result ↔ IsClean (JournalHas self.now.journal) }
    {
        self.graph.is_clean()
    }

    /// How many entries, acquisitions, openings and distinct dependencies the journal has.
    pub fn totals(&self) -> Totals
        ensures entries { result.entries ≡ length self.now.journal }
        ensures acquisitions { result.acquisitions ≡ acquisition_count self.now.journal }
        ensures openings { result.openings ≡ opening_count self.now.journal }
        ensures dependencies { IsNumberOf (DependenciesOf (JournalHas self.now.journal))
            result.dependencies }
    {
        let entries = self.len() as u64;
        Totals {
            entries,
            acquisitions: self.acquisitions,
            openings: entries - self.acquisitions,
            dependencies: self.graph.facts().dependencies(),
        }
    }

    /// How many distinct chains the journal has.
    pub fn distinct(&self) -> u64
        ensures { IsNumberOf (StandsIn self.now.journal) result }
    {
        self.journal.distinct() as u64
    }

    /// The graph of the book's facts. The journal is dropped.
    pub fn into_graph(self) -> Graph
        ensures keys { result.facts.keys ≡ self.keys }
        ensures facts { AreSame (HasFact result.facts) (JournalHas self.journal) }
    {
        self.graph
    }
}

// Appends a chain to a journal that has room for it, adds its facts to those of the journal, and returns whether one of
// them is new. If so, no entry before it has that chain. If memory is refused, nothing is changed.
fn enter(
    journal: &mut Journal,
    graph: &mut Graph,
    trace: u32,
    chain: Chain,
) -> Result<bool, AllocError>
    requires room { HasRoomForNew journal.old }
    requires below { ChainKeysBelow graph.old.facts.keys chain }
    requires facts { AreSame (HasFact graph.old.facts) (JournalHas journal.old.written) }
    ensures keys { graph.new.facts.keys ≡ graph.old.facts.keys }
    ensures entered { OnOk result (journal.new.written ≡ journal.old.written ++ (trace, chain) ∷ []) }
    ensures adds { OnOk result (Adds (HasFact graph.old.facts) (HasFact graph.new.facts) (ChainHas chain)) }
    ensures fresh { IfOk result (λ fresh. IsFalse fresh ↔ Holds (HasFact graph.old.facts) (ChainHas chain)) }
    ensures left { OnErr result (journal.new.written ≡ journal.old.written) }
    ensures unchanged { OnErr result (graph.new ≡ graph.old) }
{
    if journal.push_indexed(trace, &chain) {
        return Ok(false);
    }
    let fresh = graph.add_chain(&chain);
    if fresh {
        journal.push_new(trace, chain);
    } else {
        journal.push(trace, chain)?;
    }
    Ok(fresh)
}
