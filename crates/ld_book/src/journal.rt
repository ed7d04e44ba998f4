//! Entries in order, with each distinct chain kept once.

ghost use Rattle.std.specs.Prelude.{◌≡◌, ◌++◌, [], ◌∷◌, length, option_map, slice_get, OnOk, OnErr, IsTrue, IsFalse};
ghost use Rattle.ld_facts.specs.Counting.{IsNumberOf};
ghost use Rattle.ld_book.specs.Books.{StandsIn};
ghost use Rattle.ld_book.specs.Inside.Journals.{HasRoom, HasRoomForNew};

use crate::chains::Chains;
use ld_task::Chain;
use std::alloc::{AllocError, Global};
use std::marker::Model;

// The number of values of the lower half of a chain's number.
const HALF: usize = 1 << 32;

// An entry of a journal: the trace that a chain comes from, and the chain's number among the distinct ones. The number
// is kept in halves, so that an entry takes 12 bytes.
#[derive(Drop)]
struct Entry {
    trace: u32,
    high: u32,
    low: u32,
}

impl Model for Entry {
    ghost use Rattle.std.specs.Prelude.{◌+◌, ◌*◌};
    ghost use Rattle.ld_book.specs.Inside.Journals.{EntryParts};

    ghost Value = { EntryParts };

    ghost view = { λ e. record { trace = e.trace; number = e.high * 4294967296 + e.low } };
}

impl Entry {
    fn new(trace: u32, number: usize) -> Entry
        ensures { result ≡ record { trace = trace; number = number } }
    {
        Entry {
            trace,
            high: (number / HALF) as u32,
            low: (number % HALF) as u32,
        }
    }

    // The trace, and the chain's number.
    fn parts(&self) -> (u32, usize)
        ensures { result ≡ (self.now.trace, self.now.number) }
    {
        let number = self.high as usize * HALF + self.low as usize;
        (self.trace, number)
    }
}

// Entries in order: a trace and a chain each. The distinct chains are numbered in order of first entry.
#[derive(Drop)]
pub(crate) struct Journal {
    entries: Vec<Entry>,
    chains: Chains,
}

impl Model for Journal {
    ghost use Rattle.std.specs.Prelude.{◌-◌, length};
    ghost use Rattle.ld_book.specs.Inside.Journals.{journal_of, IsJournal, JournalParts};

    ghost Value = { JournalParts };

    ghost view = { λ j. record {
      written = journal_of j.chains.all j.entries.items;
      entry_room = j.entries.cap - length j.entries.items;
      chain_room = j.chains.room;
    } };

    ghost invariant = { λ j. IsJournal j.chains.all j.entries.items };
}

impl Journal {
    // No entries. It takes no memory yet.
    pub(crate) fn new(alloc: Global) -> Journal
        ensures { result.written ≡ [] }
    {
        Journal {
            entries: Vec::new(alloc),
            chains: Chains::new(alloc),
        }
    }

    pub(crate) fn len(&self) -> usize
        ensures { result ≡ length self.now.written }
    {
        self.entries.len()
    }

    // The number of distinct chains.
    pub(crate) fn distinct(&self) -> usize
        ensures { IsNumberOf (StandsIn self.now.written) result }
    {
        self.chains.len()
    }

    // The entry at place `i`, or None if there is none.
    pub(crate) fn entry(&self, i: usize) -> Option<(u32, &Chain)>
        ensures { option_map (λ e. (e.0, e.1.now)) result ≡ slice_get self.now.written i }
    {
        let (trace, number) = self.entries.as_slice().get(i)?.parts();
        Some((trace, self.chains.get(number)))
    }

    // Makes room for one more entry, even one with a new chain.
    pub(crate) fn make_room(&mut self) -> Result<(), AllocError>
        ensures same { self.new.written ≡ self.old.written }
        ensures room { OnOk result (HasRoomForNew self.new) }
    {
        self.entries.reserve(1)?;
        self.chains.make_room()
    }

    // Appends an entry if the set of chains has its chain, and returns whether it has. If it hasn't, nothing is
    // changed.
    pub(crate) fn push_indexed(&mut self, trace: u32, chain: &Chain) -> bool
        requires room { HasRoom self.old }
        ensures pushed { IsTrue result → self.new.written ≡ self.old.written ++ (trace, chain.now) ∷ [] }
        ensures known { IsTrue result → StandsIn self.old.written chain.now }
        ensures same { IsFalse result → self.new ≡ self.old }
    {
        let Some(number) = self.chains.find_indexed(chain) else {
            return false;
        };
        self.entries.push_reserved(Entry::new(trace, number));
        true
    }

    // Appends an entry with a chain that no other has.
    pub(crate) fn push_new(&mut self, trace: u32, chain: Chain)
        requires room { HasRoomForNew self.old }
        requires new { ¬ StandsIn self.old.written chain }
        ensures { self.new.written ≡ self.old.written ++ (trace, chain) ∷ [] }
    {
        let number = self.chains.len();
        self.chains.push_new(chain);
        self.entries.push_reserved(Entry::new(trace, number));
    }

    // Appends an entry. If memory is refused, nothing is changed.
    pub(crate) fn push(&mut self, trace: u32, chain: Chain) -> Result<(), AllocError>
        requires room { HasRoom self.old }
        ensures pushed { OnOk result (self.new.written ≡ self.old.written ++ (trace, chain) ∷ []) }
        ensures refused { OnErr result (self.new.written ≡ self.old.written) }
    {
        let number = self.chains.insert(chain)?;
        self.entries.push_reserved(Entry::new(trace, number));
        Ok(())
    }
}
