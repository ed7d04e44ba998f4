//! Findings between types, and between what they were seen.

ghost use Rattle.std.specs.Prelude.{◌≡◌, ◌≤◌, length};
ghost use Rattle.ld_explain.specs.Clauses.{count_ranked, counts, has_finding, nested_orders, rank};

use crate::finding::{Finding, Order};

/// Between what a finding between types was seen.
#[derive(Drop)]
pub enum Between {
    /// Between single locks: with such a finding of theirs, by their own names.
    Locks(Finding),
    /// Between names of the traces of which some may stand for several locks: with such a finding, by these names.
    Perhaps(Finding),
    /// The next level that would have been asked isn't settled.
    Unknown,
    /// Between classes and not between single locks.
    Classes,
    /// Between types alone.
    Types,
}

impl Between {
    /// The members of the walk of the finding between single locks, if there is one.
    pub fn orders(&self) -> &[Order]
        ensures { result.now ≡ nested_orders self.now }
    {
        match self {
            Between::Locks(nested) | Between::Perhaps(nested) => nested.orders(),
            Between::Unknown | Between::Classes | Between::Types => &[],
        }
    }
}

/// A finding between types, and between what it was seen.
#[derive(Drop)]
pub struct Verdict {
    pub finding: Finding,
    pub between: Between,
}

impl Verdict {
    /// Its place in a report, from 0 to 5: what was seen between single locks comes first, then what perhaps was, what isn't known, and
    /// what was seen only between classes, or only between types. Last comes one type that is nested in itself, by locks of several
    /// classes: no finding, but a note.
    pub fn rank(&self) -> u8
        ensures { result ≡ rank self.now }
    {
        match self.between {
            Between::Locks(_) => 0,
            Between::Perhaps(_) => 1,
            Between::Unknown => 2,
            Between::Classes => 3,
            Between::Types => { if self.finding.is_nesting() { NOTE } else { 4 } }
        }
    }

    /// Whether it counts as a finding: each does but a note; or, if only those are asked for, what was seen between single locks and
    /// what isn't known.
    pub fn counts(&self, confirmed_only: bool) -> bool
        ensures { result ≡ counts confirmed_only self.now }
    {
        let rank = self.rank();
        if confirmed_only {
            rank == 0 || rank == 2
        } else {
            rank != NOTE
        }
    }
}

// The rank of a note.
const NOTE: u8 = 5;

/// How many of the verdicts have this rank.
pub fn count_ranked(verdicts: &[Verdict], rank: u8) -> usize
    ensures value { result ≡ count_ranked verdicts.now rank }
    ensures few { result ≤ length verdicts.now }
{
    let mut count = 0;
    for v in verdicts {
        if v.rank() == rank {
            count += 1;
        }
    }
    count
}

/// Whether one of the verdicts counts as a finding; see `Verdict::counts`.
pub fn has_finding(verdicts: &[Verdict], confirmed_only: bool) -> bool
    ensures { result ≡ has_finding confirmed_only verdicts.now }
{
    verdicts.iter().any(|v| v.counts(confirmed_only))
}
