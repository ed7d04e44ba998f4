//! Where the links of each state arrive, and what they leave.

ghost use Rattle.std.specs.Prelude.{ℕ, ◌<◌, ◌↔◌, ◌⊎◌, IsTrue, IsFalse};
ghost use Rattle.ld_trace.specs.declared.event.Irq.{Irq};
ghost use Rattle.ld_facts.specs.Inside.Bits.{has_bit};
ghost use Rattle.ld_facts.specs.Inside.Places.{LeavesFrom};
ghost use Rattle.ld_graph.specs.Inside.Kept.{arrives_at, departs_from, TakesMark, JoinsLinks, MarkTurnsBack};
ghost use Rattle.ld_trace.specs.declared.key_id.TheConstants.{GRAPH_KEYS};

use crate::reach::Reach;
use ld_facts::places::{ROW_WORDS, Row, place_of};
use ld_facts::{STATE_COUNT, bits, irq_number};
use ld_task::Mark;
use ld_trace::Irq;

// By state, the places where its links arrive, which are those of keys used in it, and the places that its links
// leave, which are those of keys used with it enabled.
#[derive(Drop)]
pub(crate) struct Ends {
    arrivals: [Row; STATE_COUNT],
    departures: [Row; STATE_COUNT],
}

impl Ends {
    // No links.
    pub(crate) fn new() -> Ends
        ensures arrivals { (irq : Irq) (p : ℕ) → IsFalse (arrives_at result irq p) }
        ensures departures { (irq : Irq) (q : ℕ) → IsFalse (departs_from result irq q) }
    {
        Ends {
            arrivals: [[0; ROW_WORDS]; STATE_COUNT],
            departures: [[0; ROW_WORDS]; STATE_COUNT],
        }
    }

    // Adds the ends of the links by a mark.
    pub(crate) fn add(&mut self, key: u16, mark: Mark)
        requires { key < GRAPH_KEYS }
        ensures { TakesMark self.old self.new key mark }
    {
        match mark {
            Mark::UsedIn { irq, read } => {
                bits::insert(&mut self.arrivals[irq_number(irq)], place_of(key, read));
            }
            Mark::Enabled { irq, read } => {
                insert_left(&mut self.departures[irq_number(irq)], key, read);
            }
            Mark::Used => {}
        }
    }

    // Whether links of some state arrive at one of the sources and leave one of the targets.
    pub(crate) fn are_joined(&self, sources: &Row, targets: &Row) -> bool
        ensures { IsTrue result ↔ JoinsLinks sources.now targets.now self.now }
    {
        for i in 0..STATE_COUNT {
            if bits::meet(sources, &self.arrivals[i]) && bits::meet(targets, &self.departures[i]) {
                return true;
            }
        }
        false
    }

    // Whether a link by the mark leads back to it, by what is reached.
    pub(crate) fn turns_back(&self, reach: &Reach, key: u16, mark: Mark) -> bool
        requires { key < GRAPH_KEYS }
        ensures { IsTrue result ↔ MarkTurnsBack reach.now self.now key mark }
    {
        match mark {
            Mark::UsedIn { irq, read } => {
                bits::meet(&reach.targets(key, read), &self.departures[irq_number(irq)])
            }
            Mark::Enabled { irq, read } => {
                bits::meet(&reach.sources(key, read), &self.arrivals[irq_number(irq)])
            }
            Mark::Used => false,
        }
    }
}

// Adds the places that an arrow from the key leaves, by its first letter.
pub(crate) fn insert_left(row: &mut Row, key: u16, by_s: bool)
    requires { key < GRAPH_KEYS }
    ensures { (q : ℕ) → IsTrue (has_bit row.new q)
        ↔ (IsTrue (has_bit row.old q) ⊎ LeavesFrom key by_s q) }
{
    bits::insert(row, place_of(key, false));
    if !by_s {
        bits::insert(row, place_of(key, true));
    }
}
