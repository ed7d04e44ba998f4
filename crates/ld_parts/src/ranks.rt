//! Ranks of keys, and whether no arrow of some facts goes down by them.

ghost use Rattle.std.specs.Prelude.{◌≡◌, ℕ, ◌<◌, ◌≤◌, ◌⊎◌, ◌↔◌, Bool, IsTrue, IfOk, length, slice_index};
ghost use Rattle.ld_facts.specs.FactBits.{HasFact};
ghost use Rattle.ld_parts.specs.Ranks.{DependenciesClimb, LinksClimb, NoneGoesDown};
ghost use Rattle.ld_facts.specs.declared.fact.Fact.{Fact};
ghost use Rattle.ld_task.specs.declared.mark.Mark.{Mark};

use ld_facts::Facts;
use ld_task::Mark;
use ld_trace::Irq;
use std::alloc::{AllocError, Global};
use std::marker::Model;

/// A rank for each of the keys below a bound: any number of 16 bits. Every other key has rank 0.
#[derive(Drop)]
pub struct Ranks {
    ranks: Vec<u16>,
}

impl Model for Ranks {
    ghost use Rattle.std.specs.Prelude.{ℕ, List};

    ghost Value = { List ℕ };

    ghost view = { λ r. r.ranks.items };
}

impl Ranks {
    /// Rank 0 for each key, and room for the ranks of those below `keys`. It fails only if memory is refused.
    pub fn new(alloc: Global, keys: u16) -> Result<Ranks, AllocError>
        ensures room { IfOk result (λ ranks. length ranks ≡ keys) }
        ensures none { IfOk result (λ ranks. (key : ℕ) → slice_index ranks key ≡ 0) }
    {
        Ok(Ranks {
            ranks: vec![in alloc; 0; usize::from(keys)]?,
        })
    }

    /// These ranks, in the order of the keys.
    pub fn of(ranks: Vec<u16>) -> Ranks
        ensures { result ≡ ranks.items }
    {
        Ranks { ranks }
    }

    /// The key's rank.
    pub fn get(&self, key: u16) -> u16
        ensures { result ≡ slice_index self.now key }
    {
        self.at(usize::from(key))
    }

    // The rank of the key with that number.
    fn at(&self, key: usize) -> u16
        ensures { result ≡ slice_index self.now key }
    {
        self.ranks.get(key).copied().unwrap_or(0)
    }

    /// Gives a rank to a key below the bound.
    pub fn set(&mut self, key: u16, rank: u16)
        requires { key < length self.old }
        ensures room { length self.new ≡ length self.old }
        ensures rank { slice_index self.new key ≡ rank }
        ensures others { (other : ℕ) → ¬ (other ≡ key)
            → slice_index self.new other ≡ slice_index self.old other }
    {
        self.ranks[usize::from(key)] = rank;
    }
}

/// Whether no dependency and no interrupt link of the facts goes from a key to one of lower rank.
pub fn are_ranked(facts: &Facts, ranks: &Ranks) -> bool
    ensures { IsTrue result ↔ NoneGoesDown (HasFact facts.now) (slice_index ranks.now) }
{
    dependencies_climb(facts, ranks)
        && links_climb(facts, ranks, Irq::Hard)
        && links_climb(facts, ranks, Irq::Soft)
}

// Whether no dependency goes down. Words without one are skipped.
fn dependencies_climb(facts: &Facts, ranks: &Ranks) -> bool
    ensures { IsTrue result ↔ DependenciesClimb (HasFact facts.now) (slice_index ranks.now) }
{
    let keys = usize::from(facts.keys());
    let mut n = 0;
    while let Some(k) = facts.next_dependency(n) {
        if ranks.at(k / 4 / keys) > ranks.at(k / 4 % keys) {
            return false;
        }
        n = k + 1;
    }
    true
}

// Whether no link of the state goes down: they go from each key that is used with it enabled to each that is used in
// it.
fn links_climb(facts: &Facts, ranks: &Ranks, irq: Irq) -> bool
    ensures { IsTrue result ↔ LinksClimb (HasFact facts.now) (slice_index ranks.now) irq }
{
    greatest_enabled(facts, ranks, irq) <= least_used(facts, ranks, irq)
}

// The greatest rank of a key that is used with the state enabled, or 0 if there is none.
fn greatest_enabled(facts: &Facts, ranks: &Ranks, irq: Irq) -> u16
    ensures bound { (key : ℕ) (read : Bool) → HasFact facts.now (Fact.Marked key (Mark.Enabled irq read))
        → slice_index ranks.now key ≤ result }
    ensures met { (result ≡ 0) ⊎ ((key : ℕ) × (read : Bool)
        × HasFact facts.now (Fact.Marked key (Mark.Enabled irq read)) × (slice_index ranks.now key ≡ result)) }
{
    let mut greatest = 0;
    for key in 0..facts.keys() {
        let rank = ranks.get(key);
        if rank > greatest && is_enabled(facts, irq, key) {
            greatest = rank;
        }
    }
    greatest
}

// The least rank of a key that is used in the state, or the greatest rank that there can be if there is none.
fn least_used(facts: &Facts, ranks: &Ranks, irq: Irq) -> u16
    ensures bound { (key : ℕ) (read : Bool) → HasFact facts.now (Fact.Marked key (Mark.UsedIn irq read))
        → result ≤ slice_index ranks.now key }
    ensures met { (result ≡ 65_535) ⊎ ((key : ℕ) × (read : Bool)
        × HasFact facts.now (Fact.Marked key (Mark.UsedIn irq read)) × (slice_index ranks.now key ≡ result)) }
{
    let mut least = u16::MAX;
    for key in 0..facts.keys() {
        let rank = ranks.get(key);
        if rank < least && is_used(facts, irq, key) {
            least = rank;
        }
    }
    least
}

// Whether the key is used with the state enabled.
pub(crate) fn is_enabled(facts: &Facts, irq: Irq, key: u16) -> bool
    ensures { IsTrue result ↔ ((read : Bool) × HasFact facts.now (Fact.Marked key (Mark.Enabled irq read))) }
{
    facts.has_mark(key, Mark::Enabled { irq, read: false })
        || facts.has_mark(key, Mark::Enabled { irq, read: true })
}

// Whether the key is used in the state.
pub(crate) fn is_used(facts: &Facts, irq: Irq, key: u16) -> bool
    ensures { IsTrue result ↔ ((read : Bool) × HasFact facts.now (Fact.Marked key (Mark.UsedIn irq read))) }
{
    facts.has_mark(key, Mark::UsedIn { irq, read: false })
        || facts.has_mark(key, Mark::UsedIn { irq, read: true })
}
