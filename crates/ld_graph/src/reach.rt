//! Which places are reached from which, and from which places a place is reached.

ghost use Rattle.std.specs.Prelude.{◌≡◌, ℕ, ◌*◌, ◌<◌, ◌≤◌, ◌↔◌, ◌||◌, ◌&&◌, length, IsTrue, IsFalse, IfOk};
ghost use Rattle.ld_facts.specs.Arrows.{arrow};
ghost use Rattle.ld_facts.specs.Inside.Bits.{has_bit};
ghost use Rattle.ld_facts.specs.Inside.Places.{arrival, Leaves, LeavesFrom};
ghost use Rattle.ld_graph.specs.Inside.Tables.{reaches, IsSource, IsTarget, AreSpan, IsTransitive, TakesArrow};
ghost use Rattle.ld_trace.specs.declared.key_id.TheConstants.{GRAPH_KEYS};

use ld_facts::bits;
use ld_facts::places::{PLACES, ROW_WORDS, Row, place_of};
use ld_task::Kind;
use std::alloc::{AllocError, Global};
use std::marker::Model;

// For each place those that are reached from it, by one dependency or more, and those from which it is reached.
#[derive(Drop)]
pub(crate) struct Reach {
    ahead: Vec<Row>,
    behind: Vec<Row>,
}

impl Model for Reach {
    ghost use Rattle.std.specs.Prelude.{List, ℕ};
    ghost use Rattle.ld_graph.specs.Inside.Tables.{AreTables};

    ghost Value = { List (List ℕ) };

    ghost view = { λ r. r.ahead.items };

    ghost invariant = { λ r. AreTables r.ahead.items r.behind.items };
}

impl Reach {
    // No place is reached from another.
    pub(crate) fn new(alloc: Global) -> Result<Reach, AllocError>
        ensures { IfOk result (λ r. (p q : ℕ) → IsFalse (reaches r p q)) }
    {
        let ahead = vec![in alloc; [0; ROW_WORDS]; PLACES]?;
        let behind = vec![in alloc; [0; ROW_WORDS]; PLACES]?;
        Ok(Reach { ahead, behind })
    }

    // The places that are reached from `p`.
    pub(crate) fn from(&self, p: usize) -> Row
        requires { p < PLACES }
        ensures { (q : ℕ) → has_bit result q ≡ reaches self.now p q }
    {
        self.ahead[p]
    }

    // The places from which `q` is reached.
    pub(crate) fn to(&self, q: usize) -> Row
        requires { q < PLACES }
        ensures { (p : ℕ) → has_bit result p ≡ reaches self.now p q }
    {
        self.behind[q]
    }

    // The places at which an arrow to the key arrives, by its second letter, and those that are reached from there.
    pub(crate) fn targets(&self, key: u16, by_r: bool) -> Row
        requires { key < GRAPH_KEYS }
        ensures { (q : ℕ) → IsTrue (has_bit result q) ↔ IsTarget self.now key by_r q }
    {
        let place = place_of(key, by_r);
        let mut row = self.from(place);
        bits::insert(&mut row, place);
        row
    }

    // The places that an arrow from the key leaves, by its first letter, and those from which these are reached.
    pub(crate) fn sources(&self, key: u16, by_s: bool) -> Row
        requires { key < GRAPH_KEYS }
        ensures { (p : ℕ) → IsTrue (has_bit result p) ↔ IsSource self.now key by_s p }
    {
        let place = place_of(key, false);
        let mut row = self.to(place);
        bits::insert(&mut row, place);
        if !by_s {
            let place = place_of(key, true);
            bits::unite(&mut row, &self.to(place));
            bits::insert(&mut row, place);
        }
        row
    }

    // The places that are reached from each place that an arrow from the key leaves, by its first letter.
    fn reached_from_each(&self, key: u16, by_s: bool) -> Row
        requires { key < GRAPH_KEYS }
        ensures { (q : ℕ) → IsTrue (has_bit result q)
            ↔ ((l : ℕ) → LeavesFrom key by_s l → IsTrue (reaches self.now l q)) }
    {
        let mut row = self.from(place_of(key, false));
        if !by_s {
            bits::intersect(&mut row, &self.from(place_of(key, true)));
        }
        row
    }

    // Whether `q` is reached from `p`.
    fn has_way(&self, p: usize, q: usize) -> bool
        requires from { p < PLACES }
        requires to { q < PLACES }
        ensures { result ≡ reaches self.now p q }
    {
        bits::has(&self.ahead[p], q)
    }

    // Whether the place where a dependency arrives is reached from each place that it leaves: then it opens no way.
    pub(crate) fn leads(&self, from: u16, to: u16, kind: Kind) -> bool
        requires from { from < GRAPH_KEYS }
        requires to { to < GRAPH_KEYS }
        ensures { IsTrue result ↔ ((l : ℕ) → Leaves (arrow from to kind) l
            → IsTrue (reaches self.now l (arrival (arrow from to kind)))) }
    {
        let end = place_of(to, kind.ends_in_r());
        self.has_way(place_of(from, false), end)
            && (kind.begins_with_s() || self.has_way(place_of(from, true), end))
    }

    // Adds a dependency, so that its sources reach its targets, and returns how many rows were read or written for it.
    // Only rows that change are written: those of sources that do not reach the place of arrival yet, since the others
    // reach all targets, and of targets that are not reached yet from each place that the dependency leaves.
    pub(crate) fn add(
        &mut self,
        from: u16,
        to: u16,
        kind: Kind,
        sources: &Row,
        targets: &Row,
    ) -> u64
        requires from { from < GRAPH_KEYS }
        requires to { to < GRAPH_KEYS }
        requires transitive { IsTransitive self.old }
        requires span { AreSpan self.old (arrow from to kind) sources.now targets.now }
        ensures takes { TakesArrow self.old self.new (arrow from to kind) }
        ensures count { result ≤ 2 * PLACES }
    {
        let mut fresh_sources = *sources;
        bits::remove(&mut fresh_sources, &self.to(place_of(to, kind.ends_in_r())));
        let mut fresh_targets = *targets;
        bits::remove(
            &mut fresh_targets,
            &self.reached_from_each(from, kind.begins_with_s()),
        );
        join(&mut self.ahead, &fresh_sources, targets);
        join(&mut self.behind, &fresh_targets, sources);
        rows_taken(&fresh_sources, from, to, kind) + rows_taken(&fresh_targets, from, to, kind)
    }
}

// How many rows of a table are counted for a dependency: those written, and those read, which are of the place where it
// arrives and of the places that it leaves.
fn rows_taken(written: &Row, from: u16, to: u16, kind: Kind) -> u64
    requires from { from < GRAPH_KEYS }
    requires to { to < GRAPH_KEYS }
    ensures { result ≤ PLACES }
{
    let mut rows = *written;
    bits::insert(&mut rows, place_of(to, kind.ends_in_r()));
    bits::insert(&mut rows, place_of(from, false));
    if !kind.begins_with_s() {
        bits::insert(&mut rows, place_of(from, true));
    }
    bits::count(&rows)
}

// Adds the row to each row that is chosen.
fn join(rows: &mut [Row], chosen: &Row, row: &Row)
    requires { length rows.old ≡ PLACES }
    ensures len { length rows.new ≡ length rows.old }
    ensures joined { (p q : ℕ) → reaches rows.new p q
        ≡ (reaches rows.old p q || (has_bit chosen.now p && has_bit row.now q)) }
{
    let mut taken = [0; ROW_WORDS];
    while let Some(p) = bits::first_beyond(chosen, &taken) {
        bits::insert(&mut taken, p);
        bits::unite(&mut rows[p], row);
    }
}
