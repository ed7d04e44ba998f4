//! What was found: the findings of settled facts as lists, in the report's order. Each text but the picture is made of these.

ghost use Rattle.std.specs.Prelude.{[], ◌∷◌, ◌≡◌, IfOk, IsFalse, OnOk, flat_map, map, ℕ};
ghost use Rattle.ld_explain.specs.Names.{Fact, FactBelow, HasFact, IsDouble, IsInversion, Kind, MAX_KEYS, OnCircle, arrow};
ghost use Rattle.ld_explain.specs.Clauses.{AddsThose, AreFound, arrows_among, doubles_among, inversions_among, kinds};

use crate::Tried;
use ld_facts::{Fact, STATES};
use ld_graph::{Kind, Mark};
use ld_parts::Settled;
use ld_trace::{Irq, KeyId};
use std::alloc::{AllocError, Global};
use std::marker::Model;

/// The four kinds, in the report's order.
pub const KINDS: [Kind; 4] = [Kind::Er, Kind::En, Kind::Sr, Kind::Sn];

// A dependency.
#[derive(Drop)]
pub struct Dependency {
    pub from: KeyId,
    pub to: KeyId,
    pub kind: Kind,
}

impl Model for Dependency {
    ghost use Rattle.ld_explain.specs.Names.{Arrow, arrow};

    ghost Value = { Arrow };

    ghost view = { λ d. arrow d.from d.to d.kind };
}

impl Dependency {
    pub(crate) fn fact(&self) -> Fact
        ensures value { result ≡ Fact.Dependency self.now.start self.now.end self.now.kind }
        ensures below { FactBelow MAX_KEYS result }
    {
        Fact::Dependency {
            from: self.from.get(),
            to: self.to.get(),
            kind: self.kind,
        }
    }

    // The same.
    pub(crate) fn copy(&self) -> Dependency
        ensures { result ≡ self.now }
    {
        Dependency {
            from: self.from,
            to: self.to,
            kind: self.kind,
        }
    }
}

// The findings of facts. If there are none the lists take no memory.
#[derive(Drop)]
pub struct Found {
    circles: Vec<Dependency>,
    doubles: Vec<(Irq, KeyId)>,
    inversions: Vec<(Irq, (KeyId, KeyId))>,
}

impl Model for Found {
    ghost use Rattle.ld_explain.specs.Found.{FoundParts};

    ghost Value = { FoundParts };

    ghost view = { λ f. record { circles = f.circles.items; doubles = f.doubles.items; inversions = f.inversions.items } };
}

impl Found {
    // All findings among the keys, in their order. If the facts are clean no dependency and no key is looked at.
    pub fn of(alloc: Global, settled: &Settled, keys: &[KeyId]) -> Result<Found, AllocError>
        ensures { IfOk result (AreFound (HasFact settled.now) keys.now) }
    {
        if settled.is_clean() {
            return Ok(Found::none(alloc));
        }
        Finder { settled, keys }.found(alloc)
    }

    fn none(alloc: Global) -> Found
        ensures { result ≡ record { circles = []; doubles = []; inversions = [] } }
    {
        Found {
            circles: Vec::new(alloc),
            doubles: Vec::new(alloc),
            inversions: Vec::new(alloc),
        }
    }

    // The dependencies on circles.
    pub fn circles(&self) -> &[Dependency]
        ensures { result.now ≡ self.now.circles }
    {
        self.circles.as_slice()
    }

    // The keys that are used both in a state and with it enabled.
    pub fn doubles(&self) -> &[(Irq, KeyId)]
        ensures { result.now ≡ self.now.doubles }
    {
        self.doubles.as_slice()
    }

    // The pairs of keys that are in an inversion.
    pub fn inversions(&self) -> &[(Irq, (KeyId, KeyId))]
        ensures { result.now ≡ self.now.inversions }
    {
        self.inversions.as_slice()
    }
}

/// Whether a dependency of some kind leads from the one key to the other. If false none does.
pub fn has_dependency(settled: &Settled, from: KeyId, to: KeyId) -> bool
    ensures { IsFalse result → (kind : Kind) → ¬ HasFact settled.now (Fact.Dependency from to kind) }
{
    let facts = settled.facts();
    let (from, to) = (from.get(), to.get());
    let er = facts.has_dep(from, to, Kind::Er);
    let en = facts.has_dep(from, to, Kind::En);
    let sr = facts.has_dep(from, to, Kind::Sr);
    let sn = facts.has_dep(from, to, Kind::Sn);
    er || en || sr || sn
}

/// Whether the key is used in the state. If it isn't, no inversion begins with it.
pub fn is_used_in(settled: &Settled, irq: Irq, a: KeyId) -> bool
    ensures { IsFalse result → (b : ℕ) → ¬ IsInversion (HasFact settled.now) irq a b }
{
    let used = settled.has_mark(a.get(), Mark::UsedIn { irq, read: false });
    let used_read = settled.has_mark(a.get(), Mark::UsedIn { irq, read: true });
    used || used_read
}

// Where findings are looked for.
#[derive(Clone, Copy)]
struct Finder<'a> {
    settled: &'a Settled,
    // All keys, in the order of their names.
    keys: &'a [KeyId],
}

impl Finder<'_> {
    fn found(self, alloc: Global) -> Tried<Found>
        ensures { IfOk result (AreFound (HasFact self.entry.settled.now) self.entry.keys.now) }
    {
        let mut circles = Vec::new(alloc);
        let mut doubles = Vec::new(alloc);
        let mut inversions = Vec::new(alloc);
        self.add_circles(&mut circles)?;
        self.add_doubles(&mut doubles)?;
        self.add_inversions(&mut inversions)?;
        Ok(Found {
            circles,
            doubles,
            inversions,
        })
    }

    // The dependency, if it is on a circle.
    fn add_circle(
        self,
        circles: &mut Vec<Dependency>,
        from: KeyId,
        to: KeyId,
        kind: Kind,
    ) -> Tried<()>
        ensures { OnOk result (AddsThose (OnCircle (HasFact self.entry.settled.now)) (arrow from to kind ∷ [])
            circles.old.items circles.new.items) }
    {
        if self.settled.on_circle(from.get(), to.get(), kind) {
            circles.push(Dependency { from, to, kind })?;
        }
        Ok(())
    }

    // Those of the dependencies from the one key to the other.
    fn add_circles_to(self, circles: &mut Vec<Dependency>, from: KeyId, to: KeyId) -> Tried<()>
        ensures { OnOk result (AddsThose (OnCircle (HasFact self.entry.settled.now)) (map (arrow from to) kinds)
            circles.old.items circles.new.items) }
    {
        if !has_dependency(self.settled, from, to) {
            return Ok(());
        }
        for kind in KINDS {
            self.add_circle(circles, from, to, kind)?;
        }
        Ok(())
    }

    // Those of the dependencies from the key.
    fn add_circles_from(self, circles: &mut Vec<Dependency>, from: KeyId) -> Tried<()>
        ensures { OnOk result (AddsThose (OnCircle (HasFact self.entry.settled.now))
            (flat_map (λ to. map (arrow from to) kinds) self.entry.keys.now) circles.old.items circles.new.items) }
    {
        for to in self.keys {
            self.add_circles_to(circles, from, *to)?;
        }
        Ok(())
    }

    fn add_circles(self, circles: &mut Vec<Dependency>) -> Tried<()>
        ensures { OnOk result (AddsThose (OnCircle (HasFact self.entry.settled.now)) (arrows_among self.entry.keys.now)
            circles.old.items circles.new.items) }
    {
        for from in self.keys {
            self.add_circles_from(circles, *from)?;
        }
        Ok(())
    }

    // The key, if it is a double of the state.
    fn add_double(self, doubles: &mut Vec<(Irq, KeyId)>, irq: Irq, key: KeyId) -> Tried<()>
        ensures { OnOk result (AddsThose (λ x. IsDouble (HasFact self.entry.settled.now) x.0 x.1) ((irq, key) ∷ [])
            doubles.old.items doubles.new.items) }
    {
        if self.settled.is_double(irq, key.get()) {
            doubles.push((irq, key))?;
        }
        Ok(())
    }

    fn add_doubles_of(self, doubles: &mut Vec<(Irq, KeyId)>, irq: Irq) -> Tried<()>
        ensures { OnOk result (AddsThose (λ x. IsDouble (HasFact self.entry.settled.now) x.0 x.1)
            (map (λ key. (irq, key)) self.entry.keys.now) doubles.old.items doubles.new.items) }
    {
        for key in self.keys {
            self.add_double(doubles, irq, *key)?;
        }
        Ok(())
    }

    fn add_doubles(self, doubles: &mut Vec<(Irq, KeyId)>) -> Tried<()>
        ensures { OnOk result (AddsThose (λ x. IsDouble (HasFact self.entry.settled.now) x.0 x.1)
            (doubles_among self.entry.keys.now) doubles.old.items doubles.new.items) }
    {
        for irq in STATES {
            self.add_doubles_of(doubles, irq)?;
        }
        Ok(())
    }

    // The two keys, if they are in an inversion of the state.
    fn add_inversion(
        self,
        inversions: &mut Vec<(Irq, (KeyId, KeyId))>,
        irq: Irq,
        a: KeyId,
        b: KeyId,
    ) -> Tried<()>
        ensures { OnOk result (AddsThose (λ x. IsInversion (HasFact self.entry.settled.now) x.0 x.1.0 x.1.1)
            ((irq, (a, b)) ∷ []) inversions.old.items inversions.new.items) }
    {
        if self.settled.is_inversion(irq, a.get(), b.get()) {
            inversions.push((irq, (a, b)))?;
        }
        Ok(())
    }

    // The inversions of one state that the key is the first of. Nothing is asked of a key that isn't used in the state.
    fn add_inversions_from(
        self,
        inversions: &mut Vec<(Irq, (KeyId, KeyId))>,
        irq: Irq,
        a: KeyId,
    ) -> Tried<()>
        ensures { OnOk result (AddsThose (λ x. IsInversion (HasFact self.entry.settled.now) x.0 x.1.0 x.1.1)
            (map (λ b. (irq, (a, b))) self.entry.keys.now) inversions.old.items inversions.new.items) }
    {
        if !is_used_in(self.settled, irq, a) {
            return Ok(());
        }
        for b in self.keys {
            self.add_inversion(inversions, irq, a, *b)?;
        }
        Ok(())
    }

    fn add_inversions_of(self, inversions: &mut Vec<(Irq, (KeyId, KeyId))>, irq: Irq) -> Tried<()>
        ensures { OnOk result (AddsThose (λ x. IsInversion (HasFact self.entry.settled.now) x.0 x.1.0 x.1.1)
            (flat_map (λ a. map (λ b. (irq, (a, b))) self.entry.keys.now) self.entry.keys.now)
            inversions.old.items inversions.new.items) }
    {
        for a in self.keys {
            self.add_inversions_from(inversions, irq, *a)?;
        }
        Ok(())
    }

    fn add_inversions(self, inversions: &mut Vec<(Irq, (KeyId, KeyId))>) -> Tried<()>
        ensures { OnOk result (AddsThose (λ x. IsInversion (HasFact self.entry.settled.now) x.0 x.1.0 x.1.1)
            (inversions_among self.entry.keys.now) inversions.old.items inversions.new.items) }
    {
        for irq in STATES {
            self.add_inversions_of(inversions, irq)?;
        }
        Ok(())
    }
}
