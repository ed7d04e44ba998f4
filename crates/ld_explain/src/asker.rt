//! What of the locks makes such a finding as one between types, at one level.

ghost use Rattle.std.specs.Prelude.{◌<◌, ◌↔◌, ◌≡◌, Contains, IfSome, IsFalse, IsNone, IsTrue, slice_index, ℕ};
ghost use Rattle.ld_explain.specs.Names.{Arrow, HasFact, Kind, MAX_KEYS, arrow};
ghost use Rattle.ld_explain.specs.Clauses.{IsCaseAt, IsLoneDouble, IsLoneInversion, IsLoneMember, IsSeenAt, level_of, members_of};

use crate::{Dependency, Finding, KINDS, Naming, Order};
use ld_parts::Settled;
use ld_task::Kind;
use ld_trace::{Irq, KeyId};

// What makes a finding at a level: a dependency between locks, a lock, or two.
#[derive(Drop)]
pub(crate) enum Case {
    Circle(Dependency),
    Double(Irq, KeyId),
    Inversion(Irq, (KeyId, KeyId)),
}

// Where it is asked: of the dependencies between some locks and of all locks, by what they are called at a level, in the facts
// that are settled there.
#[derive(Clone, Copy)]
pub(crate) struct Asker<'a> {
    pub locks: &'a Settled,
    pub settled: &'a Settled,
    pub naming: Naming<'a>,
    // For each lock its type's key.
    pub type_of: &'a [u16],
    // All locks, in the order of their names.
    pub keys: &'a [KeyId],
}

impl Asker<'_> {
    fn type_of(self, lock: u16) -> u16
        ensures { result ≡ slice_index self.entry.type_of.now lock }
    {
        self.type_of.get(usize::from(lock)).copied().unwrap_or(0)
    }

    // What makes such a finding at the level.
    pub(crate) fn case(self, finding: &Finding) -> Option<Case>
        ensures none { IsNone result
            → ¬ IsSeenAt self.entry.keys.now (HasFact self.entry.locks.now) (slice_index self.entry.type_of.now)
            (level_of self.entry) finding.now }
        ensures some { IfSome result (IsCaseAt self.entry finding.now) }
    {
        match finding {
            Finding::Circle { walk, .. } => {
                let member = self.member(walk.as_slice())?;
                Some(Case::Circle(member))
            }
            Finding::Double { irq, key, .. } => {
                let lock = self.double(*irq, *key)?;
                Some(Case::Double(*irq, lock))
            }
            Finding::Inversion { irq, a, b, .. } => {
                let locks = self.inversion(*irq, *a, *b)?;
                Some(Case::Inversion(*irq, locks))
            }
        }
    }

    // The first of the locks' dependencies, by their numbers, that is on a circle at the level and by its types a member of the walk.
    fn member(self, walk: &[Order]) -> Option<Dependency>
        ensures none { IsNone result → (from to : ℕ) (kind : Kind) → ¬ IsLoneMember self.entry walk.now from to kind }
        ensures some { IfSome result (λ e. IsLoneMember self.entry walk.now e.start e.end e.kind) }
    {
        if self.settled.is_clean() {
            return None;
        }
        let keys = self.locks.facts().keys();
        for from in 0..keys {
            if let Some(found) = self.member_from(walk, from) {
                return Some(found);
            }
        }
        None
    }

    // The first that leads from this lock.
    fn member_from(self, walk: &[Order], from: u16) -> Option<Dependency>
        requires { from < MAX_KEYS }
        ensures none { IsNone result → (to : ℕ) (kind : Kind) → ¬ IsLoneMember self.entry walk.now from to kind }
        ensures some { IfSome result (λ e. IsLoneMember self.entry walk.now e.start e.end e.kind) }
    {
        if !leads_from(walk, self.type_of(from)) {
            return None;
        }
        let keys = self.locks.facts().keys();
        for to in 0..keys {
            if let Some(found) = self.member_between(walk, from, to) {
                return Some(found);
            }
        }
        None
    }

    // The first from the one lock to the other.
    fn member_between(self, walk: &[Order], from: u16, to: u16) -> Option<Dependency>
        requires lower { from < MAX_KEYS }
        requires upper { to < MAX_KEYS }
        ensures none { IsNone result → (kind : Kind) → ¬ IsLoneMember self.entry walk.now from to kind }
        ensures some { IfSome result (λ e. IsLoneMember self.entry walk.now e.start e.end e.kind) }
    {
        let (Some(lower), Some(upper)) = (KeyId::of_many(from), KeyId::of_many(to)) else {
            unreachable!();
        };
        for kind in KINDS {
            if self.is_member(walk, from, to, kind) {
                return Some(Dependency {
                    from: lower,
                    to: upper,
                    kind,
                });
            }
        }
        None
    }

    // Whether the dependency between locks is on a circle at the level, and by its types a member of the walk.
    fn is_member(self, walk: &[Order], from: u16, to: u16, kind: Kind) -> bool
        ensures { IsTrue result ↔ IsLoneMember self.entry walk.now from to kind }
    {
        has_member(walk, self.type_of(from), self.type_of(to), kind)
            && self.locks.has_dep(from, to, kind)
            && self
                .settled
                .on_circle(self.naming.of(from), self.naming.of(to), kind)
    }

    // The first lock of the type that is a double at the level.
    fn double(self, irq: Irq, key: KeyId) -> Option<KeyId>
        ensures none { IsNone result → (k : ℕ) → Contains self.entry.keys.now k → ¬ IsLoneDouble self.entry irq key k }
        ensures some { IfSome result (λ k. Contains self.entry.keys.now k × IsLoneDouble self.entry irq key k) }
    {
        for lock in self.keys {
            if self.is_double(irq, key, *lock) {
                return Some(*lock);
            }
        }
        None
    }

    // Whether the lock is one of the type and a double at the level.
    fn is_double(self, irq: Irq, key: KeyId, lock: KeyId) -> bool
        ensures { IsTrue result ↔ IsLoneDouble self.entry irq key lock }
    {
        self.type_of(lock.get()) == key.get()
            && self.settled.is_double(irq, self.naming.of(lock.get()))
    }

    // The first two locks of the types that are an inversion at the level.
    fn inversion(self, irq: Irq, a: KeyId, b: KeyId) -> Option<(KeyId, KeyId)>
        ensures none { IsNone result → (k : ℕ) → Contains self.entry.keys.now k → (l : ℕ) → Contains self.entry.keys.now l
            → ¬ IsLoneInversion self.entry irq a b k l }
        ensures some { IfSome result (λ locks. Contains self.entry.keys.now locks.0 × Contains self.entry.keys.now locks.1
            × IsLoneInversion self.entry irq a b locks.0 locks.1) }
    {
        for lock in self.keys {
            if let Some(other) = self.inversion_from(irq, a, b, *lock) {
                return Some((*lock, other));
            }
        }
        None
    }

    // The first lock that is the second of one with this lock.
    fn inversion_from(self, irq: Irq, a: KeyId, b: KeyId, lock: KeyId) -> Option<KeyId>
        ensures none { IsNone result → (l : ℕ) → Contains self.entry.keys.now l → ¬ IsLoneInversion self.entry irq a b lock l }
        ensures some { IfSome result (λ l. Contains self.entry.keys.now l × IsLoneInversion self.entry irq a b lock l) }
    {
        if self.type_of(lock.get()) != a.get() {
            return None;
        }
        for other in self.keys {
            if self.is_inversion(irq, a, b, lock, *other) {
                return Some(*other);
            }
        }
        None
    }

    // Whether the two locks are of the types and an inversion at the level.
    fn is_inversion(self, irq: Irq, a: KeyId, b: KeyId, lock: KeyId, other: KeyId) -> bool
        ensures { IsTrue result ↔ IsLoneInversion self.entry irq a b lock other }
    {
        self.type_of(lock.get()) == a.get()
            && self.type_of(other.get()) == b.get()
            && self.settled.is_inversion(
                irq,
                self.naming.of(lock.get()),
                self.naming.of(other.get()),
            )
    }
}

fn has_member(walk: &[Order], from: u16, to: u16, kind: Kind) -> bool
    ensures { IsTrue result ↔ Contains (members_of walk.now) (arrow from to kind) }
{
    for order in walk {
        if order.is(from, to, kind) {
            return true;
        }
    }
    false
}

// Whether a member of the walk leads from the key. If false none does.
fn leads_from(walk: &[Order], from: u16) -> bool
    ensures { IsFalse result → (e : Arrow) → Contains (members_of walk.now) e → ¬ (e.start ≡ from) }
{
    for order in walk {
        if order.leads_from(from) {
            return true;
        }
    }
    false
}
