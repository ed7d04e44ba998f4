//! Single dependencies.

ghost use Rattle.std.specs.Prelude.{◌≡◌, ◌*◌, ◌<◌, ◌↔◌, EachIndex, IsTrue, slice_index};
ghost use Rattle.ld_task.specs.Kinds.{is_s};
ghost use Rattle.ld_trace.specs.declared.key_id.TheConstants.{GRAPH_KEYS, MAX_KEYS};
ghost use Rattle.ld_facts.specs.Arrows.{MayFollow};
ghost use Rattle.ld_facts.specs.Inside.Rows.{arrow_of, IsOfKeys, IsOfManyKeys, row_place};
ghost use Rattle.ld_facts.specs.Numbers.{kind_number};
ghost use Rattle.ld_facts.specs.Inside.Places.{arrival, LeavesFrom};
ghost use Rattle.ld_facts.specs.Renumbered.{arrow_at};
ghost use Rattle.ld_facts.specs.declared.places.TheConstants.{PLACES};

use crate::fact::kind_number;
use crate::places::place_of;
use ld_task::Kind;
use ld_trace::GRAPH_KEYS;

/// A dependency: a lock of `to` was taken, and waited for, with one of `from` held.
#[derive(Clone, Copy, PartialEq, Eq, Debug)]
pub struct Dependency {
    /// The key of the lock that was held.
    pub from: u16,
    /// The key of the lock that was taken.
    pub to: u16,
    /// In which modes they were.
    pub kind: Kind,
}

impl Dependency {
    /// Where it arrives.
    pub fn arrival(self) -> usize
        requires { self.to < GRAPH_KEYS }
        ensures value { result ≡ arrival (arrow_of self) }
        ensures below { result < PLACES }
    {
        place_of(self.to, self.kind.ends_in_r())
    }

    /// One that arrives at the place.
    pub fn into_place(place: usize) -> Dependency
        requires { place < PLACES }
        ensures keys { IsOfKeys result }
        ensures arrives { arrival (arrow_of result) ≡ place }
    {
        let keys = usize::from(GRAPH_KEYS);
        let (to, kind) = if place < keys {
            (place as u16, Kind::En)
        } else {
            ((place - keys) as u16, Kind::Er)
        };
        Dependency { from: 0, to, kind }
    }

    /// Whether one that starts where this ends may follow it.
    pub fn may_go_on(self, next: Dependency) -> bool
        ensures { IsTrue result ↔ LeavesFrom self.to (is_s next.kind) (arrival (arrow_of self)) }
    {
        !(self.kind.ends_in_r() && next.kind.begins_with_s())
    }

    /// Whether it may follow itself.
    pub fn may_follow_itself(self) -> bool
        ensures { IsTrue result ↔ MayFollow (arrow_of self) (arrow_of self) }
    {
        self.from == self.to && !(self.kind.ends_in_r() && self.kind.begins_with_s())
    }

    /// The same with other keys: instead of key `n` the one at place `n` of the list, or 0 if there is none.
    pub fn by_keys(self, keys: &[u16]) -> Dependency
        requires { EachIndex keys.now (λ i. slice_index keys.now i < MAX_KEYS) }
        ensures keys { IsOfManyKeys result }
        ensures value { arrow_of result ≡ arrow_at keys.now (arrow_of self) }
    {
        Dependency {
            from: key_at(keys, self.from),
            to: key_at(keys, self.to),
            kind: self.kind,
        }
    }

    /// Its place in the row of those from its start, four for each key that they lead to.
    pub fn row_place(self) -> usize
        ensures { result ≡ row_place self.to self.kind }
    {
        usize::from(self.to) * 4 + kind_number(self.kind)
    }

    // The one from the key that is at that place of the key's row.
    pub(crate) fn at(from: u16, n: usize) -> Dependency
        requires from { from < GRAPH_KEYS }
        requires at { n < GRAPH_KEYS * 4 }
        ensures keys { IsOfKeys result }
        ensures from { result.from ≡ from }
        ensures at { row_place result.to result.kind ≡ n }
    {
        Dependency {
            from,
            to: (n / 4) as u16,
            kind: kind_at(n % 4),
        }
    }
}

impl Default for Dependency {
    fn default() -> Self {
        Dependency {
            from: 0,
            to: 0,
            kind: Kind::En,
        }
    }
}

// The key at the place, or 0 if there is none.
fn key_at(keys: &[u16], place: u16) -> u16
    ensures { result ≡ slice_index keys.now place }
{
    let place = usize::from(place);
    if place < keys.len() { keys[place] } else { 0 }
}

/// The kind with that number.
pub fn kind_at(n: usize) -> Kind
    requires { n < 4 }
    ensures { kind_number result ≡ n }
{
    match n {
        0 => Kind::Er,
        1 => Kind::En,
        2 => Kind::Sr,
        _ => Kind::Sn,
    }
}
