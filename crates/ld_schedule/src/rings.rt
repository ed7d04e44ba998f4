//! Rings of kinds: each waits for what the next one has. What finds them isn't proved; whether tasks stand still at one is
//! decided for each.

use crate::kinds::{HeldLock, Kind, Kinds, number};
use crate::limits::{LONGEST_RING, MOST_RINGS, MOST_WORK};
use crate::parts::parts_of;
use crate::step::HoldMode;
use std::alloc::{AllocError, Global};

/// Whether who has a lock in the one mode keeps others from taking it in the other.
pub(crate) fn blocks(a: HoldMode, b: HoldMode) -> bool {
    a == HoldMode::Write || b == HoldMode::Write
}

// A task that has a lock, by its kind.
#[derive(Clone, Copy)]
struct Holder {
    kind: u32,
    mode: HoldMode,
}

/// For each lock, the kinds whose tasks have it, and those that wait for it as writers.
#[derive(Drop)]
pub(crate) struct Waits<'k> {
    kinds: &'k Kinds,
    holders: Vec<Vec<Holder>>,
    writers: Vec<Vec<u32>>,
}

/// What may come after a kind.
#[derive(Clone, Copy)]
pub(crate) enum Candidate {
    /// This kind: the one waits for it.
    Next(u32),
    /// Another one, perhaps.
    Other,
    /// None any more.
    End,
}

impl<'k> Waits<'k> {
    pub(crate) fn new(alloc: Global, kinds: &'k Kinds) -> Result<Waits<'k>, AllocError> {
        let mut waits = Waits {
            kinds,
            holders: Vec::new(alloc),
            writers: Vec::new(alloc),
        };
        for (place, kind) in kinds.kinds.as_slice().iter().enumerate() {
            waits.add(alloc, number(place), kind)?;
        }
        Ok(waits)
    }

    // Adds a kind to the lists of the locks that it has and waits for.
    fn add(&mut self, alloc: Global, place: u32, kind: &Kind) -> Result<(), AllocError> {
        for held in self.kinds.held(kind) {
            let holder = Holder {
                kind: place,
                mode: held.mode,
            };
            add_at(alloc, &mut self.holders, held.lock as usize, holder)?;
        }
        if kind.mode == HoldMode::Write {
            add_at(alloc, &mut self.writers, kind.lock as usize, place)?;
        }
        Ok(())
    }

    /// How many kinds there are.
    pub(crate) fn len(&self) -> usize {
        self.kinds.kinds.len()
    }

    pub(crate) fn kind(&self, place: u32) -> Option<&'k Kind> {
        self.kinds.kinds.as_slice().get(place as usize)
    }

    /// The candidate with this number for what comes after a kind.
    pub(crate) fn candidate(&self, place: u32, at: usize) -> Candidate {
        let Some(kind) = self.kind(place) else {
            return Candidate::End;
        };
        let holders = list_at(self.holders.as_slice(), kind.lock);
        if let Some(holder) = holders.get(at) {
            return self.after_holder(kind, *holder);
        }
        let writers = list_at(self.writers.as_slice(), kind.lock);
        match writers.get(at - holders.len().min(at)) {
            Some(writer) if kind.mode == HoldMode::Read => self.after_writer(kind, *writer),
            _ => Candidate::End,
        }
    }

    // A kind waits for one that has the lock in a mode that blocks it, and for no other task's if it only reads it again.
    fn after_holder(&self, kind: &Kind, holder: Holder) -> Candidate {
        match self.kind(holder.kind) {
            Some(next)
                if next.task != kind.task && !kind.is_again && blocks(kind.mode, holder.mode) => {
                Candidate::Next(holder.kind)
            }
            _ => Candidate::Other,
        }
    }

    // A plain reader waits behind a writer that waits. If that has the lock, it came up as a holder.
    fn after_writer(&self, kind: &Kind, writer: u32) -> Candidate {
        match self.kind(writer) {
            Some(next) if next.task != kind.task => Candidate::Next(writer),
            _ => Candidate::Other,
        }
    }

    // Whether the locks of two kinds can be had at once by two tasks.
    fn are_apart(&self, a: &Kind, b: &Kind) -> bool {
        let other = self.kinds.held(b);
        self.kinds.held(a).iter().all(|held| !excludes(other, held))
    }
}

// Whether one of these locks is this one, in modes that block each other.
fn excludes(others: &[HeldLock], held: &HeldLock) -> bool {
    others.iter().any(|other| other.lock == held.lock && blocks(other.mode, held.mode))
}

fn list_at<T>(lists: &[Vec<T>], place: u32) -> &[T] {
    match lists.get(place as usize) {
        Some(list) => list.as_slice(),
        None => &[],
    }
}

// Adds an item to the list at a place.
fn add_at<T: Drop>(
    alloc: Global,
    lists: &mut Vec<Vec<T>>,
    place: usize,
    item: T,
) -> Result<(), AllocError> {
    for _ in lists.len()..place.saturating_add(1) {
        lists.push(Vec::new(alloc))?;
    }
    if let Some(list) = lists.get_mut(place) {
        list.push(item)?;
    }
    Ok(())
}

/// Rings of kinds, each once and from its least kind on, and whether these are all.
#[derive(Drop)]
pub struct Rings {
    /// Each ring's kinds, by their places among the kinds.
    pub rings: Vec<Vec<u32>>,
    /// Whether none is longer than is looked for, and no limit was met.
    pub are_all: bool,
}

// A place on the way round: a kind, and the number of its next candidate.
#[derive(Clone, Copy)]
struct Place {
    kind: u32,
    at: usize,
}

/// The rings of these kinds: the tasks differ, and can have their locks at once. An error if memory is refused.
pub fn rings_of(alloc: Global, kinds: &Kinds) -> Result<Rings, AllocError> {
    let waits = Waits::new(alloc, kinds)?;
    let mut rings = Rings {
        rings: Vec::new(alloc),
        are_all: true,
    };
    let Some(parts) = parts_of(alloc, &waits)? else {
        rings.are_all = false;
        return Ok(rings);
    };
    let mut work = 0usize;
    for root in 0..waits.len() {
        if !add_rings_from(
            alloc,
            &waits,
            parts.as_slice(),
            number(root),
            &mut work,
            &mut rings,
        )? {
            rings.are_all = false;
            break;
        }
    }
    Ok(rings)
}

// Adds the rings of which this kind is the least, and returns whether no limit was met.
fn add_rings_from(
    alloc: Global,
    waits: &Waits<'_>,
    parts: &[u32],
    root: u32,
    work: &mut usize,
    rings: &mut Rings,
) -> Result<bool, AllocError> {
    let mut way = Vec::new(alloc);
    way.push(Place { kind: root, at: 0 })?;
    for _ in 0..MOST_WORK {
        *work = work.saturating_add(1);
        if *work >= MOST_WORK || rings.rings.len() >= MOST_RINGS {
            return Ok(false);
        }
        let Some(last) = way.last_mut() else {
            return Ok(true);
        };
        let candidate = waits.candidate(last.kind, last.at);
        last.at = last.at.saturating_add(1);
        match candidate {
            Candidate::End => {
                way.pop();
            }
            Candidate::Other => {}
            Candidate::Next(next) if next == root => add_ring(alloc, way.as_slice(), rings)?,
            Candidate::Next(next) => {
                if fits(waits, parts, way.as_slice(), root, next) {
                    if way.len() < LONGEST_RING {
                        way.push(Place { kind: next, at: 0 })?;
                    } else {
                        rings.are_all = false;
                    }
                }
            }
        }
    }
    Ok(false)
}

// Adds the way as a ring, if it has two kinds at least.
fn add_ring(alloc: Global, way: &[Place], rings: &mut Rings) -> Result<(), AllocError> {
    if way.len() < 2 {
        return Ok(());
    }
    let mut ring = Vec::new(alloc);
    for place in way {
        ring.push(place.kind)?;
    }
    rings.rings.push(ring)?;
    Ok(())
}

// Whether a kind may come next on a way that began at the root.
fn fits(waits: &Waits<'_>, parts: &[u32], way: &[Place], root: u32, next: u32) -> bool {
    if next <= root || parts.get(next as usize) != parts.get(root as usize) {
        return false;
    }
    let Some(kind) = waits.kind(next) else {
        return false;
    };
    for place in way {
        match waits.kind(place.kind) {
            Some(other) if other.task != kind.task && waits.are_apart(other, kind) => {}
            _ => return false,
        }
    }
    true
}
