//! The strongly connected parts of the kinds: a ring is within one of them.

use crate::limits::MOST_WORK;
use crate::rings::{Candidate, Waits};
use std::alloc::{AllocError, Global};

// No part or number yet.
const NONE: u32 = u32::MAX;

// A depth-first walk over the kinds: when each was met, the least that it leads back to, and the part that it is of.
#[derive(Drop)]
struct Walk {
    met: Vec<u32>,
    low: Vec<u32>,
    part: Vec<u32>,
    // The kinds that were met and have no part yet, in the order in which they were met.
    open: Vec<u32>,
    // The way to where the walk is: kinds, and how many candidates of each were looked at.
    way: Vec<(u32, usize)>,
    count: u32,
}

fn at(values: &Vec<u32>, place: u32) -> u32 {
    match values.get(place as usize) {
        Some(value) => *value,
        None => NONE,
    }
}

fn put(values: &mut Vec<u32>, place: u32, value: u32) {
    if let Some(old) = values.get_mut(place as usize) {
        *old = value;
    }
}

fn filled(alloc: Global, count: usize) -> Result<Vec<u32>, AllocError> {
    let mut values = Vec::new(alloc);
    for _ in 0..count {
        values.push(NONE)?;
    }
    Ok(values)
}

impl Walk {
    fn new(alloc: Global, count: usize) -> Result<Walk, AllocError> {
        Ok(Walk {
            met: filled(alloc, count)?,
            low: filled(alloc, count)?,
            part: filled(alloc, count)?,
            open: Vec::new(alloc),
            way: Vec::new(alloc),
            count: 0,
        })
    }

    // Goes on to a kind that wasn't met.
    fn enter(&mut self, kind: u32) -> Result<(), AllocError> {
        put(&mut self.met, kind, self.count);
        put(&mut self.low, kind, self.count);
        self.count = self.count.saturating_add(1);
        self.open.push(kind)?;
        self.way.push((kind, 0))?;
        Ok(())
    }

    // The last kind on the way, and the number of its next candidate, which is then taken as looked at.
    fn next(&mut self) -> Option<(u32, usize)> {
        let last = self.way.last_mut()?;
        let (kind, tried) = *last;
        *last = (kind, tried.saturating_add(1));
        Some((kind, tried))
    }

    // Looks at one more candidate of the last kind on the way.
    fn look(&mut self, kind: u32, candidate: Candidate) -> Result<(), AllocError> {
        match candidate {
            Candidate::Other => {}
            Candidate::End => self.leave(kind),
            Candidate::Next(next) => {
                if at(&self.met, next) == NONE {
                    self.enter(next)?;
                } else if at(&self.part, next) == NONE {
                    let low = at(&self.low, kind).min(at(&self.met, next));
                    put(&mut self.low, kind, low);
                }
            }
        }
        Ok(())
    }

    // Goes back from a kind whose candidates were all looked at.
    fn leave(&mut self, kind: u32) {
        self.way.pop();
        if let Some((before, _)) = self.way.last() {
            let before = *before;
            let low = at(&self.low, before).min(at(&self.low, kind));
            put(&mut self.low, before, low);
        }
        if at(&self.low, kind) == at(&self.met, kind) {
            self.close(kind);
        }
    }

    // Makes a part of the open kinds from this one on.
    fn close(&mut self, kind: u32) {
        for _ in 0..self.open.len() {
            let Some(other) = self.open.pop() else {
                break;
            };
            put(&mut self.part, other, kind);
            if other == kind {
                break;
            }
        }
    }
}

/// The part that each kind is of, by the place of one of its kinds. None if that takes too much work.
pub(crate) fn parts_of(alloc: Global, waits: &Waits<'_>) -> Result<Option<Vec<u32>>, AllocError> {
    let mut walk = Walk::new(alloc, waits.len())?;
    let mut root = 0u32;
    for _ in 0..MOST_WORK {
        if let Some((kind, tried)) = walk.next() {
            walk.look(kind, waits.candidate(kind, tried))?;
        } else if root as usize >= waits.len() {
            return Ok(Some(walk.part));
        } else {
            if at(&walk.met, root) == NONE {
                walk.enter(root)?;
            }
            root = root.saturating_add(1);
        }
    }
    Ok(None)
}
