//! The rings of a history, each with what is said of it.

use crate::decider::Decider;
use crate::history::History;
use crate::judging::{Verdict, judge};
use crate::kinds::{Kind, Kinds, kinds_of};
use crate::limits::{MOST_TRIED, MOST_TRIED_OVER_LOCKS};
use crate::rings::rings_of;
use crate::step::LockKind;
use indexmap::IndexMap;
use std::alloc::{AllocError, Global};

/// A ring of kinds, and what is said of it.
#[derive(Drop)]
pub struct Judged {
    /// The kinds, by their places: each waits for what the next one has, the last one for what the first one has.
    pub ring: Vec<u32>,
    pub verdict: Verdict,
    /// Whether a task of the ring waits for the end of a thread.
    pub joins: bool,
}

/// What is said of a history.
#[derive(Drop)]
pub struct Findings {
    pub kinds: Kinds,
    /// The rings that were tried: those at which tasks stand still first.
    pub rings: Vec<Judged>,
    /// Whether no ring was left out because of a limit.
    pub all_tried: bool,
    /// How many rings were found and not tried, since tasks stand still at one over the same locks, or because of a limit.
    pub not_tried: usize,
}

impl Findings {
    /// Whether tasks stand still at a ring.
    pub fn is_any_possible(&self) -> bool {
        match self.rings.as_slice().first() {
            Some(first) => is_possible(&first.verdict),
            None => false,
        }
    }
}

fn is_possible(verdict: &Verdict) -> bool {
    matches!(verdict, Verdict::Possible(_))
}

// What was tried over one set of locks: how many rings, and whether tasks stand still at one of them.
#[derive(Clone, Copy)]
struct Tried {
    count: usize,
    stands: bool,
}

// The rings that were judged so far, and what was tried over each set of locks.
#[derive(Drop)]
struct Trial {
    possible: Vec<Judged>,
    others: Vec<Judged>,
    over: IndexMap<Vec<u32>, Tried>,
    not_tried: usize,
    all_tried: bool,
}

impl Trial {
    fn new(alloc: Global, all_tried: bool) -> Trial {
        Trial {
            possible: Vec::new(alloc),
            others: Vec::new(alloc),
            over: IndexMap::new(alloc),
            not_tried: 0,
            all_tried,
        }
    }

    // What was tried over these locks.
    fn over(&self, locks: &[u32]) -> Tried {
        match self.over.get(locks) {
            Some(tried) => *tried,
            None => Tried {
                count: 0,
                stands: false,
            },
        }
    }

    // Whether one more ring over these locks is to be tried. If not, it is counted.
    fn goes_on(&mut self, tried: Tried) -> bool {
        let is_open = !tried.stands;
        let is_within = tried.count < MOST_TRIED_OVER_LOCKS
            && self.possible.len().saturating_add(self.others.len()) < MOST_TRIED;
        if is_open && is_within {
            return true;
        }
        self.not_tried = self.not_tried.saturating_add(1);
        if is_open {
            self.all_tried = false;
        }
        false
    }

    // Keeps a ring over these locks that was judged.
    fn keep(&mut self, locks: Vec<u32>, tried: Tried, judged: Judged) -> Result<(), AllocError> {
        let stands = is_possible(&judged.verdict);
        let count = tried.count.saturating_add(1);
        self.over.insert(locks, Tried { count, stands })?;
        if stands {
            self.possible.push(judged)?;
        } else {
            self.others.push(judged)?;
        }
        Ok(())
    }

    // What is said of the history.
    fn into_findings(self, kinds: Kinds) -> Result<Findings, AllocError> {
        let mut rings = self.possible;
        for judged in self.others {
            rings.push(judged)?;
        }
        Ok(Findings {
            kinds,
            rings,
            all_tried: self.all_tried,
            not_tried: self.not_tried,
        })
    }
}

/// Judges the rings of a history: by the locks that their tasks wait for, and over the same locks until tasks stand still
/// at one. An error if memory is refused.
pub fn findings_of(alloc: Global, history: &History) -> Result<Findings, AllocError> {
    let kinds = kinds_of(alloc, history)?;
    let rings = rings_of(alloc, &kinds)?;
    let mut decider = Decider::new(alloc, history)?;
    let mut trial = Trial::new(alloc, rings.are_all);
    for ring in rings.rings {
        let locks = locks_of(alloc, &kinds, ring.as_slice())?;
        let tried = trial.over(locks.as_slice());
        if trial.goes_on(tried) {
            let judged = judge_ring(alloc, &mut decider, history, &kinds, ring)?;
            trial.keep(locks, tried, judged)?;
        }
    }
    trial.into_findings(kinds)
}

// Judges one ring.
fn judge_ring(
    alloc: Global,
    decider: &mut Decider,
    history: &History,
    kinds: &Kinds,
    ring: Vec<u32>,
) -> Result<Judged, AllocError> {
    let lists = lists_of(alloc, kinds, ring.as_slice())?;
    let verdict = judge(alloc, decider, history, lists.as_slice())?;
    let joins = ring.as_slice().iter().any(|place| waits_for_thread(
        history,
        kinds.kinds.as_slice(),
        *place,
    ));
    Ok(Judged {
        ring,
        verdict,
        joins,
    })
}

// Whether the task of a kind waits for the end of a thread.
fn waits_for_thread(history: &History, kinds: &[Kind], place: u32) -> bool {
    match kinds.get(place as usize) {
        Some(kind) => history.lock_kind(kind.lock) == LockKind::Thread,
        None => false,
    }
}

// The steps of each kind of a ring.
fn lists_of<'k>(
    alloc: Global,
    kinds: &'k Kinds,
    ring: &[u32],
) -> Result<Vec<&'k [u32]>, AllocError> {
    let mut lists = Vec::new(alloc);
    for place in ring {
        let list: &'k [u32] = match kinds.kinds.as_slice().get(*place as usize) {
            Some(kind) => kind.positions.as_slice(),
            None => &[],
        };
        lists.push(list)?;
    }
    Ok(lists)
}

// The locks that the tasks of a ring wait for, by their numbers.
fn locks_of(alloc: Global, kinds: &Kinds, ring: &[u32]) -> Result<Vec<u32>, AllocError> {
    let mut locks = Vec::new(alloc);
    for place in ring {
        if let Some(kind) = kinds.kinds.as_slice().get(*place as usize) {
            locks.push(kind.lock)?;
        }
    }
    locks.sort()?;
    Ok(locks)
}
