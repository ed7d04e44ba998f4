//! The kinds of steps at which a task can stand still.

use crate::history::History;
use crate::step::{Action, HoldMode, Step, Wait};
use indexmap::IndexSet;
use std::alloc::{AllocError, Global};

/// A lock that a task has.
#[derive(Clone, Copy, PartialEq, Eq, Hash, Debug)]
pub struct HeldLock {
    pub lock: u32,
    pub mode: HoldMode,
}

/// A lock that a task has, with the position at which it took it.
#[derive(Clone, Copy, Debug)]
pub struct Taken {
    pub held: HeldLock,
    pub position: u32,
}

// What steps of one kind have in common: the task, the lock that it waits for, the mode, whether it reads it again, and the number of
// the set of locks that it has.
#[derive(Clone, Copy, PartialEq, Eq, Hash, Debug)]
struct KindKey {
    task: u32,
    lock: u32,
    mode: HoldMode,
    is_again: bool,
    set: u32,
}

/// A kind of steps: the task takes a lock for which it would wait for ever, or reads it again, with the same locks held.
#[derive(Drop)]
pub struct Kind {
    pub task: u32,
    pub lock: u32,
    pub mode: HoldMode,
    /// Whether the task reads again what it has: then it waits behind writers alone.
    pub is_again: bool,
    /// The number of the set of locks that it has.
    pub set: u32,
    /// The positions of all its steps, the first one first.
    pub positions: Vec<u32>,
}

/// The kinds of a history, and the sets of locks that their tasks have.
#[derive(Drop)]
pub struct Kinds {
    pub kinds: Vec<Kind>,
    sets: IndexSet<Vec<HeldLock>>,
}

impl Kinds {
    /// The locks that a task has at a step of this kind, by their numbers.
    pub fn held(&self, kind: &Kind) -> &[HeldLock] {
        match self.sets.get_index(kind.set as usize) {
            Some(held) => held.as_slice(),
            None => &[],
        }
    }

    // The number of a set of locks.
    fn set_of(&mut self, alloc: Global, held: &[HeldLock]) -> Result<u32, AllocError> {
        if let Some(place) = self.sets.get_index_of(held) {
            return Ok(number(place));
        }
        let (place, _) = self.sets.insert_full(Vec::from_slice(alloc, held)?)?;
        Ok(number(place))
    }

    // Adds a step to its kind.
    fn add(
        &mut self,
        alloc: Global,
        keys: &mut IndexSet<KindKey>,
        key: KindKey,
        position: u32,
    ) -> Result<(), AllocError> {
        let (place, is_new) = keys.insert_full(key)?;
        if is_new {
            self.kinds.push(Kind {
                task: key.task,
                lock: key.lock,
                mode: key.mode,
                is_again: key.is_again,
                set: key.set,
                positions: Vec::new(alloc),
            })?;
        }
        if let Some(kind) = self.kinds.get_mut(place) {
            kind.positions.push(position)?;
        }
        Ok(())
    }
}

// A place as a number: there are fewer than 2^32.
pub(crate) fn number(place: usize) -> u32 {
    u32::try_from(place).unwrap_or(u32::MAX)
}

// The locks that each task has, by their numbers.
#[derive(Drop)]
struct Holdings {
    tasks: Vec<Vec<HeldLock>>,
}

impl Holdings {
    fn new(alloc: Global, tasks: usize) -> Result<Holdings, AllocError> {
        let mut none = Vec::new(alloc);
        for _ in 0..tasks {
            none.push(Vec::new(alloc))?;
        }
        Ok(Holdings { tasks: none })
    }

    fn of(&self, task: u32) -> &[HeldLock] {
        match self.tasks.get(task as usize) {
            Some(held) => held.as_slice(),
            None => &[],
        }
    }

    // What the task has after its step.
    fn take(&mut self, step: &Step) -> Result<(), AllocError> {
        let Some(held) = self.tasks.get_mut(step.task as usize) else {
            return Ok(());
        };
        match step.action {
            Action::Take { lock, mode, .. } => {
                let place = place_among(held.as_slice(), lock);
                if place <= held.len() {
                    held.insert(place, HeldLock { lock, mode })?;
                }
            }
            Action::Release { lock } => {
                let place = place_among(held.as_slice(), lock);
                if place < held.len() {
                    held.remove(place);
                }
            }
            Action::Again { .. } | Action::Give { .. } | Action::Get { .. } => {}
        }
        Ok(())
    }
}

// The place of the first lock with this number or a greater one.
fn place_among(held: &[HeldLock], lock: u32) -> usize {
    for (place, one) in held.iter().enumerate() {
        if one.lock >= lock {
            return place;
        }
    }
    held.len()
}

// The lock for which a step would wait for ever, the mode, and whether it is read again.
fn wait_of(step: &Step) -> Option<(u32, HoldMode, bool)> {
    match step.action {
        Action::Take {
            lock,
            mode,
            wait: Wait::Forever,
        } => Some((lock, mode, false)),
        Action::Again { lock } => Some((lock, HoldMode::Read, true)),
        Action::Take { .. } | Action::Release { .. } | Action::Give { .. } | Action::Get { .. } => {
            None
        }
    }
}

/// The kinds of a history's steps at which a task can stand still, in the order of their first steps, each with all its
/// steps. Left out are those at which nobody could wait for the task: it has no lock, and doesn't wait as a writer. An error
/// if memory is refused.
pub fn kinds_of(alloc: Global, history: &History) -> Result<Kinds, AllocError> {
    let mut kinds = Kinds {
        kinds: Vec::new(alloc),
        sets: IndexSet::new(alloc),
    };
    let mut keys = IndexSet::new(alloc);
    let mut holdings = Holdings::new(alloc, history.task_count())?;
    for (position, step) in history.steps().iter().enumerate() {
        if let Some(wait) = wait_of(step) {
            add_wait(
                alloc,
                &mut kinds,
                &mut keys,
                &holdings,
                step.task,
                wait,
                number(position),
            )?;
        }
        holdings.take(step)?;
    }
    Ok(kinds)
}

// Adds a step at which a task would wait.
fn add_wait(
    alloc: Global,
    kinds: &mut Kinds,
    keys: &mut IndexSet<KindKey>,
    holdings: &Holdings,
    task: u32,
    wait: (u32, HoldMode, bool),
    position: u32,
) -> Result<(), AllocError> {
    let (lock, mode, is_again) = wait;
    let held = holdings.of(task);
    if held.is_empty() && mode != HoldMode::Write {
        return Ok(());
    }
    let set = kinds.set_of(alloc, held)?;
    let key = KindKey {
        task,
        lock,
        mode,
        is_again,
        set,
    };
    kinds.add(alloc, keys, key, position)
}

/// The locks that the task of the step at this position has there, each with the position at which it took it, the last one
/// first. An error if memory is refused.
pub fn taken_before(
    alloc: Global,
    history: &History,
    kinds: &Kinds,
    kind: &Kind,
    position: u32,
) -> Result<Vec<Taken>, AllocError> {
    let held = kinds.held(kind);
    let mut taken = Vec::new(alloc);
    let steps = history.steps();
    for place in (0..steps.len().min(position as usize)).rev() {
        if taken.len() >= held.len() {
            break;
        }
        let Some(step) = steps.get(place) else {
            break;
        };
        if step.task != kind.task {
            continue;
        }
        if let Action::Take { lock, mode, .. } = step.action {
            if has_lock(held, lock) && !is_among(taken.as_slice(), lock) {
                taken.push(Taken {
                    held: HeldLock { lock, mode },
                    position: number(place),
                })?;
            }
        }
    }
    Ok(taken)
}

fn has_lock(held: &[HeldLock], lock: u32) -> bool {
    held.iter().any(|one| one.lock == lock)
}

fn is_among(taken: &[Taken], lock: u32) -> bool {
    taken.iter().any(|one| one.held.lock == lock)
}
