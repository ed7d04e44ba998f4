//! Histories of steps, and what is known of their steps by position.

ghost use Rattle.std.specs.Prelude.{◌≡◌, ℕ, ◌<◌, length, slice_get, MatchResult};
ghost use Rattle.ld_schedule.specs.Inside.HistoryTables.{AreGivings, AreTakings, HaveTables};
ghost use Rattle.ld_schedule.specs.Refusals.{IsRefusal};

use crate::counts::Counts;
use crate::history_fault::HistoryFault;
use crate::messages::enter_message;
use crate::step::{LockKind, Step};
use crate::takings::Takings;
use std::alloc::Global;
use std::marker::Model;

/// At most this many steps make a history, so that each position is a `u32` below `NEVER`.
pub const MAX_STEPS: usize = 0xFFFF_FFFE;

/// A position past those of all steps, for what doesn't come.
pub const NEVER: u32 = 0xFFFF_FFFF;

/// The steps of all tasks of a process, in the order in which they came. It is well formed.
#[derive(Drop)]
pub struct History {
    steps: Vec<Step>,
    kinds: Vec<LockKind>,
    /// For each step that takes a lock the position of its release, or NEVER.
    releases: Vec<u32>,
    /// For each message the position at which it is given, or NEVER.
    givings: Vec<u32>,
    tasks: usize,
    locks: usize,
}

impl Model for History {
    ghost use Rattle.ld_schedule.specs.Histories.{HistoryParts};
    ghost use Rattle.ld_schedule.specs.Inside.HistoryTables.{IsHistory};

    ghost Value = { HistoryParts };

    ghost view = { λ v. record {
      steps = v.steps.items;
      kinds = v.kinds.items;
    } };

    ghost invariant = { λ v. IsHistory v.steps.items v.releases.items v.givings.items v.tasks v.locks };
}

impl History {
    ghost use Rattle.ld_schedule.specs.WellFormed.{IsWellFormed, IsFirstFault};
    ghost use Rattle.ld_schedule.specs.Histories.{Does, HistoryParts, IsOf, Takes, kind_of};
    ghost use Rattle.ld_schedule.specs.declared.step.Action.{Action};
    ghost use Rattle.ld_schedule.specs.declared.step.HoldMode.{HoldMode};
    ghost use Rattle.ld_schedule.specs.Inside.HistoryTables.{IsAboutLock, IsGivenAt, IsReleaseOf};
    ghost use Rattle.ld_schedule.specs.Refusals.{IsMadeOf};

    /// The history of these steps, where each lock stands for what `kinds` has at its number, or for a plain lock if it has
    /// nothing there. Refused with `NotWellFormed` and the first step that can't come where it stands, with `TooManySteps`
    /// if there are more than `MAX_STEPS`, and with `Memory` if memory is refused.
    pub fn of(
        alloc: Global,
        steps: Vec<Step>,
        kinds: Vec<LockKind>,
    ) -> Result<History, HistoryFault>
        ensures { MatchResult result (IsMadeOf steps.items kinds.items) (IsRefusal steps.items) }
    {
        if steps.len() > MAX_STEPS {
            return Err(HistoryFault::TooManySteps);
        }
        let counts = Counts::of(&steps);
        let mut takings = Takings::new(alloc, counts.locks, steps.len())?;
        let mut givings = vec![in alloc; NEVER; counts.messages]?;
        go_over(&steps, &mut takings, &mut givings)?;
        Ok(History {
            steps,
            kinds,
            releases: takings.into_releases(),
            givings,
            tasks: counts.tasks,
            locks: counts.locks,
        })
    }

    /// The steps.
    pub fn steps(&self) -> &[Step]
        ensures { result.now ≡ self.now.steps }
    {
        &self.steps
    }

    /// The number of steps.
    pub fn len(&self) -> usize
        ensures len { result ≡ length self.now.steps }
        ensures few { length self.now.steps < NEVER }
        ensures well_formed { IsWellFormed self.now.steps }
    {
        self.steps.len()
    }

    /// What the lock stands for.
    pub fn lock_kind(&self, lock: u32) -> LockKind
        ensures { result ≡ kind_of self.now.kinds lock }
    {
        match self.kinds.get(lock as usize) {
            Some(kind) => *kind,
            None => LockKind::Plain,
        }
    }

    /// How many tasks there are, by the greatest number of one.
    pub fn task_count(&self) -> usize
        ensures { (p task : ℕ) → IsOf self.now.steps task p → task < result }
    {
        self.tasks
    }

    /// How many locks there are, by the greatest number of one.
    pub fn lock_count(&self) -> usize
        ensures { (p task : ℕ) (action : Action) (lock : ℕ) → Does self.now.steps p task action →
            IsAboutLock action lock → lock < result }
    {
        self.locks
    }

    /// The step at the position.
    pub fn step(&self, position: u32) -> Step
        requires { position < length self.now.steps }
        ensures { slice_get self.now.steps position ≡ Some result }
    {
        self.steps[position as usize]
    }

    /// The position at which the lock that is taken at the position is released, or NEVER.
    pub fn release_of(&self, taken: u32) -> u32
        requires { taken < length self.now.steps }
        ensures { (task lock : ℕ) (mode : HoldMode) → Takes self.now.steps taken task lock mode →
            IsReleaseOf self.now.steps (length self.now.steps) taken task lock result }
    {
        self.releases[taken as usize]
    }

    /// The position at which the message is given, or NEVER.
    pub fn giving_of(&self, message: u32) -> u32
        ensures given { (p task : ℕ) → Does self.now.steps p task (Action.Get message) →
            IsGivenAt self.now.steps p message result }
        ensures only { (q giver : ℕ) → Does self.now.steps q giver (Action.Give message) → q ≡ result }
    {
        if message as usize >= self.givings.len() {
            return NEVER;
        }
        self.givings[message as usize]
    }
}

/// Goes over the steps. It stops at the first one that can't come where it stands.
fn go_over(steps: &[Step], takings: &mut Takings, givings: &mut [u32]) -> Result<(), HistoryFault>
    requires few { length steps.now < NEVER }
    requires no_takings { AreTakings steps.now 0 takings.old.open.items takings.old.releases.items }
    requires no_givings { AreGivings steps.now 0 givings.old }
    ensures { MatchResult result
        (λ _. HaveTables steps.now takings.new.open.items takings.new.releases.items givings.new)
        (IsRefusal steps.now) }
{
    for position in 0..steps.len() {
        let position = position as u32;
        if let Some(fault) = takings.enter(steps, position)? {
            return Err(HistoryFault::NotWellFormed { position, fault });
        }
        if let Some(fault) = enter_message(givings, steps, position) {
            return Err(HistoryFault::NotWellFormed { position, fault });
        }
    }
    Ok(())
}
