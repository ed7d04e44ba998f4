//! Which takings of a history are released, and where.

ghost use Rattle.std.specs.Prelude.{◌≡◌, ◌≢◌, ℕ, ◌+◌, ◌<◌, ◌∷◌, [], length, slice_index, All, Any, IfOk, IsTrue, MatchBool, MatchOption, Option};
ghost use Rattle.ld_schedule.specs.Histories.{Blocks, IsOf, Takes};
ghost use Rattle.ld_schedule.specs.Inside.HistoryTables.{AreTakings, Hinders, IsBlockingStep, IsEmptyFor, IsReading, IsReadingStep, LeavesFree, NoTakingFault};
ghost use Rattle.ld_schedule.specs.WellFormed.{IsFaultAt};

use crate::history::NEVER;
use crate::history_fault::StepFault;
use crate::step::{Action, HoldMode, Step};
use std::alloc::{AllocError, Global};

/// What keeps the task from taking in the mode a lock whose takings that aren't released are these.
fn hindrance(steps: &[Step], held: &[u32], task: u32, mode: HoldMode) -> Option<StepFault>
    requires { All (λ q. q < length steps.now) held.now }
    ensures { MatchOption result
        (All (LeavesFree steps.now task mode) held.now)
        (λ fault. Any (Hinders steps.now task mode fault) held.now) }
{
    for q in held {
        let holder = steps[*q as usize];
        if holder.task == task {
            return Some(StepFault::TakenAgain);
        }
        if blocks(&holder, mode) {
            return Some(StepFault::TakenByAnother);
        }
    }
    None
}

/// Whether the step takes a lock in a mode that blocks the other.
fn blocks(step: &Step, mode: HoldMode) -> bool
    ensures { MatchBool result (IsBlockingStep step.now mode) (¬ IsBlockingStep step.now mode) }
{
    match step.action {
        Action::Take { mode: held, .. } => held.blocks(mode),
        _ => false,
    }
}

/// The place of the task's step among these.
fn place_of(steps: &[Step], held: &[u32], task: u32) -> Option<usize>
    requires { All (λ q. q < length steps.now) held.now }
    ensures { MatchOption result
        (All (λ q. ¬ IsOf steps.now task q) held.now)
        (λ i. (i < length held.now) × IsOf steps.now task (slice_index held.now i)) }
{
    for (i, q) in held.iter().enumerate() {
        if steps[*q as usize].task == task {
            return Some(i);
        }
    }
    None
}

/// Whether the task's step among these takes a lock as a reader.
fn reads(steps: &[Step], held: &[u32], task: u32) -> bool
    requires { All (λ q. q < length steps.now) held.now }
    ensures { MatchBool result
        (Any (IsReading steps.now task) held.now)
        (All (λ q. ¬ IsReading steps.now task q) held.now) }
{
    for q in held {
        let holder = steps[*q as usize];
        if holder.task == task && takes_as_reader(&holder) {
            return true;
        }
    }
    false
}

/// Whether the step takes a lock as a reader.
fn takes_as_reader(step: &Step) -> bool
    ensures { MatchBool result (IsReadingStep step.now) (¬ IsReadingStep step.now) }
{
    match step.action {
        Action::Take { mode, .. } => mode != HoldMode::Write,
        _ => false,
    }
}

/// The takings of each lock that aren't released before a position, and where the others are.
#[derive(Drop)]
pub struct Takings {
    /// For each lock the positions of its takings that aren't released.
    open: Vec<Vec<u32>>,
    /// For each step that takes a lock the position of its release, or NEVER.
    releases: Vec<u32>,
}

impl Takings {
    /// What is known before the first step, with room for this many locks and steps.
    pub fn new(alloc: Global, locks: usize, steps: usize) -> Result<Takings, AllocError>
        ensures { IfOk result (λ takings. IsEmptyFor locks takings.open.items takings.releases.items) }
    {
        let mut open = Vec::with_capacity(alloc, locks)?;
        for _ in 0..locks {
            open.push(Vec::new(alloc))?;
        }
        Ok(Takings {
            open,
            releases: Vec::with_capacity(alloc, steps)?,
        })
    }

    /// For each step the position of its release, if it takes a lock that is released, or else NEVER.
    pub fn into_releases(self) -> Vec<u32>
        ensures { result.items ≡ self.releases.items }
    {
        let Takings { open: _, releases } = self;
        releases
    }

    /// Enters what the step at the position does with a lock. A fault if it can't.
    pub fn enter(&mut self, steps: &[Step], position: u32) -> Result<Option<StepFault>, AllocError>
        requires here { position < length steps.now }
        requires few { length steps.now < NEVER }
        requires before { AreTakings steps.now position self.old.open.items self.old.releases.items }
        ensures { IfOk result (λ fault. MatchOption fault
            (AreTakings steps.now (position + 1) self.new.open.items self.new.releases.items × NoTakingFault steps.now position)
            (IsFaultAt steps.now position)) }
    {
        self.releases.push(NEVER)?;
        let task = steps[position as usize].task;
        match steps[position as usize].action {
            Action::Take { lock, mode, .. } => {
                let held = &mut self.open[lock as usize];
                if let Some(fault) = hindrance(steps, held, task, mode) {
                    return Ok(Some(fault));
                }
                held.push(position)?;
                Ok(None)
            }
            Action::Again { lock } => {
                if !reads(steps, &self.open[lock as usize], task) {
                    return Ok(Some(StepFault::NotHeld));
                }
                Ok(None)
            }
            Action::Release { lock } => {
                let held = &mut self.open[lock as usize];
                let Some(i) = place_of(steps, held, task) else {
                    return Ok(Some(StepFault::NotHeld));
                };
                let taken = held.remove(i);
                self.releases[taken as usize] = position;
                Ok(None)
            }
            _ => Ok(None),
        }
    }
}
