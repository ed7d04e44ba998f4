//! A cut that grows by what all schedules that come to a ring have.

ghost use Rattle.std.specs.Prelude.{◌≡◌, ℕ, ◌<◌, length, IfOk, IsTrue, MatchOption};
ghost use Rattle.ld_schedule.specs.declared.decision.KeptOrder.{KeptOrder};
ghost use Rattle.ld_schedule.specs.Histories.{Does};
ghost use Rattle.ld_schedule.specs.Inside.Closing.{IsRaised, KeepsForced, KeptBy, MustFollow, Refutes};

use crate::cut::{cut_of, is_below};
use crate::decision::{Cause, Contradiction, Forced, KeptOrder};
use crate::history::{History, NEVER};
use crate::step::{Action, LockKind};
use std::alloc::AllocError;

/// A cut that grows.
#[derive(Drop)]
pub struct Growth {
    /// For each task a position: its steps before that are below the cut.
    pub cut: Vec<u32>,
    /// Tasks for which the cut has grown, and whose steps weren't all gone over since.
    pub grown: Vec<u32>,
    /// The raises, in their order.
    pub raises: Vec<Forced>,
}

impl Growth {
    /// Raises the cut for the task to a position, if it is lower, for the cause.
    pub fn raise(&mut self, task: u32, until: u32, cause: Cause) -> Result<(), AllocError>
        ensures { IsRaised self.old.cut.items self.new.cut.items task until }
    {
        if task as usize >= self.cut.len() || until <= self.cut[task as usize] {
            return Ok(());
        }
        self.cut[task as usize] = until;
        self.grown.push(task)?;
        self.raises.push(Forced { task, until, cause })?;
        Ok(())
    }

    /// Raises the cut to the giving of the message that is got at the position, if that is below the cut.
    pub fn give(&mut self, history: &History, position: u32, message: u32) -> Result<(), AllocError>
        requires here { position < length history.now.steps }
        requires gets { (task : ℕ) × Does history.now.steps position task (Action.Get message) }
        ensures { (order : KeptOrder) → KeepsForced order history.now self.old.cut.items self.new.cut.items }
    {
        if !is_below(&self.cut, &history.step(position), position) {
            return Ok(());
        }
        let giving = history.giving_of(message);
        let giver = history.step(giving).task;
        self.raise(giver, giving + 1, Cause::Message { got: position })
    }

    /// Raises the cut to the release of the one taking, if the other has to come after it and both are below the cut.
    /// A contradiction if it isn't released.
    pub fn settle(
        &mut self,
        history: &History,
        order: KeptOrder,
        taken: u32,
        later: u32,
    ) -> Result<Option<Contradiction>, AllocError>
        ensures { IfOk result (λ end. MatchOption end
            (KeepsForced order history.now self.old.cut.items self.new.cut.items)
            (λ _. Refutes order history.now self.old.cut.items)) }
    {
        if !must_follow(history, order, &self.cut, taken, later) {
            return Ok(None);
        }
        let release = history.release_of(taken);
        if release == NEVER {
            return Ok(Some(Contradiction::NeverReleased { taken, later }));
        }
        self.raise(
            history.step(taken).task,
            release + 1,
            Cause::Section { taken, later },
        )?;
        Ok(None)
    }
}

/// Whether both positions are below the cut, and take one lock whose order is kept, in modes that exclude each other, for
/// two tasks, the first one before the other.
fn must_follow(history: &History, order: KeptOrder, cut: &[u32], taken: u32, later: u32) -> bool
    ensures { IsTrue result → MustFollow order history.now cut.now taken later }
{
    if taken >= later || later as usize >= history.len() {
        return false;
    }
    let first = history.step(taken);
    let second = history.step(later);
    if first.task == second.task
        || !is_below(cut, &first, taken)
        || !is_below(cut, &second, later)
    {
        return false;
    }
    let Action::Take { lock, mode, .. } = first.action else {
        return false;
    };
    let Action::Take {
        lock: other,
        mode: other_mode,
        ..
    } = second.action
    else {
        return false;
    };
    if lock != other || !mode.blocks(other_mode) {
        return false;
    }
    keeps_order(history, order, lock)
}

/// Whether the order of the lock's takings is kept.
pub fn keeps_order(history: &History, order: KeptOrder, lock: u32) -> bool
    ensures { IsTrue result → KeptBy order history.now lock }
{
    match order {
        KeptOrder::OfAllLocks => true,
        KeptOrder::OfThreads => history.lock_kind(lock) == LockKind::Thread,
    }
}
