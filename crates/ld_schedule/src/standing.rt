//! Whether tasks stand still after the steps below a cut.

ghost use Rattle.std.specs.Prelude.{◌≡◌, ℕ, ◌+◌, ◌<◌, length, slice_index, All, AllPairs, IsTrue};
ghost use Rattle.ld_schedule.specs.Decisions.{below};
ghost use Rattle.ld_schedule.specs.Histories.{IsOf};
ghost use Rattle.ld_schedule.specs.Inside.Replaying.{IsKeptTaking, KeepsFrom, TakesAgainst};
ghost use Rattle.ld_schedule.specs.Schedules.{AreApart, IsNext, StandsStill, WaitsFor};

use crate::cut::cut_of;
use crate::history::History;
use crate::step::{Action, HoldMode, Step, Wait};

/// Whether tasks stand still at these steps after the steps below the cut, of which `kept` has takings that aren't released.
pub fn stands_still(history: &History, cut: &[u32], kept: &[u32], ring: &[u32]) -> bool
    requires kept { All (IsKeptTaking history.now.steps cut.now) kept.now }
    ensures { IsTrue result → StandsStill history.now.steps (below history.now.steps cut.now) ring.now }
{
    if ring.len() < 2 || !are_next(history, cut, ring) || !are_apart(history, ring) {
        return false;
    }
    waits_along(history, cut, kept, ring)
        && waits_for(history, cut, kept, ring[ring.len() - 1], ring[0])
}

/// Whether each step is its task's next after the steps below the cut.
fn are_next(history: &History, cut: &[u32], ring: &[u32]) -> bool
    ensures { IsTrue result → All (IsNext history.now.steps (below history.now.steps cut.now)) ring.now }
{
    for p in ring {
        if !is_next(history, cut, *p) {
            return false;
        }
    }
    true
}

/// Whether the step at the position is its task's next after the steps below the cut.
fn is_next(history: &History, cut: &[u32], position: u32) -> bool
    ensures { IsTrue result → IsNext history.now.steps (below history.now.steps cut.now) position }
{
    (position as usize) < history.len() && position == cut_of(cut, history.step(position).task)
}

/// Whether the steps are of tasks that all differ.
fn are_apart(history: &History, ring: &[u32]) -> bool
    requires { All (λ p. p < length history.now.steps) ring.now }
    ensures { IsTrue result → AllPairs (AreApart history.now.steps) ring.now }
{
    for i in 0..ring.len() {
        if !is_apart_from(history, history.step(ring[i]).task, &ring[i + 1..]) {
            return false;
        }
    }
    true
}

/// Whether none of the steps is the task's.
fn is_apart_from(history: &History, task: u32, others: &[u32]) -> bool
    requires { All (λ p. p < length history.now.steps) others.now }
    ensures { IsTrue result → All (λ q. ¬ IsOf history.now.steps task q) others.now }
{
    for q in others {
        if history.step(*q).task == task {
            return false;
        }
    }
    true
}

/// Whether each step but the last waits for the one that follows it.
fn waits_along(history: &History, cut: &[u32], kept: &[u32], ring: &[u32]) -> bool
    requires within { All (λ p. p < length history.now.steps) ring.now }
    requires kept { All (IsKeptTaking history.now.steps cut.now) kept.now }
    ensures { IsTrue result → (k : ℕ) → k + 1 < length ring.now →
        WaitsFor history.now.steps (below history.now.steps cut.now) (slice_index ring.now k) (slice_index ring.now (k + 1)) }
{
    for k in 1..ring.len() {
        if !waits_for(history, cut, kept, ring[k - 1], ring[k]) {
            return false;
        }
    }
    true
}

/// Whether the one step waits for the other after the steps below the cut.
fn waits_for(history: &History, cut: &[u32], kept: &[u32], waiter: u32, other: u32) -> bool
    requires waiter { waiter < length history.now.steps }
    requires other { other < length history.now.steps }
    requires kept { All (IsKeptTaking history.now.steps cut.now) kept.now }
    ensures { IsTrue result → WaitsFor history.now.steps (below history.now.steps cut.now) waiter other }
{
    let next = history.step(other);
    match history.step(waiter).action {
        Action::Take {
            lock,
            mode: HoldMode::Read,
            wait: Wait::Forever,
        } => writes(&next, lock) || is_kept(history, cut, kept, next.task, lock, HoldMode::Read),
        Action::Take {
            lock,
            mode,
            wait: Wait::Forever,
        } => is_kept(history, cut, kept, next.task, lock, mode),
        Action::Again { lock } => writes(&next, lock),
        _ => false,
    }
}

/// Whether the step takes the lock as a writer, and would wait for it for ever.
fn writes(step: &Step, lock: u32) -> bool
    ensures { IsTrue result → step.now.action ≡ Action.Take lock HoldMode.Write Wait.Forever }
{
    match step.action {
        Action::Take {
            lock: taken,
            mode: HoldMode::Write,
            wait: Wait::Forever,
        } => taken == lock,
        _ => false,
    }
}

/// Whether the task is among those that keep the lock, in a mode that blocks this one.
fn is_kept(
    history: &History,
    cut: &[u32],
    kept: &[u32],
    task: u32,
    lock: u32,
    mode: HoldMode,
) -> bool
    requires { All (IsKeptTaking history.now.steps cut.now) kept.now }
    ensures { IsTrue result → KeepsFrom history.now.steps (below history.now.steps cut.now) task lock mode }
{
    for q in kept {
        let holder = history.step(*q);
        if holder.task == task && takes_against(&holder, lock, mode) {
            return true;
        }
    }
    false
}

/// Whether the step takes the lock in a mode that blocks this one.
fn takes_against(step: &Step, lock: u32, mode: HoldMode) -> bool
    ensures { IsTrue result → TakesAgainst step.now lock mode }
{
    match step.action {
        Action::Take {
            lock: taken,
            mode: held,
            ..
        } => taken == lock && held.blocks(mode),
        _ => false,
    }
}
