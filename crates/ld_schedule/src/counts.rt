//! How many tasks, locks and messages steps name.

ghost use Rattle.std.specs.Prelude.{◌≡◌, ℕ, ◌<◌, ◌≤◌};
ghost use Rattle.ld_schedule.specs.Inside.HistoryTables.{lock_named, message_named};

use crate::step::{Action, Step};

/// Numbers above those of all tasks, locks and messages of some steps.
#[derive(Clone, Copy, Debug)]
pub struct Counts {
    pub tasks: usize,
    pub locks: usize,
    pub messages: usize,
}

impl Counts {
    ghost use Rattle.ld_schedule.specs.declared.step.Action.{Action};
    ghost use Rattle.ld_schedule.specs.Histories.{Does, IsOf};
    ghost use Rattle.ld_schedule.specs.Inside.HistoryTables.{IsAbout, IsAboutLock};

    /// The least such numbers.
    pub fn of(steps: &[Step]) -> Counts
        ensures tasks { (p task : ℕ) → IsOf steps.now task p → task < result.tasks }
        ensures locks { (p task : ℕ) (action : Action) (lock : ℕ) → Does steps.now p task action →
            IsAboutLock action lock → lock < result.locks }
        ensures messages { (p task : ℕ) (action : Action) (message : ℕ) → Does steps.now p task action →
            IsAbout action message → message < result.messages }
    {
        let mut tasks = 0;
        let mut locks = 0;
        let mut messages = 0;
        for step in steps {
            tasks = above(tasks, Some(step.task));
            locks = above(locks, lock_of(&step.action));
            messages = above(messages, message_of(&step.action));
        }
        Counts {
            tasks,
            locks,
            messages,
        }
    }
}

/// The count, or the least one above the number, if there is one.
fn above(count: usize, number: Option<u32>) -> usize
    ensures keeps { count ≤ result }
    ensures above { (n : ℕ) → number ≡ Some n → n < result }
{
    match number {
        Some(number) => count.max(number as usize + 1),
        None => count,
    }
}

/// The lock that the action is about.
fn lock_of(action: &Action) -> Option<u32>
    ensures { result ≡ lock_named action.now }
{
    match action {
        Action::Take { lock, .. } | Action::Again { lock } | Action::Release { lock } => Some(
            *lock,
        ),
        _ => None,
    }
}

/// The message that the action is about.
fn message_of(action: &Action) -> Option<u32>
    ensures { result ≡ message_named action.now }
{
    match action {
        Action::Give { message } | Action::Get { message } => Some(*message),
        _ => None,
    }
}
