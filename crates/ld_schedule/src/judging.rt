//! What is said of each ring of a history.

ghost use Rattle.std.specs.Prelude.{◌≡◌, All, IfOk, true};
ghost use Rattle.std.specs.List.Sorted.{IsStrictlyIncreasing};
ghost use Rattle.ld_schedule.specs.Decisions.{AreOfOneTask, lists_of};
ghost use Rattle.ld_schedule.specs.Histories.{IsOf};
ghost use Rattle.ld_schedule.specs.Verdicts.{IsJudged};

use crate::decider::Decider;
use crate::decision::{Decision, Reason, Standstill};
use crate::history::History;
use crate::step::Step;
use std::alloc::{AllocError, Global};

/// What is said of a ring of lists of steps.
#[derive(Drop, Debug)]
pub enum Verdict {
    /// A schedule of the recorded steps stands still there.
    Possible(Standstill),
    /// No schedule that keeps the order of takings of each lock comes to a step of each list.
    NotShown(Reason),
    /// No schedule does, even if the order of takings is kept of threads' locks alone.
    KeptApart(Reason),
    /// It couldn't be decided.
    NotKnown,
}

// Whether the step at a position is this task's.
fn is_of(steps: &[Step], task: u32, position: u32) -> bool
    ensures { result ≡ true → IsOf steps.now task position }
{
    match steps.get(position as usize) {
        Some(step) => step.task == task,
        None => false,
    }
}

// Whether the steps of a list are all this task's.
fn are_of(steps: &[Step], task: u32, list: &[u32]) -> bool
    ensures { result ≡ true → All (IsOf steps.now task) list.now }
{
    for position in list {
        if !is_of(steps, task, *position) {
            return false;
        }
    }
    true
}

// Whether each position of a list is below the next one.
fn ascend(list: &[u32]) -> bool
    ensures { result ≡ true → IsStrictlyIncreasing list.now }
{
    for next in 1..list.len() {
        if list[next] <= list[next - 1] {
            return false;
        }
    }
    true
}

// Whether the steps of a list are of one task, and in their order.
fn are_of_one_task(steps: &[Step], list: &[u32]) -> bool
    ensures { result ≡ true → AreOfOneTask steps.now list.now }
{
    let task = match list.first() {
        Some(first) => task_of(steps, *first),
        None => 0,
    };
    are_of(steps, task, list) && ascend(list)
}

// The task of the step at a position.
fn task_of(steps: &[Step], position: u32) -> u32 {
    match steps.get(position as usize) {
        Some(step) => step.task,
        None => 0,
    }
}

// Whether the steps of each list are.
fn are_of_tasks(steps: &[Step], ring: &[&[u32]]) -> bool
    ensures { result ≡ true → All (AreOfOneTask steps.now) (lists_of ring.now) }
{
    for list in ring {
        if !are_of_one_task(steps, list) {
            return false;
        }
    }
    true
}

/// What is said of a ring of lists of steps, where each list has all steps of one kind. An error if memory is refused.
pub fn judge(
    alloc: Global,
    decider: &mut Decider,
    history: &History,
    ring: &[&[u32]],
) -> Result<Verdict, AllocError>
    ensures { IfOk result (IsJudged history.now (lists_of ring.now)) }
{
    if !are_of_tasks(history.steps(), ring) {
        return Ok(Verdict::NotKnown);
    }
    match decider.decide(alloc, history, ring)? {
        Decision::Stands(found) => Ok(Verdict::Possible(found)),
        Decision::Undecided => Ok(Verdict::NotKnown),
        Decision::Refuted(reason) => match decider.keeps_apart(alloc, history, ring)? {
            Some(apart) => Ok(Verdict::KeptApart(apart)),
            None => Ok(Verdict::NotShown(reason)),
        },
    }
}
