//! The raises of a cut that lead to a contradiction.

use crate::decision::{Cause, Contradiction, Forced, Reason};
use crate::history::{History, NEVER};
use std::alloc::{AllocError, Global};

/// The raises that lead to the contradiction, the first one first. An error if memory is refused.
pub fn reason_of(
    alloc: Global,
    history: &History,
    ring: &[&[u32]],
    raises: &[Forced],
    end: Contradiction,
) -> Result<Reason, AllocError> {
    let mut by_task = RaisesOfTasks::new(alloc, history.task_count())?;
    for (number, raise) in raises.iter().enumerate() {
        by_task.add(raise, number)?;
    }
    let mut needed = vec![in alloc; false; raises.len()]?;
    match end {
        Contradiction::NoneLeft { list } => {
            need_before(&mut needed, history, ring, &by_task, list, NEVER);
        }
        Contradiction::NeverReleased { taken, later } => {
            need(&mut needed, by_task.first_over(history, taken));
            need(&mut needed, by_task.first_over(history, later));
        }
    }
    let forced = needed_of(alloc, history, ring, raises, &by_task, &mut needed)?;
    Ok(Reason { forced, end })
}

/// The raises that are needed, and those that they rest on.
fn needed_of(
    alloc: Global,
    history: &History,
    ring: &[&[u32]],
    raises: &[Forced],
    by_task: &RaisesOfTasks,
    needed: &mut [bool],
) -> Result<Vec<Forced>, AllocError> {
    let mut backwards = Vec::new(alloc);
    for number in (0..raises.len()).rev() {
        if number < needed.len() && needed[number] {
            backwards.push(raises[number])?;
            need_cause(needed, history, ring, by_task, &raises[number]);
        }
    }
    backwards.reverse();
    Ok(backwards)
}

/// Marks the raises on which this one rests.
fn need_cause(
    needed: &mut [bool],
    history: &History,
    ring: &[&[u32]],
    by_task: &RaisesOfTasks,
    raise: &Forced,
) {
    match raise.cause {
        Cause::Member { list } => need_before(needed, history, ring, by_task, list, raise.until),
        Cause::Message { got } => need(needed, by_task.first_over(history, got)),
        Cause::Section { taken, later } => {
            need(needed, by_task.first_over(history, taken));
            need(needed, by_task.first_over(history, later));
        }
    }
}

/// Marks the raise over the list's last step before the position, since the list's steps up to it are past.
fn need_before(
    needed: &mut [bool],
    history: &History,
    ring: &[&[u32]],
    by_task: &RaisesOfTasks,
    list: usize,
    position: u32,
) {
    if list >= ring.len() {
        return;
    }
    let steps = ring[list];
    let place = match steps.binary_search(&position) {
        Ok(place) | Err(place) => place,
    };
    if place == 0 {
        return;
    }
    if let Some(last) = steps.get(place - 1) {
        need(needed, by_task.first_over(history, *last));
    }
}

/// Marks the raise with this number, if there is one.
fn need(needed: &mut [bool], number: usize) {
    if number < needed.len() {
        needed[number] = true;
    }
}

/// For each task its raises in their order: the position to which each goes, and its number.
#[derive(Drop)]
struct RaisesOfTasks {
    until: Vec<Vec<u32>>,
    numbers: Vec<Vec<usize>>,
}

impl RaisesOfTasks {
    fn new(alloc: Global, tasks: usize) -> Result<RaisesOfTasks, AllocError> {
        let mut until = Vec::with_capacity(alloc, tasks)?;
        let mut numbers = Vec::with_capacity(alloc, tasks)?;
        for _ in 0..tasks {
            until.push(Vec::new(alloc))?;
            numbers.push(Vec::new(alloc))?;
        }
        Ok(RaisesOfTasks { until, numbers })
    }

    fn add(&mut self, raise: &Forced, number: usize) -> Result<(), AllocError> {
        let task = raise.task as usize;
        if task < self.until.len() && task < self.numbers.len() {
            self.until[task].push(raise.until)?;
            self.numbers[task].push(number)?;
        }
        Ok(())
    }

    /// The number of the first raise over the step at the position, or one past all numbers.
    fn first_over(&self, history: &History, position: u32) -> usize {
        if position as usize >= history.len() {
            return usize::MAX;
        }
        let task = history.step(position).task as usize;
        if task >= self.until.len() || task >= self.numbers.len() {
            return usize::MAX;
        }
        let place = match self.until[task].binary_search(&(position + 1)) {
            Ok(place) | Err(place) => place,
        };
        let numbers = &self.numbers[task];
        if place < numbers.len() {
            numbers[place]
        } else {
            usize::MAX
        }
    }
}
