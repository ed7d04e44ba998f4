//! Closes a cut: it grows until it has what its steps need.

ghost use Rattle.std.specs.Prelude.{ℕ, ◌<◌, length, IfOk, MatchOption};
ghost use Rattle.ld_schedule.specs.declared.decision.KeptOrder.{KeptOrder};
ghost use Rattle.ld_schedule.specs.Inside.Closing.{KeepsForced, Refutes};

use crate::course::Course;
use crate::decision::{Contradiction, KeptOrder};
use crate::growth::{Growth, keeps_order};
use crate::history::{History, NEVER};
use crate::seen::{Reader, Seen};
use crate::step::{Action, HoldMode};
use std::alloc::AllocError;

/// Grows the cut until it has what its steps need: what they get, and the releases of takings that have to come before others.
/// A contradiction if it can't.
pub fn close(
    growth: &mut Growth,
    course: &mut Course,
    seen: &mut Seen,
    history: &History,
    order: KeptOrder,
) -> Result<Option<Contradiction>, AllocError>
    ensures { IfOk result (λ end. MatchOption end
        (KeepsForced order history.now growth.old.cut.items growth.new.cut.items)
        (λ _. Refutes order history.now growth.old.cut.items)) }
{
    for _ in 0..u64::MAX {
        let Some(position) = course.next(&growth.cut, &mut growth.grown) else {
            return Ok(None);
        };
        if let Some(end) = go_over(growth, seen, history, order, position)? {
            return Ok(Some(end));
        }
    }
    Ok(None)
}

/// Grows the cut by what the step at the position needs.
fn go_over(
    growth: &mut Growth,
    seen: &mut Seen,
    history: &History,
    order: KeptOrder,
    position: u32,
) -> Result<Option<Contradiction>, AllocError>
    ensures { IfOk result (λ end. MatchOption end
        (KeepsForced order history.now growth.old.cut.items growth.new.cut.items)
        (λ _. Refutes order history.now growth.old.cut.items)) }
{
    if position as usize >= history.len() {
        return Ok(None);
    }
    match history.step(position).action {
        Action::Get { message } => {
            growth.give(history, position, message)?;
            Ok(None)
        }
        Action::Take { lock, mode, .. } => {
            if !keeps_order(history, order, lock) {
                return Ok(None);
            }
            match mode {
                HoldMode::Write => meet_writer(growth, seen, history, order, lock, position),
                _ => meet_reader(growth, seen, history, order, lock, position),
            }
        }
        _ => Ok(None),
    }
}

/// Settles a writer's taking with the lock's takings that were gone over.
fn meet_writer(
    growth: &mut Growth,
    seen: &mut Seen,
    history: &History,
    order: KeptOrder,
    lock: u32,
    position: u32,
) -> Result<Option<Contradiction>, AllocError>
    ensures { IfOk result (λ end. MatchOption end
        (KeepsForced order history.now growth.old.cut.items growth.new.cut.items)
        (λ _. Refutes order history.now growth.old.cut.items)) }
{
    let latest = seen.writer(lock);
    if latest != NEVER && position < latest {
        return growth.settle(history, order, position, latest);
    }
    if let Some(end) = settle_with(growth, history, order, seen.readers_of(lock), position)? {
        return Ok(Some(end));
    }
    seen.put_writer(lock, position)?;
    if latest == NEVER {
        return Ok(None);
    }
    growth.settle(history, order, latest, position)
}

/// Settles a writer's taking with these by readers.
fn settle_with(
    growth: &mut Growth,
    history: &History,
    order: KeptOrder,
    readers: &[Reader],
    position: u32,
) -> Result<Option<Contradiction>, AllocError>
    ensures { IfOk result (λ end. MatchOption end
        (KeepsForced order history.now growth.old.cut.items growth.new.cut.items)
        (λ _. Refutes order history.now growth.old.cut.items)) }
{
    for reader in readers {
        if let Some(end) = growth.settle(
            history,
            order,
            position.min(reader.position),
            position.max(reader.position),
        )? {
            return Ok(Some(end));
        }
    }
    Ok(None)
}

/// Settles a reader's taking with the lock's latest one by a writer.
fn meet_reader(
    growth: &mut Growth,
    seen: &mut Seen,
    history: &History,
    order: KeptOrder,
    lock: u32,
    position: u32,
) -> Result<Option<Contradiction>, AllocError>
    requires { position < length history.now.steps }
    ensures { IfOk result (λ end. MatchOption end
        (KeepsForced order history.now growth.old.cut.items growth.new.cut.items)
        (λ _. Refutes order history.now growth.old.cut.items)) }
{
    let latest = seen.writer(lock);
    if latest != NEVER && position < latest {
        return growth.settle(history, order, position, latest);
    }
    let task = history.step(position).task;
    seen.put_reader(lock, Reader { task, position })?;
    if latest == NEVER {
        return Ok(None);
    }
    growth.settle(history, order, latest, position)
}
