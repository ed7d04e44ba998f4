//! Closes a cut for a ring of lists of steps.

ghost use Rattle.std.specs.Prelude.{ℕ, ◌<◌, ◌≤◌, length, slice_index, All, Contains, IfOk, IfSome, MatchOption};
ghost use Rattle.std.specs.List.Sorted.{IsStrictlyIncreasing};
ghost use Rattle.ld_schedule.specs.Decisions.{AreOfOneTask, IsOneOfEach, lists_of};
ghost use Rattle.ld_schedule.specs.Inside.Closing.{KeepsForcedFor, KeepsForcedWith, RefutesFor, RefutesWith};

use crate::closure::close;
use crate::course::Course;
use crate::cut::cut_of;
use crate::decision::{Cause, Contradiction, KeptOrder};
use crate::growth::Growth;
use crate::history::History;
use crate::seen::Seen;
use std::alloc::{AllocError, Global};

/// Grows the cut until it has what each schedule has that comes to the ring, and none of its lists has its next step below the
/// cut. A contradiction if no schedule comes there.
pub fn close_for(
    growth: &mut Growth,
    course: &mut Course,
    seen: &mut Seen,
    history: &History,
    order: KeptOrder,
    ring: &[&[u32]],
) -> Result<Option<Contradiction>, AllocError>
    requires { All (AreOfOneTask history.now.steps) (lists_of ring.now) }
    ensures { IfOk result (λ end. MatchOption end
        (KeepsForcedFor order history.now (lists_of ring.now) growth.old.cut.items growth.new.cut.items)
        (λ _. RefutesFor order history.now (lists_of ring.now) growth.old.cut.items)) }
{
    for _ in 0..u64::MAX {
        let before = growth.raises.len();
        if let Some(end) = advance(growth, history, order, ring)? {
            return Ok(Some(end));
        }
        if growth.raises.len() == before {
            return Ok(None);
        }
        if let Some(end) = close(growth, course, seen, history, order)? {
            return Ok(Some(end));
        }
    }
    Ok(None)
}

/// Raises the cut to the first step of each list that isn't below it.
fn advance(
    growth: &mut Growth,
    history: &History,
    order: KeptOrder,
    ring: &[&[u32]],
) -> Result<Option<Contradiction>, AllocError>
    requires { All (AreOfOneTask history.now.steps) (lists_of ring.now) }
    ensures { IfOk result (λ end. MatchOption end
        (KeepsForcedFor order history.now (lists_of ring.now) growth.old.cut.items growth.new.cut.items)
        (λ _. RefutesFor order history.now (lists_of ring.now) growth.old.cut.items)) }
{
    for k in 0..ring.len() {
        if let Some(end) = go_to(growth, history, order, ring[k], k)? {
            return Ok(Some(end));
        }
    }
    Ok(None)
}

/// Raises the cut to the first step of the list that isn't below it. A contradiction if there is none.
fn go_to(
    growth: &mut Growth,
    history: &History,
    order: KeptOrder,
    list: &[u32],
    number: usize,
) -> Result<Option<Contradiction>, AllocError>
    requires { AreOfOneTask history.now.steps list.now }
    ensures { IfOk result (λ end. MatchOption end
        (KeepsForcedWith order history.now list.now growth.old.cut.items growth.new.cut.items)
        (λ _. RefutesWith order history.now list.now growth.old.cut.items)) }
{
    if list.is_empty() {
        return Ok(Some(Contradiction::NoneLeft { list: number }));
    }
    let task = history.step(list[0]).task;
    let place = place_after(list, cut_of(&growth.cut, task));
    if place >= list.len() {
        return Ok(Some(Contradiction::NoneLeft { list: number }));
    }
    growth.raise(task, list[place], Cause::Member { list: number })?;
    Ok(None)
}

/// The place of the first of these positions that isn't before another one, or their number.
pub fn place_after(list: &[u32], before: u32) -> usize
    requires { IsStrictlyIncreasing list.now }
    ensures within { result ≤ length list.now }
    ensures lower { (k : ℕ) → k < result → slice_index list.now k < before }
    ensures here { result < length list.now → before ≤ slice_index list.now result }
{
    let mut low = 0;
    let mut high = list.len();
    while low < high {
        let middle = low + (high - low) / 2;
        if list[middle] < before {
            low = middle + 1;
        } else {
            high = middle;
        }
    }
    low
}

/// The first step of each list that isn't below the cut, if there is one of each.
pub fn steps_at(
    alloc: Global,
    history: &History,
    cut: &[u32],
    ring: &[&[u32]],
) -> Result<Option<Vec<u32>>, AllocError>
    requires { All (AreOfOneTask history.now.steps) (lists_of ring.now) }
    ensures { IfOk result (λ found. IfSome found (λ steps. IsOneOfEach (lists_of ring.now) steps.items)) }
{
    let mut steps = Vec::with_capacity(alloc, ring.len())?;
    for k in 0..ring.len() {
        let Some(step) = step_at(history, cut, ring[k]) else {
            return Ok(None);
        };
        steps.push(step)?;
    }
    Ok(Some(steps))
}

/// The first step of the list that isn't below the cut.
fn step_at(history: &History, cut: &[u32], list: &[u32]) -> Option<u32>
    requires { AreOfOneTask history.now.steps list.now }
    ensures { IfSome result (Contains list.now) }
{
    if list.is_empty() {
        return None;
    }
    let task = history.step(list[0]).task;
    let place = place_after(list, cut_of(cut, task));
    if place >= list.len() {
        return None;
    }
    Some(list[place])
}
