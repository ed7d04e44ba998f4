//! Decides whether a schedule of a history comes to where tasks stand still.

ghost use Rattle.std.specs.Prelude.{◌≡◌, ℕ, All, IfOk, slice_index};
ghost use Rattle.ld_schedule.specs.Decisions.{AreOfOneTask, IsDecided, IsKeptApart, lists_of};

use crate::course::Course;
use crate::decision::{Decision, KeptOrder, Reason, Standstill};
use crate::growth::Growth;
use crate::history::History;
use crate::reason::reason_of;
use crate::replay::replay;
use crate::ring::{close_for, steps_at};
use crate::seen::Seen;
use crate::standing::stands_still;
use std::alloc::{AllocError, Global};

/// Tables for deciding about one history, which are used again from one ring to the next.
#[derive(Drop)]
pub struct Decider {
    growth: Growth,
    course: Course,
    seen: Seen,
}

impl Decider {
    /// Tables for this history. An error if memory is refused.
    pub fn new(alloc: Global, history: &History) -> Result<Decider, AllocError> {
        Ok(Decider {
            growth: Growth {
                cut: vec![in alloc; 0; history.task_count()]?,
                grown: Vec::new(alloc),
                raises: Vec::new(alloc),
            },
            course: Course::new(alloc, history)?,
            seen: Seen::new(alloc, history.lock_count())?,
        })
    }

    /// Whether a schedule of the history comes to where tasks stand still at one step of each list, by the order of takings
    /// of all locks. Each list has the steps of one task in their order, and may be empty. An error if memory is refused.
    pub fn decide(
        &mut self,
        alloc: Global,
        history: &History,
        ring: &[&[u32]],
    ) -> Result<Decision, AllocError>
        requires { All (AreOfOneTask history.now.steps) (lists_of ring.now) }
        ensures { IfOk result (IsDecided history.now (lists_of ring.now)) }
    {
        self.begin();
        if let Some(end) = close_for(
            &mut self.growth,
            &mut self.course,
            &mut self.seen,
            history,
            KeptOrder::OfAllLocks,
            ring,
        )? {
            return Ok(Decision::Refuted(reason_of(
                alloc,
                history,
                ring,
                &self.growth.raises,
                end,
            )?));
        }
        standstill(alloc, history, &self.growth.cut, ring)
    }

    /// Why no schedule comes to a step of each list, even where the order of takings is kept of threads' locks alone. None if
    /// that isn't known. Each list has the steps of one task in their order. An error if memory is refused.
    pub fn keeps_apart(
        &mut self,
        alloc: Global,
        history: &History,
        ring: &[&[u32]],
    ) -> Result<Option<Reason>, AllocError>
        requires { All (AreOfOneTask history.now.steps) (lists_of ring.now) }
        ensures { IfOk result (IsKeptApart history.now (lists_of ring.now)) }
    {
        self.begin();
        if let Some(end) = close_for(
            &mut self.growth,
            &mut self.course,
            &mut self.seen,
            history,
            KeptOrder::OfThreads,
            ring,
        )? {
            return Ok(Some(reason_of(alloc, history, ring, &self.growth.raises, end)?));
        }
        Ok(None)
    }

    /// Begins with nothing below the cut.
    fn begin(&mut self)
        ensures { (task : ℕ) → slice_index self.new.growth.cut.items task ≡ 0 }
    {
        self.growth.grown.clear();
        self.growth.raises.clear();
        self.course.restart();
        self.seen.clear();
        lower_all(&mut self.growth.cut);
    }
}

/// Sets all to 0.
fn lower_all(cut: &mut [u32])
    ensures { (task : ℕ) → slice_index cut.new task ≡ 0 }
{
    for k in 0..cut.len() {
        cut[k] = 0;
    }
}

/// The steps below the cut, if they are a schedule, and tasks stand still after them at the first step of each list that isn't
/// below it.
fn standstill(
    alloc: Global,
    history: &History,
    cut: &[u32],
    ring: &[&[u32]],
) -> Result<Decision, AllocError>
    requires { All (AreOfOneTask history.now.steps) (lists_of ring.now) }
    ensures { IfOk result (IsDecided history.now (lists_of ring.now)) }
{
    let Some(steps) = steps_at(alloc, history, cut, ring)? else {
        return Ok(Decision::Undecided);
    };
    let Some(kept) = replay(alloc, history, cut)? else {
        return Ok(Decision::Undecided);
    };
    if !stands_still(history, cut, &kept, &steps) {
        return Ok(Decision::Undecided);
    }
    let cut = Vec::from_slice(alloc, cut)?;
    Ok(Decision::Stands(Standstill { cut, steps }))
}
