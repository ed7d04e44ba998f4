//! Goes over the steps below a cut in their old order, and tells whether they are a schedule.

ghost use Rattle.std.specs.Prelude.{◌≡◌, ℕ, ◌+◌, ◌<◌, [], ⊤, length, All, IfOk, IfSome, IsTrue, MatchBool};
ghost use Rattle.ld_schedule.specs.declared.step.HoldMode.{HoldMode};
ghost use Rattle.ld_schedule.specs.Decisions.{below};
ghost use Rattle.ld_schedule.specs.Histories.{Blocks, EachLock};
ghost use Rattle.ld_schedule.specs.Inside.Replaying.{Covers, IsKeptTaking, IsReplayed};
ghost use Rattle.ld_schedule.specs.Schedules.{IsSchedule};
ghost use Rattle.ld_schedule.specs.WellFormed.{IsWellFormed};

use crate::cut::{cut_of, is_below};
use crate::history::{History, NEVER};
use crate::step::{Action, HoldMode};
use std::alloc::{AllocError, Global};

/// The takings below a cut whose releases aren't, if the steps below it, in their old order, are a schedule. An error if
/// memory is refused.
pub fn replay(alloc: Global, history: &History, cut: &[u32]) -> Result<Option<Vec<u32>>, AllocError>
    ensures { IfOk result (λ found. IfSome found (λ takings.
        IsSchedule EachLock history.now.steps (below history.now.steps cut.now)
        × All (IsKeptTaking history.now.steps cut.now) takings.items)) }
{
    let mut kept = Kept::new(alloc, history.lock_count())?;
    for position in 0..history.len() {
        if !kept.admit(history, cut, position as u32)? {
            return Ok(None);
        }
    }
    let Kept { modes: _, takings } = kept;
    Ok(Some(takings))
}

/// What the steps below a cut that were gone over keep to its end.
#[derive(Drop)]
struct Kept {
    /// For each lock the mode in which it is taken below the cut and not released, a writer's if there is one.
    modes: Vec<Option<HoldMode>>,
    /// The takings whose releases aren't below the cut.
    takings: Vec<u32>,
}

impl Kept {
    /// Nothing of this many locks.
    fn new(alloc: Global, locks: usize) -> Result<Kept, AllocError>
        ensures { IfOk result (λ kept. (length kept.modes.items ≡ locks) × (kept.takings.items ≡ [])) }
    {
        Ok(Kept {
            modes: vec![in alloc; None; locks]?,
            takings: Vec::new(alloc),
        })
    }

    /// Goes over one step more. False if it is below the cut, and can't come after those before it that are.
    fn admit(&mut self, history: &History, cut: &[u32], position: u32) -> Result<bool, AllocError>
        requires here { position < length history.now.steps }
        requires few { length history.now.steps < NEVER }
        requires well_formed { IsWellFormed history.now.steps }
        requires before { IsReplayed history.now.steps cut.now position self.old.modes.items self.old.takings.items }
        ensures { IfOk result (λ admitted. IsTrue admitted →
            IsReplayed history.now.steps cut.now (position + 1) self.new.modes.items self.new.takings.items) }
    {
        let step = history.step(position);
        if !is_below(cut, &step, position) {
            return Ok(true);
        }
        match step.action {
            Action::Get { message } => {
                let giving = history.giving_of(message);
                Ok(is_below(cut, &history.step(giving), giving))
            }
            Action::Take { lock, mode, .. } => {
                let kept = self.modes[lock as usize];
                if blocks(kept, mode) {
                    return Ok(false);
                }
                if history.release_of(position) < cut_of(cut, step.task) {
                    return Ok(true);
                }
                self.takings.push(position)?;
                self.modes[lock as usize] = Some(stronger(kept, mode));
                Ok(true)
            }
            _ => Ok(true),
        }
    }
}

/// Whether a lock that is kept in a mode, if it is kept, can't be taken in the other.
fn blocks(kept: Option<HoldMode>, mode: HoldMode) -> bool
    ensures { MatchBool result ⊤ ((other : HoldMode) → Covers kept other → ¬ Blocks other mode) }
{
    match kept {
        Some(held) => held.blocks(mode),
        None => false,
    }
}

/// A writer's mode, if one of the two is.
fn stronger(kept: Option<HoldMode>, mode: HoldMode) -> HoldMode
    ensures mode { mode ≡ HoldMode.Write → result ≡ HoldMode.Write }
    ensures kept { (other : HoldMode) → Covers kept other → Covers (Some result) other }
{
    match kept {
        Some(HoldMode::Write) => HoldMode::Write,
        _ => mode,
    }
}
