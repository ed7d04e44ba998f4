//! What traces hold at their end.

ghost use Rattle.std.specs.Prelude.{◌≡◌, ◌≤◌, All, IfOk, List, OnOk, length};
ghost use Rattle.ld_explain.specs.Names.{Event, IsWellFormed, MAX_TRACES};
ghost use Rattle.ld_explain.specs.Clauses.{AddsEnd, AreEnds, kept_at_end};

use crate::Tried;
use ld_task::PlacedState;
use ld_trace::RawTrace;
use std::alloc::Global;

/// What the task of a trace holds after its last event.
#[derive(Drop)]
pub struct End {
    /// The trace's place in the list, counted from 0.
    pub trace: u32,
    /// The positions at which the locks were taken that the task keeps, oldest first.
    pub kept: Vec<u32>,
}

// What each trace that holds something at its end holds there, in the order of the traces.
pub(crate) fn ends_of(alloc: Global, traces: &[RawTrace]) -> Tried<Vec<End>>
    requires well_formed { All IsWellFormed traces.now }
    requires few { length traces.now ≤ MAX_TRACES }
    ensures { IfOk result (λ ends. AreEnds traces.now ends.items) }
{
    let mut ends = Vec::new(alloc);
    for i in 0..traces.len() {
        add_end(&mut ends, i as u32, kept_after(alloc, &traces[i])?)?;
    }
    Ok(ends)
}

// Adds what a trace holds at its end, if it holds something.
fn add_end(ends: &mut Vec<End>, trace: u32, kept: Vec<u32>) -> Tried<()>
    ensures { OnOk result (AddsEnd ends.old.items ends.new.items trace kept.items) }
{
    if !kept.is_empty() {
        ends.push(End { trace, kept })?;
    }
    Ok(())
}

// The positions of the locks that are kept after a trace.
fn kept_after(alloc: Global, trace: &RawTrace) -> Tried<Vec<u32>>
    requires { IsWellFormed trace.now }
    ensures { IfOk result (λ kept. kept.items ≡ kept_at_end trace.now) }
{
    let mut state = PlacedState::new();
    for place in 0..trace.len() {
        let Some(event) = trace.event(place) else {
            unreachable!();
        };
        let Ok(_) = state.step(place as u32, event) else {
            unreachable!();
        };
    }
    let mut kept = Vec::new(alloc);
    kept.extend_from_slice(state.kept())?;
    Ok(kept)
}
