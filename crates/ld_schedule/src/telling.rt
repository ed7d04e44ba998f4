//! Names, words and records for what is told of a history.

use crate::decision::{Cause, Contradiction, Forced};
use crate::findings::{Findings, Judged};
use crate::judging::Verdict;
use crate::kinds::Kind;
use crate::named_history::NamedHistory;
use crate::step::HoldMode;
use std::alloc::{AllocError, Global};

/// What is told of one history.
#[derive(Clone, Copy)]
pub(crate) struct Telling<'a> {
    /// What the history is called.
    pub file: &'a str,
    pub named: &'a NamedHistory,
    pub findings: &'a Findings,
}

// A step that a task runs to.
#[derive(Clone, Copy, PartialEq, Eq, PartialOrd, Ord, Debug)]
pub(crate) struct Last {
    pub(crate) position: u32,
    pub(crate) task: u32,
}

/// The word for a mode, as histories have it.
pub(crate) fn mode_word(mode: HoldMode) -> &'static str {
    match mode {
        HoldMode::Write => "w",
        HoldMode::Read => "r",
        HoldMode::RecRead => "rr",
    }
}

/// The word for a verdict.
pub(crate) fn verdict_word(verdict: &Verdict) -> &'static str {
    match verdict {
        Verdict::Possible(_) => "possible",
        Verdict::NotShown(_) => "not shown",
        Verdict::KeptApart(_) => "kept apart",
        Verdict::NotKnown => "not known",
    }
}

impl<'a> Telling<'a> {
    pub(crate) fn task(&self, task: u32) -> &'a str {
        self.named.tasks.name_of(task).unwrap_or("")
    }

    pub(crate) fn lock(&self, lock: u32) -> &'a str {
        self.named.locks.name_of(lock).unwrap_or("")
    }

    /// The number of the record of the step at a position.
    pub(crate) fn record(&self, position: u32) -> u32 {
        match self.named.records.get(position as usize) {
            Some(record) => *record,
            None => 0,
        }
    }

    /// The task of the step at a position.
    pub(crate) fn task_at(&self, position: u32) -> u32 {
        match self.named.history.steps().get(position as usize) {
            Some(step) => step.task,
            None => 0,
        }
    }

    /// The kind of a ring at a place of it.
    pub(crate) fn kind(&self, judged: &Judged, place: usize) -> Option<&'a Kind> {
        let kind = *judged.ring.get(place)?;
        self.findings.kinds.kinds.as_slice().get(kind as usize)
    }

    /// The position of a ring's step at a place of it: the one at which the task stands still, or else the first one of its kind.
    pub(crate) fn position(&self, judged: &Judged, place: usize, kind: &Kind) -> u32 {
        if let Verdict::Possible(found) = &judged.verdict {
            if let Some(position) = found.steps.get(place) {
                return *position;
            }
        }
        match kind.positions.as_slice().first() {
            Some(position) => *position,
            None => 0,
        }
    }

    /// The last step of each task that is below a cut, in their order.
    pub(crate) fn lasts(&self, alloc: Global, cut: &[u32]) -> Result<Vec<Last>, AllocError> {
        let mut last_of = Vec::new(alloc);
        for _ in 0..cut.len() {
            last_of.push(u32::MAX)?;
        }
        for (place, step) in self.named.history.steps().iter().enumerate() {
            let position = u32::try_from(place).unwrap_or(u32::MAX);
            if let Some(until) = cut.get(step.task as usize) {
                if position < *until {
                    if let Some(last) = last_of.get_mut(step.task as usize) {
                        *last = position;
                    }
                }
            }
        }
        let mut lasts = Vec::new(alloc);
        for (task, position) in last_of.iter().enumerate() {
            if *position != u32::MAX {
                let task = u32::try_from(task).unwrap_or(u32::MAX);
                lasts.push(Last {
                    position: *position,
                    task,
                })?;
            }
        }
        lasts.sort()?;
        Ok(lasts)
    }

    /// The step to which a task has to come: the last one that it has to take, or the ring's own.
    pub(crate) fn forced_step(&self, forced: &Forced) -> u32 {
        match forced.cause {
            Cause::Member { .. } => forced.until,
            Cause::Message { .. } | Cause::Section { .. } => forced.until.saturating_sub(1),
        }
    }

    /// The task whose steps a contradiction is about.
    pub(crate) fn task_of_end(&self, judged: &Judged, end: &Contradiction) -> u32 {
        match end {
            Contradiction::NoneLeft { list } => match self.kind(judged, *list as usize) {
                Some(kind) => kind.task,
                None => 0,
            },
            Contradiction::NeverReleased { taken, .. } => self.task_at(*taken),
        }
    }
}

/// What forces a task, in a word.
pub(crate) fn cause_word(cause: Cause) -> &'static str {
    match cause {
        Cause::Member { .. } => "ring",
        Cause::Message { .. } => "message",
        Cause::Section { .. } => "order",
    }
}

/// The step that forces a task, if it is another one's.
pub(crate) fn cause_step(cause: Cause) -> Option<u32> {
    match cause {
        Cause::Member { .. } => None,
        Cause::Message { got } => Some(got),
        Cause::Section { later, .. } => Some(later),
    }
}
