//! What is said of histories as JSON, for programs to read.

use crate::decision::{Contradiction, Forced, Reason};
use crate::findings::Judged;
use crate::judging::Verdict;
use crate::kinds::{Kind, Taken, taken_before};
use crate::telling::{Telling, cause_step, cause_word, mode_word, verdict_word};
use json::Writer;
use std::alloc::{AllocError, Global};

fn add_text(w: &mut Writer, name: &str, value: &str) -> Result<(), AllocError> {
    w.key(name)?;
    w.string(value)
}

fn add_number(w: &mut Writer, name: &str, value: u64) -> Result<(), AllocError> {
    w.key(name)?;
    w.u64(value)
}

fn add_flag(w: &mut Writer, name: &str, value: bool) -> Result<(), AllocError> {
    w.key(name)?;
    w.boolean(value)
}

/// Begins the text of histories.
pub(crate) fn begin_json(alloc: Global) -> Result<Writer, AllocError> {
    let mut w = Writer::new(Vec::new(alloc));
    w.begin_object()?;
    add_number(&mut w, "schedule", 1)?;
    w.key("histories")?;
    w.begin_array()?;
    Ok(w)
}

/// Ends the text of histories.
pub(crate) fn end_json(mut w: Writer) -> Result<Vec<u8>, AllocError> {
    w.end_array()?;
    w.end_object()?;
    let mut text = w.into_inner();
    text.push(b'\n')?;
    Ok(text)
}

impl Telling<'_> {
    /// Adds what is told of the history.
    pub(crate) fn add_json(&self, alloc: Global, w: &mut Writer) -> Result<(), AllocError> {
        w.begin_object()?;
        add_text(w, "file", self.file)?;
        add_number(w, "steps", self.named.history.len() as u64)?;
        add_number(w, "tasks", self.named.tasks.len() as u64)?;
        add_flag(w, "all_tried", self.findings.all_tried)?;
        add_number(w, "not_tried", self.findings.not_tried as u64)?;
        w.key("rings")?;
        w.begin_array()?;
        for judged in &self.findings.rings {
            self.add_ring(alloc, w, judged)?;
        }
        w.end_array()?;
        w.end_object()
    }

    fn add_ring(&self, alloc: Global, w: &mut Writer, judged: &Judged) -> Result<(), AllocError> {
        w.begin_object()?;
        add_text(w, "verdict", verdict_word(&judged.verdict))?;
        add_flag(w, "joins", judged.joins)?;
        w.key("steps")?;
        w.begin_array()?;
        for place in 0..judged.ring.len() {
            if let Some(kind) = self.kind(judged, place) {
                let position = self.position(judged, place, kind);
                self.add_step(alloc, w, kind, position)?;
            }
        }
        w.end_array()?;
        match &judged.verdict {
            Verdict::Possible(found) => self.add_schedule(alloc, w, found.cut.as_slice())?,
            Verdict::NotShown(reason) => self.add_reason(w, judged, reason)?,
            Verdict::KeptApart(reason) => self.add_reason(w, judged, reason)?,
            Verdict::NotKnown => {}
        }
        w.end_object()
    }

    // A step of a ring, and what its task has there.
    fn add_step(
        &self,
        alloc: Global,
        w: &mut Writer,
        kind: &Kind,
        position: u32,
    ) -> Result<(), AllocError> {
        w.begin_object()?;
        add_text(w, "task", self.task(kind.task))?;
        add_number(w, "record", u64::from(self.record(position)))?;
        add_text(w, "waits_for", self.lock(kind.lock))?;
        add_text(w, "mode", mode_word(kind.mode))?;
        w.key("holds")?;
        w.begin_array()?;
        let history = &self.named.history;
        let taken = taken_before(alloc, history, &self.findings.kinds, kind, position)?;
        for one in &taken {
            self.add_taken(w, one)?;
        }
        w.end_array()?;
        w.end_object()
    }

    fn add_taken(&self, w: &mut Writer, taken: &Taken) -> Result<(), AllocError> {
        w.begin_object()?;
        add_text(w, "lock", self.lock(taken.held.lock))?;
        add_text(w, "mode", mode_word(taken.held.mode))?;
        add_number(w, "record", u64::from(self.record(taken.position)))?;
        w.end_object()
    }

    // To which record each task runs.
    fn add_schedule(&self, alloc: Global, w: &mut Writer, cut: &[u32]) -> Result<(), AllocError> {
        w.key("schedule")?;
        w.begin_array()?;
        let lasts = self.lasts(alloc, cut)?;
        for last in &lasts {
            self.add_task_and_record(w, last.task, last.position)?;
        }
        w.end_array()
    }

    fn add_task_and_record(
        &self,
        w: &mut Writer,
        task: u32,
        position: u32,
    ) -> Result<(), AllocError> {
        w.begin_object()?;
        add_text(w, "task", self.task(task))?;
        add_number(w, "record", u64::from(self.record(position)))?;
        w.end_object()
    }

    // What keeps the tasks of a ring from standing still.
    fn add_reason(
        &self,
        w: &mut Writer,
        judged: &Judged,
        reason: &Reason,
    ) -> Result<(), AllocError> {
        w.key("because")?;
        w.begin_array()?;
        for forced in &reason.forced {
            self.add_forced(w, forced)?;
        }
        self.add_end(w, judged, &reason.end)?;
        w.end_array()
    }

    // A task that has to come to a record.
    fn add_forced(&self, w: &mut Writer, forced: &Forced) -> Result<(), AllocError> {
        w.begin_object()?;
        add_text(w, "task", self.task(forced.task))?;
        add_number(
            w,
            "record",
            u64::from(self.record(self.forced_step(forced))),
        )?;
        add_text(w, "by", cause_word(forced.cause))?;
        if let Some(position) = cause_step(forced.cause) {
            w.key("after")?;
            self.add_task_and_record(w, self.task_at(position), position)?;
        }
        w.end_object()
    }

    // Where it can't go on.
    fn add_end(
        &self,
        w: &mut Writer,
        judged: &Judged,
        end: &Contradiction,
    ) -> Result<(), AllocError> {
        w.begin_object()?;
        add_text(w, "task", self.task(self.task_of_end(judged, end)))?;
        match end {
            Contradiction::NoneLeft { .. } => add_text(w, "by", "none left")?,
            Contradiction::NeverReleased { taken, later } => {
                add_number(w, "record", u64::from(self.record(*taken)))?;
                add_text(w, "by", "never released")?;
                w.key("after")?;
                self.add_task_and_record(w, self.task_at(*later), *later)?;
            }
        }
        w.end_object()
    }
}
