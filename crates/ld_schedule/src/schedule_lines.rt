//! What is said of histories as lines, for people to read.

use crate::decision::{Contradiction, Forced, Reason};
use crate::findings::Judged;
use crate::judging::Verdict;
use crate::kinds::{Kind, taken_before};
use crate::telling::{Telling, cause_step, cause_word, mode_word, verdict_word};
use std::alloc::{AllocError, Global};

impl Telling<'_> {
    /// Adds what is told of the history.
    pub(crate) fn add_lines(&self, alloc: Global, text: &mut String) -> Result<(), AllocError> {
        let file = self.file;
        let steps = self.named.history.len();
        let tasks = self.named.tasks.len();
        let rings = self.findings.rings.len();
        writeln!(
            text,
            "{file}: {steps} steps of {tasks} tasks, {rings} rings tried"
        )?;
        if !self.findings.all_tried {
            writeln!(text, "  not all rings were tried: a limit was met")?;
        }
        for judged in &self.findings.rings {
            self.add_ring_lines(alloc, text, judged)?;
        }
        Ok(())
    }

    fn add_ring_lines(
        &self,
        alloc: Global,
        text: &mut String,
        judged: &Judged,
    ) -> Result<(), AllocError> {
        let word = verdict_word(&judged.verdict);
        let join = if judged.joins { " by a join" } else { "" };
        writeln!(text, "{word}{join}:")?;
        if let Verdict::Possible(found) = &judged.verdict {
            self.add_schedule_lines(alloc, text, found.cut.as_slice())?;
        }
        for place in 0..judged.ring.len() {
            if let Some(kind) = self.kind(judged, place) {
                let position = self.position(judged, place, kind);
                self.add_step_line(alloc, text, kind, position)?;
            }
        }
        match &judged.verdict {
            Verdict::NotShown(reason) => self.add_reason_lines(text, judged, reason)?,
            Verdict::KeptApart(reason) => self.add_reason_lines(text, judged, reason)?,
            Verdict::Possible(_) | Verdict::NotKnown => {}
        }
        Ok(())
    }

    // To which record each task goes on.
    fn add_schedule_lines(
        &self,
        alloc: Global,
        text: &mut String,
        cut: &[u32],
    ) -> Result<(), AllocError> {
        writeln!(text, "  these recorded steps, in another order:")?;
        let lasts = self.lasts(alloc, cut)?;
        for last in &lasts {
            let task = self.task(last.task);
            let record = self.record(last.position);
            writeln!(text, "    {task} goes on to record {record}")?;
        }
        Ok(())
    }

    // The step of a ring, and what its task has there.
    fn add_step_line(
        &self,
        alloc: Global,
        text: &mut String,
        kind: &Kind,
        position: u32,
    ) -> Result<(), AllocError> {
        let task = self.task(kind.task);
        let record = self.record(position);
        let lock = self.lock(kind.lock);
        let mode = mode_word(kind.mode);
        write!(
            text,
            "  {task} waits for {lock} ({mode}) at record {record}"
        )?;
        let history = &self.named.history;
        let taken = taken_before(alloc, history, &self.findings.kinds, kind, position)?;
        for one in &taken {
            let lock = self.lock(one.held.lock);
            let mode = mode_word(one.held.mode);
            let record = self.record(one.position);
            write!(text, ", holds {lock} ({mode}) since record {record}")?;
        }
        writeln!(text)?;
        Ok(())
    }

    // What keeps the tasks of a ring from standing still.
    fn add_reason_lines(
        &self,
        text: &mut String,
        judged: &Judged,
        reason: &Reason,
    ) -> Result<(), AllocError> {
        for forced in &reason.forced {
            self.add_forced_line(text, forced)?;
        }
        let task = self.task(self.task_of_end(judged, &reason.end));
        match reason.end {
            Contradiction::NoneLeft { .. } => {
                writeln!(text, "    so {task} has no such step left")?;
            }
            Contradiction::NeverReleased { taken, later } => {
                let record = self.record(taken);
                let after = self.record(later);
                writeln!(
                    text,
                    "    but {task} never releases what it takes at record {record}, before record {after}"
                )?;
            }
        }
        Ok(())
    }

    // A task that has to come to a record.
    fn add_forced_line(&self, text: &mut String, forced: &Forced) -> Result<(), AllocError> {
        let task = self.task(forced.task);
        let record = self.record(self.forced_step(forced));
        let word = cause_word(forced.cause);
        match cause_step(forced.cause) {
            None => writeln!(text, "    {task} comes to record {record}")?,
            Some(position) => {
                let other = self.task(self.task_at(position));
                let after = self.record(position);
                writeln!(
                    text,
                    "    {task} has to go on to record {record} before record {after} of {other} ({word})"
                )?;
            }
        }
        Ok(())
    }
}
