//! What was read of a history.

ghost use Rattle.std.specs.Prelude.{◌≡◌, IfErr, Ok, OnOk, Some, true};
ghost use Rattle.ld_schedule.specs.Inside.Progress.{TakesLine, nothing_read};
ghost use Rattle.ld_schedule.specs.Inside.ReadLines.{line_read};
ghost use Rattle.ld_schedule.specs.ReadFaults.{is_of_text};
ghost use Rattle.ld_schedule.specs.Reading.{line_fault};

use crate::line::Line;
use crate::numbering::Numbering;
use crate::read_fault::ReadFaultKind;
use crate::step::Step;
use std::alloc::Global;
use std::marker::Model;

// The steps that were read, the number of each one's record, and the numbers of what they name.
#[derive(Drop)]
pub(crate) struct Draft {
    pub(crate) steps: Vec<Step>,
    pub(crate) records: Vec<u32>,
    pub(crate) numbering: Numbering,
}

impl Model for Draft {
    ghost use Rattle.ld_schedule.specs.Reading.{Draft as ReadDraft};

    ghost Value = { ReadDraft };

    ghost view = { λ d. record { steps = d.steps.items; records = d.records.items; numbers = d.numbering } };
}

impl Draft {
    // Nothing was read.
    pub(crate) fn new(alloc: Global) -> Draft
        ensures { result ≡ nothing_read }
    {
        Draft {
            steps: Vec::new(alloc),
            records: Vec::new(alloc),
            numbering: Numbering::new(alloc),
        }
    }

    // Takes a line, whose record has this number.
    pub(crate) fn take(&mut self, number: u32, line: Line<'_>) -> Result<(), ReadFaultKind>
        ensures taken { OnOk result (TakesLine number self.old self.new (Ok (line_read line.entry))) }
        ensures fault { IfErr result (λ kind. is_of_text kind ≡ true
            → line_fault self.old.numbers (Ok (line_read line.entry)) ≡ Some kind) }
    {
        match line {
            Line::Declares(lock, kind) => {
                if self.numbering.has_lock(&lock) {
                    return Err(ReadFaultKind::BadRecord);
                }
                self.numbering.lock(&lock, kind)?;
            }
            Line::Does(task, deed) => {
                let step = self.numbering.step(&task, &deed)?;
                self.steps.push(step)?;
                self.records.push(number)?;
            }
        }
        Ok(())
    }
}
