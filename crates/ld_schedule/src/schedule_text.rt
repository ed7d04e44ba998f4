//! The text of what is said of histories.

use crate::findings::findings_of;
use crate::named_history::NamedHistory;
use crate::schedule_json::{begin_json, end_json};
use crate::telling::Telling;
use json::Writer;
use std::alloc::{AllocError, Global};

/// How the text is written.
#[derive(Drop)]
enum Form {
    Lines(String),
    Json(Writer),
}

/// The text of what is said of histories, one after the other.
#[derive(Drop)]
pub struct ScheduleText {
    form: Form,
    found: bool,
}

impl ScheduleText {
    /// A text that says nothing yet: lines, or JSON. An error if memory is refused.
    pub fn new(alloc: Global, as_json: bool) -> Result<ScheduleText, AllocError> {
        let form = if as_json {
            Form::Json(begin_json(alloc)?)
        } else {
            Form::Lines(String::new(alloc))
        };
        Ok(ScheduleText { form, found: false })
    }

    /// Adds what is said of a history, which is called `file`. An error if memory is refused: nothing may be added then.
    pub fn add(
        &mut self,
        alloc: Global,
        file: &str,
        named: &NamedHistory,
    ) -> Result<(), AllocError> {
        let findings = findings_of(alloc, &named.history)?;
        if findings.is_any_possible() {
            self.found = true;
        }
        let telling = Telling {
            file,
            named,
            findings: &findings,
        };
        match &mut self.form {
            Form::Lines(text) => telling.add_lines(alloc, text),
            Form::Json(w) => telling.add_json(alloc, w),
        }
    }

    /// Whether tasks stand still at a ring of one of the histories.
    pub fn is_any_possible(&self) -> bool {
        self.found
    }

    /// The text's bytes. An error if memory is refused.
    pub fn into_bytes(self) -> Result<Vec<u8>, AllocError> {
        match self.form {
            Form::Lines(text) => Ok(text.into_bytes()),
            Form::Json(w) => end_json(w),
        }
    }
}
