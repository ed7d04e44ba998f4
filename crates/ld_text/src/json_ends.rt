//! What traces hold at their end, in the JSON of verdicts.

ghost use Rattle.std.specs.Prelude.{◌++◌, ◌≡◌, OnOk, codes, flat_map};
ghost use Rattle.ld_text.specs.Clauses.{Adds, end_line, end_members, event_of, kept_object, list_member, lock_members, object, taken_members};

use crate::json_members::{add_number, add_text};
use crate::json_text::begin_line;
use crate::wording::Wording;
use crate::{Tried, file_of};
use json::Writer;
use ld_explain::End;
use ld_trace::{Event, KeyId, Mode};

impl Wording<'_> {
    // A lock, and how it was taken.
    pub(crate) fn write_lock(&self, w: &mut Writer, key: KeyId, mode: Mode) -> Tried<()>
        ensures { OnOk result (Adds w.old w.new (lock_members self.now.names key mode)) }
    {
        add_text(w, "key", self.key(key))?;
        add_text(w, "mode", mode.word())
    }

    // The lock that the event at this place of a trace takes.
    pub(crate) fn write_taken(&self, w: &mut Writer, trace: u32, place: u32) -> Tried<()>
        ensures { OnOk result (Adds w.old w.new (taken_members self.now.names (event_of self.now.traces trace place))) }
    {
        let Some(event) = self.event(trace, place) else {
            return Ok(());
        };
        match event {
            Event::Acquire { mode, key } => self.write_lock(w, key, mode),
            _ => Ok(()),
        }
    }

    // A lock that is held at the end of a trace, by where it was taken.
    pub(crate) fn write_kept(&self, w: &mut Writer, trace: u32, place: u32) -> Tried<()>
        ensures { OnOk result (Adds w.old w.new (kept_object self.now trace place)) }
    {
        w.begin_object()?;
        self.write_taken(w, trace, place)?;
        add_number(w, "record", place as u64 + 2)?;
        w.end_object()
    }

    pub(crate) fn write_each_kept(&self, w: &mut Writer, trace: u32, places: &[u32]) -> Tried<()>
        ensures { OnOk result (Adds w.old w.new (flat_map (kept_object self.now trace) places.now)) }
    {
        for place in places {
            self.write_kept(w, trace, *place)?;
        }
        Ok(())
    }

    pub(crate) fn write_holds(&self, w: &mut Writer, trace: u32, places: &[u32]) -> Tried<()>
        ensures { OnOk result (Adds w.old w.new (list_member (codes "holds")
            (flat_map (kept_object self.now trace) places.now))) }
    {
        w.key("holds")?;
        w.begin_array()?;
        self.write_each_kept(w, trace, places)?;
        w.end_array()
    }

    // What is held at the end of a trace.
    pub(crate) fn write_end(&self, w: &mut Writer, end: &End) -> Tried<()>
        ensures { OnOk result (Adds w.old w.new (object (end_members self.now end.now))) }
    {
        let file = file_of(self.files, end.trace as usize);
        w.begin_object()?;
        add_text(w, "file", file)?;
        self.write_holds(w, end.trace, &end.kept)?;
        w.end_object()
    }

    pub(crate) fn add_end(&self, text: &mut Vec<u8>, end: &End) -> Tried<()>
        ensures { OnOk result (text.new.items ≡ text.old.items ++ end_line self.now end.now) }
    {
        let mut w = begin_line(self.alloc, text)?;
        self.write_end(&mut w, end)?;
        *text = w.into_inner();
        Ok(())
    }

    pub(crate) fn add_ends(&self, text: &mut Vec<u8>, ends: &[End]) -> Tried<()>
        ensures { OnOk result (text.new.items ≡ text.old.items ++ flat_map (end_line self.now) ends.now) }
    {
        for end in ends {
            self.add_end(text, end)?;
        }
        Ok(())
    }
}
