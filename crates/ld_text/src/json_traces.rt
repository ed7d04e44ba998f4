//! In which traces a dependency is, in the JSON of a finding.

ghost use Rattle.std.specs.Prelude.{◌++◌, ◌≡◌, OnOk, codes, flat_map, take};
ghost use Rattle.ld_text.specs.Clauses.{Adds, list_member, place_members, place_object, places_members, since_member, traces_member};

use crate::json_members::{add_number, add_text};
use crate::wording::Wording;
use crate::{Tried, file_of};
use json::Writer;
use ld_explain::{Dependency, Origin};

/// How many of the traces that have a dependency are listed at most.
pub const MOST_TRACES: usize = 16;

// Those that are listed.
fn listed(places: &[Origin]) -> &[Origin]
    ensures { result.now ≡ take MOST_TRACES places.now }
{
    &places[..places.len().min(MOST_TRACES)]
}

// The record that took the lock that is held meanwhile.
fn write_since(w: &mut Writer, held: Option<u32>) -> Tried<()>
    ensures { OnOk result (Adds w.old w.new (since_member held)) }
{
    match held {
        Some(held) => add_number(w, "since", held as u64 + 2),
        None => Ok(()),
    }
}

impl Wording<'_> {
    // The first occurrence in a trace.
    pub(crate) fn write_place_members(&self, w: &mut Writer, origin: &Origin) -> Tried<()>
        ensures { OnOk result (Adds w.old w.new (place_members self.now origin.now)) }
    {
        let file = file_of(self.files, origin.trace as usize);
        add_text(w, "file", file)?;
        add_number(w, "record", origin.place as u64 + 2)?;
        write_since(w, origin.held)
    }

    pub(crate) fn write_place(&self, w: &mut Writer, origin: &Origin) -> Tried<()>
        ensures { OnOk result (Adds w.old w.new (place_object self.now origin.now)) }
    {
        w.begin_object()?;
        self.write_place_members(w, origin)?;
        w.end_object()
    }

    pub(crate) fn write_each_place(&self, w: &mut Writer, places: &[Origin]) -> Tried<()>
        ensures { OnOk result (Adds w.old w.new (flat_map (place_object self.now) places.now)) }
    {
        for origin in places {
            self.write_place(w, origin)?;
        }
        Ok(())
    }

    pub(crate) fn write_first(&self, w: &mut Writer, places: &[Origin]) -> Tried<()>
        ensures { OnOk result (Adds w.old w.new (list_member (codes "first")
            (flat_map (place_object self.now) (take MOST_TRACES places.now)))) }
    {
        w.key("first")?;
        w.begin_array()?;
        self.write_each_place(w, listed(places))?;
        w.end_array()
    }

    // How many traces have a dependency, and the first of them.
    pub(crate) fn write_places(&self, w: &mut Writer, places: &[Origin]) -> Tried<()>
        ensures { OnOk result (Adds w.old w.new (places_members self.now places.now)) }
    {
        add_number(w, "count", places.len() as u64)?;
        self.write_first(w, places)
    }

    // In which traces the dependency is, if that is to be said.
    pub(crate) fn write_traces(&self, w: &mut Writer, d: &Dependency) -> Tried<()>
        ensures { OnOk result (Adds w.old w.new (traces_member self.now d.now)) }
    {
        if !self.lists_traces {
            return Ok(());
        }
        let places = self.sightings.places(self.alloc, d)?;
        w.key("traces")?;
        w.begin_object()?;
        self.write_places(w, &places)?;
        w.end_object()
    }
}
