//! What findings are put into words by.

ghost use Rattle.std.specs.Prelude.{◌≡◌};
ghost use Rattle.ld_text.specs.Names.{name_at};
ghost use Rattle.ld_text.specs.Clauses.{event_of, key_text};

use crate::key_texts::KeyTexts;
use ld_explain::Sightings;
use ld_trace::{Event, KeyId, KeyTable, RawTrace};
use std::alloc::Global;
use std::marker::Model;

/// What the lines of a block begin with.
pub(crate) const MARGIN: &str = "  ";

/// What the lines of a finding inside a block begin with.
pub(crate) const DEEPER: &str = "    ";

/// The traces that findings come from, the names of the keys that they are about and those of the locks in the traces, and the files
/// that the traces were read from.
#[derive(Drop)]
pub(crate) struct Wording<'a> {
    pub traces: &'a [RawTrace],
    pub names: &'a KeyTable,
    // The keys as lines name them.
    pub keys: &'a KeyTexts,
    pub lock_names: &'a KeyTable,
    // The locks as lines name them.
    pub locks: &'a KeyTexts,
    pub files: &'a [&'a str],
    pub margin: &'a str,
    // Whether to say in which traces dependencies are, and where.
    pub lists_traces: bool,
    pub sightings: &'a Sightings,
    pub alloc: Global,
}

impl<'a> Model for Wording<'a> {
    ghost use Rattle.std.specs.Prelude.{◌≡◌, map};
    ghost use Rattle.ld_text.specs.Explanation.{Sources};
    ghost use Rattle.ld_text.specs.Words.{key_text};

    ghost Value = { Sources };

    ghost view = { λ e. record {
      traces = e.traces.now;
      names = e.names.now.names;
      locks = e.lock_names.now.names;
      files = map (λ file. file.now) e.files.now;
      margin = e.margin.now;
      lists_traces = e.lists_traces;
      sightings = e.sightings.now;
    } };

    ghost invariant = { λ e. (e.keys.now ≡ map key_text e.names.now.names) × (e.locks.now ≡ map key_text e.lock_names.now.names) };
}

impl Wording<'_> {
    /// A key.
    pub(crate) fn key(&self, key: KeyId) -> &str
        ensures { result.now ≡ key_text (name_at self.now.names key) }
    {
        self.keys.text(key)
    }

    /// A lock of the traces.
    pub(crate) fn lock(&self, key: KeyId) -> &str
        ensures { result.now ≡ key_text (name_at self.now.locks key) }
    {
        self.locks.text(key)
    }

    /// The event at this place of a trace.
    pub(crate) fn event(&self, trace: u32, place: u32) -> Option<Event>
        ensures { result ≡ event_of self.now.traces trace place }
    {
        self.traces.get(trace as usize)?.event(place as usize)
    }
}
