//! What speaks against a finding, in words.

ghost use Rattle.std.specs.Prelude.{◌++◌, ◌≡◌, OnOk, codes, flat_map, string_bytes};
ghost use Rattle.ld_text.specs.Clauses.{dependency_text, file_at, gate_lines, gate_note, listed_text, note_line, only_notes};

use crate::wording::Wording;
use crate::{Tried, file_of};
use ld_explain::{Dependency, GateNote};

impl Wording<'_> {
    // Dependencies, each after a comma.
    pub(crate) fn add_further(&self, text: &mut String, ds: &[Dependency]) -> Tried<()>
        ensures { OnOk result (string_bytes text.new ≡ string_bytes text.old
            ++ flat_map (λ d. codes ", " ++ dependency_text self.now.names d) ds.now) }
    {
        for d in ds {
            self.add_dependency(text, ", ", d)?;
        }
        Ok(())
    }

    // Dependencies, the first after a colon and each further one after a comma.
    pub(crate) fn add_listed(&self, text: &mut String, ds: &[Dependency]) -> Tried<()>
        ensures { OnOk result (string_bytes text.new ≡ string_bytes text.old ++ listed_text self.now.names ds.now) }
    {
        match ds.split_first() {
            Some((first, further)) => {
                self.add_dependency(text, ": ", first)?;
                self.add_further(text, further)
            }
            None => Ok(()),
        }
    }

    // The note of a lock that is always held round dependencies.
    pub(crate) fn add_gate_note(&self, text: &mut String, gate: &GateNote) -> Tried<()>
        ensures { OnOk result (string_bytes text.new ≡ string_bytes text.old ++ gate_note self.now.names gate.now) }
    {
        text.push_str("always inside ")?;
        text.push_str(self.key(gate.key))?;
        self.add_listed(text, &gate.guarded)
    }

    pub(crate) fn add_gate_line(&self, text: &mut String, gate: &GateNote) -> Tried<()>
        ensures { OnOk result (string_bytes text.new
            ≡ string_bytes text.old ++ note_line self.now.margin (gate_note self.now.names gate.now)) }
    {
        self.add_margin(text)?;
        text.push_str("note: ")?;
        self.add_gate_note(text, gate)?;
        text.push_str("\n")
    }

    pub(crate) fn add_gate_lines(&self, text: &mut String, gates: &[GateNote]) -> Tried<()>
        ensures { OnOk result (string_bytes text.new ≡ string_bytes text.old ++ gate_lines self.now gates.now) }
    {
        for gate in gates {
            self.add_gate_line(text, gate)?;
        }
        Ok(())
    }

    // The line of the note that this trace has all occurrences.
    pub(crate) fn add_only_note(&self, text: &mut String, trace: u32) -> Tried<()>
        ensures { OnOk result (string_bytes text.new ≡ string_bytes text.old
            ++ note_line self.now.margin (codes "only in " ++ file_at self.now.files trace)) }
    {
        let file = file_of(self.files, trace as usize);
        self.add_margin(text)?;
        writeln!(text, "note: only in {file}")
    }

    // That line, if one trace has all occurrences.
    pub(crate) fn add_only_line(&self, text: &mut String, only: Option<u32>) -> Tried<()>
        ensures { OnOk result (string_bytes text.new
            ≡ string_bytes text.old ++ flat_map (note_line self.now.margin) (only_notes self.now.files only)) }
    {
        match only {
            Some(trace) => self.add_only_note(text, trace),
            None => Ok(()),
        }
    }
}
