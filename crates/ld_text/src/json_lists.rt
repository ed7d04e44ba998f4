//! The lists in the JSON of a finding: its keys, its lines, its dependencies, its notes.

ghost use Rattle.std.specs.Prelude.{[], ◌∷◌, ◌≡◌, OnOk, flat_map, map};
ghost use Rattle.ld_text.specs.Names.{name_at, string};
ghost use Rattle.ld_text.specs.Clauses.{Adds, circle_words, gate_note, key_text, keys_member, lines_member, notes_member, only_notes, order_object, orders_member};

use crate::wording::Wording;
use crate::{Tried, file_of};
use json::Writer;
use ld_explain::{Dependency, GateNote, Order};

impl Wording<'_> {
    // The key that a dependency leads from.
    pub(crate) fn write_key(&self, w: &mut Writer, d: &Dependency) -> Tried<()>
        ensures { OnOk result (Adds w.old w.new (string (key_text (name_at self.now.names d.now.start)) ∷ [])) }
    {
        w.string(self.key(d.from))
    }

    // The keys that the members of a walk lead from.
    pub(crate) fn write_each_key(&self, w: &mut Writer, walk: &[Order]) -> Tried<()>
        ensures { OnOk result (Adds w.old w.new
            (map (λ order. string (key_text (name_at self.now.names order.dependency.start))) walk.now)) }
    {
        for order in walk {
            self.write_key(w, &order.dependency)?;
        }
        Ok(())
    }

    pub(crate) fn write_keys(&self, w: &mut Writer, walk: &[Order]) -> Tried<()>
        ensures { OnOk result (Adds w.old w.new (keys_member self.now.names walk.now)) }
    {
        w.key("keys")?;
        w.begin_array()?;
        self.write_each_key(w, walk)?;
        w.end_array()
    }

    pub(crate) fn write_line(&self, w: &mut Writer, line: &mut String, d: &Dependency) -> Tried<()>
        ensures { OnOk result (Adds w.old w.new (string (circle_words self.now.names d.now) ∷ [])) }
    {
        line.clear();
        self.add_dependency(line, "circle ", d)?;
        w.string(line.as_str())
    }

    pub(crate) fn write_each_line(&self, w: &mut Writer, walk: &[Order]) -> Tried<()>
        ensures { OnOk result (Adds w.old w.new
            (map (λ order. string (circle_words self.now.names order.dependency)) walk.now)) }
    {
        let mut line = String::new(self.alloc);
        for order in walk {
            self.write_line(w, &mut line, &order.dependency)?;
        }
        Ok(())
    }

    pub(crate) fn write_lines(&self, w: &mut Writer, walk: &[Order]) -> Tried<()>
        ensures { OnOk result (Adds w.old w.new (lines_member self.now.names walk.now)) }
    {
        w.key("lines")?;
        w.begin_array()?;
        self.write_each_line(w, walk)?;
        w.end_array()
    }

    pub(crate) fn write_each_order(&self, w: &mut Writer, walk: &[Order]) -> Tried<()>
        ensures { OnOk result (Adds w.old w.new (flat_map (order_object self.now) walk.now)) }
    {
        for order in walk {
            self.write_order(w, order)?;
        }
        Ok(())
    }

    pub(crate) fn write_orders(&self, w: &mut Writer, walk: &[Order]) -> Tried<()>
        ensures { OnOk result (Adds w.old w.new (orders_member self.now walk.now)) }
    {
        w.key("orders")?;
        w.begin_array()?;
        self.write_each_order(w, walk)?;
        w.end_array()
    }

    // The note of a lock that is always held round dependencies.
    pub(crate) fn write_gate(&self, w: &mut Writer, note: &mut String, gate: &GateNote) -> Tried<()>
        ensures { OnOk result (Adds w.old w.new (string (gate_note self.now.names gate.now) ∷ [])) }
    {
        note.clear();
        self.add_gate_note(note, gate)?;
        w.string(note.as_str())
    }

    pub(crate) fn write_each_gate(&self, w: &mut Writer, gates: &[GateNote]) -> Tried<()>
        ensures { OnOk result (Adds w.old w.new (map (λ gate. string (gate_note self.now.names gate)) gates.now)) }
    {
        let mut note = String::new(self.alloc);
        for gate in gates {
            self.write_gate(w, &mut note, gate)?;
        }
        Ok(())
    }

    // The note that one trace has all occurrences, if one has.
    pub(crate) fn write_only(&self, w: &mut Writer, only: Option<u32>) -> Tried<()>
        ensures { OnOk result (Adds w.old w.new (map string (only_notes self.now.files only))) }
    {
        let Some(trace) = only else {
            return Ok(());
        };
        let file = file_of(self.files, trace as usize);
        let mut note = String::new(self.alloc);
        write!(note, "only in {file}")?;
        w.string(note.as_str())
    }

    pub(crate) fn write_notes(
        &self,
        w: &mut Writer,
        gates: &[GateNote],
        only: Option<u32>,
    ) -> Tried<()>
        ensures { OnOk result (Adds w.old w.new (notes_member self.now gates.now only)) }
    {
        w.key("notes")?;
        w.begin_array()?;
        self.write_each_gate(w, gates)?;
        self.write_only(w, only)?;
        w.end_array()
    }
}
