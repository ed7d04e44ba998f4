//! The findings as JSON objects.

ghost use Rattle.std.specs.Prelude.{[], ◌∷◌, ◌≡◌, OnOk, codes};
ghost use Rattle.ld_text.specs.Names.{string};
ghost use Rattle.ld_text.specs.Clauses.{Adds, dependency_members, double_words, event_members, event_of, finding_members, held_members, inversion_words, list_member, object, object_member, occurrence_members, order_object, taken_mode, use_members};

use crate::Tried;
use crate::json_members::{add_both, add_number, add_only, add_text};
use crate::wording::Wording;
use crate::words::{file_of, kind_word};
use json::Writer;
use ld_explain::{Dependency, Finding, Order, Origin};
use ld_trace::{Event, Irq, KeyId};

impl Wording<'_> {
    pub(crate) fn write_event(&self, w: &mut Writer, trace: u32, place: u32) -> Tried<()>
        ensures { OnOk result (Adds w.old w.new (event_members (event_of self.now.traces trace place))) }
    {
        match self.event(trace, place) {
            Some(Event::Acquire { mode, .. }) => add_text(w, "takes", mode.word()),
            Some(Event::TurnOn { irq }) => add_text(w, "turns_on", irq.word()),
            _ => Ok(()),
        }
    }

    // How the event at this place of a trace took its lock.
    pub(crate) fn mode_at(&self, trace: u32, place: u32) -> &'static str
        ensures { result.now ≡ taken_mode (event_of self.now.traces trace place) }
    {
        match self.event(trace, place) {
            Some(Event::Acquire { mode, .. }) => mode.word(),
            _ => "",
        }
    }

    // The lock that is held meanwhile.
    pub(crate) fn write_held(&self, w: &mut Writer, trace: u32, held: Option<u32>) -> Tried<()>
        ensures { OnOk result (Adds w.old w.new (held_members self.now trace held)) }
    {
        let Some(held) = held else {
            return Ok(());
        };
        add_text(w, "held", self.mode_at(trace, held))?;
        add_number(w, "since", held as u64 + 2)
    }

    pub(crate) fn write_occurrence(&self, w: &mut Writer, origin: Origin) -> Tried<()>
        ensures { OnOk result (Adds w.old w.new (occurrence_members self.now origin)) }
    {
        let file = file_of(self.files, origin.trace as usize);
        add_text(w, "file", file)?;
        add_number(w, "record", origin.place as u64 + 2)?;
        self.write_event(w, origin.trace, origin.place)?;
        self.write_held(w, origin.trace, origin.held)
    }

    pub(crate) fn write_dependency(&self, w: &mut Writer, d: &Dependency) -> Tried<()>
        ensures { OnOk result (Adds w.old w.new (dependency_members self.now.names d.now)) }
    {
        add_text(w, "from", self.key(d.from))?;
        add_text(w, "kind", kind_word(d.kind))?;
        add_text(w, "to", self.key(d.to))
    }

    pub(crate) fn write_order(&self, w: &mut Writer, order: &Order) -> Tried<()>
        ensures { OnOk result (Adds w.old w.new (order_object self.now order.now)) }
    {
        w.begin_object()?;
        self.write_dependency(w, &order.dependency)?;
        self.write_occurrence(w, order.origin)?;
        self.write_traces(w, &order.dependency)?;
        w.end_object()
    }

    // A member whose value is an occurrence.
    pub(crate) fn write_use(&self, w: &mut Writer, name: &str, origin: Origin) -> Tried<()>
        ensures { OnOk result (Adds w.old w.new (object_member name.now (occurrence_members self.now origin))) }
    {
        w.key(name)?;
        w.begin_object()?;
        self.write_occurrence(w, origin)?;
        w.end_object()
    }

    // Where a key is used in a state, and where one is used with it enabled.
    pub(crate) fn write_uses(&self, w: &mut Writer, used: Origin, enabled: Origin) -> Tried<()>
        ensures { OnOk result (Adds w.old w.new (use_members self.now used enabled)) }
    {
        self.write_use(w, "used", used)?;
        self.write_use(w, "enabled", enabled)
    }

    pub(crate) fn write_double_line(&self, w: &mut Writer, irq: Irq, key: KeyId) -> Tried<()>
        ensures { OnOk result (Adds w.old w.new (list_member (codes "lines")
            (string (double_words self.now.names irq key) ∷ []))) }
    {
        let (state, key) = (irq.word(), self.key(key));
        let mut line = String::new(self.alloc);
        write!(line, "double {state} {key}")?;
        add_only(w, "lines", line.as_str())
    }

    pub(crate) fn write_inversion_line(
        &self,
        w: &mut Writer,
        irq: Irq,
        a: KeyId,
        b: KeyId,
    ) -> Tried<()>
        ensures { OnOk result (Adds w.old w.new (list_member (codes "lines")
            (string (inversion_words self.now.names irq a b) ∷ []))) }
    {
        let (state, a, b) = (irq.word(), self.key(a), self.key(b));
        let mut line = String::new(self.alloc);
        write!(line, "inversion {state} {a} {b}")?;
        add_only(w, "lines", line.as_str())
    }

    // What is said of a finding.
    pub(crate) fn write_members(&self, w: &mut Writer, finding: &Finding) -> Tried<()>
        ensures { OnOk result (Adds w.old w.new (finding_members self.now finding.now)) }
    {
        match finding {
            Finding::Circle { walk, gates, only } => {
                add_text(w, "type", "circle")?;
                self.write_keys(w, walk)?;
                self.write_lines(w, walk)?;
                self.write_orders(w, walk)?;
                self.write_notes(w, gates, *only)
            }
            Finding::Double {
                irq,
                key,
                used,
                enabled,
            } => {
                add_text(w, "type", "double")?;
                add_text(w, "irq", irq.word())?;
                add_text(w, "key", self.key(*key))?;
                self.write_double_line(w, *irq, *key)?;
                self.write_uses(w, *used, *enabled)
            }
            Finding::Inversion {
                irq,
                a,
                b,
                walk,
                used,
                enabled,
                gates,
            } => {
                add_text(w, "type", "inversion")?;
                add_text(w, "irq", irq.word())?;
                add_both(w, "keys", self.key(*a), self.key(*b))?;
                self.write_inversion_line(w, *irq, *a, *b)?;
                self.write_orders(w, walk)?;
                self.write_uses(w, *used, *enabled)?;
                self.write_notes(w, gates, None)
            }
        }
    }

    pub(crate) fn write_finding(&self, w: &mut Writer, finding: &Finding) -> Tried<()>
        ensures { OnOk result (Adds w.old w.new (object (finding_members self.now finding.now))) }
    {
        w.begin_object()?;
        self.write_members(w, finding)?;
        w.end_object()
    }
}
