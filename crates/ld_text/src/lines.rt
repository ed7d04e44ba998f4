//! The lines of an explanation: where facts come from, and who waits for whom.

ghost use Rattle.std.specs.Prelude.{◌++◌, ◌≡◌, ◌≤◌, OnOk, codes, flat_map, string_bytes};
ghost use Rattle.ld_text.specs.Clauses.{comes_line, dependency_text, does_text, event_of, holds_line, lock_of, member_text, occurrence_text, order_line, use_lines, waits_line, waits_text, while_text};

use crate::Tried;
use crate::wording::Wording;
use crate::words::{file_of, kind_word};
use ld_explain::{Dependency, Order, Origin};
use ld_trace::{Event, Irq, KeyId};

impl Wording<'_> {
    // What lines about a finding begin with.
    pub(crate) fn add_margin(&self, text: &mut String) -> Tried<()>
        ensures { OnOk result (string_bytes text.new ≡ string_bytes text.old ++ self.now.margin) }
    {
        text.push_str(self.margin)
    }

    // What the event at this place of a trace does.
    pub(crate) fn add_event(&self, text: &mut String, trace: u32, place: u32) -> Tried<()>
        ensures { OnOk result (string_bytes text.new ≡ string_bytes text.old
            ++ does_text self.now.locks (event_of self.now.traces trace place)) }
    {
        let Some(event) = self.event(trace, place) else {
            return Ok(());
        };
        match event {
            Event::Acquire { mode, key } => {
                let (key, mode) = (self.lock(key), mode.word());
                write!(text, " takes {key} {mode}")
            }
            Event::TurnOn { irq } => {
                let state = irq.word();
                write!(text, " turns {state}s on")
            }
            _ => Ok(()),
        }
    }

    // The lock that the event at this place of a trace took.
    pub(crate) fn add_lock(&self, text: &mut String, trace: u32, place: u32) -> Tried<()>
        ensures { OnOk result (string_bytes text.new ≡ string_bytes text.old
            ++ lock_of self.now.locks (event_of self.now.traces trace place)) }
    {
        let Some(event) = self.event(trace, place) else {
            return Ok(());
        };
        match event {
            Event::Acquire { mode, key } => {
                let (key, mode) = (self.lock(key), mode.word());
                write!(text, "{key} {mode}")
            }
            _ => Ok(()),
        }
    }

    // The lock that is held meanwhile.
    pub(crate) fn add_while(&self, text: &mut String, trace: u32, held: Option<u32>) -> Tried<()>
        ensures { OnOk result (string_bytes text.new ≡ string_bytes text.old ++ while_text self.now trace held) }
    {
        let Some(held) = held else {
            return Ok(());
        };
        text.push_str(", with ")?;
        self.add_lock(text, trace, held)?;
        let record = held as u64 + 2;
        write!(text, " held since record {record}")
    }

    pub(crate) fn add_occurrence(&self, text: &mut String, origin: Origin) -> Tried<()>
        ensures { OnOk result (string_bytes text.new ≡ string_bytes text.old ++ occurrence_text self.now origin) }
    {
        let file = file_of(self.files, origin.trace as usize);
        let record = origin.place as u64 + 2;
        write!(text, "{file}: record {record}")?;
        self.add_event(text, origin.trace, origin.place)?;
        self.add_while(text, origin.trace, origin.held)
    }

    // The rest of a line that begins with the words for a fact: where it first occurs.
    pub(crate) fn add_origin(&self, text: &mut String, origin: Origin) -> Tried<()>
        ensures { OnOk result (string_bytes text.new ≡ string_bytes text.old
            ++ (codes ": " ++ (occurrence_text self.now origin ++ codes "\n"))) }
    {
        text.push_str(": ")?;
        self.add_occurrence(text, origin)?;
        text.push_str("\n")
    }

    // A dependency, after these words.
    pub(crate) fn add_dependency(
        &self,
        text: &mut String,
        before: &str,
        d: &Dependency,
    ) -> Tried<()>
        ensures { OnOk result (string_bytes text.new
            ≡ string_bytes text.old ++ (before.now ++ dependency_text self.now.names d.now)) }
    {
        let (from, kind, to) = (self.key(d.from), kind_word(d.kind), self.key(d.to));
        write!(text, "{before}{from} {kind} {to}")
    }

    pub(crate) fn add_order(&self, text: &mut String, order: &Order) -> Tried<()>
        ensures { OnOk result (string_bytes text.new ≡ string_bytes text.old ++ order_line self.now order.now) }
    {
        self.add_margin(text)?;
        self.add_dependency(text, "", &order.dependency)?;
        self.add_origin(text, order.origin)
    }

    pub(crate) fn add_orders(&self, text: &mut String, walk: &[Order]) -> Tried<()>
        ensures { OnOk result (string_bytes text.new
            ≡ string_bytes text.old ++ flat_map (order_line self.now) walk.now) }
    {
        for order in walk {
            self.add_order(text, order)?;
        }
        Ok(())
    }

    // Where a key is used in a state, and where one is used with it enabled.
    pub(crate) fn add_uses(
        &self,
        text: &mut String,
        irq: Irq,
        used: Origin,
        enabled: Origin,
    ) -> Tried<()>
        ensures { OnOk result (string_bytes text.new ≡ string_bytes text.old ++ use_lines self.now irq used enabled) }
    {
        let state = irq.word();
        self.add_margin(text)?;
        write!(text, "used in {state}")?;
        self.add_origin(text, used)?;
        self.add_margin(text)?;
        write!(text, "used with {state}s on")?;
        self.add_origin(text, enabled)
    }

    // A task that holds the lock that a dependency leads from, and waits for the other.
    pub(crate) fn add_task(&self, text: &mut String, task: usize, d: &Dependency) -> Tried<()>
        ensures { OnOk result (string_bytes text.new ≡ string_bytes text.old ++ waits_line self.now.names task d.now) }
    {
        let (from, to) = (self.key(d.from), self.key(d.to));
        writeln!(text, "  task {task} holds {from} and waits for {to}")
    }

    // A member of a walk as such a task.
    pub(crate) fn add_wait(&self, text: &mut String, task: usize, order: &Order) -> Tried<()>
        ensures { OnOk result (string_bytes text.new
            ≡ string_bytes text.old ++ waits_line self.now.names task order.now.dependency) }
    {
        self.add_task(text, task, &order.dependency)
    }

    // Each member of a walk as a task that waits; the tasks are numbered from this one on.
    pub(crate) fn add_waits(&self, text: &mut String, first: usize, walk: &[Order]) -> Tried<()>
        requires { first ≤ 2 }
        ensures { OnOk result (string_bytes text.new
            ≡ string_bytes text.old ++ waits_text self.now.names first walk.now) }
    {
        for i in 0..walk.len() {
            self.add_wait(text, first + i, &walk[i])?;
        }
        Ok(())
    }

    // A member of a walk, by its kind and the key that it leads to.
    pub(crate) fn add_member(&self, text: &mut String, d: &Dependency) -> Tried<()>
        ensures { OnOk result (string_bytes text.new ≡ string_bytes text.old ++ member_text self.now.names d.now) }
    {
        let (kind, to) = (kind_word(d.kind), self.key(d.to));
        write!(text, " {kind} {to}")
    }

    pub(crate) fn add_members(&self, text: &mut String, walk: &[Order]) -> Tried<()>
        ensures { OnOk result (string_bytes text.new ≡ string_bytes text.old
            ++ flat_map (λ order. member_text self.now.names order.dependency) walk.now) }
    {
        for order in walk {
            self.add_member(text, &order.dependency)?;
        }
        Ok(())
    }

    // Task 1 holds a lock.
    pub(crate) fn add_holder(&self, text: &mut String, key: KeyId) -> Tried<()>
        ensures { OnOk result (string_bytes text.new ≡ string_bytes text.old ++ holds_line self.now.names key) }
    {
        let key = self.key(key);
        writeln!(text, "  task 1 holds {key}")
    }

    // An interrupt comes in and waits for a lock.
    pub(crate) fn add_interrupt(&self, text: &mut String, irq: Irq, key: KeyId) -> Tried<()>
        ensures { OnOk result (string_bytes text.new ≡ string_bytes text.old ++ comes_line self.now.names irq key) }
    {
        let (state, key) = (irq.word(), self.key(key));
        writeln!(text, "  a {state} comes in at task 1 and waits for {key}")
    }
}
