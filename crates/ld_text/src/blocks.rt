//! The blocks of an explanation, one for each finding.

ghost use Rattle.std.specs.Prelude.{◌++◌, ◌≡◌, IfOk, OnOk, codes, flat_map, string_bytes};
ghost use Rattle.ld_text.specs.Clauses.{block_text, deadlock_text, explanation_text, head_text, notes_text, origins_text, walk_text};

use crate::Tried;
use crate::report::add_total;
use crate::wording::Wording;
use ld_explain::{Finding, Order};

impl Wording<'_> {
    pub(crate) fn add_walk(&self, text: &mut String, walk: &[Order]) -> Tried<()>
        ensures { OnOk result (string_bytes text.new ≡ string_bytes text.old ++ walk_text self.now.names walk.now) }
    {
        let Some(first) = walk.first() else {
            return Ok(());
        };
        text.push_str(self.key(first.dependency.from))?;
        self.add_members(text, walk)
    }

    pub(crate) fn add_circle_head(&self, text: &mut String, walk: &[Order]) -> Tried<()>
        ensures { OnOk result (string_bytes text.new ≡ string_bytes text.old
            ++ (codes "\ncircle " ++ (walk_text self.now.names walk.now ++ codes "\n"))) }
    {
        text.push_str("\ncircle ")?;
        self.add_walk(text, walk)?;
        text.push_str("\n")
    }

    pub(crate) fn add_head(&self, text: &mut String, finding: &Finding) -> Tried<()>
        ensures { OnOk result (string_bytes text.new ≡ string_bytes text.old ++ head_text self.now.names finding.now) }
    {
        match finding {
            Finding::Circle { walk, .. } => self.add_circle_head(text, walk),
            Finding::Double { irq, key, .. } => {
                let (state, key) = (irq.word(), self.key(*key));
                writeln!(text, "\ndouble {state} {key}")
            }
            Finding::Inversion { irq, a, b, .. } => {
                let (state, a, b) = (irq.word(), self.key(*a), self.key(*b));
                writeln!(text, "\ninversion {state} {a} {b}")
            }
        }
    }

    // Where a finding comes from.
    pub(crate) fn add_origins(&self, text: &mut String, finding: &Finding) -> Tried<()>
        ensures { OnOk result (string_bytes text.new ≡ string_bytes text.old ++ origins_text self.now finding.now) }
    {
        match finding {
            Finding::Circle { walk, .. } => self.add_orders(text, walk),
            Finding::Double {
                irq,
                used,
                enabled,
                ..
            } => self.add_uses(text, *irq, *used, *enabled),
            Finding::Inversion {
                irq,
                walk,
                used,
                enabled,
                ..
            } => {
                self.add_orders(text, walk)?;
                self.add_uses(text, *irq, *used, *enabled)
            }
        }
    }

    // How a finding ends in a deadlock.
    pub(crate) fn add_deadlock(&self, text: &mut String, finding: &Finding) -> Tried<()>
        ensures { OnOk result (string_bytes text.new ≡ string_bytes text.old ++ deadlock_text self.now.names finding.now) }
    {
        match finding {
            Finding::Circle { walk, .. } => self.add_waits(text, 1, walk),
            Finding::Double { irq, key, .. } => {
                self.add_holder(text, *key)?;
                self.add_interrupt(text, *irq, *key)
            }
            Finding::Inversion {
                irq,
                a,
                b,
                walk,
                ..
            } => {
                self.add_holder(text, *b)?;
                self.add_waits(text, 2, walk)?;
                self.add_interrupt(text, *irq, *a)
            }
        }
    }

    // What speaks against a finding.
    pub(crate) fn add_notes(&self, text: &mut String, finding: &Finding) -> Tried<()>
        ensures { OnOk result (string_bytes text.new ≡ string_bytes text.old ++ notes_text self.now finding.now) }
    {
        match finding {
            Finding::Circle { gates, only, .. } => {
                self.add_gate_lines(text, gates)?;
                self.add_only_line(text, *only)
            }
            Finding::Double { .. } => Ok(()),
            Finding::Inversion { gates, .. } => self.add_gate_lines(text, gates),
        }
    }

    pub(crate) fn add_block(&self, text: &mut String, finding: &Finding) -> Tried<()>
        ensures { OnOk result (string_bytes text.new ≡ string_bytes text.old ++ block_text self.now finding.now) }
    {
        self.add_head(text, finding)?;
        self.add_origins(text, finding)?;
        self.add_deadlock(text, finding)?;
        self.add_notes(text, finding)
    }

    pub(crate) fn add_blocks(&self, text: &mut String, findings: &[Finding]) -> Tried<()>
        ensures { OnOk result (string_bytes text.new
            ≡ string_bytes text.old ++ flat_map (block_text self.now) findings.now) }
    {
        for finding in findings {
            self.add_block(text, finding)?;
        }
        Ok(())
    }

    // The text of findings for people to read.
    pub(crate) fn explanation(&self, findings: &[Finding]) -> Tried<Vec<u8>>
        ensures { IfOk result (λ text. text.items ≡ explanation_text self.now findings.now) }
    {
        let mut text = String::new(self.alloc);
        add_total(&mut text, "findings", findings.len() as u128)?;
        self.add_blocks(&mut text, findings)?;
        Ok(text.into_bytes())
    }
}
