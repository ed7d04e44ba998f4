//! Verdicts as JSON, version 3, for programs to read.

ghost use Rattle.std.specs.Prelude.{◌++◌, ◌≡◌, IfOk, OnOk, codes, drop, flat_map};
ghost use Rattle.ld_text.specs.Names.{print};
ghost use Rattle.ld_text.specs.Clauses.{Adds, between_members, count_members, dependency_object, gate_object, in_order, list_member, note_members, noted_members, object, object_member, only_member, ranked, text_member, verdict_json, verdict_line, verdict_members};

use crate::json_members::{add_number, add_text};
use crate::json_text::{begin_line, without_first};
use crate::verdicts::VerdictWording;
use crate::wording::Wording;
use crate::{Tried, file_of};
use json::Writer;
use ld_explain::{Between, Dependency, End, Finding, GateNote, Verdict, count_ranked};
use std::alloc::Global;

// What stands before the counts, between them and the findings, between these and the ends, and after these.
const HEAD: &str = "{\"lockdep\":3,\"counts\":";

const FINDINGS: &str = ",\"findings\":[";

const ENDS: &str = "\n],\"ends\":[";

const TAIL: &str = "\n]}\n";

impl Wording<'_> {
    // A dependency without its occurrence.
    pub(crate) fn write_guarded(&self, w: &mut Writer, d: &Dependency) -> Tried<()>
        ensures { OnOk result (Adds w.old w.new (dependency_object self.now.names d.now)) }
    {
        w.begin_object()?;
        self.write_dependency(w, d)?;
        w.end_object()
    }

    pub(crate) fn write_each_guarded(&self, w: &mut Writer, ds: &[Dependency]) -> Tried<()>
        ensures { OnOk result (Adds w.old w.new (flat_map (dependency_object self.now.names) ds.now)) }
    {
        for d in ds {
            self.write_guarded(w, d)?;
        }
        Ok(())
    }

    pub(crate) fn write_guarded_list(&self, w: &mut Writer, ds: &[Dependency]) -> Tried<()>
        ensures { OnOk result (Adds w.old w.new (list_member (codes "orders")
            (flat_map (dependency_object self.now.names) ds.now))) }
    {
        w.key("orders")?;
        w.begin_array()?;
        self.write_each_guarded(w, ds)?;
        w.end_array()
    }

    pub(crate) fn write_gate_object(&self, w: &mut Writer, gate: &GateNote) -> Tried<()>
        ensures { OnOk result (Adds w.old w.new (gate_object self.now.names gate.now)) }
    {
        w.begin_object()?;
        add_text(w, "gate", self.key(gate.key))?;
        self.write_guarded_list(w, &gate.guarded)?;
        w.end_object()
    }

    pub(crate) fn write_gate_objects(&self, w: &mut Writer, gates: &[GateNote]) -> Tried<()>
        ensures { OnOk result (Adds w.old w.new (flat_map (gate_object self.now.names) gates.now)) }
    {
        for gate in gates {
            self.write_gate_object(w, gate)?;
        }
        Ok(())
    }

    pub(crate) fn write_gates(&self, w: &mut Writer, gates: &[GateNote]) -> Tried<()>
        ensures { OnOk result (Adds w.old w.new (list_member (codes "gates")
            (flat_map (gate_object self.now.names) gates.now))) }
    {
        w.key("gates")?;
        w.begin_array()?;
        self.write_gate_objects(w, gates)?;
        w.end_array()
    }

    // The file that alone has all occurrences, if one has.
    pub(crate) fn write_only_member(&self, w: &mut Writer, only: Option<u32>) -> Tried<()>
        ensures { OnOk result (Adds w.old w.new (only_member self.now.files only)) }
    {
        match only {
            Some(trace) => add_text(w, "only", file_of(self.files, trace as usize)),
            None => Ok(()),
        }
    }

    // The notes of a finding as objects.
    pub(crate) fn write_note_members(&self, w: &mut Writer, finding: &Finding) -> Tried<()>
        ensures { OnOk result (Adds w.old w.new (note_members self.now finding.now)) }
    {
        match finding {
            Finding::Circle { gates, only, .. } => {
                self.write_gates(w, gates)?;
                self.write_only_member(w, *only)
            }
            Finding::Double { .. } => Ok(()),
            Finding::Inversion { gates, .. } => self.write_gates(w, gates),
        }
    }

    // What is said of a finding, with its notes as objects.
    pub(crate) fn write_noted(&self, w: &mut Writer, finding: &Finding) -> Tried<()>
        ensures { OnOk result (Adds w.old w.new (noted_members self.now finding.now)) }
    {
        self.write_members(w, finding)?;
        self.write_note_members(w, finding)
    }

    // The member with a finding between single locks.
    pub(crate) fn write_nested(&self, w: &mut Writer, nested: &Finding) -> Tried<()>
        ensures { OnOk result (Adds w.old w.new (object_member (codes "finding") (noted_members self.now nested.now))) }
    {
        w.key("finding")?;
        w.begin_object()?;
        self.write_noted(w, nested)?;
        w.end_object()
    }

    // A finding between single locks that was seen so.
    pub(crate) fn write_seen(&self, w: &mut Writer, kind: &str, nested: &Finding) -> Tried<()>
        ensures { OnOk result (Adds w.old w.new (text_member (codes "kind") kind.now
            ++ object_member (codes "finding") (noted_members self.now nested.now))) }
    {
        add_text(w, "kind", kind)?;
        self.write_nested(w, nested)
    }

    // What a finding was seen between.
    pub(crate) fn write_between(
        &self,
        w: &mut Writer,
        nesting: bool,
        between: &Between,
    ) -> Tried<()>
        ensures { OnOk result (Adds w.old w.new (between_members self.now nesting between.now)) }
    {
        match between {
            Between::Locks(nested) => self.write_seen(w, "locks", nested),
            Between::Perhaps(nested) => self.write_seen(w, "perhaps", nested),
            Between::Unknown => add_text(w, "kind", "unknown"),
            Between::Classes => add_text(w, "kind", "classes"),
            Between::Types => add_text(w, "kind", if nesting { "nested" } else { "types" }),
        }
    }
}

// How many verdicts there are of each rank.
fn write_each_count(w: &mut Writer, verdicts: &[Verdict]) -> Tried<()>
    ensures { OnOk result (Adds w.old w.new (count_members verdicts.now)) }
{
    add_number(w, "locks", count_ranked(verdicts, 0) as u64)?;
    add_number(w, "perhaps", count_ranked(verdicts, 1) as u64)?;
    add_number(w, "unknown", count_ranked(verdicts, 2) as u64)?;
    add_number(w, "classes", count_ranked(verdicts, 3) as u64)?;
    add_number(w, "types", count_ranked(verdicts, 4) as u64)?;
    add_number(w, "nested", count_ranked(verdicts, 5) as u64)
}

fn write_counts(w: &mut Writer, verdicts: &[Verdict]) -> Tried<()>
    ensures { OnOk result (Adds w.old w.new (object (count_members verdicts.now))) }
{
    w.begin_object()?;
    write_each_count(w, verdicts)?;
    w.end_object()
}

// The text up to the verdicts.
fn counts_text(alloc: Global, verdicts: &[Verdict]) -> Tried<Vec<u8>>
    ensures { IfOk result (λ text. text.items
        ≡ codes "{\"lockdep\":3,\"counts\":" ++ (print (object (count_members verdicts.now)) ++ codes ",\"findings\":[")) }
{
    let mut text = Vec::new(alloc);
    text.extend_from_slice(HEAD.as_bytes())?;
    let mut w = Writer::new(text);
    write_counts(&mut w, verdicts)?;
    let mut text = w.into_inner();
    text.extend_from_slice(FINDINGS.as_bytes())?;
    Ok(text)
}

impl VerdictWording<'_> {
    pub(crate) fn write_verdict(&self, w: &mut Writer, v: &Verdict) -> Tried<()>
        ensures { OnOk result (Adds w.old w.new (verdict_members self.now.types.now self.now.locks.now v.now)) }
    {
        self.types.write_noted(w, &v.finding)?;
        w.key("between")?;
        w.begin_object()?;
        self.locks
            .write_between(w, v.finding.is_nesting(), &v.between)?;
        w.end_object()
    }

    pub(crate) fn write_verdict_object(&self, w: &mut Writer, v: &Verdict) -> Tried<()>
        ensures { OnOk result (Adds w.old w.new (object (verdict_members self.now.types.now self.now.locks.now v.now))) }
    {
        w.begin_object()?;
        self.write_verdict(w, v)?;
        w.end_object()
    }

    pub(crate) fn add_object(&self, text: &mut Vec<u8>, v: &Verdict) -> Tried<()>
        ensures { OnOk result (text.new.items ≡ text.old.items ++ verdict_line self.now.types.now self.now.locks.now v.now) }
    {
        let types = self.types;
        let mut w = begin_line(types.alloc, text)?;
        self.write_verdict_object(&mut w, v)?;
        *text = w.into_inner();
        Ok(())
    }

    pub(crate) fn add_ranked_object(&self, text: &mut Vec<u8>, rank: u8, v: &Verdict) -> Tried<()>
        ensures { OnOk result (text.new.items ≡ text.old.items
            ++ ranked (verdict_line self.now.types.now self.now.locks.now) rank v.now) }
    {
        if v.rank() == rank {
            self.add_object(text, v)
        } else {
            Ok(())
        }
    }

    pub(crate) fn add_rank_objects(
        &self,
        text: &mut Vec<u8>,
        rank: u8,
        verdicts: &[Verdict],
    ) -> Tried<()>
        ensures { OnOk result (text.new.items ≡ text.old.items
            ++ flat_map (ranked (verdict_line self.now.types.now self.now.locks.now) rank) verdicts.now) }
    {
        for v in verdicts {
            self.add_ranked_object(text, rank, v)?;
        }
        Ok(())
    }

    pub(crate) fn add_objects(&self, text: &mut Vec<u8>, verdicts: &[Verdict]) -> Tried<()>
        ensures { OnOk result (text.new.items ≡ text.old.items
            ++ in_order (verdict_line self.now.types.now self.now.locks.now) verdicts.now) }
    {
        self.add_rank_objects(text, 0, verdicts)?;
        self.add_rank_objects(text, 1, verdicts)?;
        self.add_rank_objects(text, 2, verdicts)?;
        self.add_rank_objects(text, 3, verdicts)?;
        self.add_rank_objects(text, 4, verdicts)?;
        self.add_rank_objects(text, 5, verdicts)
    }

    // The text of verdicts for programs to read.
    pub(crate) fn json(&self, verdicts: &[Verdict], ends: &[End]) -> Tried<Vec<u8>>
        ensures { IfOk result (λ text. text.items ≡ verdict_json self.now.types.now self.now.locks.now verdicts.now ends.now) }
    {
        let locks = self.locks;
        let alloc = locks.alloc;
        let mut lines = Vec::new(alloc);
        self.add_objects(&mut lines, verdicts)?;
        let mut held = Vec::new(alloc);
        locks.add_ends(&mut held, ends)?;
        let mut text = counts_text(alloc, verdicts)?;
        text.extend_from_slice(without_first(lines.as_slice()))?;
        text.extend_from_slice(ENDS.as_bytes())?;
        text.extend_from_slice(without_first(held.as_slice()))?;
        text.extend_from_slice(TAIL.as_bytes())?;
        Ok(text)
    }
}
