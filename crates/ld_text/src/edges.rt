//! The dependencies of a picture, and which keys those of findings lead from or to.

ghost use Rattle.std.specs.Prelude.{◌<◌, ◌↔◌, ◌≡◌, ◌⊎◌, Any, IfOk, IsTrue, OnOk, false, length, slice_index, slice_index_or, ℕ};
ghost use Rattle.ld_text.specs.Names.{HasFact, arrow, kinds};
ghost use Rattle.ld_text.specs.Clauses.{AreJoinedKeys, GrowsBy, InTurn, IsFoundArrow, Leads, ShowsEdge};

use crate::Tried;
use crate::picture::{PictureView, add_end};
use crate::words::kind_word;
use ld_explain::{KINDS, has_dependency};
use ld_graph::Kind;
use ld_parts::Settled;
use ld_trace::KeyId;
use std::alloc::Global;

// Whether the dependency is part of a finding.
fn is_found(settled: &Settled, from: KeyId, to: KeyId, kind: Kind) -> bool
    ensures { IsTrue result ↔ IsFoundArrow (HasFact settled.now) (arrow from to kind) }
{
    let (from, to) = (from.get(), to.get());
    settled.on_circle(from, to, kind) || settled.in_inversion(from, to, kind)
}

impl PictureView<'_> {
    fn add_edge(self, text: &mut Vec<u8>, from: KeyId, to: KeyId, kind: Kind) -> Tried<bool>
        ensures text { OnOk result (GrowsBy
            (ShowsEdge (HasFact self.entry.settled.now) self.entry.names.now.names self.entry.only (arrow from to kind))
            text.old.items text.new.items) }
        ensures found { IfOk result (λ found. IsTrue found ↔ IsFoundArrow (HasFact self.entry.settled.now) (arrow from to kind)) }
    {
        if !self.settled.has_dep(from.get(), to.get(), kind) {
            return Ok(false);
        }
        let red = is_found(self.settled, from, to, kind);
        if red || !self.only {
            self.add_arrow(text, from, to, kind_word(kind))?;
            add_end(text, red)?;
        }
        Ok(red)
    }

    // The lines of the dependencies from the one key to the other. Returns whether one of them is part of a finding.
    fn add_edges_to(self, text: &mut Vec<u8>, from: KeyId, to: KeyId) -> Tried<bool>
        ensures text { OnOk result (GrowsBy
            (InTurn (λ kind. ShowsEdge (HasFact self.entry.settled.now) self.entry.names.now.names self.entry.only
            (arrow from to kind)) kinds)
            text.old.items text.new.items) }
        ensures leads { IfOk result (λ any. IsTrue any ↔ Leads (HasFact self.entry.settled.now) from to) }
    {
        if !has_dependency(self.settled, from, to) {
            return Ok(false);
        }
        let mut any = false;
        for kind in KINDS {
            if self.add_edge(text, from, to, kind)? {
                any = true;
            }
        }
        Ok(any)
    }

    // The lines of the dependencies from the key. Marks the keys of the list to which one that is part of a finding leads,
    // and returns whether there is one. Most keys have no dependency, and are passed over at once.
    fn add_edges_from(self, text: &mut Vec<u8>, from: KeyId, marks: &mut [bool]) -> Tried<bool>
        requires { length marks.old ≡ length self.keys.now }
        ensures text { OnOk result (GrowsBy
            (InTurn (λ to. InTurn (λ kind. ShowsEdge (HasFact self.entry.settled.now) self.entry.names.now.names
            self.entry.only (arrow from to kind)) kinds) self.entry.keys.now)
            text.old.items text.new.items) }
        ensures len { OnOk result (length marks.new ≡ length marks.old) }
        ensures marks { OnOk result ((n : ℕ) → n < length self.entry.keys.now → IsTrue (slice_index_or marks.new n false)
            ↔ (IsTrue (slice_index_or marks.old n false)
            ⊎ Leads (HasFact self.entry.settled.now) from (slice_index self.entry.keys.now n))) }
        ensures any { IfOk result (λ any. IsTrue any ↔ Any (Leads (HasFact self.entry.settled.now) from) self.entry.keys.now) }
    {
        if !self.settled.facts().leads_on(from.get()) {
            return Ok(false);
        }
        let mut any = false;
        for to in 0..self.keys.len() {
            if self.add_edges_to(text, from, self.keys[to])? {
                marks[to] = true;
                any = true;
            }
        }
        Ok(any)
    }

    // The lines of the dependencies. Returns of each key whether one that is part of a finding leads from it or to it.
    pub(crate) fn add_edges(self, alloc: Global, text: &mut Vec<u8>) -> Tried<Vec<bool>>
        ensures text { OnOk result (GrowsBy
            (InTurn (λ from. InTurn (λ to. InTurn (λ kind. ShowsEdge (HasFact self.entry.settled.now)
            self.entry.names.now.names self.entry.only (arrow from to kind)) kinds) self.entry.keys.now)
            self.entry.keys.now)
            text.old.items text.new.items) }
        ensures joined { IfOk result (λ marks. AreJoinedKeys (HasFact self.entry.settled.now) self.entry.keys.now marks.items) }
    {
        let mut marks = vec![in alloc; false; self.keys.len()]?;
        for n in 0..self.keys.len() {
            if self.add_edges_from(text, self.keys[n], &mut marks)? {
                marks[n] = true;
            }
        }
        Ok(marks)
    }
}
