//! The text of what was found, in one of two formats.

ghost use Rattle.std.specs.Prelude.{◌≡◌, ◌≤◌, All, IfErr, IfOk, List, OnOk, length, map, ℕ};
ghost use Rattle.ld_text.specs.Names.{Appends, AreSame, HasFact, IsWellFormed, MAX_TRACES, TracesHave};
ghost use Rattle.ld_text.specs.Clauses.{SaysFindings, StopsWriting, sources_of};

use crate::key_texts::KeyTexts;
use crate::wording::{MARGIN, Wording};
use crate::{Tried, WriteFault, sorted_keys, write_text};
use ld_explain::{Naming, Sightings, findings_of, own_names_change_nothing};
use ld_parts::Settled;
use ld_trace::{KeyTable, RawTrace};
use std::alloc::Global;
use std::io::Write;

/// How findings are written.
#[derive(Clone, Copy, PartialEq, Eq, Debug)]
pub enum Format {
    /// As lines, for people to read.
    Lines,
    /// As a JSON object with an object for each finding, for programs to read. JSON is RFC 8259.
    Json,
}

fn findings_text(
    alloc: Global,
    settled: &Settled,
    traces: &[RawTrace],
    names: &KeyTable,
    files: &[&str],
    format: Format,
) -> Tried<Vec<u8>>
    requires few { length traces.now ≤ MAX_TRACES }
    requires well_formed { All IsWellFormed traces.now }
    requires facts { AreSame (HasFact settled.now) (TracesHave traces.now) }
    ensures { IfOk result (λ text. SaysFindings format (HasFact settled.now)
        (sources_of traces.now names.now.names (map (λ file. file.now) files.entry.now)) text.items) }
{
    let keys = sorted_keys(alloc, names)?;
    own_names_change_nothing();
    let findings = findings_of(alloc, settled, traces, Naming::Own, &keys)?;
    let texts = KeyTexts::of(alloc, names)?;
    let nowhere = Sightings::none(alloc);
    let wording = Wording {
        traces,
        names,
        keys: &texts,
        lock_names: names,
        locks: &texts,
        files,
        margin: MARGIN,
        lists_traces: false,
        sightings: &nowhere,
        alloc,
    };
    match format {
        Format::Lines => wording.explanation(&findings),
        Format::Json => wording.json(&findings),
    }
}

/// Writes what was found in the traces of these files, and for each dependency and mark that a finding is made of the
/// record where it first occurs. Names of keys are those in the table, and those of files as they were given.
pub fn write_findings<W: Write>(
    alloc: Global,
    w: &mut W,
    settled: &Settled,
    traces: &[RawTrace],
    names: &KeyTable,
    files: &[&str],
    format: Format,
) -> Result<(), WriteFault>
    requires few { length traces.now ≤ MAX_TRACES }
    requires well_formed { All IsWellFormed traces.now }
    requires facts { AreSame (HasFact settled.now) (TracesHave traces.now) }
    ensures ok { OnOk result ((text : List ℕ) × SaysFindings format (HasFact settled.now)
        (sources_of traces.now names.now.names (map (λ file. file.now) files.entry.now)) text
        × Appends (W.contents w.old) (W.contents w.new) text) }
    ensures err { IfErr result (StopsWriting (SaysFindings format (HasFact settled.now)
        (sources_of traces.now names.now.names (map (λ file. file.now) files.entry.now)))
        (W.contents w.old) (W.contents w.new)) }
{
    match findings_text(alloc, settled, traces, names, files, format) {
        Ok(text) => write_text(w, text.as_slice()),
        Err(_) => Err(WriteFault::Memory),
    }
}
