//! The verdicts of traces, and the text of them as lines or as JSON.

ghost use Rattle.std.specs.Prelude.{◌≡◌, ◌≤◌, All, IfErr, IfOk, List, OnOk, length, map, ℕ};
ghost use Rattle.ld_text.specs.Names.{Appends, AreLevels, IsWellFormed, MAX_TRACES};
ghost use Rattle.ld_text.specs.Clauses.{AreVerdictsOf, KeepsCircles, StopsWriting, verdicts_text};

use crate::key_texts::KeyTexts;
use crate::wording::{DEEPER, MARGIN, Wording};
use crate::{Tried, WriteFault, sorted_keys, write_text};
use ld_explain::{SettledLevels, Sightings, Verdict, Whereabouts};
use ld_trace::{KeyTable, RawTrace};
use std::alloc::{AllocError, Global};
use std::io::Write;

/// What verdicts are put into words by: findings between types by the one, and those between single locks by the other.
#[derive(Drop)]
pub(crate) struct VerdictWording<'a> {
    pub types: &'a Wording<'a>,
    pub locks: &'a Wording<'a>,
}

/// The verdicts of the traces, at most 4,096, whose facts are settled so: the findings between the types of their locks, each with
/// what it was seen between; types and locks come in the order of their names. No circle of single locks is lost. It fails only if
/// memory is refused.
pub fn verdicts_of_traces(
    alloc: Global,
    levels: &SettledLevels,
    traces: &[RawTrace],
    names: &KeyTable,
) -> Result<Vec<Verdict>, AllocError>
    requires few { length traces.now ≤ MAX_TRACES }
    requires well_formed { All IsWellFormed traces.now }
    requires levels { AreLevels traces.now names.now.names levels.now }
    ensures are { IfOk result (λ verdicts. AreVerdictsOf traces.now names.now.names verdicts.items) }
    ensures kept { IfOk result (λ verdicts. KeepsCircles traces.now names.now.names verdicts.items) }
{
    let keys = sorted_keys(alloc, levels.type_names())?;
    let locks = sorted_keys(alloc, names)?;
    levels.verdicts(alloc, traces, names, &keys, &locks)
}

/// How verdicts are written.
#[derive(Clone, Copy)]
pub enum VerdictFormat<'a> {
    /// As lines, for people to read.
    Lines,
    /// As a JSON object, for programs to read, which says their whereabouts too. JSON is RFC 8259.
    Json(&'a Whereabouts),
}

fn verdicts_text(
    alloc: Global,
    verdicts: &[Verdict],
    traces: &[RawTrace],
    types: &KeyTable,
    names: &KeyTable,
    files: &[&str],
    format: VerdictFormat<'_>,
) -> Tried<Vec<u8>>
    ensures { IfOk result (λ text. text.items ≡ verdicts_text format.entry traces.now types.now.names names.now.names
        (map (λ file. file.now) files.entry.now) verdicts.now) }
{
    let type_texts = KeyTexts::of(alloc, types)?;
    let lock_texts = KeyTexts::of(alloc, names)?;
    let nowhere = Sightings::none(alloc);
    let between_types = Wording {
        traces,
        names: types,
        keys: &type_texts,
        lock_names: names,
        locks: &lock_texts,
        files,
        margin: MARGIN,
        lists_traces: false,
        sightings: &nowhere,
        alloc,
    };
    let between_locks = Wording {
        names,
        keys: &lock_texts,
        margin: DEEPER,
        ..between_types
    };
    match format {
        VerdictFormat::Lines => {
            let wording = VerdictWording {
                types: &between_types,
                locks: &between_locks,
            };
            wording.lines(verdicts)
        }
        VerdictFormat::Json(whereabouts) => {
            let between_types = Wording {
                lists_traces: true,
                sightings: &whereabouts.types,
                ..between_types
            };
            let between_locks = Wording {
                lists_traces: true,
                sightings: &whereabouts.locks,
                ..between_locks
            };
            let wording = VerdictWording {
                types: &between_types,
                locks: &between_locks,
            };
            wording.json(verdicts, &whereabouts.ends)
        }
    }
}

/// Writes these verdicts of traces in these files, whose locks' types have the one names and the locks the other. Names of files are
/// as they were given.
pub fn write_verdicts<W: Write>(
    alloc: Global,
    w: &mut W,
    verdicts: &[Verdict],
    traces: &[RawTrace],
    types: &KeyTable,
    names: &KeyTable,
    files: &[&str],
    format: VerdictFormat<'_>,
) -> Result<(), WriteFault>
    ensures ok { OnOk result (Appends (W.contents w.old) (W.contents w.new) (verdicts_text format.entry traces.now types.now.names
        names.now.names (map (λ file. file.now) files.entry.now) verdicts.now)) }
    ensures err { IfErr result (StopsWriting (λ text. text ≡ verdicts_text format.entry traces.now types.now.names
        names.now.names (map (λ file. file.now) files.entry.now) verdicts.now) (W.contents w.old) (W.contents w.new)) }
{
    match verdicts_text(alloc, verdicts, traces, types, names, files, format) {
        Ok(text) => write_text(w, text.as_slice()),
        Err(_) => Err(WriteFault::Memory),
    }
}
