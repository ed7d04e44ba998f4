//! What is written about all the traces of a session.

ghost use Rattle.std.specs.Prelude.{◌≡◌, ◌≤◌, All, IfErr, List, OnOk, length, ℕ};
ghost use Rattle.lockdep.specs.Names.{Appends, AreSame, HasFact, IsWellFormed, TracesHave};
ghost use Rattle.lockdep.specs.Clauses.{IsTextOf, StopsSettled, view_of};

use crate::condensed::write_condensed;
use crate::fault::ReportFault;
use ld_run::{MAX_TRACES, Settled};
use ld_text::{Format, write_findings, write_picture, write_report};
use ld_trace::{KeyTable, RawTrace};
use std::alloc::Global;
use std::io::Write;

/// What is written about all the traces of a session together.
///
/// `files` are the names of the traces, in their order; a trace that has no name is called `stdin`.
#[derive(Clone, Copy, PartialEq, Eq, Debug)]
pub enum Output<'a> {
    /// The report.
    Report,
    /// What was found, and for each dependency and mark of a finding the record where it first occurs.
    Explanation { files: &'a [&'a str] },
    /// The explanation as JSON.
    Json { files: &'a [&'a str] },
    /// The facts as a graph in the language DOT; only what is part of a finding, if `findings` is set.
    Picture { findings: bool },
    /// One trace that has exactly the facts of all of them, in version 1 of the format.
    Condensed,
}

/// Writes the output for these traces, of which these are the settled facts.
pub(crate) fn write_output<W: Write>(
    alloc: Global,
    w: &mut W,
    output: Output<'_>,
    settled: &Settled,
    traces: &[RawTrace],
    keys: &KeyTable,
) -> Result<(), ReportFault>
    requires few { length traces.now ≤ MAX_TRACES }
    requires well_formed { All IsWellFormed traces.now }
    requires facts { AreSame (HasFact settled.now) (TracesHave traces.now) }
    requires keys { settled.now.keys ≡ length keys.now.names }
    ensures ok { OnOk result ((text : List ℕ) × IsTextOf (view_of output.entry) traces.now keys.now.names text
        × Appends (W.contents w.old) (W.contents w.new) text) }
    ensures err { IfErr result (StopsSettled (view_of output.entry) (TracesHave traces.now) (length keys.now.names)
        (IsTextOf (view_of output.entry) traces.now keys.now.names) (W.contents w.old) (W.contents w.new)) }
{
    match output {
        Output::Report => {
            write_report(alloc, w, settled, traces, keys).map_err(ReportFault::Out)
        }
        Output::Explanation { files } => {
            write_findings(alloc, w, settled, traces, keys, files, Format::Lines).map_err(
                ReportFault::Out,
            )
        }
        Output::Json { files } => {
            write_findings(alloc, w, settled, traces, keys, files, Format::Json).map_err(
                ReportFault::Out,
            )
        }
        Output::Picture { findings } => {
            write_picture(alloc, w, settled, keys, findings).map_err(ReportFault::Out)
        }
        Output::Condensed => write_condensed(alloc, w, settled, keys),
    }
}
