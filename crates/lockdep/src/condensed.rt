//! The condensed trace of settled facts, and its text.

ghost use Rattle.std.specs.Prelude.{◌≡◌, IfErr, IfOk, IsOkAnd, List, OnOk, length, ℕ};
ghost use Rattle.lockdep.specs.Names.{Appends, HasFact, KeysBelow, trace_text};
ghost use Rattle.lockdep.specs.Clauses.{IsBeforeWriting, IsCondensedText, ReadsBackAnew, StopsSettled, condensed, no_text_of};

use crate::fault::ReportFault;
use ld_run::{CondenseFault, Settled, condense};
use ld_text::{WriteFault, sorted_keys, write_text};
use ld_trace::{KeyTable, RawTrace, trace_text, written_traces_read_back};
use std::alloc::Global;
use std::io::Write;

/// Writes one trace that has exactly the settled facts, with the keys in the order of their names: the same facts and
/// names give the same text.
///
/// Refusals: `Condensing` with E1 if the trace that was made doesn't have exactly the facts, with E2 if memory runs out
/// for it, and with E3 if it would have more than 1,000,000 events; `Out` with O3 if memory runs out for the order of the keys or the text, and with O1 and O2 if writing
/// failed. Nothing was written unless it is O1 or O2 [this project's own].
pub(crate) fn write_condensed<W: Write>(
    alloc: Global,
    w: &mut W,
    settled: &Settled,
    keys: &KeyTable,
) -> Result<(), ReportFault>
    requires { settled.now.keys ≡ length keys.now.names }
    ensures ok { OnOk result ((text : List ℕ) × IsCondensedText (HasFact settled.now) keys.now.names text
        × Appends (W.contents w.old) (W.contents w.new) text) }
    ensures err { IfErr result (StopsSettled condensed (HasFact settled.now) (length keys.now.names)
        (IsCondensedText (HasFact settled.now) keys.now.names) (W.contents w.old) (W.contents w.new)) }
{
    let text = condensed_text(alloc, settled, keys)?;
    match write_text(w, text.as_slice()) {
        Ok(()) => Ok(()),
        Err(fault) => Err(ReportFault::Out(fault)),
    }
}

fn condensed_text(alloc: Global, settled: &Settled, keys: &KeyTable) -> Result<Vec<u8>, ReportFault>
    requires { settled.now.keys ≡ length keys.now.names }
    ensures ok { IfOk result (λ text. IsCondensedText (HasFact settled.now) keys.now.names text.items) }
    ensures err { IfErr result (IsBeforeWriting (HasFact settled.now) (length keys.now.names)) }
{
    let Ok(order) = sorted_keys(alloc, keys) else {
        return Err(ReportFault::Out(WriteFault::Memory));
    };
    text_of(alloc, condense(alloc, settled, order.as_slice()), keys)
}

fn text_of(
    alloc: Global,
    made: Result<RawTrace, CondenseFault>,
    keys: &KeyTable,
) -> Result<Vec<u8>, ReportFault>
    ensures ok { IfOk result (λ text. IsOkAnd made (λ trace. KeysBelow (length keys.now.names) trace
        → (text.items ≡ trace_text keys.now.names trace) × ReadsBackAnew keys.now.names trace)) }
    ensures err { IfErr result (λ fault. fault ≡ no_text_of made) }
{
    match made {
        Ok(trace) => text_of_trace(alloc, &trace, keys),
        Err(fault) => Err(ReportFault::Condensing(fault)),
    }
}

// The text of a condensed trace, which reads back.
fn text_of_trace(alloc: Global, trace: &RawTrace, keys: &KeyTable) -> Result<Vec<u8>, ReportFault>
    ensures ok { IfOk result (λ text. KeysBelow (length keys.now.names) trace.now
        → (text.items ≡ trace_text keys.now.names trace.now) × ReadsBackAnew keys.now.names trace.now) }
    ensures err { IfErr result (λ fault. fault ≡ ReportFault.Out WriteFault.Memory) }
{
    written_traces_read_back();
    let _ = (keys.len(), trace.len());
    match trace_text(alloc, trace, keys) {
        Ok(text) => Ok(text),
        Err(_) => Err(ReportFault::Out(WriteFault::Memory)),
    }
}
