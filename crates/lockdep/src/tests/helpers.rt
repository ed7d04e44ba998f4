//! Traces as the tables of the tests have them, and what sessions write of them.

use crate::fault::ReportFault;
use crate::output::Output;
use crate::session::Session;
use ld_run::OpenGate;
use std::alloc::{AllocError, Global};
use std::process::Abort;
use std::str;
use std::sync::Wait;
use std::test::Fail;
use std::thread::Threads;

/// The text of a trace that a table has in one line: the version of its header and then its records, with spaces
/// between them.
pub(crate) fn trace_text(alloc: Global, trace: &str) -> Result<Vec<u8>, AllocError> {
    let mut text = Vec::new(alloc);
    text.extend_from_slice(b"lockdep,".as_slice())?;
    for byte in trace.as_bytes() {
        text.push(if *byte == b' ' { b'\n' } else { *byte })?;
    }
    Ok(text)
}

/// A session with these traces.
pub(crate) fn session_of(alloc: Global, traces: &[&str]) -> Result<Session, Fail> {
    let mut session = Session::new(alloc)?;
    for trace in traces {
        let text = trace_text(alloc, trace)?;
        session.add(text.as_slice())?;
    }
    Ok(session)
}

/// What was written, as a text.
pub(crate) fn text_in(written: &[u8]) -> &str {
    str::from_utf8(written).unwrap_or("no UTF-8")
}

/// Asserts what the session returns and writes, asked for this output by this number of workers.
pub(crate) fn assert_text(
    rt: &(impl Threads + Wait + Sync + Abort + AllocGlobal),
    session: Session,
    output: Output<'_>,
    workers: u16,
    (returned, text): (Result<bool, ReportFault>, &str),
) {
    let mut written = Vec::new(rt.alloc());
    let got = session.write(rt, rt.alloc(), workers, &OpenGate, output, &mut written);
    assert_eq!(rt; (got, text_in(written.as_slice())), (returned, text));
}
