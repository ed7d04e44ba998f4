//! A writer that takes one byte per call and fails at one call.

use crate::fault::ReportFault;
use crate::tests::helpers::session_of;
use ld_run::OpenGate;
use ld_text::WriteFault;
use std::alloc::Global;
use std::io;
use std::io::Write;
use std::process::Abort;
use std::sync::Wait;
use std::test::Fail;
use std::thread::Threads;

// Each way in which a writer can fail at one call: by an error of this kind, or by taking nothing.
pub(crate) const FAILURES: [(Option<io::ErrorKind>, WriteFault); 3] = [
    (Some(io::ErrorKind::Other), WriteFault::Failed),
    (Some(io::ErrorKind::Interrupted), WriteFault::Failed),
    (None, WriteFault::Stuck),
];

// Takes one byte per call. At one call it fails, or takes nothing.
#[derive(Drop)]
pub(crate) struct Narrow {
    pub taken: Vec<u8>,
    calls: usize,
    fails_at: usize,
    failure: Option<io::ErrorKind>,
}

impl Narrow {
    pub fn new(alloc: Global, fails_at: usize, failure: Option<io::ErrorKind>) -> Narrow {
        Narrow {
            taken: Vec::new(alloc),
            calls: 0,
            fails_at,
            failure,
        }
    }
}

impl Write for Narrow {
    fn write(&mut self, buf: &[u8]) -> io::Result<usize> {
        self.calls = self.calls.saturating_add(1);
        if self.calls == self.fails_at {
            return match self.failure {
                Some(kind) => Err(io::Error::from(kind)),
                None => Ok(0),
            };
        }
        match buf.first() {
            Some(byte) if self.taken.push(*byte).is_ok() => Ok(1),
            Some(_) => Err(io::Error::from(io::ErrorKind::OutOfMemory)),
            None => Ok(0),
        }
    }

    fn flush(&mut self) -> io::Result<()> {
        Ok(())
    }
}

// Both orders of two locks, and the report of them.
const TRACES: [&str; 2] = [
    "1 acq,A,0,w acq,B,0,w rel,B,0 rel,A,0",
    "1 acq,B,0,w acq,A,0,w rel,A,0 rel,B,0",
];

const REPORT: &str =
    "traces 2\nevents 8\nkeys 2\ndependencies 2\nclean no\nusage A/0 {+.+.}\nusage B/0 {+.+.}\ncircle A/0 EN B/0\ncircle B/0 EN A/0\nbecause A/0 EN B/0 EN A/0\n";

// Asserts what a report returns if its writer fails in this way after `done` bytes, and that the writer has taken
// these.
fn assert_report(
    rt: &(impl Threads + Wait + Sync + Abort + AllocGlobal),
    done: usize,
    (failure, fault): (Option<io::ErrorKind>, WriteFault),
) -> Result<(), Fail> {
    let session = session_of(rt.alloc(), &TRACES)?;
    let mut w = Narrow::new(rt.alloc(), done.saturating_add(1), failure);
    let returned = session.report(rt, rt.alloc(), 4, &OpenGate, &mut w);
    let wanted = if done < REPORT.len() {
        Err(ReportFault::Out(fault))
    } else {
        Ok(false)
    };
    assert_eq!(rt;
        (returned, Some(w.taken.as_slice())),
        (wanted, REPORT.as_bytes().get(..done))
    );
    Ok(())
}

#[test]
fn a_report_on_a_writer_that_fails_at_each_call(rt: HostRuntime) -> Result<(), Fail> {
    for done in 0..=REPORT.len() {
        for failure in FAILURES {
            assert_report(&rt, done, failure)?;
        }
    }
    Ok(())
}
