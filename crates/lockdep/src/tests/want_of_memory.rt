//! What a refused request for memory, or for a thread, leaves. In an ordinary run none is refused: `tests/sweep` runs
//! each of these tests with its first request refused, its second, and so on, and counts the lines that they print.

use crate::fault::ReportFault;
use crate::session::Session;
use ld_run::{OpenGate, RunFault, Settled, run};
use ld_text::{WriteFault, write_report};
use ld_trace::{KeyTable, RawTrace, read_trace};
use std::alloc::Global;
use std::io;
use std::io::{Print, Write};
use std::process::Abort;
use std::sync::Wait;
use std::test::Fail;
use std::thread::Threads;

const TRACES: [&[u8]; 2] = [
    b"lockdep,1\nacq,A,0,w\nacq,B,0,w\nrel,B,0\nrel,A,0\n",
    b"lockdep,1\nacq,B,0,w\nacq,A,0,w\nrel,A,0\nrel,B,0\n",
];

const REPORT: &[u8] =
    b"traces 2\nevents 8\nkeys 2\ndependencies 2\nclean no\nusage A/0 {+.+.}\nusage B/0 {+.+.}\ncircle A/0 EN B/0\ncircle B/0 EN A/0\nbecause A/0 EN B/0 EN A/0\n";

// A writer that takes no memory: it has room for any text of these tests.
#[derive(Clone, Copy)]
struct Sheet {
    bytes: [u8; 512],
    len: usize,
}

impl Sheet {
    fn new() -> Sheet {
        Sheet {
            bytes: [0; 512],
            len: 0,
        }
    }

    fn text(&self) -> &[u8] {
        &self.bytes[..self.len.min(512)]
    }
}

impl Write for Sheet {
    // One byte per call.
    fn write(&mut self, buf: &[u8]) -> io::Result<usize> {
        match (buf.first(), self.bytes.get_mut(self.len)) {
            (Some(byte), Some(place)) => {
                *place = *byte;
                self.len = self.len.saturating_add(1);
                Ok(1)
            }
            _ => Ok(0),
        }
    }

    fn flush(&mut self) -> io::Result<()> {
        Ok(())
    }
}

// An empty session, made again if that was refused.
fn session(rt: &(impl Abort + AllocGlobal + Print)) -> Result<Session, Fail> {
    match Session::new(rt.alloc()) {
        Ok(session) => Ok(session),
        Err(fault) => {
            println!(rt; "refused: {}", fault.code())?;
            assert_eq!(rt; fault.code(), "K4 Memory");
            Ok(Session::new(rt.alloc())?)
        }
    }
}

// Adds both traces. A refused one leaves the session as it was, and is then added.
fn add_both(rt: &(impl Abort + AllocGlobal + Print), session: &mut Session) -> Result<(), Fail> {
    for text in TRACES {
        if let Err(fault) = session.add(text) {
            println!(rt; "refused: {} at record {}", fault.code(), fault.at)?;
            assert_eq!(rt; fault.code(), "T9 Memory");
            session.add(text)?;
        }
    }
    Ok(())
}

#[test]
fn want_of_memory_in_a_session(rt: HostRuntime) -> Result<(), Fail> {
    let mut one = session(&rt)?;
    add_both(&rt, &mut one)?;
    let mut sheet = Sheet::new();
    if let Err(fault) = one.report(&rt, rt.alloc(), 4, &OpenGate, &mut sheet) {
        println!(&rt; "refused: {fault}")?;
        let memory = matches!(
            fault,
            ReportFault::Run(RunFault::Memory) | ReportFault::Out(WriteFault::Memory)
        );
        assert!(rt; memory && sheet.text().is_empty());
        let mut again = session(&rt)?;
        add_both(&rt, &mut again)?;
        assert_eq!(rt;
            again.report(&rt, rt.alloc(), 4, &OpenGate, &mut sheet),
            Ok(false)
        );
    }
    assert_eq!(rt; sheet.text(), REPORT);
    Ok(())
}

// Both traces, with their keys added to these; None if memory was refused.
fn read_both(alloc: Global, keys: &mut KeyTable) -> Option<Vec<RawTrace>> {
    let mut traces = Vec::new(alloc);
    for text in TRACES {
        traces.push(read_trace(alloc, text, keys).ok()?).ok()?;
    }
    Some(traces)
}

// The traces, their names, and what a run over them settles; None if memory was refused.
fn settled<R: Threads + Wait + Sync>(
    rt: &R,
    alloc: Global,
) -> Option<(Settled, Vec<RawTrace>, KeyTable)> {
    let mut keys = KeyTable::new(alloc).ok()?;
    let traces = read_both(alloc, &mut keys)?;
    let below = keys.len().min(256) as u16;
    if !traces.iter().all(|trace| trace.keys_below(below)) {
        return None;
    }
    let settled = run(rt, alloc, &traces, below, 1, &OpenGate).ok()?;
    Some((settled, traces, keys))
}

// Asserts that the report is written, after a refusal if there is one, which leaves nothing.
fn assert_written(
    rt: &(impl Abort + AllocGlobal + Print),
    facts: &Settled,
    traces: &[RawTrace],
    keys: &KeyTable,
) -> Result<(), Fail> {
    let mut sheet = Sheet::new();
    if let Err(fault) = write_report(rt.alloc(), &mut sheet, facts, traces, keys) {
        println!(rt; "refused: {}", fault.code())?;
        assert_eq!(rt; fault, WriteFault::Memory);
        assert!(rt; sheet.text().is_empty());
        write_report(rt.alloc(), &mut sheet, facts, traces, keys)?;
    }
    assert_eq!(rt; sheet.text(), REPORT);
    Ok(())
}

#[test]
fn want_of_memory_in_writing_a_report(rt: HostRuntime) -> Result<(), Fail> {
    let found = match settled(&rt, rt.alloc()) {
        Some(found) => found,
        None => settled(&rt, rt.alloc()).ok_or("no facts")?,
    };
    let (facts, traces, keys) = found;
    assert_written(&rt, &facts, &traces, &keys)
}
