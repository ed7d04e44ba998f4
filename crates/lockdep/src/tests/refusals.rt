//! Traces that are refused while they are read, and what is said about each refusal.

use crate::output::Output;
use crate::refusal::{Refusal, refuse};
use crate::session::Session;
use crate::tests::helpers::{assert_text, text_in};
use ld_run::{CondenseFault, RunFault};
use ld_task::StepFault;
use ld_text::WriteFault;
use ld_trace::{TraceFault, TraceFaultKind};
use std::test::Fail;

// Traces that a session with room for two keys refuses while it reads them, why, and the report of what the session
// keeps.
static READINGS: [(&str, TraceFaultKind, usize, &str); 5] = [
    (
        "",
        TraceFaultKind::NoHeader,
        1,
        "traces 0\nevents 0\nkeys 0\ndependencies 0\nclean yes\n",
    ),
    (
        "lockdep,1\nacq,A,0,w\nacq,B,0\n",
        TraceFaultKind::BadRecord,
        3,
        "traces 0\nevents 0\nkeys 1\ndependencies 0\nclean yes\nusage A/0 {....}\n",
    ),
    (
        "lockdep,1\nacq,m,8,w\n",
        TraceFaultKind::BadSub,
        2,
        "traces 0\nevents 0\nkeys 0\ndependencies 0\nclean yes\n",
    ),
    (
        "lockdep,1\nacq,A,0,tw\n",
        TraceFaultKind::BadMode,
        2,
        "traces 0\nevents 0\nkeys 0\ndependencies 0\nclean yes\n",
    ),
    (
        "lockdep,1\nacq,B,0,w\nacq,A,0,w\nacq,C,0,w\n",
        TraceFaultKind::TooManyKeys,
        4,
        "traces 0\nevents 0\nkeys 2\ndependencies 0\nclean yes\nusage A/0 {....}\nusage B/0 {....}\n",
    ),
];

#[test]
fn traces_refused_in_reading(rt: HostRuntime) -> Result<(), Fail> {
    for reading in &READINGS {
        let (text, kind, at, report) = *reading;
        let mut session = Session::with_room(rt.alloc(), 2)?;
        assert_eq!(rt; session.add(text.as_bytes()), Err(TraceFault { kind, at }));
        assert_text(&rt, session, Output::Report, 4, (Ok(true), report));
    }
    Ok(())
}

// Refusals, and their lines.
static LINES: [(Refusal<'_>, &str); 14] = [
    (Refusal::BadCommandLine, "lockdep: P1 BadCommandLine\n"),
    (
        Refusal::CannotOpen { file: "a b" },
        "lockdep: a b: P2 CannotOpen\n",
    ),
    (Refusal::Output, "lockdep: P3 Output\n"),
    (Refusal::Memory, "lockdep: P4 Memory\n"),
    (
        Refusal::Reading {
            file: "a",
            fault: TraceFault {
                kind: TraceFaultKind::Memory,
                at: 1,
            },
        },
        "lockdep: a: record 1: T9 Memory\n",
    ),
    (
        Refusal::Step {
            file: "",
            at: 1_000_001,
            fault: StepFault::TooDeep,
        },
        "lockdep: : record 1000001: S2 TooDeep\n",
    ),
    (
        Refusal::Run(RunFault::BadWorkers),
        "lockdep: N1 BadWorkers\n",
    ),
    (
        Refusal::Run(RunFault::TooManyTraces),
        "lockdep: N2 TooManyTraces\n",
    ),
    (Refusal::Run(RunFault::Unsettled), "lockdep: N3 Unsettled\n"),
    (Refusal::Run(RunFault::Memory), "lockdep: N4 Memory\n"),
    (
        Refusal::Run(RunFault::TooTangled),
        "lockdep: M1 TooTangled\n",
    ),
    (
        Refusal::Condensing(CondenseFault::Unequal),
        "lockdep: E1 Unequal\n",
    ),
    (
        Refusal::Condensing(CondenseFault::TooLong),
        "lockdep: E3 TooLong\n",
    ),
    (
        Refusal::Condensing(CondenseFault::Memory),
        "lockdep: E2 Memory\n",
    ),
];

#[test]
fn lines_and_codes_of_refusals(rt: HostRuntime) {
    for refusal_and_line in &LINES {
        let (refusal, line) = *refusal_and_line;
        let mut text = Vec::new(rt.alloc());
        let status = refuse(&mut text, refusal);
        assert_eq!(rt; (status, text_in(text.as_slice())), (Ok(2), line));
    }
    let faults = [WriteFault::Failed, WriteFault::Stuck, WriteFault::Memory];
    let codes = ["O1 Failed", "O2 Stuck", "O3 Memory"];
    assert_eq!(rt; faults.map(|fault| fault.code()), codes);
}
