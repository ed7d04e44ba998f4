//! Traces of many events or keys, and many traces: their reports, each by several numbers of workers.

use crate::fault::ReportFault;
use crate::output::Output;
use crate::session::Session;
use crate::tests::helpers::{assert_text, text_in};
use ld_run::RunFault;
use ld_task::StepFault;
use ld_text::digits_of;
use ld_trace::{GRAPH_KEYS, MAX_KEYS};
use std::alloc::{AllocError, Global};
use std::process::Abort;
use std::sync::Wait;
use std::test::Fail;
use std::thread::Threads;

// A text that the table has in short: its head, how many times the next words follow it, with the numbers from 100 on
// for their '#', and its tail.
type Long<'t> = (&'t str, u32, &'t str, &'t str);

// Adds the words, with the number for each '#'.
fn add_numbered(text: &mut Vec<u8>, words: &str, number: usize) -> Result<(), AllocError> {
    let digits = digits_of(number);
    for byte in words.as_bytes() {
        match byte {
            b'#' => text.extend_from_slice(digits.as_str().as_bytes())?,
            _ => text.push(*byte)?,
        }
    }
    Ok(())
}

// The text itself.
fn spelled(alloc: Global, (head, times, each, tail): Long<'_>) -> Result<Vec<u8>, AllocError> {
    let mut text = Vec::new(alloc);
    text.extend_from_slice(head.as_bytes())?;
    for number in 0..times {
        add_numbered(&mut text, each, 100 + number as usize)?;
    }
    text.extend_from_slice(tail.as_bytes())?;
    Ok(text)
}

// Traces that are added `copies` times each, and what their session returns and writes, whatever the number of workers.
struct Case<'t> {
    many: bool,
    traces: &'t [Long<'t>],
    copies: u16,
    workers: &'t [u16],
    returned: Result<bool, ReportFault>,
    text: Long<'t>,
}

// Adds a trace to the session `copies` times.
fn add_copies(session: &mut Session, trace: &[u8], copies: u16) -> Result<(), Fail> {
    for _ in 0..copies {
        session.add(trace)?;
    }
    Ok(())
}

fn session_of(alloc: Global, case: &Case<'_>) -> Result<Session, Fail> {
    let room = if case.many { MAX_KEYS } else { GRAPH_KEYS };
    let mut session = Session::with_room(alloc, room)?;
    for trace in case.traces {
        let text = spelled(alloc, *trace)?;
        add_copies(&mut session, text.as_slice(), case.copies)?;
    }
    Ok(session)
}

const FORTH: &str = "lockdep,1\nacq,A,0,w\nacq,B,0,w\nrel,B,0\nrel,A,0\n";

const BACK: &str = "lockdep,1\nacq,B,0,w\nacq,A,0,w\nrel,A,0\nrel,B,0\n";

static CASES: [Case<'_>; 10] = [
    // Both orders of two locks.
    Case {
        many: false,
        traces: &[(FORTH, 0, "", ""), (BACK, 0, "", "")],
        copies: 1,
        workers: &[1, 2, 4, 8, 64],
        returned: Ok(false),
        text: (
            "traces 2\nevents 8\nkeys 2\ndependencies 2\nclean no\nusage A/0 {+.+.}\nusage B/0 {+.+.}\ncircle A/0 EN B/0\ncircle B/0 EN A/0\nbecause A/0 EN B/0 EN A/0\n",
            0,
            "",
            "",
        ),
    },
    // The same, with 16,400 events in each of four traces: enough for two workers to really walk them. More than two:
    // `tests/runs`.
    Case {
        many: false,
        traces: &[
            (FORTH, 8_198, "acq,A,0,w\nrel,A,0\n", ""),
            (BACK, 8_198, "acq,A,0,w\nrel,A,0\n", ""),
        ],
        copies: 2,
        workers: &[1, 2, 64],
        returned: Ok(false),
        text: (
            "traces 4\nevents 65600\nkeys 2\ndependencies 2\nclean no\nusage A/0 {+.+.}\nusage B/0 {+.+.}\ncircle A/0 EN B/0\ncircle B/0 EN A/0\nbecause A/0 EN B/0 EN A/0\n",
            0,
            "",
            "",
        ),
    },
    // One trace a hundred times.
    Case {
        many: false,
        traces: &[(FORTH, 0, "", "")],
        copies: 100,
        workers: &[1, 8],
        returned: Ok(true),
        text: (
            "traces 100\nevents 400\nkeys 2\ndependencies 1\nclean yes\nusage A/0 {+.+.}\nusage B/0 {+.+.}\n",
            0,
            "",
            "",
        ),
    },
    // 48 locks held at once, and one more, which is a try.
    Case {
        many: false,
        traces: &[("lockdep,1\n", 48, "acq,n#,0,w\n", "")],
        copies: 1,
        workers: &[4],
        returned: Ok(true),
        text: (
            "traces 1\nevents 48\nkeys 48\ndependencies 1128\nclean yes\n",
            48,
            "usage n#/0 {+.+.}\n",
            "",
        ),
    },
    Case {
        many: false,
        traces: &[
            ("lockdep,2\n", 48, "acq,n#,0,w\n", ""),
            ("lockdep,2\n", 49, "acq,n#,0,tw\n", ""),
        ],
        copies: 1,
        workers: &[1, 4],
        returned: Err(ReportFault::Step {
            trace: 1,
            at: 50,
            fault: StepFault::TooDeep,
        }),
        text: ("", 0, "", ""),
    },
    // 256 keys, and more, for which no worker is started.
    Case {
        many: false,
        traces: &[("lockdep,1\n", 256, "acq,n#,0,w\nrel,n#,0\n", "")],
        copies: 1,
        workers: &[4],
        returned: Ok(true),
        text: (
            "traces 1\nevents 512\nkeys 256\ndependencies 0\nclean yes\n",
            256,
            "usage n#/0 {+.+.}\n",
            "",
        ),
    },
    Case {
        many: true,
        traces: &[
            (FORTH, 300, "acq,n#,0,w\nrel,n#,0\n", ""),
            (BACK, 0, "", ""),
        ],
        copies: 1,
        workers: &[1, 64],
        returned: Ok(false),
        text: (
            "traces 2\nevents 608\nkeys 302\ndependencies 2\nclean no\nusage A/0 {+.+.}\nusage B/0 {+.+.}\n",
            300,
            "usage n#/0 {+.+.}\n",
            "circle A/0 EN B/0\ncircle B/0 EN A/0\nbecause A/0 EN B/0 EN A/0\n",
        ),
    },
    // As many traces as a run may have, and one more.
    Case {
        many: false,
        traces: &[("lockdep,1\n", 0, "", "")],
        copies: 4096,
        workers: &[4],
        returned: Ok(true),
        text: (
            "traces 4096\nevents 0\nkeys 0\ndependencies 0\nclean yes\n",
            0,
            "",
            "",
        ),
    },
    Case {
        many: false,
        traces: &[("lockdep,1\n", 0, "", "")],
        copies: 4097,
        workers: &[4],
        returned: Err(ReportFault::Run(RunFault::TooManyTraces)),
        text: ("", 0, "", ""),
    },
    // Numbers of workers that no run accepts, not even one that would be refused for another reason.
    Case {
        many: false,
        traces: &[("lockdep,1\nleave\n", 0, "", "")],
        copies: 1,
        workers: &[0, 65, 65535],
        returned: Err(ReportFault::Run(RunFault::BadWorkers)),
        text: ("", 0, "", ""),
    },
];

// Asserts what the session of a case returns and writes with this number of workers.
fn assert_case(
    rt: &(impl Threads + Wait + Sync + Abort + AllocGlobal),
    case: &Case<'_>,
    workers: u16,
) -> Result<(), Fail> {
    let session = session_of(rt.alloc(), case)?;
    let text = spelled(rt.alloc(), case.text)?;
    let wanted = (case.returned, text_in(text.as_slice()));
    assert_text(rt, session, Output::Report, workers, wanted);
    Ok(())
}

#[test]
fn reports_by_any_number_of_workers(rt: HostRuntime) -> Result<(), Fail> {
    for case in &CASES {
        for workers in case.workers {
            assert_case(&rt, case, *workers)?;
        }
    }
    Ok(())
}
