//! Whole explanations, pictures and condensed traces of small traces, of which `examples` has more, and traces that are
//! refused.

use crate::fault::ReportFault;
use crate::output::Output;
use crate::tests::helpers::{assert_text, session_of};
use ld_run::OpenGate;
use ld_task::StepFault;
use std::test::Fail;

// A circle of a class whose name ends with a backslash, and a dependency off it.
const CIRCLE: [&str; 3] = [
    "1 acq,A\\,0,w acq,B,0,w",
    "1 acq,B,0,w acq,A\\,0,w",
    "1 acq,A\\,0,w acq,C,0,w",
];

const INVERSION: [&str; 3] = [
    "1 enter,softirq acq,A,0,w rel,A,0 leave",
    "1 off,softirq acq,A,0,w acq,B,0,w rel,B,0 rel,A,0 on,softirq",
    "1 acq,B,0,w rel,B,0",
];

// The names of the first two traces. The others have none.
const FILES: &[&str] = &["a.txt", "b.txt"];

// An output, the traces, what is returned, and the text.
static TEXTS: [(Output<'_>, &[&str], Result<bool, ReportFault>, &str); 12] = [
    // A dependency off a circle isn't reported.
    (
        Output::Explanation { files: FILES },
        &CIRCLE,
        Ok(false),
        "findings 1\n\ncircle A\\/0 EN B/0 EN A\\/0\n  A\\/0 EN B/0: a.txt: record 3 takes B/0 w, with A\\/0 w held since record 2\n  B/0 EN A\\/0: b.txt: record 3 takes A\\/0 w, with B/0 w held since record 2\n  task 1 holds A\\/0 and waits for B/0\n  task 2 holds B/0 and waits for A\\/0\n",
    ),
    // A trace whose file has no name is called `stdin`.
    (
        Output::Explanation { files: FILES },
        &INVERSION,
        Ok(false),
        "findings 1\n\ninversion softirq A/0 B/0\n  A/0 EN B/0: b.txt: record 4 takes B/0 w, with A/0 w held since record 3\n  used in softirq: a.txt: record 3 takes A/0 w\n  used with softirqs on: stdin: record 2 takes B/0 w\n  task 1 holds B/0\n  task 2 holds A/0 and waits for B/0\n  a softirq comes in at task 1 and waits for A/0\n",
    ),
    (
        Output::Explanation { files: FILES },
        &["1 acq,A,0,w acq,B,0,w"],
        Ok(true),
        "findings 0\n",
    ),
    // What is on a circle is red, and what is on none is left out of findings.
    (
        Output::Picture { findings: false },
        &CIRCLE,
        Ok(false),
        "digraph lockdep {\n  node [shape=box];\n  \"A\\\\/0\" [label=\"A\\\\/0 {+.+.}\", color=red, fontcolor=red];\n  \"B/0\" [label=\"B/0 {+.+.}\", color=red, fontcolor=red];\n  \"C/0\" [label=\"C/0 {+.+.}\"];\n  \"A\\\\/0\" -> \"B/0\" [label=\"EN\", color=red, fontcolor=red];\n  \"A\\\\/0\" -> \"C/0\" [label=\"EN\"];\n  \"B/0\" -> \"A\\\\/0\" [label=\"EN\", color=red, fontcolor=red];\n}\n",
    ),
    (
        Output::Picture { findings: true },
        &CIRCLE,
        Ok(false),
        "digraph lockdep {\n  node [shape=box];\n  \"A\\\\/0\" [label=\"A\\\\/0 {+.+.}\", color=red, fontcolor=red];\n  \"B/0\" [label=\"B/0 {+.+.}\", color=red, fontcolor=red];\n  \"A\\\\/0\" -> \"B/0\" [label=\"EN\", color=red, fontcolor=red];\n  \"B/0\" -> \"A\\\\/0\" [label=\"EN\", color=red, fontcolor=red];\n}\n",
    ),
    // A double is joined to itself.
    (
        Output::Picture { findings: true },
        &[
            "1 enter,hardirq acq,L,0,w rel,L,0 leave",
            "1 acq,L,0,w rel,L,0",
        ],
        Ok(false),
        "digraph lockdep {\n  node [shape=box];\n  \"L/0\" [label=\"L/0 {?.+.}\", color=red, fontcolor=red];\n  \"L/0\" -> \"L/0\" [label=\"hardirq\", style=dashed, color=red, fontcolor=red];\n}\n",
    ),
    // The halves of a circle that recursive readers break are condensed into one trace.
    (
        Output::Condensed,
        &["1 acq,B,0,w acq,A,0,rr", "1 acq,A,0,r acq,B,0,w"],
        Ok(true),
        "lockdep,1\noff,hardirq\nacq,A,0,rr\nacq,B,0,w\nrel,B,0\nrel,A,0\nacq,B,0,w\nacq,A,0,rr\nrel,A,0\nrel,B,0\non,hardirq\noff,softirq\nacq,A,0,rr\nrel,A,0\nacq,B,0,w\nrel,B,0\non,softirq\nacq,A,0,rr\nrel,A,0\nacq,B,0,w\nrel,B,0\n",
    ),
    // The first of several traces that aren't well formed is named.
    (
        Output::Report,
        &["1 acq,B,0,w", "1 leave", "1 rel,B,0"],
        Err(ReportFault::Step {
            trace: 1,
            at: 2,
            fault: StepFault::LeaveTask,
        }),
        "",
    ),
    (
        Output::Report,
        &["1 rel,A,0"],
        Err(ReportFault::Step {
            trace: 0,
            at: 2,
            fault: StepFault::NotHeld,
        }),
        "",
    ),
    (
        Output::Explanation { files: FILES },
        &["1 acq,A,0,w rel,A,0", "1 enter,hardirq acq,A,0,w leave"],
        Err(ReportFault::Step {
            trace: 1,
            at: 4,
            fault: StepFault::LeaveHeld,
        }),
        "",
    ),
    (
        Output::Picture { findings: true },
        &["1 enter,softirq off,hardirq acq,A,0,w on,hardirq on,softirq"],
        Err(ReportFault::Step {
            trace: 0,
            at: 6,
            fault: StepFault::BadFlag,
        }),
        "",
    ),
    (
        Output::Condensed,
        &["1 enter,hardirq enter,hardirq"],
        Err(ReportFault::Step {
            trace: 0,
            at: 3,
            fault: StepFault::BadEnter,
        }),
        "",
    ),
];

#[test]
fn texts_and_refusals_of_small_traces(rt: HostRuntime) -> Result<(), Fail> {
    for row in &TEXTS {
        let (output, traces, returned, text) = *row;
        let session = session_of(rt.alloc(), traces)?;
        assert_text(&rt, session, output, 4, (returned, text));
    }
    Ok(())
}

#[test]
fn json_of_a_circle_says_that_it_is_not_clean(rt: HostRuntime) -> Result<(), Fail> {
    let session = session_of(rt.alloc(), &CIRCLE)?;
    let output = Output::Json { files: FILES };
    let mut written = Vec::new(rt.alloc());
    let got = session.write(&rt, rt.alloc(), 4, &OpenGate, output, &mut written);
    assert_eq!(rt; (got, written.is_empty()), (Ok(false), false));
    Ok(())
}
