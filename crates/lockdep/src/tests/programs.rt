//! The program's status and what it writes; `tests/runs` runs it on many more lines, and on files.

use crate::program::{program, program_side_by_side};
use crate::tests::helpers::text_in;
use crate::tests::writers::{FAILURES, Narrow};
use crate::trace_files::Adds;
use std::io;
use std::process::Abort;
use std::rt::Files;
use std::sync::Wait;
use std::thread::Threads;

// A run of the program: its words, its standard input, the calls at which its two outputs fail (none, if 0), its
// status, and what it has written on the two outputs by then.
type Run<'t> = (
    &'t [&'t str],
    &'t str,
    (usize, usize),
    (u8, &'t str, &'t str),
);

static RUNS: [Run<'_>; 15] = [
    (
        &["lockdep", "check"],
        "lockdep,1\nacq,A,0,w\nenter,hardirq\nacq,B,0,w\nrel,B,0\nleave\n",
        (0, 0),
        (
            0,
            "traces 1\nevents 5\nkeys 2\ndependencies 0\nclean yes\nusage A/0 {+.+.}\nusage B/0 {-...}\n",
            "",
        ),
    ),
    (
        &["lockdep", "check"],
        "lockdep,1\nacq,A,0,w\nacq,A,0,rr\n",
        (0, 0),
        (
            1,
            "traces 1\nevents 2\nkeys 1\ndependencies 1\nclean no\nusage A/0 {++++}\ncircle A/0 ER A/0\nbecause A/0 ER A/0\n",
            "",
        ),
    ),
    // Two locks that were taken both ways, and an order of one of them with another lock of that class.
    (
        &["lockdep", "explain", "--locks"],
        "lockdep,1\nacq,a#1,0,w\nacq,b#1,0,w\nrel,b#1,0\nrel,a#1,0\nacq,b#1,0,w\nacq,a#1,0,w\n",
        (0, 0),
        (
            1,
            "findings 1\n\ncircle a/0 EN b/0 EN a/0\n  a/0 EN b/0: stdin: record 3 takes b#1/0 w, with a#1/0 w held since record 2\n  b/0 EN a/0: stdin: record 7 takes a#1/0 w, with b#1/0 w held since record 6\n  task 1 holds a/0 and waits for b/0\n  task 2 holds b/0 and waits for a/0\n  seen between locks: a#1/0 EN b#1/0 EN a#1/0\n    a#1/0 EN b#1/0: stdin: record 3 takes b#1/0 w, with a#1/0 w held since record 2\n    b#1/0 EN a#1/0: stdin: record 7 takes a#1/0 w, with b#1/0 w held since record 6\n    note: only in stdin\n  note: only in stdin\n",
            "",
        ),
    ),
    (
        &["lockdep", "explain", "--confirmed-only"],
        "lockdep,1\nacq,a#1,0,w\nacq,b#1,0,w\nrel,b#1,0\nrel,a#1,0\nacq,b#2,0,w\nacq,a#1,0,w\n",
        (0, 0),
        (
            0,
            "findings 1\n\ncircle a/0 EN b/0 EN a/0\n  a/0 EN b/0: stdin: record 3 takes b#1/0 w, with a#1/0 w held since record 2\n  b/0 EN a/0: stdin: record 7 takes a#1/0 w, with b#2/0 w held since record 6\n  task 1 holds a/0 and waits for b/0\n  task 2 holds b/0 and waits for a/0\n  seen only between classes, not between single locks\n  note: only in stdin\n",
            "",
        ),
    ),
    (
        &["lockdep", "explain", "--locks", "--json"],
        "lockdep,1\nacq,a#1,0,w\nacq,b#1,0,w\nrel,b#1,0\nrel,a#1,0\nacq,b#2,0,w\nacq,a#1,0,w\n",
        (0, 0),
        (
            1,
            "{\"lockdep\":3,\"counts\":{\"locks\":0,\"perhaps\":0,\"unknown\":0,\"classes\":1,\"types\":0,\"nested\":0},\"findings\":[\n{\"type\":\"circle\",\"keys\":[\"a/0\",\"b/0\"],\"lines\":[\"circle a/0 EN b/0\",\"circle b/0 EN a/0\"],\"orders\":[{\"from\":\"a/0\",\"kind\":\"EN\",\"to\":\"b/0\",\"file\":\"stdin\",\"record\":3,\"takes\":\"w\",\"held\":\"w\",\"since\":2,\"traces\":{\"count\":1,\"first\":[{\"file\":\"stdin\",\"record\":3,\"since\":2}]}},{\"from\":\"b/0\",\"kind\":\"EN\",\"to\":\"a/0\",\"file\":\"stdin\",\"record\":7,\"takes\":\"w\",\"held\":\"w\",\"since\":6,\"traces\":{\"count\":1,\"first\":[{\"file\":\"stdin\",\"record\":7,\"since\":6}]}}],\"notes\":[\"only in stdin\"],\"gates\":[],\"only\":\"stdin\",\"between\":{\"kind\":\"classes\"}}\n],\"ends\":[\n{\"file\":\"stdin\",\"holds\":[{\"key\":\"b#2/0\",\"mode\":\"w\",\"record\":6},{\"key\":\"a#1/0\",\"mode\":\"w\",\"record\":7}]}\n]}\n",
            "",
        ),
    ),
    (
        &["lockdep", "chains"],
        "lockdep,1\nrel,A,0\n",
        (0, 0),
        (2, "", "lockdep: stdin: record 2: S1 NotHeld\n"),
    ),
    // A caller needn't name the program, but a shell always does.
    (
        &[],
        "lockdep,1\n",
        (0, 0),
        (2, "", "lockdep: P1 BadCommandLine\n"),
    ),
    (
        &["lockdep", "check", "nofile"],
        "",
        (0, 0),
        (2, "", "lockdep: nofile: P2 CannotOpen\n"),
    ),
    (
        &["lockdep", "check", "--workers", "0"],
        "lockdep,1\nacq,A,0,w\n",
        (0, 0),
        (2, "", "lockdep: N1 BadWorkers\n"),
    ),
    (
        &["lockdep", "check", "--workers", "65"],
        "lockdep,1\nacq,A,0,w\n",
        (0, 0),
        (2, "", "lockdep: N1 BadWorkers\n"),
    ),
    // Outputs that fail when they have taken a few bytes.
    (
        &["lockdep", "check"],
        "lockdep,1\nacq,A,0,w\n",
        (3, 0),
        (2, "tr", "lockdep: P3 Output\n"),
    ),
    (
        &["lockdep", "chains"],
        "lockdep,1\nacq,A,0,w\n",
        (3, 0),
        (2, "ac", "lockdep: P3 Output\n"),
    ),
    (
        &["lockdep", "help"],
        "",
        (3, 0),
        (2, "Ch", "lockdep: P3 Output\n"),
    ),
    (
        &["lockdep", "-V"],
        "",
        (3, 0),
        (2, "lo", "lockdep: P3 Output\n"),
    ),
    (&["lockdep"], "", (0, 9), (2, "", "lockdep:")),
];

// Asserts how a run ends whose outputs fail in this way, and whose files are read in turn, or side by side as `main` reads them.
fn assert_run(
    rt: &(impl Files + Adds + Threads + Wait + Sync + Abort + AllocGlobal),
    (words, input, (out_fails_at, err_fails_at), ends): Run<'_>,
    failure: Option<io::ErrorKind>,
    side_by_side: bool,
) {
    let input = input.as_bytes();
    let mut out = Narrow::new(rt.alloc(), out_fails_at, failure);
    let mut err = Narrow::new(rt.alloc(), err_fails_at, failure);
    let status = if side_by_side {
        program_side_by_side(rt, rt.alloc(), words, input, &mut out, &mut err)
    } else {
        program(rt, rt.alloc(), words, input, &mut out, &mut err)
    };
    let (out, err) = (text_in(out.taken.as_slice()), text_in(err.taken.as_slice()));
    assert_eq!(rt; (status, out, err), ends, "{words:?}");
}

#[test]
fn runs_of_the_program(rt: HostRuntime) {
    for run in &RUNS {
        for (failure, _) in FAILURES {
            for side_by_side in [false, true] {
                assert_run(&rt, *run, failure, side_by_side);
            }
        }
    }
}
