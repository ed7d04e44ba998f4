//! Whole reports of small traces, each by an example that was worked out by hand.

use crate::output::Output;
use crate::tests::helpers::{assert_text, session_of};
use std::test::Fail;

// Traces, each with the version of its header and its records, and the report of them all.
static REPORTS: [(&[&str], &str); 35] = [
    // Circles, which recursive readers may break, and dependencies off them.
    (
        &[
            "1 acq,A,0,w acq,B,0,w rel,B,0 rel,A,0",
            "1 acq,B,0,w acq,A,0,w rel,A,0 rel,B,0",
        ],
        "traces 2\nevents 8\nkeys 2\ndependencies 2\nclean no\nusage A/0 {+.+.}\nusage B/0 {+.+.}\ncircle A/0 EN B/0\ncircle B/0 EN A/0\nbecause A/0 EN B/0 EN A/0\n",
    ),
    (
        &[
            "1 acq,A,0,w acq,B,0,w",
            "1 acq,B,0,w acq,C,0,w",
            "1 acq,C,0,w acq,A,0,w",
            "1 acq,A,0,w acq,D,0,w",
        ],
        "traces 4\nevents 8\nkeys 4\ndependencies 4\nclean no\nusage A/0 {+.+.}\nusage B/0 {+.+.}\nusage C/0 {+.+.}\nusage D/0 {+.+.}\ncircle A/0 EN B/0\ncircle B/0 EN C/0\ncircle C/0 EN A/0\nbecause A/0 EN B/0 EN C/0 EN A/0\n",
    ),
    (
        &["1 acq,A,0,w acq,B,0,rr acq,C,0,w", "1 acq,C,0,w acq,A,0,w"],
        "traces 2\nevents 5\nkeys 3\ndependencies 4\nclean no\nusage A/0 {+.+.}\nusage B/0 {.+.+}\nusage C/0 {+.+.}\ncircle A/0 EN C/0\ncircle C/0 EN A/0\nbecause A/0 EN C/0 EN A/0\n",
    ),
    (
        &["1 acq,A,0,w acq,B,0,rr", "1 acq,B,0,rr acq,A,0,w"],
        "traces 2\nevents 4\nkeys 2\ndependencies 2\nclean yes\nusage A/0 {+.+.}\nusage B/0 {.+.+}\n",
    ),
    (
        &["1 acq,A,0,w acq,B,0,rr", "1 acq,B,0,w acq,A,0,w"],
        "traces 2\nevents 4\nkeys 2\ndependencies 2\nclean no\nusage A/0 {+.+.}\nusage B/0 {++++}\ncircle A/0 ER B/0\ncircle B/0 EN A/0\nbecause A/0 ER B/0 EN A/0\n",
    ),
    // Two circles, of which the shorter is spelled out, although the longer one has the lesser key.
    (
        &[
            "1 acq,X,0,w acq,Y,0,w rel,Y,0 rel,X,0",
            "1 acq,Y,0,w acq,X,0,w rel,X,0 rel,Y,0",
            "1 acq,A,0,w acq,B,0,w",
            "1 acq,B,0,w acq,C,0,w",
            "1 acq,C,0,w acq,A,0,w",
            "1 acq,A,0,w acq,D,0,w",
        ],
        "traces 6\nevents 16\nkeys 6\ndependencies 6\nclean no\nusage A/0 {+.+.}\nusage B/0 {+.+.}\nusage C/0 {+.+.}\nusage D/0 {+.+.}\nusage X/0 {+.+.}\nusage Y/0 {+.+.}\ncircle A/0 EN B/0\ncircle B/0 EN C/0\ncircle C/0 EN A/0\ncircle X/0 EN Y/0\ncircle Y/0 EN X/0\nbecause X/0 EN Y/0 EN X/0\n",
    ),
    // A circle is spelled out from its least key on, whatever its number.
    (
        &[
            "1 acq,c,0,w acq,a,1,r",
            "1 acq,a,1,w acq,b,0,w",
            "1 acq,b,0,w acq,c,0,w",
        ],
        "traces 3\nevents 6\nkeys 3\ndependencies 3\nclean no\nusage a/1 {++++}\nusage b/0 {+.+.}\nusage c/0 {+.+.}\ncircle a/1 EN b/0\ncircle b/0 EN c/0\ncircle c/0 EN a/1\nbecause a/1 EN b/0 EN c/0 EN a/1\n",
    ),
    // Circles that pass a key twice, or reach it by two letters, both of which the walk continues from.
    (
        &[
            "1 acq,X,0,w acq,Y,0,rr",
            "1 acq,Y,0,r acq,X,0,w",
            "1 acq,Y,0,w acq,Z,0,w",
            "1 acq,Z,0,w acq,Y,0,w",
        ],
        "traces 4\nevents 8\nkeys 3\ndependencies 4\nclean no\nusage X/0 {+.+.}\nusage Y/0 {++++}\nusage Z/0 {+.+.}\ncircle X/0 ER Y/0\ncircle Y/0 SN X/0\ncircle Y/0 EN Z/0\ncircle Z/0 EN Y/0\nbecause Y/0 EN Z/0 EN Y/0\n",
    ),
    (
        &["1 acq,X,0,w acq,Y,0,rr", "1 acq,Y,0,r acq,X,0,w"],
        "traces 2\nevents 4\nkeys 2\ndependencies 2\nclean yes\nusage X/0 {+.+.}\nusage Y/0 {.+.+}\n",
    ),
    (
        &[
            "1 acq,A,0,w acq,B,0,rr",
            "1 acq,A,0,w acq,C,0,w",
            "1 acq,C,0,w acq,B,0,w",
            "1 acq,B,0,r acq,D,0,w",
            "1 acq,D,0,w acq,A,0,w",
        ],
        "traces 5\nevents 10\nkeys 4\ndependencies 5\nclean no\nusage A/0 {+.+.}\nusage B/0 {++++}\nusage C/0 {+.+.}\nusage D/0 {+.+.}\ncircle A/0 EN C/0\ncircle B/0 SN D/0\ncircle C/0 EN B/0\ncircle D/0 EN A/0\nbecause A/0 EN C/0 EN B/0 SN D/0 EN A/0\n",
    ),
    // Locks that one task takes twice, and that it releases out of order.
    (
        &["1 acq,A,0,rr acq,A,0,rr"],
        "traces 1\nevents 2\nkeys 1\ndependencies 1\nclean yes\nusage A/0 {.+.+}\n",
    ),
    (
        &["1 acq,A,0,w acq,A,0,rr"],
        "traces 1\nevents 2\nkeys 1\ndependencies 1\nclean no\nusage A/0 {++++}\ncircle A/0 ER A/0\nbecause A/0 ER A/0\n",
    ),
    (
        &["1 acq,A,0,r acq,A,0,r"],
        "traces 1\nevents 2\nkeys 1\ndependencies 1\nclean no\nusage A/0 {.+.+}\ncircle A/0 SN A/0\nbecause A/0 SN A/0\n",
    ),
    (
        &["1 acq,m,0,w acq,m,1,w"],
        "traces 1\nevents 2\nkeys 2\ndependencies 1\nclean yes\nusage m/0 {+.+.}\nusage m/1 {+.+.}\n",
    ),
    (
        &["1 acq,A,0,w acq,B,0,w rel,A,0 acq,C,0,w"],
        "traces 1\nevents 4\nkeys 3\ndependencies 2\nclean yes\nusage A/0 {+.+.}\nusage B/0 {+.+.}\nusage C/0 {+.+.}\n",
    ),
    (
        &["1 acq,A,0,rr acq,A,0,w rel,A,0 acq,B,0,w"],
        "traces 1\nevents 4\nkeys 2\ndependencies 2\nclean no\nusage A/0 {++++}\nusage B/0 {+.+.}\ncircle A/0 SN A/0\nbecause A/0 SN A/0\n",
    ),
    // Locks that are used in interrupts, held outside them, and held while interrupts are turned on.
    (
        &["1 acq,A,0,w enter,hardirq acq,B,0,w rel,B,0 leave"],
        "traces 1\nevents 5\nkeys 2\ndependencies 0\nclean yes\nusage A/0 {+.+.}\nusage B/0 {-...}\n",
    ),
    (
        &[
            "1 enter,hardirq acq,L,0,w rel,L,0 leave",
            "1 acq,L,0,w rel,L,0",
        ],
        "traces 2\nevents 6\nkeys 1\ndependencies 0\nclean no\nusage L/0 {?.+.}\ndouble hardirq L/0\n",
    ),
    (
        &[
            "1 enter,hardirq acq,L,0,r rel,L,0 leave",
            "1 acq,L,0,r rel,L,0",
        ],
        "traces 2\nevents 6\nkeys 1\ndependencies 0\nclean yes\nusage L/0 {.?.+}\n",
    ),
    (
        &["1 off,hardirq acq,A,0,w on,hardirq"],
        "traces 1\nevents 3\nkeys 1\ndependencies 0\nclean yes\nusage A/0 {+.+.}\n",
    ),
    (
        &["1 off,hardirq acq,A,0,w"],
        "traces 1\nevents 2\nkeys 1\ndependencies 0\nclean yes\nusage A/0 {....}\n",
    ),
    // A lock of an interrupt before one that the interrupt can break into, by writers and by readers.
    (
        &[
            "1 enter,softirq acq,A,0,w rel,A,0 leave",
            "1 off,softirq acq,A,0,w acq,B,0,w rel,B,0 rel,A,0 on,softirq",
            "1 acq,B,0,w rel,B,0",
        ],
        "traces 3\nevents 12\nkeys 2\ndependencies 1\nclean no\nusage A/0 {+.-.}\nusage B/0 {+.+.}\ninversion softirq A/0 B/0\n",
    ),
    (
        &[
            "1 enter,softirq acq,A,0,w rel,A,0 leave",
            "1 off,softirq acq,A,0,w acq,B,0,w rel,B,0 rel,A,0 on,softirq",
        ],
        "traces 2\nevents 10\nkeys 2\ndependencies 1\nclean yes\nusage A/0 {+.-.}\nusage B/0 {+...}\n",
    ),
    (
        &[
            "1 enter,hardirq acq,A,0,r rel,A,0 leave",
            "1 off,hardirq acq,A,0,r acq,B,0,w rel,B,0 rel,A,0",
            "1 acq,B,0,w rel,B,0",
        ],
        "traces 3\nevents 11\nkeys 2\ndependencies 1\nclean yes\nusage A/0 {.-..}\nusage B/0 {+.+.}\n",
    ),
    (
        &[
            "1 enter,hardirq acq,A,0,r rel,A,0 leave",
            "1 off,hardirq acq,A,0,w acq,B,0,w rel,B,0 rel,A,0",
            "1 acq,B,0,w rel,B,0",
        ],
        "traces 3\nevents 11\nkeys 2\ndependencies 1\nclean no\nusage A/0 {.-..}\nusage B/0 {+.+.}\ninversion hardirq A/0 B/0\n",
    ),
    (
        &[
            "1 enter,hardirq acq,A,0,w rel,A,0 leave",
            "1 off,hardirq acq,A,0,w acq,B,0,rr rel,B,0 rel,A,0",
            "1 acq,B,0,rr rel,B,0",
        ],
        "traces 3\nevents 11\nkeys 2\ndependencies 1\nclean yes\nusage A/0 {-...}\nusage B/0 {.+.+}\n",
    ),
    // A try makes no dependency into its lock and no mark of a use in an interrupt.
    (
        &["2 acq,A,0,w acq,B,0,tw", "2 acq,B,0,w acq,A,0,w"],
        "traces 2\nevents 4\nkeys 2\ndependencies 1\nclean yes\nusage A/0 {+.+.}\nusage B/0 {+.+.}\n",
    ),
    (
        &["2 acq,A,0,tw acq,B,0,w", "2 acq,B,0,w acq,A,0,w"],
        "traces 2\nevents 4\nkeys 2\ndependencies 2\nclean no\nusage A/0 {+.+.}\nusage B/0 {+.+.}\ncircle A/0 EN B/0\ncircle B/0 EN A/0\nbecause A/0 EN B/0 EN A/0\n",
    ),
    (
        &["2 acq,A,0,tw acq,B,0,w", "1 acq,B,0,w acq,A,0,w"],
        "traces 2\nevents 4\nkeys 2\ndependencies 2\nclean no\nusage A/0 {+.+.}\nusage B/0 {+.+.}\ncircle A/0 EN B/0\ncircle B/0 EN A/0\nbecause A/0 EN B/0 EN A/0\n",
    ),
    (
        &["2 acq,A,0,w acq,A,0,tw"],
        "traces 1\nevents 2\nkeys 1\ndependencies 0\nclean yes\nusage A/0 {+.+.}\n",
    ),
    (
        &["2 acq,A,0,trr acq,B,0,w", "2 acq,B,0,w acq,A,0,rr"],
        "traces 2\nevents 4\nkeys 2\ndependencies 2\nclean yes\nusage A/0 {.+.+}\nusage B/0 {+.+.}\n",
    ),
    (
        &[
            "2 enter,hardirq acq,L,0,tw rel,L,0 leave",
            "2 acq,L,0,w rel,L,0",
        ],
        "traces 2\nevents 6\nkeys 1\ndependencies 0\nclean yes\nusage L/0 {+.+.}\n",
    ),
    (
        &[
            "2 enter,hardirq acq,L,0,w rel,L,0 leave",
            "2 acq,L,0,tw rel,L,0",
        ],
        "traces 2\nevents 6\nkeys 1\ndependencies 0\nclean no\nusage L/0 {?.+.}\ndouble hardirq L/0\n",
    ),
    // No events, and no traces.
    (
        &["1"],
        "traces 1\nevents 0\nkeys 0\ndependencies 0\nclean yes\n",
    ),
    (
        &[],
        "traces 0\nevents 0\nkeys 0\ndependencies 0\nclean yes\n",
    ),
];

#[test]
fn reports_of_small_traces(rt: HostRuntime) -> Result<(), Fail> {
    for example in &REPORTS {
        let (traces, report) = *example;
        let session = session_of(rt.alloc(), traces)?;
        let returned = Ok(report.contains("clean yes"));
        assert_text(&rt, session, Output::Report, 4, (returned, report));
    }
    Ok(())
}
