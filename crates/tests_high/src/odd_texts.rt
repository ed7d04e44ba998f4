//! Odd texts that are read together.

ghost use Rattle.std.specs.Prelude.{None};

use crate::ahead::{Stop, are_read};
use ld_read::Sources;
use ld_trace::TraceFaultKind;
use std::alloc::Global;
use std::process::Abort;
use std::sync::Wait;
use std::thread::Threads;

// Texts as sources.
#[derive(Clone, Copy)]
struct Texts<'t> {
    texts: &'t [&'t str],
}

impl<'t> Texts<'t> {
    fn text(&self, place: usize) -> Option<&'t [u8]> {
        let text = *self.texts.get(place)?;
        Some(text.as_bytes())
    }
}

impl<'t> Sources for Texts<'t> {
    type Source = &'t [u8];

    ghost holds = { λ texts place. None };

    fn ahead(&self, place: usize) -> Option<&'t [u8]> {
        self.text(place)
    }

    fn open(&self, place: usize) -> Option<&'t [u8]> {
        self.text(place)
    }
}

// Texts; those that the traces are written as which can be read; what stops the next one; and the names then.
type Case<'t> = (&'t [&'t str], &'t [&'t str], Stop, &'t [&'t str]);

static CASES: [Case<'_>; 9] = [
    (
        &[
            "lockdep,1\nacq,B,0,w\n",
            "lockdep,1\nacq,A,0,w\nacq,B,0,r\n",
            "lockdep,2\nacq,A,0,tw\n",
        ],
        &[
            "lockdep,1\nacq,B,0,w\n",
            "lockdep,1\nacq,A,0,w\nacq,B,0,r\n",
            "lockdep,2\nacq,A,0,tw\n",
        ],
        None,
        &["B", "A"],
    ),
    // A quote that is open at the end of a text ends there.
    (
        &["lockdep,1\nacq,\"A", "lockdep,1\nacq,\"B\",0,w\n"],
        &[],
        Some((TraceFaultKind::BadRecord, 2)),
        &[],
    ),
    // A text that has the record `.` is no trace, though two traces can be made of it.
    (
        &[
            "lockdep,1\nacq,A,0,w\n.\nlockdep,1\nrel,A,0\n",
            "lockdep,1\nacq,B,0,w\n",
        ],
        &[],
        Some((TraceFaultKind::BadRecord, 3)),
        &["A"],
    ),
    // Neither is an empty text.
    (
        &["lockdep,1\nacq,A,0,w\n", "", "lockdep,1\nacq,B,0,w\n"],
        &["lockdep,1\nacq,A,0,w\n"],
        Some((TraceFaultKind::NoHeader, 1)),
        &["A"],
    ),
    // The last line needs no newline.
    (
        &["lockdep,1\nacq,A,0,w", "lockdep,1", "lockdep,1\nacq,B,0,w"],
        &[
            "lockdep,1\nacq,A,0,w\n",
            "lockdep,1\n",
            "lockdep,1\nacq,B,0,w\n",
        ],
        None,
        &["A", "B"],
    ),
    // Lines may end with CR LF, or with CR alone.
    (
        &[
            "lockdep,1\r\nacq,A,0,w\r\n",
            "lockdep,1\racq,B,0,w\r",
            "\r\n\nlockdep,1\n\n",
        ],
        &[
            "lockdep,1\nacq,A,0,w\n",
            "lockdep,1\nacq,B,0,w\n",
            "lockdep,1\n",
        ],
        None,
        &["A", "B"],
    ),
    // A byte order mark may stand before the first text.
    (
        &["\u{FEFF}lockdep,1\nacq,A,0,w\n", "lockdep,1\nacq,B,0,w\n"],
        &["lockdep,1\nacq,A,0,w\n", "lockdep,1\nacq,B,0,w\n"],
        None,
        &["A", "B"],
    ),
    // One may stand before another as well.
    (
        &["lockdep,1\nacq,A,0,w\n", "\u{FEFF}lockdep,1\nacq,B,0,w\n"],
        &["lockdep,1\nacq,A,0,w\n", "lockdep,1\nacq,B,0,w\n"],
        None,
        &["A", "B"],
    ),
    (
        &["lockdep,1\nacq,A,0,w\n", "lockdep,1\nacq,B,9,w\n"],
        &["lockdep,1\nacq,A,0,w\n"],
        Some((TraceFaultKind::BadSub, 2)),
        &["A"],
    ),
];

// Whether this many threads give what the case says.
fn reads<R: Threads + Wait + Sync + Abort>(
    rt: &R,
    alloc: Global,
    threads: usize,
    case: &Case<'_>,
) -> Option<bool> {
    let (texts, written, stop, names) = *case;
    let wanted = (written, stop, names);
    are_read(rt, alloc, threads, (&Texts { texts }, texts.len()), wanted)
}

#[test]
fn odd_texts_are_read_one_by_one(rt: HostRuntime) {
    for case in &CASES {
        for threads in [0, 1, 2, 4] {
            assert_eq!(rt; reads(&rt, rt.alloc(), threads, case), Some(true));
        }
    }
}
