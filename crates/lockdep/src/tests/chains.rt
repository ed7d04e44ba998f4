//! The chains of small traces, each on writers that fail at each call and on one that doesn't.

use crate::tests::helpers::trace_text;
use crate::tests::writers::{FAILURES, Narrow};
use ld_task::check;
use ld_text::{WriteFault, write_chains};
use ld_trace::{KeyTable, read_trace};
use std::alloc::Global;
use std::io;
use std::process::Abort;
use std::test::Fail;

// Traces, each with the version of its header and its records, and their chains.
static CHAINS: [(&str, &str); 6] = [
    (
        "1 acq,A,0,w acq,B,0,w rel,A,0 acq,C,0,w",
        "acq A/0 w task on on held 0\nacq B/0 w task on on held 1 A/0 w\nacq C/0 w task on on held 1 B/0 w\n",
    ),
    (
        "1 acq,A,0,rr acq,A,0,w rel,A,0 acq,B,0,w",
        "acq A/0 rr task on on held 0\nacq A/0 w task on on held 1 A/0 rr\nacq B/0 w task on on held 1 A/0 rr\n",
    ),
    (
        "1 off,hardirq acq,A,0,w on,hardirq",
        "acq A/0 w task off on held 0\non on on held 1 A/0 w\n",
    ),
    (
        "1 acq,A,0,w enter,softirq acq,B,7,r enter,hardirq acq,C,0,rr",
        "acq A/0 w task on on held 0\nacq B/7 r softirq on off held 0\nacq C/0 rr hardirq off off held 0\n",
    ),
    ("1 \"acq\",\"a,b\",0,rr", "acq a,b/0 rr task on on held 0\n"),
    (
        "2 acq,A,0,w acq,B,0,tr acq,C,0,trr on,hardirq",
        "acq A/0 w task on on held 0\nacq B/0 tr task on on held 1 A/0 w\nacq C/0 trr task on on held 2 A/0 w B/0 tr\non on on held 3 A/0 w B/0 tr C/0 trr\n",
    ),
];

// What writing the chains of this trace on this writer returns.
fn chains_on(alloc: Global, trace: &str, w: &mut Narrow) -> Result<Result<(), WriteFault>, Fail> {
    let text = trace_text(alloc, trace)?;
    let mut keys = KeyTable::new(alloc)?;
    let trace = check(read_trace(alloc, text.as_slice(), &mut keys)?)?;
    Ok(write_chains(w, &trace, &keys))
}

// Asserts what writing the chains returns if the writer fails in this way after `done` bytes, and that it has taken
// these.
fn assert_chains(
    rt: &(impl Abort + AllocGlobal),
    (trace, chains): (&str, &str),
    done: usize,
    (failure, fault): (Option<io::ErrorKind>, WriteFault),
) -> Result<(), Fail> {
    let mut w = Narrow::new(rt.alloc(), done.saturating_add(1), failure);
    let returned = chains_on(rt.alloc(), trace, &mut w)?;
    let wanted = if done < chains.len() {
        Err(fault)
    } else {
        Ok(())
    };
    assert_eq!(rt;
        (returned, Some(w.taken.as_slice())),
        (wanted, chains.as_bytes().get(..done))
    );
    Ok(())
}

// The same at each place of the chains.
fn assert_all_chains(rt: &(impl Abort + AllocGlobal), example: (&str, &str)) -> Result<(), Fail> {
    for done in 0..=example.1.len() {
        for failure in FAILURES {
            assert_chains(rt, example, done, failure)?;
        }
    }
    Ok(())
}

#[test]
fn chains_of_small_traces(rt: HostRuntime) -> Result<(), Fail> {
    for example in &CHAINS {
        assert_all_chains(&rt, *example)?;
    }
    Ok(())
}
