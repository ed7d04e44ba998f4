//! What a refused request for memory leaves. In an ordinary run none is refused: `tests/sweep` runs this test with its
//! first request refused, its second, and so on, and counts the lines that it prints.

use crate::origins::are_run;
use ld_explain::{Asked, Evidence, Naming, Origin};
use ld_facts::Fact;
use ld_graph::Kind;
use ld_trace::RawTrace;
use std::alloc::Global;
use std::io::Print;
use std::process::Abort;
use std::sync::Wait;
use std::test::Fail;
use std::thread::Threads;
use tests_low::steps::Step::{Give, Write};
use tests_low::steps::{A, B, traces_of};

// The one dependency.
const ORDER: Fact = Fact::Dependency {
    from: A,
    to: B,
    kind: Kind::En,
};

// A trace of two locks; None if memory was refused.
fn traces(alloc: Global) -> Option<Vec<RawTrace>> {
    traces_of(alloc, &[&[Write(A), Write(B), Give(B), Give(A)]], 1)
}

// It is asked about; None if memory was refused.
fn order_asked_about(alloc: Global) -> Option<Asked> {
    let mut asked = Asked::new(alloc, 2).ok()?;
    asked.add(ORDER);
    Some(asked)
}

// The origin of the one dependency; None if memory was refused.
fn origin(
    rt: &(impl Threads + Wait + Sync + Abort + AllocGlobal),
    traces: &[RawTrace],
) -> Option<Option<Origin>> {
    let asked = order_asked_about(rt.alloc())?;
    if !are_run(rt, rt.alloc(), traces) {
        return None;
    }
    let evidence = Evidence::of(rt.alloc(), traces, Naming::Own, &asked).ok()?;
    Some(evidence.origins.origin(ORDER))
}

#[test]
fn want_of_memory_for_origins(rt: HostRuntime) -> Result<(), Fail> {
    let both = match traces(rt.alloc()) {
        Some(both) => both,
        None => traces(rt.alloc()).ok_or("no traces")?,
    };
    let found = match origin(&rt, &both) {
        Some(found) => found,
        None => {
            println!(&rt; "refused: memory")?;
            origin(&rt, &both).ok_or("no origins")?
        }
    };
    let expected = Origin {
        trace: 0,
        place: 1,
        held: Some(0),
    };
    assert_eq!(rt; found, Some(expected));
    Ok(())
}
