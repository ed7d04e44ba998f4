//! What a refused request for memory, or for a thread, leaves. In an ordinary run none is refused: `tests/sweep` runs
//! each of these tests with its first request refused, its second, and so on, and counts the lines that they print.

use super::run_over;
use ld_facts::Facts;
use ld_run::{Board, BoardFault, OpenGate, RunFault};
use ld_trace::RawTrace;
use std::alloc::Global;
use std::io::Print;
use std::process::Abort;
use std::sync::Wait;
use std::test::Fail;
use std::thread::Threads;
use tests_low::steps::Step::{Give, Write};
use tests_low::steps::{A, B, traces_of};

// Two locks that two traces take in both orders; None if memory was refused.
fn traces(alloc: Global) -> Option<Vec<RawTrace>> {
    traces_of(
        alloc,
        &[
            &[Write(A), Write(B), Give(B), Give(A)],
            &[Write(B), Write(A), Give(A), Give(B)],
        ],
        1,
    )
}

// Runs two locks that two traces take in both orders, of this number of keys. A run that is refused returns N4, and the same run
// then succeeds.
fn runs(
    rt: &(impl Threads + Wait + Sync + Abort + AllocGlobal + Print),
    keys: u16,
    workers: u16,
) -> Result<(), Fail> {
    let both = match traces(rt.alloc()) {
        Some(both) => both,
        None => traces(rt.alloc()).ok_or("no traces")?,
    };
    let settled = match run_over(rt, rt.alloc(), &both, keys, workers, &OpenGate) {
        Ok(settled) => settled,
        Err(fault) => {
            println!(rt; "refused: {}", fault.code())?;
            assert_eq!(rt; fault, RunFault::Memory);
            run_over(rt, rt.alloc(), &both, keys, workers, &OpenGate)?
        }
    };
    assert!(rt; settled.dependencies() == 2 && !settled.is_clean());
    Ok(())
}

#[test]
fn want_of_memory_in_a_run_of_one_worker(rt: HostRuntime) -> Result<(), Fail> {
    runs(&rt, 2, 1)
}

#[test]
fn want_of_memory_in_a_run_of_four_workers(rt: HostRuntime) -> Result<(), Fail> {
    runs(&rt, 2, 4)
}

#[test]
fn want_of_memory_in_a_run_of_many_keys(rt: HostRuntime) -> Result<(), Fail> {
    runs(&rt, 300, 1)
}

// What is on a board that is opened and closed.
fn opened_and_closed(alloc: Global) -> Result<Facts, BoardFault> {
    let (board, seats) = Board::open(alloc, 2, 2)?;
    board.close(seats)
}

#[test]
fn want_of_memory_for_a_board(rt: HostRuntime) -> Result<(), Fail> {
    let facts = match opened_and_closed(rt.alloc()) {
        Ok(facts) => facts,
        Err(fault) => {
            println!(&rt; "refused: {}", fault.code())?;
            assert_eq!(rt; fault.code(), "C2 Memory");
            opened_and_closed(rt.alloc())?
        }
    };
    assert!(rt; facts.keys() == 2 && facts.dependencies() == 0 && facts.marks() == 0);
    Ok(())
}
