//! Boards, and workers in threads of the caller's own.

ghost use Rattle.std.specs.Prelude.{◌≡◌, ◌≤◌, All, IfOk, IsTrue, length};
ghost use Rattle.ld_trace.specs.Events.{KeysBelow};
ghost use Rattle.ld_board.specs.Boards.{keys_of, IsSeatOf};
ghost use Rattle.ld_board.specs.Seats.{view};
ghost use Rattle.ld_board.specs.Views.{newcomer};

use crate::runs::gates::{Meeting, one_lock_each};
use ld_book::{Book, LockedBook};
use ld_facts::Facts;
use ld_graph::Mark;
use ld_run::{Board, BoardFault, MAX_TRACES, Seat, Worked, work};
use ld_task::Chain;
use ld_trace::RawTrace;
use std::alloc::{AllocError, Global};
use std::sync::Wait;
use std::test::Fail;
use std::thread;
use std::thread::Threads;
use tests_low::steps::Step::{Give, Write};
use tests_low::steps::{A, B, C, chains_of, last_chain};

// The chains of one trace that takes the first lock, the second under it, releases the first and takes the third.
fn released_between(alloc: Global) -> Result<Vec<Chain>, Fail> {
    Ok(chains_of(alloc, &[&[Write(A), Write(B), Give(A), Write(C)]]).ok_or("no chains")?)
}

// How many numbers a thread claims.
const CLAIMS: usize = 1000;

// A seat, and the numbers that were claimed with it.
#[derive(Drop)]
struct Claimed {
    seat: Seat,
    numbers: [u64; CLAIMS],
}

fn claim_many(board: &Board, mut seat: Seat) -> Claimed
    requires { IsSeatOf board.now seat × (view seat ≡ newcomer 1) }
    ensures { IsSeatOf board.now result.seat }
{
    let mut numbers = [0; CLAIMS];
    for n in 0..CLAIMS {
        numbers[n] = board.claim(&mut seat);
    }
    Claimed { seat, numbers }
}

fn claim_in_threads<R: Threads + Sync>(
    rt: &R,
    board: &Board,
    seats: Vec<Seat>,
) -> Result<Vec<Claimed>, AllocError>
    requires { All (λ s. IsSeatOf board.now s × (view s ≡ newcomer 1)) seats.items }
    ensures { IfOk result (λ done. All (λ c. IsSeatOf board.now c.seat) done.items) }
{
    thread::map_vec(
        rt,
        seats,
        &|seat: Seat| -> Claimed
            requires { IsSeatOf board.now seat × (view seat ≡ newcomer 1) }
            ensures { IsSeatOf board.entry.now result.seat }
        { claim_many(board, seat) },
    )
}

// Whether each number below `2 * CLAIMS` was claimed once.
fn are_all(one: &[u64; CLAIMS], two: &[u64; CLAIMS]) -> bool {
    let mut seen = [false; 2 * CLAIMS];
    for number in one.iter().chain(two) {
        let Some(place) = seen.get_mut(*number as usize) else {
            return false;
        };
        if *place {
            return false;
        }
        *place = true;
    }
    true
}

// The facts of a board of two seats.
fn close_two(alloc: Global, board: Board, one: Seat, two: Seat) -> Result<Facts, Fail>
    requires { IsSeatOf board one × IsSeatOf board two }
{
    let mut back = Vec::new(alloc);
    back.push(one)?;
    back.push(two)?;
    Ok(board.close(back)?)
}

#[test]
fn two_threads_claim_each_number_once(rt: HostRuntime) -> Result<(), Fail> {
    let (board, seats) = Board::open(rt.alloc(), 3, 2)?;
    let mut done = claim_in_threads(&rt, &board, seats)?;
    let (Some(two), Some(one)) = (done.pop(), done.pop()) else {
        panic!(rt; "a seat was lost")
    };
    assert!(rt; are_all(&one.numbers, &two.numbers));
    let Claimed { seat: mut one, .. } = one;
    let Claimed { seat: two, .. } = two;
    let chains = released_between(rt.alloc())?;
    assert!(rt; chains.len() == 3 && chains[0].keys_below(3));
    assert!(rt; !board.covers(&mut one, &chains[0]));
    board.put(&mut one, &chains[0]);
    assert!(rt; board.covers(&mut one, &chains[0]));
    let facts = close_two(rt.alloc(), board, one, two)?;
    let mut alone = Facts::new(rt.alloc(), 3)?;
    alone.add_chain(&chains[0]);
    assert!(rt; facts.same(&alone));
    Ok(())
}

#[test]
fn covers_other(rt: HostRuntime) -> Result<(), Fail> {
    let (board, mut seats) = Board::open(rt.alloc(), 3, 2)?;
    let (Some(mut two), Some(mut one)) = (seats.pop(), seats.pop()) else {
        panic!(rt; "no seats")
    };
    let chains = released_between(rt.alloc())?;
    assert!(rt; chains.len() == 3 && chains[0].keys_below(3) && chains[1].keys_below(3));
    board.put(&mut one, &chains[0]);
    assert!(rt; board.covers(&mut two, &chains[0]) && !board.covers(&mut two, &chains[1]));
    Ok(())
}

#[test]
fn a_seat_counts_its_claims(rt: HostRuntime) -> Result<(), Fail> {
    let (board, mut seats) = Board::open(rt.alloc(), 2, 1)?;
    let Some(mut seat) = seats.pop() else {
        panic!(rt; "no seat")
    };
    assert!(rt; seat.claims_left() == 4_294_967_296);
    assert!(rt; board.claim(&mut seat) == 0 && seat.claims_left() == 4_294_967_295);
    assert!(rt; board.claim(&mut seat) == 1 && seat.claims_left() == 4_294_967_294);
    Ok(())
}

#[test]
fn seats_that_are_refused(rt: HostRuntime) -> Result<(), Fail> {
    for seats in [0, 66] {
        assert!(rt; matches!(Board::open(rt.alloc(), 2, seats), Err(BoardFault::Seats)));
    }
    let (board, mut seats) = Board::open(rt.alloc(), 2, 65)?;
    drop(seats.pop());
    assert!(rt; matches!(board.close(seats), Err(BoardFault::Seats)));
    Ok(())
}

// Whether all keys of the traces are below the bound.
fn are_below(traces: &[RawTrace], keys: u16) -> bool
    ensures { IsTrue result → All (KeysBelow keys) traces.now }
{
    traces.iter().all(|trace| trace.keys_below(keys))
}

// Each seat goes to a worker in a thread of its own.
fn work_in_threads<R: Threads + Wait + Sync>(
    rt: &R,
    board: &Board,
    seats: Vec<Seat>,
    book: &LockedBook,
    traces: &[RawTrace],
    gate: &Meeting,
) -> Result<Vec<Worked>, AllocError>
    requires seats { All (λ s. IsSeatOf board.now s × (view s ≡ newcomer 1)) seats.items }
    requires below { All (KeysBelow (keys_of board.now)) traces.now }
    requires traces { length traces.now ≤ MAX_TRACES }
    ensures { IfOk result (λ done. All (λ w. IsSeatOf board.now w.seat) done.items) }
{
    thread::map_vec(
        rt,
        seats,
        &|seat: Seat| -> Worked
            requires { IsSeatOf board.now seat × (view seat ≡ newcomer 1) × (length traces.now ≤ MAX_TRACES) × All (KeysBelow (keys_of board.now)) traces.now }
            ensures { IsSeatOf board.entry.now result.seat }
        { work(rt, board, seat, book, traces, gate) },
    )
}

// Whether the book has the chain of each of the two traces, with its trace's number.
fn are_recorded(book: &Book) -> Option<bool> {
    let ((one, first), (other, second)) = (book.entry(0)?, book.entry(1)?);
    let first_is_own = *first == own_chain(one)?;
    Some(book.len() == 2 && one != other && first_is_own && *second == own_chain(other)?)
}

// The only chain of the trace with this number.
fn own_chain(trace: u32) -> Option<Chain> {
    match trace {
        0 => last_chain(&[Write(A)]),
        1 => last_chain(&[Write(B)]),
        _ => None,
    }
}

#[test]
fn two_workers_in_threads_of_the_callers_own(rt: HostRuntime) -> Result<(), Fail> {
    let traces = one_lock_each(rt.alloc()).ok_or("no traces")?;
    assert!(rt; traces.len() == 2);
    let (board, seats) = Board::open(rt.alloc(), 2, 2)?;
    let book = LockedBook::new(Book::new(rt.alloc(), 2, 2)?);
    let gate = Meeting::new();
    assert!(rt; are_below(&traces, 2));
    let mut done = work_in_threads(&rt, &board, seats, &book, &traces, &gate)?;
    let (Some(two), Some(one)) = (done.pop(), done.pop()) else {
        panic!(rt; "a seat was lost")
    };
    assert!(rt; gate.was_held() && !one.lost && !two.lost);
    let Worked { seat: one, .. } = one;
    let Worked { seat: two, .. } = two;
    let facts = close_two(rt.alloc(), board, one, two)?;
    assert!(rt; facts.has_mark(A, Mark::Used) && facts.has_mark(B, Mark::Used));
    assert_eq!(rt; are_recorded(&book.into_book()), Some(true));
    Ok(())
}
