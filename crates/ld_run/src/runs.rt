//! A run: workers over many traces.

ghost use Rattle.std.specs.Prelude.{◌≡◌, ◌+◌, ◌≤◌, ◌<◌, ◌↔◌, ◌++◌, ℕ, List, All, IfOk, IfErr, IsErrOf, IsFalse, OnOk, count_by, length, map, sum_by, vec_capacity, vec_len};
ghost use Rattle.ld_trace.specs.declared.event.Event.{Event};
ghost use Rattle.ld_trace.specs.declared.key_id.TheConstants.{MAX_KEYS};
ghost use Rattle.ld_trace.specs.Events.{KeysBelow};
ghost use Rattle.ld_task.specs.Events.{makes_chain};
ghost use Rattle.ld_run.specs.Runs.{CompletesRun, EndsRun, IsCrew, StopsRun};
ghost use Rattle.ld_board.specs.Boards.{keys_of, IsSeatOf};
ghost use Rattle.ld_board.specs.Seats.{view};
ghost use Rattle.ld_board.specs.Views.{newcomer};
ghost use Rattle.ld_run.specs.Work.{HasWorked};
ghost use Rattle.ld_run.specs.Inside.Crews.{HasDrawn, SomeHasDrawn, earlier_refused};
ghost use Rattle.ld_run.specs.Tallies.{IsTally, LeastRefusedIs};

use crate::fault::{RunFault, refused_by};
use crate::gate::Gate;
use crate::settling::settle;
use crate::surveys::survey;
use crate::worker::{OutOfMemory, Worked, work};
use ld_board::{Board, Seat};
use ld_book::{Book, LockedBook};
use ld_facts::Facts;
use ld_parts::Settled;
use ld_task::StepAt;
use ld_trace::{Event, GRAPH_KEYS, MAX_EVENTS, MAX_TRACES, RawTrace};
use std::alloc::{AllocError, Global};
use std::sync::Wait;
use std::thread;
use std::thread::Threads;

/// The most workers of a run.
pub const MAX_WORKERS: u16 = 64;

// What the workers of a run share besides the board, and how many there are.
#[derive(Clone, Copy)]
struct Crew<'a, R, G> {
    rt: &'a R,
    alloc: Global,
    workers: usize,
    book: &'a LockedBook,
    gate: &'a G,
}

/// Walks the traces, whose keys are below `keys`, with `workers` workers, each in a thread of its own. The workers
/// claim the traces from one board and put the facts of their chains on it; a chain that brings something new is
/// recorded in one book that all share, and the gate is called just before (see `work`). The result is the facts of all
/// traces together, if the book and the board agree on them. If a thread can't be made, the calling thread does its
/// work; if there are fewer traces than workers, no thread is made for those that would find nothing to do.
///
/// With more than 256 keys there is no board, no book and no call of the gate: each worker walks its share of the traces
/// and adds their facts to some of its own, for which 34 MB are reserved with 8,192 keys, and these are united.
///
/// The caller makes sure that all keys of the traces are below `keys`, and that `keys` is at most 8,192.
///
/// Refusals, in this order: N1 if `workers` isn't 1 to 64; N2 if there are more than 4,096 traces; N4 if memory is
/// refused; N5 if a trace isn't well formed, with the first such trace and its first event that isn't allowed; N3 if
/// the book and the board don't agree. With more than 256 keys there is M1 instead of N3, if they can't be split into
/// parts of at most 256 such that what is found among all keys is found in the parts, or N4 again if memory is refused
/// for the parts. The traces are only borrowed.
pub fn run<R: Threads + Wait + Sync, G: Gate + Sync>(
    rt: &R,
    alloc: Global,
    traces: &[RawTrace],
    keys: u16,
    workers: u16,
    gate: &G,
) -> Result<Settled, RunFault>
    requires few { keys ≤ MAX_KEYS }
    requires below { All (KeysBelow keys) traces.now }
    ensures ok { IfOk result (CompletesRun traces.now workers) }
    ensures keys { IfOk result (λ settled. settled.keys ≡ keys) }
    ensures bad_workers { IsErrOf result RunFault.BadWorkers ↔ (¬ IsCrew workers) }
    ensures too_many { IsErrOf result RunFault.TooManyTraces ↔ (IsCrew workers × (MAX_TRACES < length traces.now)) }
    ensures refused { IfErr result (StopsRun traces.now keys workers) }
{
    allow(workers, traces)?;
    if keys > GRAPH_KEYS {
        survey(rt, alloc, traces, keys, usize::from(workers))
    } else {
        complete(rt, alloc, traces, keys, usize::from(workers), gate)
    }
}

// Refuses numbers of workers and traces that a run doesn't take.
pub(crate) fn allow(workers: u16, traces: &[RawTrace]) -> Result<(), RunFault>
    ensures ok { OnOk result (IsCrew workers × (length traces.now ≤ MAX_TRACES)) }
    ensures bad_workers { IsErrOf result RunFault.BadWorkers ↔ (¬ IsCrew workers) }
    ensures too_many { IsErrOf result RunFault.TooManyTraces ↔ (IsCrew workers × (MAX_TRACES < length traces.now)) }
    ensures nothing_else { ¬ IsErrOf result RunFault.Unsettled × ¬ IsErrOf result RunFault.TooTangled }
    ensures refused { (keys : ℕ) → IfErr result (StopsRun traces.now keys workers) }
{
    if workers == 0 || workers > MAX_WORKERS {
        return Err(RunFault::BadWorkers);
    }
    if traces.len() > MAX_TRACES {
        return Err(RunFault::TooManyTraces);
    }
    Ok(())
}

// The run of at most 256 keys, for numbers of workers and traces that are allowed.
fn complete<R: Threads + Wait + Sync, G: Gate + Sync>(
    rt: &R,
    alloc: Global,
    traces: &[RawTrace],
    keys: u16,
    workers: usize,
    gate: &G,
) -> Result<Settled, RunFault>
    requires few { keys ≤ GRAPH_KEYS }
    requires below { All (KeysBelow keys) traces.now }
    requires crew { IsCrew workers }
    requires traces { length traces.now ≤ MAX_TRACES }
    ensures ok { IfOk result (CompletesRun traces.now workers) }
    ensures keys { IfOk result (λ settled. settled.keys ≡ keys) }
    ensures allowed { ¬ IsErrOf result RunFault.BadWorkers × ¬ IsErrOf result RunFault.TooManyTraces }
    ensures refused { IfErr result (StopsRun traces.now keys workers) }
{
    let Ok(book) = Book::new(alloc, keys, chain_count(traces)) else {
        return Err(RunFault::Memory);
    };
    let book = LockedBook::new(book);
    let crew = Crew {
        rt,
        alloc,
        workers: busy_workers(workers, traces.len()),
        book: &book,
        gate,
    };
    match gather(&crew, traces, keys) {
        Ok((facts, refused)) => conclude(book.into_book(), &facts, refused),
        Err(_) => Err(RunFault::Memory),
    }
}

// How many of the workers have something to do: no more than there are traces, and at least one.
fn busy_workers(workers: usize, traces: usize) -> usize
    requires { IsCrew workers }
    ensures { IsCrew result }
{
    workers.min(traces.max(1))
}

// The facts of the book, if all traces are well formed and it settles with what was gathered.
fn conclude(
    book: Book,
    together: &Facts,
    refused: Option<(usize, StepAt)>,
) -> Result<Settled, RunFault>
    ensures ends { (traces : List (List Event)) (keys workers : ℕ) → keys ≤ GRAPH_KEYS → IsCrew workers
        → length traces ≤ MAX_TRACES → IsTally traces together.now refused → EndsRun traces keys workers result }
    ensures keys { IfOk result (λ settled. settled.keys ≡ together.now.keys) }
    ensures allowed { ¬ IsErrOf result RunFault.BadWorkers × ¬ IsErrOf result RunFault.TooManyTraces }
{
    ld_facts::trace_facts_are_the_chains();
    ld_task::beginnings_keep_their_chains();
    match refused {
        None => settle(book, together),
        Some((trace, first)) => Err(refused_by(trace, first)),
    }
}

// Gathers the facts of all traces on a board, and returns them with the first trace that isn't well formed. The board
// has a seat for each worker, and one that stays here.
fn gather<R: Threads + Wait + Sync, G: Gate + Sync>(
    crew: &Crew<R, G>,
    traces: &[RawTrace],
    keys: u16,
) -> Result<(Facts, Option<(usize, StepAt)>), OutOfMemory>
    requires few { keys ≤ GRAPH_KEYS }
    requires below { All (KeysBelow keys) traces.now }
    requires crew { IsCrew crew.now.workers }
    requires traces { length traces.now ≤ MAX_TRACES }
    ensures keys { IfOk result (λ gathered. gathered.0.keys ≡ keys) }
    ensures tally { IfOk result (λ gathered. IsTally traces.now gathered.0 gathered.1) }
{
    let Ok((board, mut seats)) = Board::open(crew.alloc, keys, crew.workers + 1) else {
        return Err(OutOfMemory);
    };
    let Some(mine) = seats.pop() else {
        return Err(OutOfMemory);
    };
    let Ok(mut back) = Vec::with_capacity(crew.alloc, crew.workers + 1) else {
        return Err(OutOfMemory);
    };
    back.push_reserved(mine);
    let Ok(done) = work_in_threads(crew, &board, seats, traces) else {
        return Err(OutOfMemory);
    };
    let (back, refused) = hand_in(back, done)?;
    match board.close(back) {
        Ok(facts) => Ok((facts, refused)),
        Err(_) => Err(OutOfMemory),
    }
}

// Each seat goes to a worker in a thread of its own, or in this one if none can be made.
fn work_in_threads<R: Threads + Wait + Sync, G: Gate + Sync>(
    crew: &Crew<R, G>,
    board: &Board,
    seats: Vec<Seat>,
    traces: &[RawTrace],
) -> Result<Vec<Worked>, AllocError>
    requires seats { All (λ s. IsSeatOf board.now s × (view s ≡ newcomer 1)) seats.items }
    requires below { All (KeysBelow (keys_of board.now)) traces.now }
    requires traces { length traces.now ≤ MAX_TRACES }
    ensures len { IfOk result (λ done. vec_len done ≡ vec_len seats) }
    ensures each { IfOk result (λ done. All (λ w. IsSeatOf board.now w.seat × HasWorked (keys_of board.now) traces.now (newcomer 1) w) done.items) }
{
    thread::map_vec(
        crew.rt,
        seats,
        &|seat: Seat| -> Worked
            requires { IsSeatOf board.now seat × (view seat ≡ newcomer 1) × (length traces.now ≤ MAX_TRACES) × All (KeysBelow (keys_of board.now)) traces.now }
            ensures { IsSeatOf board.entry.now result.seat × HasWorked (keys_of board.entry.now) traces.entry.now (newcomer 1) result }
        { work(crew.rt, board, seat, crew.book, traces, crew.gate) },
    )
}

// Appends the workers' seats to the others, and finds the first trace that one of them refused. It fails if a worker
// was lost.
fn hand_in(
    mut back: Vec<Seat>,
    done: Vec<Worked>,
) -> Result<(Vec<Seat>, Option<(usize, StepAt)>), OutOfMemory>
    requires { vec_len back + vec_len done ≤ vec_capacity back }
    ensures seats { IfOk result (λ r. r.0.items ≡ back.items ++ map (λ w. w.seat) done.items) }
    ensures none_lost { IfOk result (λ r. All (λ w. IsFalse w.lost) done.items) }
    ensures refused { IfOk result (λ r. (traces : List (List Event))
        → All (λ w. LeastRefusedIs traces (HasDrawn w) w.refused) done.items
        → LeastRefusedIs traces (SomeHasDrawn done.items) r.1) }
{
    let mut refused = None;
    for worked in done {
        let Worked {
            seat,
            refused: found,
            lost,
        } = worked;
        if lost {
            return Err(OutOfMemory);
        }
        back.push_reserved(seat);
        refused = earlier(refused, found);
    }
    Ok((back, refused))
}

// The earlier of two traces.
fn earlier(a: Option<(usize, StepAt)>, b: Option<(usize, StepAt)>) -> Option<(usize, StepAt)>
    ensures { result ≡ earlier_refused a b }
{
    match (a, b) {
        (Some(a), Some(b)) => Some(if b.0 < a.0 { b } else { a }),
        (Some(a), None) => Some(a),
        (None, b) => b,
    }
}

// The most chains that the traces can have, and so the most that the book has to hold: the number of their events that
// take a lock or turn a flag on.
fn chain_count(traces: &[RawTrace]) -> u64
    requires { length traces.now ≤ MAX_TRACES }
    ensures { result ≡ sum_by (count_by makes_chain) traces.now }
{
    let mut count = 0;
    for trace in traces {
        count += chains_of(trace);
    }
    count
}

// How many events of a trace take a lock or turn a flag on.
fn chains_of(trace: &RawTrace) -> u64
    ensures value { result ≡ count_by makes_chain trace.now }
    ensures few { result ≤ MAX_EVENTS }
{
    let mut count = 0;
    for place in 0..trace.len() {
        let Some(event) = trace.event(place) else {
            unreachable!();
        };
        count += u64::from(makes_chain(event));
    }
    count
}

// Whether the event takes a lock or turns a flag on.
pub(crate) fn makes_chain(event: Event) -> bool
    ensures { result ≡ makes_chain event }
{
    matches!(event, Event::Acquire { .. } | Event::TurnOn { .. })
}
