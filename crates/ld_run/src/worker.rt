//! A worker: it claims traces from a board, walks them, puts what is new in them on the board, and records it.

ghost use Rattle.std.specs.Prelude.{◌≡◌, ◌<◌, ◌≤◌, ◌+◌, List, All, None, OnOk, length};
ghost use Rattle.ld_trace.specs.declared.event.Event.{Event};
ghost use Rattle.ld_trace.specs.Events.{KeysBelow};
ghost use Rattle.ld_facts.specs.Facts.{Holds};
ghost use Rattle.ld_board.specs.Boards.{keys_of, IsSeatOf};
ghost use Rattle.ld_board.specs.Seats.{view};
ghost use Rattle.ld_board.specs.Views.{KnowsFact};
ghost use Rattle.ld_run.specs.Work.{HasWorked};
ghost use Rattle.ld_run.specs.Inside.KnownSteps.{AreKnown};
ghost use Rattle.ld_run.specs.Inside.Walks.{ComesNext, HasWalked, IsStep, IsWalking, WalksOn, fault_in, first_refused_of, on_board};
ghost use Rattle.ld_board.specs.declared.seat.TheConstants.{MAX_CLAIMS};
ghost use Rattle.ld_board.specs.declared.view.View.{View};

use crate::gate::Gate;
use crate::known_steps::{KnownSteps, Walk};
use crate::news::News;
use ld_board::{Board, Seat};
use ld_book::{BookFault, LockedBook};
use ld_task::{Chain, StepAt};
use ld_trace::{Event, MAX_EVENTS, RawTrace};
use std::sync::Wait;

/// What a worker returns.
#[derive(Drop)]
pub struct Worked {
    /// The seat that it worked with.
    pub seat: Seat,
    /// The first of the traces that it claimed that isn't well formed: its place in the list, and its first event that
    /// isn't allowed.
    pub refused: Option<(usize, StepAt)>,
    /// Whether memory was refused when it recorded a chain, so that it ended there.
    pub lost: bool,
}

// What the workers of a run share besides the board: how they wait, the book that they record in, and the gate that
// they call; and how many of this worker's chains are new.
#[derive(Clone, Copy)]
struct Desk<'a, R, G> {
    rt: &'a R,
    book: &'a LockedBook,
    gate: &'a G,
    news: News,
}

/// The worker ended because memory was refused.
#[derive(Clone, Copy, Debug)]
pub(crate) struct OutOfMemory;

/// Claims traces with the seat until it gets a number that is no trace's place, and walks each up to its first event
/// that isn't allowed. A chain that the board covers isn't recorded. The facts of any other are put on the board; then
/// the gate is called with the trace's place and the chain's number in its trace, and the chain is recorded. Several
/// threads may each make such a call, with seats of one board, for the same traces.
///
/// The caller makes sure that the seat is one of the board, that the traces' keys are below the board's bound, and that
/// the seat's `claims_left` is greater than the number of traces. If the book is full or doesn't take a key of the
/// chain, the chain isn't recorded. If memory is refused there, the worker ends, and is `lost`.
pub fn work<R: Wait, G: Gate>(
    rt: &R,
    board: &Board,
    mut seat: Seat,
    book: &LockedBook,
    traces: &[RawTrace],
    gate: &G,
) -> Worked
    requires seat { IsSeatOf board.now seat }
    requires below { All (KeysBelow (keys_of board.now)) traces.now }
    requires left { length (view seat).claimed + length traces.now < MAX_CLAIMS }
    ensures seat { IsSeatOf board.now result.seat }
    ensures worked { HasWorked (keys_of board.now) traces.now (view seat) result }
{
    let mut desk = Desk {
        rt,
        book,
        gate,
        news: News::new(),
    };
    let mut known = KnownSteps::new(board.alloc());
    let mut refused = None;
    let mut number = board.claim(&mut seat);
    while number < traces.len() as u64 {
        let trace = number as usize;
        let Ok(found) = walk_trace(
            &mut desk,
            board,
            &mut seat,
            trace,
            &traces[trace],
            &mut known,
        ) else {
            return Worked {
                seat,
                refused,
                lost: true,
            };
        };
        refused = first_of(refused, trace, found);
        number = board.claim(&mut seat);
    }
    Worked {
        seat,
        refused,
        lost: false,
    }
}

// Walks a trace up to its first event that isn't allowed, and returns that one, if there is one. It goes by steps that are known, as
// long as enough of them are; what is missed is learnt.
fn walk_trace<R: Wait, G: Gate>(
    desk: &mut Desk<R, G>,
    board: &Board,
    seat: &mut Seat,
    trace: usize,
    events: &RawTrace,
    known: &mut KnownSteps,
) -> Result<Option<StepAt>, OutOfMemory>
    requires seat { IsSeatOf board.now seat.old }
    requires below { KeysBelow (keys_of board.now) events.now }
    requires trace { trace < MAX_CLAIMS }
    requires known { AreKnown (on_board (keys_of board.now) (view seat.old)) known.old }
    ensures seat { IsSeatOf board.now seat.new }
    ensures known { OnOk result (AreKnown (on_board (keys_of board.now) (view seat.new)) known.new) }
    ensures walked { HasWalked (keys_of board.now) (view seat.old) (view seat.new) events.now result }
{
    ld_facts::trace_facts_are_the_chains();
    ld_task::beginnings_keep_their_chains();
    ld_task::beginnings_keep_their_faults();
    let mut walk = Walk::new();
    let mut here = known.number_of(&walk.state);
    while known.are_worth_it() {
        let chains = walk.number;
        let missed = known.next_missed(events, &mut here, &mut walk);
        desk.news
            .lower(desk.book, walk.number.saturating_sub(chains));
        let Some(event) = missed else {
            return Ok(None);
        };
        let found = walk_event(desk, board, seat, &mut walk, trace, event)?;
        if let Some(first) = found {
            return Ok(Some(first));
        }
        here = known.learn(here, &event, &walk.state);
    }
    walk_rest(desk, board, seat, walk, trace, events)
}

// Walks the rest of a trace, event by event.
fn walk_rest<R: Wait, G: Gate>(
    desk: &mut Desk<R, G>,
    board: &Board,
    seat: &mut Seat,
    mut walk: Walk,
    trace: usize,
    events: &RawTrace,
) -> Result<Option<StepAt>, OutOfMemory>
    requires seat { IsSeatOf board.now seat.old }
    requires below { KeysBelow (keys_of board.now) events.now }
    requires trace { trace < MAX_CLAIMS }
    requires within { walk.place ≤ length events.now }
    requires walking { (start : View) × IsWalking (keys_of board.now) start (view seat.old) events.now walk }
    ensures seat { IsSeatOf board.now seat.new }
    ensures keeps { Holds (KnowsFact (keys_of board.now) (view seat.new)) (KnowsFact (keys_of board.now) (view seat.old)) }
    ensures walked { (start : View) → IsWalking (keys_of board.now) start (view seat.old) events.now walk
        → HasWalked (keys_of board.now) start (view seat.new) events.now result }
{
    ld_facts::trace_facts_are_the_chains();
    ld_task::beginnings_keep_their_chains();
    ld_task::beginnings_keep_their_faults();
    while walk.place < events.len() {
        let Some(event) = events.event(walk.place) else {
            unreachable!();
        };
        let refused = walk_event(desk, board, seat, &mut walk, trace, event)?;
        if let Some(first) = refused {
            return Ok(Some(first));
        }
    }
    Ok(None)
}

// Walks the next event of a trace, and returns it if it isn't allowed.
#[inline(always)]
fn walk_event<R: Wait, G: Gate>(
    desk: &mut Desk<R, G>,
    board: &Board,
    seat: &mut Seat,
    walk: &mut Walk,
    trace: usize,
    event: Event,
) -> Result<Option<StepAt>, OutOfMemory>
    requires seat { IsSeatOf board.now seat.old }
    requires next { (start : View) × (t : List Event)
        × ComesNext (keys_of board.now) start (view seat.old) walk.old event t }
    requires place { walk.old.place < MAX_EVENTS }
    requires number { walk.old.number ≤ walk.old.place }
    requires trace { trace < MAX_CLAIMS }
    ensures seat { IsSeatOf board.now seat.new }
    ensures keeps { Holds (KnowsFact (keys_of board.now) (view seat.new)) (KnowsFact (keys_of board.now) (view seat.old)) }
    ensures on { fault_in result ≡ None → walk.new.place ≡ walk.old.place + 1 }
    ensures step { fault_in result ≡ None
        → IsStep (on_board (keys_of board.now) (view seat.new)) walk.old.state event walk.new.state }
    ensures walks_on { (start : View) (t : List Event)
        → ComesNext (keys_of board.now) start (view seat.old) walk.old event t
        → WalksOn (keys_of board.now) start (view seat.new) walk.new t (fault_in result) }
{
    ld_task::chain_keys_are_the_traces();
    match walk.state.step(event) {
        Ok(answer) => {
            walk.place += 1;
            if let Some(chain) = answer {
                let number = walk.number;
                walk.number += 1;
                if board.put_unless_covered(seat, &chain) {
                    desk.news.raise(desk.book);
                    record_chain(desk, trace, number, chain)?;
                } else {
                    desk.news.lower(desk.book, 1);
                }
            }
            Ok(None)
        }
        Err(fault) => {
            let place = walk.place;
            Ok(Some(StepAt { fault, place }))
        }
    }
}

// Calls the gate, and records the chain. If the book is full or doesn't take a key of the chain, the chain isn't
// recorded: settling finds what that lost.
fn record_chain<R: Wait, G: Gate>(
    desk: &Desk<R, G>,
    trace: usize,
    number: u64,
    chain: Chain,
) -> Result<(), OutOfMemory>
    requires trace { trace < MAX_CLAIMS }
{
    desk.gate.before_record(trace, number);
    match desk.book.record(desk.rt, trace as u32, chain) {
        Err(BookFault::Memory) => Err(OutOfMemory),
        _ => Ok(()),
    }
}

// The trace that was refused before, or otherwise this one, if it is refused.
fn first_of(
    before: Option<(usize, StepAt)>,
    trace: usize,
    found: Option<StepAt>,
) -> Option<(usize, StepAt)>
    ensures { result ≡ first_refused_of before trace found }
{
    match (before, found) {
        (Some(before), _) => Some(before),
        (None, Some(first)) => Some((trace, first)),
        (None, None) => None,
    }
}
