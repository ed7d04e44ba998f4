//! Whether a book settles with the facts that were gathered.

use ld_book::{Book, LockedBook};
use ld_graph::Kind;
use ld_run::{RunFault, settle};
use std::alloc::Global;
use std::sync::Wait;
use tests_low::steps::Step::{Give, Write};
use tests_low::steps::{A, B, C, Step, chains_of, facts_of};

// A book of the chains of some traces except the one left out, and the facts of others, about three keys.
struct Settling {
    about: &'static str,
    // The bound on the book's keys.
    keys: u16,
    book: &'static [&'static [Step]],
    left_out: usize,
    facts: &'static [&'static [Step]],
    // How many dependencies are settled. None if the book doesn't settle.
    dependencies: Option<u64>,
    // Whether A and B are on a circle.
    circle: bool,
}

// No chain has this place.
const NONE: usize = 100;

// An empty book of three keys, which doesn't settle.
const UNSETTLED: Settling = Settling {
    about: "nothing",
    keys: 3,
    book: &[],
    left_out: NONE,
    facts: &[],
    dependencies: None,
    circle: false,
};

const ONE_ORDER: &[&[Step]] = &[&[Write(A), Write(B), Give(A), Write(C)]];

const BOTH: &[&[Step]] = &[&[Write(A), Write(B)], &[Write(B), Write(A)]];

static SETTLINGS: [Settling; 7] = [
    Settling {
        about: "a book that is taken out whole",
        book: ONE_ORDER,
        facts: ONE_ORDER,
        dependencies: Some(2),
        ..UNSETTLED
    },
    Settling {
        about: "a book that lacks a dependency",
        book: ONE_ORDER,
        left_out: 2,
        facts: ONE_ORDER,
        ..UNSETTLED
    },
    Settling {
        about: "facts that lack the same",
        book: ONE_ORDER,
        left_out: 2,
        facts: &[&[Write(A), Write(B)]],
        dependencies: Some(1),
        ..UNSETTLED
    },
    Settling {
        about: "a book without the last chain of both orders",
        book: BOTH,
        left_out: 3,
        facts: BOTH,
        ..UNSETTLED
    },
    Settling {
        about: "a chain of both orders that brings nothing is not missed",
        book: BOTH,
        left_out: 2,
        facts: BOTH,
        dependencies: Some(2),
        circle: true,
        ..UNSETTLED
    },
    Settling {
        about: "a book of one chain of both orders",
        book: &[&[Write(A)]],
        facts: BOTH,
        ..UNSETTLED
    },
    Settling {
        about: "a book of other keys",
        keys: 2,
        ..UNSETTLED
    },
];

// The book under its lock, with the chains recorded.
fn book_of<R: Wait>(rt: &R, alloc: Global, settling: &Settling) -> Option<LockedBook> {
    if settling.keys > ld_trace::GRAPH_KEYS {
        return None;
    }
    let book = LockedBook::new(Book::new(alloc, settling.keys, 100).ok()?);
    let chains = chains_of(alloc, settling.book)?;
    for (place, chain) in chains.into_iter().enumerate() {
        if place != settling.left_out {
            book.record(rt, 0, chain).ok()?;
        }
    }
    Some(book)
}

fn settles<R: Wait>(rt: &R, alloc: Global, settling: &Settling) -> Option<bool> {
    let facts = facts_of(alloc, settling.facts, 3)?;
    let book = book_of(rt, alloc, settling)?;
    match settle(book.into_book(), &facts) {
        Ok(settled) => {
            let circle = settled.on_circle(A, B, Kind::En) && settled.on_circle(B, A, Kind::En);
            Some(
                settling.dependencies == Some(settled.dependencies())
                    && settled.has_dep(A, B, Kind::En)
                    && circle == settling.circle
                    && settled.is_clean() != circle,
            )
        }
        Err(fault) => Some(settling.dependencies.is_none() && fault == RunFault::Unsettled),
    }
}

// The first of these that settles otherwise.
fn misfit<R: Wait>(rt: &R, alloc: Global, settlings: &[Settling]) -> Option<&'static str> {
    settlings
        .iter()
        .find(|settling| settles(rt, alloc, settling) != Some(true))
        .map(|settling| settling.about)
}

#[test]
fn a_book_settles_with_its_facts(rt: HostRuntime) {
    assert_eq!(rt; misfit(&rt, rt.alloc(), &SETTLINGS), None);
}
