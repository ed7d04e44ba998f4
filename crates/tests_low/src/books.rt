//! What books say about small traces.

mod want_of_memory;

use crate::steps::Step::{Give, TurnOff, TurnOn, Write};
use crate::steps::{A, B, C, Step, last_chain};
use ld_book::{Book, BookFault, LockedBook, News, Totals};
use ld_graph::{Kind, Mark};
use ld_task::Chain;
use ld_trace::GRAPH_KEYS;
use ld_trace::Irq::Hard;
use std::alloc::Global;
use std::sync::Wait;

// What a book returns for a chain: whether it brings a fact and whether the book is clean then, or the code with which
// it is refused.
type Said = Result<(bool, bool), &'static str>;

// What a book says about its size: its totals, its distinct chains and its entries.
type Size = (Totals, u64, usize);

// Chains, each the last one of its steps, and what a book for `keys` keys and at most `limit` entries returns for each;
// and its size after them all: its entries, acquisitions, openings and dependencies, its distinct chains and its
// entries again.
struct Story {
    about: &'static str,
    keys: u16,
    limit: u64,
    chains: &'static [Told],
    size: ([u64; 4], u64, usize),
}

// A chain, by the steps whose last one it is, and what is returned for it.
type Told = (&'static [Step], Said);

// The chains of two locks that are taken in both orders: A; B under A; B; A under B. The third brings nothing, since
// the marks of B came with the second.
const FIRST: Told = (&[Write(A)], Ok((true, true)));

const SECOND: Told = (&[Write(A), Write(B)], Ok((true, true)));

const THIRD: Told = (&[Write(B)], Ok((false, true)));

const FOURTH: Told = (&[Write(B), Write(A)], Ok((true, false)));

const BOTH: [Told; 4] = [FIRST, SECOND, THIRD, FOURTH];

static STORIES: [Story; 5] = [
    Story {
        about: "two locks in both orders",
        keys: 2,
        limit: 4,
        chains: &[
            FIRST,
            SECOND,
            THIRD,
            FOURTH,
            (&[Write(A)], Err("B1 Full")),
            (&[Write(C)], Err("B1 Full")),
        ],
        size: ([4, 4, 0, 2], 4, 4),
    },
    Story {
        about: "known chains",
        keys: 2,
        limit: 1000,
        chains: &[
            FIRST,
            SECOND,
            (&[Write(A)], Ok((false, true))),
            (&[Write(A), Write(B)], Ok((false, true))),
            (&[Write(B), Give(B), Write(A)], Ok((false, true))),
        ],
        size: ([5, 5, 0, 1], 2, 5),
    },
    // The third chain is new and brings no fact, so the first two move to the set; the fourth comes after it; and then
    // known chains of both come.
    Story {
        about: "chains that move to the set",
        keys: 2,
        limit: 10,
        chains: &[
            FIRST,
            SECOND,
            THIRD,
            FOURTH,
            (&[Write(A), Write(B)], Ok((false, false))),
            (&[Write(B), Write(A)], Ok((false, false))),
            (&[Write(A)], Ok((false, false))),
            (&[Write(B)], Ok((false, false))),
        ],
        size: ([8, 8, 0, 2], 4, 8),
    },
    Story {
        about: "an opening, which marks the lock that is held",
        keys: 1,
        limit: 1,
        chains: &[(&[TurnOff(Hard), Write(A), TurnOn(Hard)], Ok((true, true)))],
        size: ([1, 0, 1, 0], 1, 1),
    },
    Story {
        about: "a key that is too large",
        keys: 2,
        limit: 1,
        chains: &[
            (&[Write(C)], Err("B3 BadKey")),
            FIRST,
            (&[Write(A), Write(B)], Err("B1 Full")),
        ],
        size: ([1, 1, 0, 0], 1, 1),
    },
];

fn are(entries: u64, acquisitions: u64, openings: u64, dependencies: u64) -> Totals {
    Totals {
        entries,
        acquisitions,
        openings,
        dependencies,
    }
}

// A chain of the two orders.
fn chain_at(place: usize) -> Option<Chain> {
    last_chain(BOTH[place % 4].0)
}

fn is_size(
    book: &Book,
    ([entries, acquisitions, openings, dependencies], distinct, len): ([u64; 4], u64, usize),
) -> bool {
    told(book)
        == (
            are(entries, acquisitions, openings, dependencies),
            distinct,
            len,
        )
}

fn told(book: &Book) -> Size {
    (book.totals(), book.distinct(), book.len())
}

// What a book says about the facts of the two orders.
fn facts_told(book: &Book) -> [bool; 6] {
    [
        book.is_clean(),
        book.has_dep(A, B, Kind::En),
        book.has_dep(B, A, Kind::En),
        book.has_mark(A, Mark::Used),
        book.has_mark(B, Mark::Used),
        book.has_mark(C, Mark::Used),
    ]
}

fn said(recorded: Result<News, BookFault>) -> Said {
    match recorded {
        Ok(news) => Ok((news.fresh, news.clean)),
        Err(fault) => Err(fault.code()),
    }
}

// Whether the book returns this for the chain, and is as it was if that is a refusal.
fn says(book: &mut Book, trace: u32, chain: Chain, wanted: Said) -> bool {
    let before = (told(&*book), facts_told(&*book));
    let said = said(book.record(trace, chain));
    let is_as_before = (told(&*book), facts_told(&*book)) == before;
    said == wanted && (said.is_ok() || is_as_before)
}

// Whether the book says what the story says, about each chain and about its size. The chains have the traces 0, 1, 2
// and so on.
fn says_all(book: &mut Book, story: &Story) -> Option<bool> {
    let mut trace = 0u32;
    for (steps, wanted) in story.chains {
        if !says(book, trace, last_chain(*steps)?, *wanted) {
            return Some(false);
        }
        trace = trace.saturating_add(1);
    }
    Some(is_size(&*book, story.size))
}

// Whether the entries are the chains that weren't refused, in their order and with their traces.
fn has_entries(book: &Book, story: &Story) -> Option<bool> {
    let mut place = 0usize;
    let mut trace = 0u32;
    for (steps, wanted) in story.chains {
        if wanted.is_ok() {
            let (of, chain) = book.entry(place)?;
            if of != trace || *chain != last_chain(*steps)? {
                return Some(false);
            }
            place = place.saturating_add(1);
        }
        trace = trace.saturating_add(1);
    }
    Some(book.entry(place).is_none())
}

fn is_told(alloc: Global, story: &Story) -> Option<bool> {
    if story.keys > GRAPH_KEYS {
        return None;
    }
    let mut book = Book::new(alloc, story.keys, story.limit).ok()?;
    Some(says_all(&mut book, story)? && has_entries(&book, story)? && book.keys() == story.keys)
}

fn misfit(alloc: Global) -> Option<&'static str> {
    STORIES
        .iter()
        .find(|story| is_told(alloc, story) != Some(true))
        .map(|story| story.about)
}

#[test]
fn books_say_what_chains_bring(rt: HostRuntime) {
    assert_eq!(rt; misfit(rt.alloc()), None);
}

// Whether the flag is the one that the book says.
fn is_flag(said: Said, is_clean: bool) -> bool {
    match said {
        Ok((_, clean)) => clean == is_clean,
        Err(_) => true,
    }
}

// The same for a book under a lock, by one thread.
fn says_all_under_a_lock(rt: &impl Wait, book: &LockedBook, story: &Story) -> Option<bool> {
    let mut trace = 0u32;
    for (steps, wanted) in story.chains {
        let said = said(book.record(rt, trace, last_chain(*steps)?));
        let is_clean = book.is_clean(rt);
        if said != *wanted || !is_flag(said, is_clean) {
            return Some(false);
        }
        trace = trace.saturating_add(1);
    }
    Some(true)
}

fn is_told_under_a_lock(rt: &impl Wait, alloc: Global, story: &Story) -> Option<bool> {
    if story.keys > GRAPH_KEYS {
        return None;
    }
    let book = LockedBook::new(Book::new(alloc, story.keys, story.limit).ok()?);
    let are_said = says_all_under_a_lock(rt, &book, story)?;
    let book = book.into_book();
    Some(are_said && is_size(&book, story.size) && has_entries(&book, story)?)
}

fn misfit_under_a_lock(rt: &impl Wait, alloc: Global) -> Option<&'static str> {
    STORIES
        .iter()
        .find(|story| is_told_under_a_lock(rt, alloc, story) != Some(true))
        .map(|story| story.about)
}

#[test]
fn books_under_a_lock_say_the_same(rt: HostRuntime) {
    assert_eq!(rt; misfit_under_a_lock(&rt, rt.alloc()), None);
}

// What a book says about its size after the first trace of the two orders was recorded a hundred times.
fn told_after_a_hundred(alloc: Global) -> Option<Size> {
    let mut book = Book::new(alloc, 2, 1000).ok()?;
    for trace in 0..100u32 {
        book.record(trace, chain_at(0)?).ok()?;
        book.record(trace, chain_at(1)?).ok()?;
    }
    Some(told(&book))
}

#[test]
fn a_trace_that_is_recorded_a_hundred_times(rt: HostRuntime) {
    assert_eq!(rt;
        told_after_a_hundred(rt.alloc()),
        Some((are(200, 200, 0, 1), 2, 200))
    );
}

// What a book says to a chain that it knows, after each order of two of 256 keys was new to it, and its distinct chains then.
fn said_after_many(alloc: Global) -> Option<(Said, u64)> {
    let mut book = Book::new(alloc, GRAPH_KEYS, 100_000).ok()?;
    for from in 0..GRAPH_KEYS {
        for to in 0..GRAPH_KEYS {
            let fresh = book
                .record(0, last_chain(&[Write(from), Write(to)])?)
                .ok()?
                .fresh;
            if !fresh {
                return None;
            }
        }
    }
    let again = said(book.record(1, last_chain(&[Write(A), Write(B)])?));
    Some((again, book.distinct()))
}

#[test]
fn a_chain_that_is_known_after_65_536_new_ones(rt: HostRuntime) {
    assert_eq!(rt;
        said_after_many(rt.alloc()),
        Some((Ok((false, false)), 65_536))
    );
}

// Whether the graph of a book of both orders has both on circles.
fn are_on_circles(alloc: Global) -> Option<bool> {
    let mut book = Book::new(alloc, 2, 10).ok()?;
    for place in 0..4usize {
        book.record(7, chain_at(place)?).ok()?;
    }
    let graph = book.into_graph();
    Some(graph.on_circle(A, B, Kind::En) && graph.on_circle(B, A, Kind::En))
}

#[test]
fn a_books_graph_has_its_circles(rt: HostRuntime) {
    assert_eq!(rt; are_on_circles(rt.alloc()), Some(true));
}
