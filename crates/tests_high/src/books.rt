//! A book that several threads ask at once.

use ld_book::{Book, LockedBook};
use std::alloc::Global;
use std::sync::Wait;
use std::thread;
use std::thread::Threads;
use tests_low::steps::Step::Write;
use tests_low::steps::{A, B, last_chain};

// How often each of four threads asks.
const ASKED: usize = 50_000;

// Whether the book of both orders of two locks is never said to be clean, though another thread nearly always has it.
fn is_never_clean<R: Threads + Wait + Sync>(rt: &R, alloc: Global, is_crowd: bool) -> Option<bool> {
    let book = LockedBook::new(Book::new(alloc, 2, 2).ok()?);
    book.tell_crowd(is_crowd);
    book.record(rt, 0, last_chain(&[Write(A), Write(B)])?).ok()?;
    book.record(rt, 1, last_chain(&[Write(B), Write(A)])?).ok()?;
    let ask = &|_: usize| -> bool { (0..ASKED).any(|_| book.is_clean(rt)) };
    let found = thread::map_indices(rt, alloc, 4, ask).ok()?;
    Some(found.len() == 4 && !found.iter().any(|is_clean| *is_clean))
}

#[test]
fn a_book_that_another_thread_has_is_as_unclean(rt: HostRuntime) {
    for is_crowd in [false, true] {
        assert_eq!(rt; is_never_clean(&rt, rt.alloc(), is_crowd), Some(true));
    }
}
