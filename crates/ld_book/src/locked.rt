//! A book that several threads write into.

ghost use Rattle.std.specs.Prelude.{[], IfOk, IsErrOf, IsFalse};
ghost use Rattle.ld_task.specs.Chains.{ChainKeysBelow};
ghost use Rattle.ld_facts.specs.Facts.{ChainHas, Holds};
ghost use Rattle.ld_book.specs.Books.{JournalHas};

use crate::book::{Book, News};
use crate::fault::BookFault;
use ld_task::Chain;
use std::hint::spin_loop;
use std::sync::atomic::{AtomicU64, Ordering};
use std::sync::{Mutex, MutexGuard, Wait};
use std::thread::Parker;
use std::time::Duration;

// How often a thread tries to get the lock before it may sleep.
const TRIES: u32 = 50;

// How many pauses it makes after each failed try: together they take some microseconds.
const PAUSES: u32 = 100;

// How many microseconds it sleeps instead, if nearly every thread enters chain after chain.
const NAP: u64 = 200;

/// A book under a lock. Whoever gets the lock finds a lawful book: what it returns is derived from its journal, even
/// after a refused entry. Entries are in the order in which the lock was taken [this project's own].
#[derive(Drop)]
pub struct LockedBook {
    book: Mutex<Book>,
    // Not 0 while there is a crowd. A hint.
    crowd: AtomicU64,
}

impl LockedBook {
    /// Puts the book under a lock. It takes no memory.
    pub fn new(book: Book) -> LockedBook {
        LockedBook {
            book: Mutex::new(book),
            crowd: AtomicU64::new(0),
        }
    }

    /// Waits for the lock, and then does what `Book::record` does with the book that it finds, with the same refusals:
    /// B1 if the book is full, B3 if a key of the chain isn't below the book's bound, B2 if memory is refused. After a
    /// refusal the book is as it was found. The chain is consumed in every case.
    pub fn record<R: Wait>(&self, rt: &R, trace: u32, chain: Chain) -> Result<News, BookFault>
        // Whatever book is found, a chain without facts is never fresh, and one without keys never refused by B3.
        ensures fresh { IfOk result (λ news. Holds (JournalHas []) (ChainHas chain) → IsFalse news.fresh) }
        ensures bad_key { IsErrOf result BookFault.BadKey → ¬ ChainKeysBelow 0 chain }
    {
        self.lock(rt).record(trace, chain)
    }

    /// Waits for the lock, and then returns what `Book::is_clean` returns for the book that it finds.
    pub fn is_clean<R: Wait>(&self, rt: &R) -> bool {
        self.lock(rt).is_clean()
    }

    /// Says whether there is a crowd: a thread whose chains are nearly all entered says that there is one, and says that
    /// there is none once they no longer are. It changes how long threads wait for the lock, and nothing else.
    pub fn tell_crowd(&self, is_one: bool) {
        self.crowd.store(u64::from(is_one), Ordering::SeqCst);
    }

    // Gets the lock. A thread that finds it taken leaves it alone for some microseconds, and asks to be woken only after
    // many such tries. So under contention the book stays with one thread for several entries: handing it on costs more
    // than an entry, and waking a thread much more. In a crowd a thread that finds the lock taken sleeps for longer, so
    // that one thread at a time goes on, and the others take no processor time.
    fn lock<R: Wait>(&self, rt: &R) -> MutexGuard<'_, Book> {
        for _ in 0..TRIES {
            if let Some(book) = self.book.try_lock() {
                return book;
            }
            if self.crowd.load(Ordering::SeqCst) == 0 {
                pause();
            } else {
                Parker::new().park_timeout(rt, Duration::from_micros(NAP));
            }
        }
        self.book.lock(rt)
    }

    /// Takes the book out of the lock.
    pub fn into_book(self) -> Book {
        self.book.into_inner()
    }
}

// Waits for some microseconds without giving up the processor.
fn pause() {
    for _ in 0..PAUSES {
        spin_loop();
    }
}
