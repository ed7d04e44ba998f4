//! Whether a worker's chains are mostly new.

use ld_book::LockedBook;

// By how much a new chain raises the level; one that isn't new lowers it by 1. So it rises if more than a third are new.
const RAISED: u64 = 2;

// The highest level.
const HIGHEST: u64 = 128;

// From this level on the chains are mostly new.
const HIGH: u64 = 96;

// From this level down they no longer are.
const LOW: u64 = 32;

// How many of a worker's last chains were new, as a level.
#[derive(Clone, Copy)]
pub(crate) struct News {
    level: u64,
    are_many: bool,
}

impl News {
    // No chain was new so far.
    pub(crate) fn new() -> News {
        News {
            level: 0,
            are_many: false,
        }
    }

    // Takes note of one more new chain, and tells the book if chains are mostly new by now.
    #[inline(always)]
    pub(crate) fn raise(&mut self, book: &LockedBook) {
        self.level = self.level.saturating_add(RAISED).min(HIGHEST);
        if self.level >= HIGH && !self.are_many {
            self.are_many = true;
            book.tell_crowd(true);
        }
    }

    // Takes note of so many chains that weren't new, and tells the book if chains are no longer mostly new.
    #[inline(always)]
    pub(crate) fn lower(&mut self, book: &LockedBook, chains: u64) {
        self.level = self.level.saturating_sub(chains);
        if self.level <= LOW && self.are_many {
            self.are_many = false;
            book.tell_crowd(false);
        }
    }
}
