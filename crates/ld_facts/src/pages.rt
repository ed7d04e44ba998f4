//! Words of 64 bits, without a bit that is set at first, of which only those near a bit that was set take memory.

ghost use Rattle.std.specs.Prelude.{◌≡◌, ℕ, ◌+◌, ◌*◌, ◌^◌, ◌<◌, ◌≤◌, ◌≢◌, List, IsTrue, IsFalse, IsNone, IfOk, IfSome, length, slice_get, slice_index};
ghost use Rattle.ld_facts.specs.Inside.Bits.{has_bit};

use crate::bits;
use std::alloc::{AllocError, Global};
use std::marker::Model;

// How many words a page has.
const PAGE: usize = 64;

// How many bits a page has.
const PAGE_BITS: usize = 4096;

// The place of the page that all words share which have none of their own.
const SHARED: usize = 0;

// As many words as it was made for. A page is made when a bit of it is set first, in memory that was reserved for it.
#[derive(Drop)]
pub(crate) struct Pages {
    count: usize,
    // The place of each page among those that were made.
    places: Vec<usize>,
    pages: Vec<[u64; PAGE]>,
}

impl Model for Pages {
    ghost use Rattle.std.specs.Prelude.{ℕ, List};
    ghost use Rattle.ld_facts.specs.Inside.Pages.{ArePages, word_in, words_below};

    ghost Value = { List ℕ };

    ghost view = { λ p. words_below (word_in p.places.items p.pages.items) p.count };

    ghost invariant = { λ p. ArePages p.count p.places.items p.pages.items p.pages.cap };
}

impl Pages {
    // So many words without a bit. It fails only if memory is refused.
    pub(crate) fn new(alloc: Global, count: usize) -> Result<Pages, AllocError>
        requires { count + 64 < 2 ^ 64 }
        ensures len { IfOk result (λ p. length p ≡ count) }
        ensures none { IfOk result (λ p. (k : ℕ) → IsFalse (has_bit p k)) }
    {
        let places = vec![in alloc; SHARED; (count + 63) / PAGE]?;
        let mut pages = Vec::with_capacity(alloc, places.len() + 1)?;
        pages.push_reserved([0; PAGE]);
        Ok(Pages {
            count,
            places,
            pages,
        })
    }

    // How many words there are.
    pub(crate) fn len(&self) -> usize
        ensures { result ≡ length self.now }
    {
        self.count
    }

    // The word at a place.
    pub(crate) fn word(&self, i: usize) -> u64
        requires { i < length self.now }
        ensures { result ≡ slice_index self.now i }
    {
        self.pages[self.places[i / PAGE]][i % PAGE]
    }

    // Whether bit `n` is set.
    pub(crate) fn has(&self, n: usize) -> bool
        requires { n < 64 * length self.now }
        ensures { result ≡ has_bit self.now n }
    {
        self.word(n / 64) >> (n % 64) & 1 == 1
    }

    // Sets bit `n`.
    pub(crate) fn insert(&mut self, n: usize)
        requires { n < 64 * length self.old }
        ensures len { length self.new ≡ length self.old }
        ensures set { IsTrue (has_bit self.new n) }
        ensures others { (k : ℕ) → k ≢ n → has_bit self.new k ≡ has_bit self.old k }
    {
        let page = n / PAGE_BITS;
        if self.places[page] == SHARED {
            self.places[page] = self.pages.len();
            self.pages.push_reserved([0; PAGE]);
        }
        let place = self.places[page];
        bits::insert(&mut self.pages[place], n % PAGE_BITS);
    }

    // The first bit that is set from `start` on and before `end`.
    pub(crate) fn first_between(&self, start: usize, end: usize) -> Option<usize>
        requires within { end ≤ 64 * length self.now }
        requires fits { 64 * length self.now + 64 < 2 ^ 64 }
        ensures none { IsNone result
            → (k : ℕ) → start ≤ k → k < end → IsFalse (has_bit self.now k) }
        ensures some { IfSome result (λ bit. (start ≤ bit) × (bit < end)
            × IsTrue (has_bit self.now bit)
            × ((k : ℕ) → start ≤ k → k < bit → IsFalse (has_bit self.now k))) }
    {
        let mut at = start;
        while at < end {
            let rest = self.word(at / 64) >> (at % 64);
            if rest != 0 {
                let bit = at + rest.trailing_zeros() as usize;
                return if bit < end { Some(bit) } else { None };
            }
            at = 64 * self.next_filled(at / 64 + 1, (end + 63) / 64);
        }
        None
    }

    // The place of the first word from `first` on and before `end` in which a bit is set, or `end` if there is none.
    fn next_filled(&self, first: usize, end: usize) -> usize
        requires order { first ≤ end }
        requires within { end ≤ length self.now }
        requires fits { length self.now + 64 < 2 ^ 64 }
        ensures onwards { first ≤ result }
        ensures within { result ≤ end }
        ensures none { (k : ℕ) → 64 * first ≤ k → k < 64 * result → IsFalse (has_bit self.now k) }
    {
        let mut at = first;
        while at < end {
            if self.places[at / PAGE] == SHARED {
                at = (at / PAGE + 1) * PAGE;
            } else if self.word(at) != 0 {
                return at;
            } else {
                at += 1;
            }
        }
        end
    }

    // Whether both are the same words.
    pub(crate) fn same(&self, other: &Pages) -> bool
        requires { length self.now ≡ length other.now }
        ensures equal { IsTrue result → self.now ≡ other.now }
        ensures bits { ((n : ℕ) → has_bit self.now n ≡ has_bit other.now n) → IsTrue result }
    {
        for i in 0..self.len() {
            if self.word(i) != other.word(i) {
                return false;
            }
        }
        true
    }
}
