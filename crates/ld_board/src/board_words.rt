//! The words of a board that hold facts: how they are loaded, and how bits are put into them.

ghost use Rattle.std.specs.Prelude.{◌≡◌, ◌≢◌, ◌↔◌, ◌+◌, ◌<◌, ◌∷◌, ◌++◌, ℕ, All, AllPairs, Any, IsFalse, IsTrue, List, bit_or, length, if◌then◌else◌};
ghost use Rattle.ld_facts.specs.Facts.{ChainHas, Holds};
ghost use Rattle.ld_facts.specs.WordPairs.{bits_of, word_total, NonePast, Within};
ghost use Rattle.ld_board.specs.Views.{SeenHas};
ghost use Rattle.ld_board.specs.Seats.{view};
ghost use Rattle.ld_board.specs.Inside.BoardRule.{with_look, with_put};

use crate::board::Board;
use crate::seat::Seat;
use crate::view::{Look, Put};
use ld_facts::Fact;
use ld_task::Chain;

// How many held locks count as few: the words of a chain with no more are found as quickly as its facts are looked up
// one by one.
const FEW_HELD: usize = 6;

impl Board {
    ghost use Rattle.ld_board.specs.Boards.{keys_of, IsSeatOf};

    // Puts bits into one fact word.
    fn put_word(&self, seat: &mut Seat, word: usize, bits: u64)
        requires seat { IsSeatOf self.now seat.old }
        requires word { word < word_total (keys_of self.now) }
        requires none_past { NonePast (keys_of self.now) (word, bits) }
        ensures seat { IsSeatOf self.now seat.new }
        ensures words { seat.new.words ≡ seat.old.words }
        ensures put { (found : ℕ) × (view seat.new ≡ with_put (view seat.old) word bits found) }
    {
        self.table
            .shared
            .fetch_or::<Put>(&mut seat.seat, word + 1, bits);
    }

    // Loads one fact word.
    fn look_word(&self, seat: &mut Seat, word: usize) -> u64
        requires seat { IsSeatOf self.now seat.old }
        requires word { word < word_total (keys_of self.now) }
        ensures seat { IsSeatOf self.now seat.new }
        ensures words { seat.new.words ≡ seat.old.words }
        ensures looked { view seat.new ≡ with_look (view seat.old) word result }
        ensures put { Within (bits_of word (view seat.old).put) result }
        ensures seen { Within (bits_of word (view seat.old).seen) result }
    {
        self.table.shared.load::<Look>(&mut seat.seat, word + 1)
    }

    // Puts the bits of the seat's words, one word after the other.
    pub(crate) fn put_words(&self, seat: &mut Seat)
        requires seat { IsSeatOf self.now seat.old }
        requires words { All (λ p. p.0 < word_total (keys_of self.now)) seat.old.words }
        requires none_past { All (NonePast (keys_of self.now)) seat.old.words }
        ensures seat { IsSeatOf self.now seat.new }
        ensures put { (n : ℕ) → bits_of n (view seat.new).put ≡ bit_or (bits_of n seat.old.words) (bits_of n (view seat.old).put) }
        ensures claimed { (view seat.new).claimed ≡ (view seat.old).claimed }
        ensures seen { (n : ℕ) → Within (bits_of n (view seat.old).seen) (bits_of n (view seat.new).seen) }
    {
        for n in 0..seat.words.len() {
            let Some((word, bits)) = seat.words.get(n) else {
                unreachable!();
            };
            self.put_word(seat, word, bits);
        }
    }

    // Looks up the facts of a chain with many held locks one after the other, up to the first that isn't there, and
    // returns whether all are. Usually they are, and then the chain's words need not be found. For a chain with few
    // held locks, whose words are found as quickly, it returns false.
    pub(crate) fn has_long(&self, seat: &mut Seat, chain: &Chain) -> bool
        requires seat { IsSeatOf self.now seat.old }
        ensures seat { IsSeatOf self.now seat.new }
        ensures put { (view seat.new).put ≡ (view seat.old).put }
        ensures claimed { (view seat.new).claimed ≡ (view seat.old).claimed }
        ensures seen { (n : ℕ) → Within (bits_of n (view seat.old).seen) (bits_of n (view seat.new).seen) }
        ensures covered { IsTrue result → Holds (SeenHas (keys_of self.now) (view seat.new)) (ChainHas chain.now) }
    {
        if chain.held_len() <= FEW_HELD {
            return false;
        }
        ld_facts::slots_have_what_is_given();
        for n in 0..ld_facts::fact_slots(chain) {
            let Some(fact) = ld_facts::fact_in_slot(chain, n) else {
                continue;
            };
            if !self.has_fact(seat, fact) {
                return false;
            }
        }
        true
    }

    // Loads the word of a fact, and returns whether the fact is there.
    fn has_fact(&self, seat: &mut Seat, fact: Fact) -> bool
        requires seat { IsSeatOf self.now seat.old }
        ensures seat { IsSeatOf self.now seat.new }
        ensures put { (view seat.new).put ≡ (view seat.old).put }
        ensures claimed { (view seat.new).claimed ≡ (view seat.old).claimed }
        ensures seen { (n : ℕ) → Within (bits_of n (view seat.old).seen) (bits_of n (view seat.new).seen) }
        ensures there { IsTrue result → SeenHas (keys_of self.now) (view seat.new) fact }
    {
        if !fact.is_below(self.keys) {
            return false;
        }
        let n = fact.number(self.keys);
        let found = self.look_word(seat, n / 64);
        found >> (n % 64) & 1 == 1
    }

    // Puts those of the seat's words whose bits aren't all there, and returns whether there were any.
    pub(crate) fn put_lacking_words(&self, seat: &mut Seat) -> bool
        requires seat { IsSeatOf self.now seat.old }
        requires words { All (λ p. p.0 < word_total (keys_of self.now)) seat.old.words }
        requires none_past { All (NonePast (keys_of self.now)) seat.old.words }
        ensures seat { IsSeatOf self.now seat.new }
        ensures claimed { (view seat.new).claimed ≡ (view seat.old).claimed }
        ensures keeps { (n : ℕ) → Within (bits_of n (view seat.old).put) (bits_of n (view seat.new).put) }
        ensures only { (n : ℕ) → Within (bits_of n (view seat.new).put) (bits_of n (seat.old.words ++ (view seat.old).put)) }
        ensures seen { (n : ℕ) → Within (bits_of n (view seat.old).seen) (bits_of n (view seat.new).seen) }
        ensures knows { (n : ℕ) → Within (bits_of n seat.old.words) (bits_of n ((view seat.new).put ++ (view seat.new).seen)) }
        ensures covered { IsFalse result → ((view seat.new).put ≡ (view seat.old).put)
            × ((n : ℕ) → Within (bits_of n seat.old.words) (bits_of n (view seat.new).seen)) }
        ensures some { IsTrue result → length (view seat.old).put < length (view seat.new).put }
    {
        let mut any = false;
        for n in 0..seat.words.len() {
            let Some((word, bits)) = seat.words.get(n) else {
                unreachable!();
            };
            any |= self.put_if_lacking(seat, word, bits);
        }
        any
    }

    // Puts bits into one fact word unless they are all there, and returns whether it has put them.
    fn put_if_lacking(&self, seat: &mut Seat, word: usize, wanted: u64) -> bool
        requires seat { IsSeatOf self.now seat.old }
        requires word { word < word_total (keys_of self.now) }
        requires none_past { NonePast (keys_of self.now) (word, wanted) }
        ensures seat { IsSeatOf self.now seat.new }
        ensures words { seat.new.words ≡ seat.old.words }
        ensures claimed { (view seat.new).claimed ≡ (view seat.old).claimed }
        ensures keeps { (n : ℕ) → Within (bits_of n (view seat.old).put) (bits_of n (view seat.new).put) }
        ensures only { (n : ℕ) → Within (bits_of n (view seat.new).put) (bits_of n ((word, wanted) ∷ (view seat.old).put)) }
        ensures seen { (n : ℕ) → Within (bits_of n (view seat.old).seen) (bits_of n (view seat.new).seen) }
        ensures knows { Within wanted (bits_of word ((view seat.new).put ++ (view seat.new).seen)) }
        ensures covered { IsFalse result → ((view seat.new).put ≡ (view seat.old).put)
            × Within wanted (bits_of word (view seat.new).seen) }
        ensures some { length (view seat.new).put ≡ length (view seat.old).put + (if result then 1 else 0) }
    {
        let found = self.look_word(seat, word);
        if wanted | found == found {
            return false;
        }
        self.put_word(seat, word, wanted);
        true
    }

    // Loads the seat's words, and returns whether all their bits were found.
    pub(crate) fn covers_words(&self, seat: &mut Seat) -> bool
        requires seat { IsSeatOf self.now seat.old }
        requires words { All (λ p. p.0 < word_total (keys_of self.now)) seat.old.words }
        requires once { AllPairs (λ p q. p.0 ≢ q.0) seat.old.words }
        ensures seat { IsSeatOf self.now seat.new }
        ensures words { seat.new.words ≡ seat.old.words }
        ensures answer { IsTrue result ↔ ((n : ℕ) → Within (bits_of n seat.old.words) (bits_of n (view seat.new).seen)) }
        ensures loaded { (loaded : List (ℕ × ℕ)) × ((view seat.new).seen ≡ loaded ++ (view seat.old).seen)
            × All (λ p. Any (λ q. q.0 ≡ p.0) loaded) seat.old.words
            × All (λ p. Within (bits_of p.0 ((view seat.old).put ++ (view seat.old).seen)) (bits_of p.0 loaded)) seat.old.words
            × (IsTrue result ↔ ((n : ℕ) → Within (bits_of n seat.old.words) (bits_of n loaded))) }
        ensures put { (view seat.new).put ≡ (view seat.old).put }
        ensures claimed { (view seat.new).claimed ≡ (view seat.old).claimed }
        ensures seen { (n : ℕ) → Within (bits_of n (view seat.old).seen) (bits_of n (view seat.new).seen) }
    {
        let mut all = true;
        for n in 0..seat.words.len() {
            let Some((word, bits)) = seat.words.get(n) else {
                unreachable!();
            };
            let found = self.look_word(seat, word);
            all &= bits | found == found;
        }
        all
    }
}
