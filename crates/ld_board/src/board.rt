//! A board: a word to claim numbers from, and words of facts, which threads share without waiting for one another.

ghost use Rattle.std.specs.Prelude.{◌≡◌, ◌≢◌, ◌⊎◌, ◌↔◌, ◌+◌, ◌/◌, ◌%◌, ◌<◌, ◌≤◌, ℕ, length, All, Any, IsFalse, IsTrue, IfOk, IsErrOf, List, vec_len, slice_index};
ghost use Rattle.std.specs.Int.{bit_at};
ghost use Rattle.std.specs.Mem.Slots.{slots_items, slots_len, IsFull};
ghost use Rattle.ld_trace.specs.declared.key_id.TheConstants.{GRAPH_KEYS};
ghost use Rattle.ld_task.specs.Chains.{ChainKeysBelow};
ghost use Rattle.ld_facts.specs.FactBits.{FactBelow, HasFact};
ghost use Rattle.ld_facts.specs.Facts.{Adds, AreSame, ChainHas, Holds};
ghost use Rattle.ld_facts.specs.Numbers.{fact_number};
ghost use Rattle.ld_facts.specs.WordPairs.{word_total, NonePast, PairsHave};
ghost use Rattle.ld_facts.specs.declared.fact.Fact.{Fact};
ghost use Rattle.ld_board.specs.Views.{newcomer, once_below, times, with_claim, HasLoaded, KnowsFact, PutHas, PutsOnly, SeenHas};
ghost use Rattle.ld_board.specs.Seats.{view, claims_of};
ghost use Rattle.ld_board.specs.Inside.Gathered.{joined_onto};
ghost use Rattle.ld_board.specs.declared.seat.TheConstants.{MAX_CLAIMS};

use crate::board_fault::BoardFault;
use crate::seat::Seat;
use crate::view::{BoardRule, BoardSize, Claim, Cut, View};
use atomic_table::{Closed, Table};
use ld_facts::{Facts, word_total};
use ld_task::Chain;
use std::alloc::Global;

/// The most seats of a board.
pub const MAX_SEATS: usize = 65;

/// A board that threads share, each by a seat of its own. From it they claim numbers, each of which is given out once,
/// and on it they put facts about keys below a bound, which the others then see. `claim`, `put` and `covers` wait for
/// nobody, take no memory and don't fail; each is made of single steps on one word, and nothing is promised about how
/// the steps of several threads follow one another. The caller makes sure that a seat is one of this board, and that a
/// chain's keys are below the board's bound.
#[derive(Drop)]
pub struct Board {
    pub(crate) table: Table<(), View, BoardSize, BoardRule, Global>,
    alloc: Global,
    pub(crate) keys: u16,
    seats: usize,
    ghost few: { keys ≤ GRAPH_KEYS },
    ghost keyed: { table.shared.key.keys ≡ keys },
    ghost words: { table.shared.table_id.words ≡ word_total keys + 1 },
    ghost seated: { (table.shared.key.seats ≡ seats) × (0 < seats) },
    ghost no_slots: { table.shared.table_id.slots ≡ 0 },
}

impl Board {
    ghost use Rattle.ld_board.specs.Boards.{keys_of, seat_count, IsSeatOf};

    /// A board about the keys below `keys`, which is at most 256, and its seats. No number was claimed and no fact put.
    ///
    /// C1 if `seats` isn't 1 to 65, otherwise C2 if memory is refused.
    pub fn open(alloc: Global, keys: u16, seats: usize) -> Result<(Board, Vec<Seat>), BoardFault>
        requires { keys ≤ GRAPH_KEYS }
        ensures refused { IsErrOf result BoardFault.Seats ↔ ((seats ≡ 0) ⊎ (MAX_SEATS < seats)) }
        ensures ok { IfOk result (λ r. (keys_of r.0 ≡ keys) × (seat_count r.0 ≡ seats) × (vec_len r.1 ≡ seats)) }
        ensures seats { IfOk result (λ r. All (λ s. IsSeatOf r.0 s × (view s ≡ newcomer 1)) r.1.items) }
    {
        if seats == 0 || seats > MAX_SEATS {
            return Err(BoardFault::Seats);
        }
        let blank = vec![in alloc; 0u64; word_total(keys) + 1]?;
        let size = BoardSize {
            seats: seats as u64,
            keys: u64::from(keys),
        };
        let mut all = Vec::with_capacity(alloc, seats)?;
        let (table, mut first) = Table::of_words(alloc, blank.as_slice(), &size)?;
        for made in 0..seats - 1 {
            let seat = table.shared.split_seat::<Cut>(&mut first);
            all.push_reserved(Seat::new(seat));
        }
        all.push_reserved(Seat::new(first));
        let board = Board {
            table,
            alloc,
            keys,
            seats,
        };
        Ok((board, all))
    }

    /// The allocator that it was opened with.
    pub fn alloc(&self) -> Global {
        self.alloc
    }

    /// Claims the next number, counted from 0: one that no seat of the board has claimed. The caller makes sure that
    /// the seat's `claims_left` isn't 0.
    pub fn claim(&self, seat: &mut Seat) -> u64
        requires seat { IsSeatOf self.now seat.old }
        requires left { length (view seat.old).claimed < MAX_CLAIMS }
        ensures seat { IsSeatOf self.now seat.new }
        ensures claimed { view seat.new ≡ with_claim (view seat.old) result }
        ensures rises { All (λ x. x < result) (view seat.old).claimed }
    {
        seat.left -= 1;
        self.table.shared.fetch_add::<Claim>(&mut seat.seat, 0, 1)
    }

    /// Puts the facts of a chain on the board.
    pub fn put(&self, seat: &mut Seat, chain: &Chain)
        requires seat { IsSeatOf self.now seat.old }
        requires below { ChainKeysBelow (keys_of self.now) chain.now }
        ensures seat { IsSeatOf self.now seat.new }
        ensures put { Adds (PutHas (keys_of self.now) (view seat.old)) (PutHas (keys_of self.now) (view seat.new)) (ChainHas chain.now) }
        ensures claimed { (view seat.new).claimed ≡ (view seat.old).claimed }
        ensures seen { Holds (SeenHas (keys_of self.now) (view seat.new)) (SeenHas (keys_of self.now) (view seat.old)) }
    {
        seat.words.set_to(chain, self.keys);
        self.put_words(seat);
    }

    /// Loads the words that hold bits of the chain's facts, and returns whether all of these facts were found there.
    /// What the seat had put or seen in these words was found as well.
    pub fn covers(&self, seat: &mut Seat, chain: &Chain) -> bool
        requires seat { IsSeatOf self.now seat.old }
        requires below { ChainKeysBelow (keys_of self.now) chain.now }
        ensures seat { IsSeatOf self.now seat.new }
        ensures answer { IsTrue result ↔ Holds (SeenHas (keys_of self.now) (view seat.new)) (ChainHas chain.now) }
        ensures loaded { (loaded : List (ℕ × ℕ)) × HasLoaded (keys_of self.now) (ChainHas chain.now) (view seat.old) (view seat.new) loaded
            × (IsTrue result ↔ Holds (PairsHave (keys_of self.now) loaded) (ChainHas chain.now)) }
        ensures put { (view seat.new).put ≡ (view seat.old).put }
        ensures claimed { (view seat.new).claimed ≡ (view seat.old).claimed }
        ensures seen { Holds (SeenHas (keys_of self.now) (view seat.new)) (SeenHas (keys_of self.now) (view seat.old)) }
    {
        ld_facts::facts_are_bits();
        seat.words.set_to(chain, self.keys);
        self.covers_words(seat)
    }

    /// Puts those facts of a chain on the board whose words lack some, and returns whether there were any: what `covers`
    /// and then `put` do, for workers. A word that lacks none is only loaded [this project's own].
    pub fn put_unless_covered(&self, seat: &mut Seat, chain: &Chain) -> bool
        requires seat { IsSeatOf self.now seat.old }
        requires below { ChainKeysBelow (keys_of self.now) chain.now }
        ensures seat { IsSeatOf self.now seat.new }
        ensures claimed { (view seat.new).claimed ≡ (view seat.old).claimed }
        ensures puts { PutsOnly (keys_of self.now) (view seat.old) (view seat.new) (ChainHas chain.now) }
        ensures knows { Holds (KnowsFact (keys_of self.now) (view seat.new)) (ChainHas chain.now) }
        ensures covered { IsFalse result → ((view seat.new).put ≡ (view seat.old).put)
            × Holds (SeenHas (keys_of self.now) (view seat.new)) (ChainHas chain.now) }
        ensures some { IsTrue result → length (view seat.old).put < length (view seat.new).put }
    {
        if self.has_long(seat, chain) {
            return false;
        }
        seat.words.set_to(chain, self.keys);
        self.put_lacking_words(seat)
    }

    /// The facts that are on the board at the end, if the list holds each of its seats once: exactly those that the
    /// seats have put, with all that any of them has seen. The numbers that they have claimed together are those below
    /// some number, each once.
    ///
    /// C1 if the list doesn't hold each of the board's seats, otherwise C2 if memory is refused. The board is then
    /// dropped.
    pub fn close(self, mut seats: Vec<Seat>) -> Result<Facts, BoardFault>
        requires { All (IsSeatOf self) seats.items }
        ensures refused { IsErrOf result BoardFault.Seats ↔ (vec_len seats ≢ seat_count self) }
        ensures keys { IfOk result (λ facts. facts.keys ≡ keys_of self) }
        ensures put { IfOk result (λ facts. AreSame (HasFact facts) (λ x. Any (λ s. PutHas (keys_of self) (view s) x) seats.items)) }
        ensures seen { IfOk result (λ facts. Holds (HasFact facts) (λ x. Any (λ s. SeenHas (keys_of self) (view s) x) seats.items)) }
        ensures claimed { IfOk result (λ facts. (n : ℕ) × ((x : ℕ) → times x (claims_of seats.items) ≡ once_below x n)) }
    {
        if seats.len() != self.seats {
            return Err(BoardFault::Seats);
        }
        let Board {
            table,
            alloc,
            keys,
            ..
        } = self;
        let mut facts = Facts::new(alloc, keys)?;
        let Some(last) = seats.pop() else {
            return Err(BoardFault::Seats);
        };
        let one = gather(&table, last, seats);
        let closed = table.close_with(one);
        unite_words(&mut facts, &closed);
        closed.free();
        Ok(facts)
    }
}

// Joins the seats with the last one.
fn gather(
    table: &Table<(), View, BoardSize, BoardRule, Global>,
    last: Seat,
    mut seats: Vec<Seat>,
) -> atomic_table::Seat<(), View>
    requires last { last.seat.table_id ≡ table.now.shared.table_id }
    requires seats { All (λ s. s.seat.table_id ≡ table.now.shared.table_id) seats.items }
    requires words { 0 < table.now.shared.table_id.words }
    ensures table { result.table_id ≡ table.now.shared.table_id }
    ensures view { result.me.0 ≡ joined_onto last.seat.me.0 seats.items }
    ensures parts { result.me.0.parts ≡ vec_len seats + 1 }
{
    let mut one = last.seat;
    while let Some(next) = seats.pop() {
        table.shared.join_seat::<Cut>(&mut one, next.seat);
    }
    one
}

// Adds the facts of a closed board's words to an empty set of facts.
fn unite_words(facts: &mut Facts, closed: &Closed<(), Global>)
    requires none { (x : Fact) → ¬ HasFact facts.old x }
    requires full { IsFull closed.now.words }
    requires words { slots_len closed.now.words ≡ word_total facts.old.keys + 1 }
    requires none_past { (n : ℕ) → NonePast facts.old.keys (n, slice_index (slots_items closed.now.words) (n + 1)) }
    ensures keys { facts.new.keys ≡ facts.old.keys }
    ensures facts { (x : Fact) → HasFact facts.new x ↔ (FactBelow facts.old.keys x
        × (bit_at (slice_index (slots_items closed.now.words) (fact_number facts.old.keys x / 64 + 1)) (fact_number facts.old.keys x % 64) ≡ 1)) }
{
    ld_facts::facts_are_bits();
    for n in 0..word_total(facts.keys()) {
        facts.unite_word(n, closed.word(n + 1));
    }
}
