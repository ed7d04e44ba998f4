//! A seat of a board.

ghost use Rattle.std.specs.Prelude.{◌≡◌, ◌+◌, [], length};
ghost use Rattle.ld_board.specs.Views.{newcomer};
ghost use Rattle.ld_board.specs.declared.seat.TheConstants.{MAX_CLAIMS};

use crate::view::View;
use ld_facts::FactWords;

/// The most claims of a seat.
pub const MAX_CLAIMS: u64 = 1 << 32;

/// A seat of a board: with it one thread claims numbers and puts facts. The board makes its seats, and each exists
/// once.
#[derive(Drop)]
pub struct Seat {
    pub(crate) seat: atomic_table::Seat<(), View>,
    pub(crate) left: u64,
    // The fact words of the chain that was asked for or put last.
    pub(crate) words: FactWords,
    ghost one_part: { seat.me.0.parts ≡ 1 },
    ghost no_slot: { seat.me.1 ≡ [] },
    ghost counted: { left + length seat.me.0.claimed ≡ MAX_CLAIMS },
}

impl Seat {
    ghost use Rattle.ld_board.specs.Seats.{view};

    // A seat that has done nothing.
    pub(crate) fn new(seat: atomic_table::Seat<(), View>) -> Seat
        requires { (seat.me.0 ≡ newcomer 1) × (seat.me.1 ≡ []) }
        ensures { result.seat ≡ seat }
    {
        Seat {
            seat,
            left: MAX_CLAIMS,
            words: FactWords::new(),
        }
    }

    /// How often this seat may still claim: at first 4,294,967,296, and one less after each claim.
    pub fn claims_left(&self) -> u64
        ensures { result + length (view self.now).claimed ≡ MAX_CLAIMS }
    {
        self.left
    }
}
