//! What a seat of a board knows, the rule of the board's table, and what each step returns.

ghost use Rattle.ld_board.specs.Inside.BoardRule.{Kept, Claimed, Put, Looked, first_view, joined, left_view, right_view, spent_view};

use atomic_table::{Join, Play, Split, TableRule};
use std::collections::LinkedList;

/// What a seat has claimed, put and seen: numbers, and pairs of a fact word and bits of it. No value of it is made;
/// only proofs speak of it.
pub struct View {
    /// How many of the board's seats have been gathered in this one: 1 until the board is closed.
    pub parts: u64,
    pub claimed: LinkedList<u64>,
    pub put: LinkedList<(u64, u64)>,
    pub seen: LinkedList<(u64, u64)>,
}

/// How many seats a board has, and the bound on its keys.
#[derive(Clone, Copy)]
pub(crate) struct BoardSize {
    pub seats: u64,
    pub keys: u64,
}

/// What holds of a board between any two steps.
pub(crate) struct BoardRule;

impl TableRule<(), View, BoardSize> for BoardRule {
    ghost holds = { λ key. Kept key };

    ghost first = { first_view };
}

/// One is added to the claim word.
pub(crate) struct Claim;

impl Play<(), View> for Claim {
    ghost then = { Claimed };
}

/// Bits are put into a fact word.
pub(crate) struct Put;

impl Play<(), View> for Put {
    ghost then = { Put };
}

/// A fact word is loaded.
pub(crate) struct Look;

impl Play<(), View> for Look {
    ghost then = { Looked };
}

/// A seat is split off, or joined.
pub(crate) struct Cut;

impl Split<View> for Cut {
    ghost left = { left_view };

    ghost right = { right_view };
}

impl Join<View> for Cut {
    ghost both = { joined };

    ghost spent = { spent_view };
}
