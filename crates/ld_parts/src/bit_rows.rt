//! Rows of bits. The caller makes sure that a row and a bit are below the numbers that were asked for; past the last
//! block of a row nothing is set and nothing is found.

ghost use Rattle.std.specs.Prelude.{◌≤◌, IfSome};

use std::alloc::{AllocError, Global};

// How many words a block has.
const BLOCK: usize = 16;

// How many bits a block has.
const BLOCK_BITS: u16 = 1_024;

// Rows of bits, all of the same length. A block of a row is made when a bit of it is set first, so that many rows with
// few bits take little memory.
#[derive(Drop)]
pub(crate) struct BitRows {
    row_blocks: u16,
    // For each block of each row, its number among those that were made, from 1 on, or 0 if it has no bit.
    numbers: Vec<usize>,
    blocks: Vec<[u64; BLOCK]>,
}

impl BitRows {
    // `rows` rows of at least `bits` bits, none of which is set. It fails only if memory is refused.
    pub(crate) fn new(alloc: Global, rows: u16, bits: u16) -> Result<BitRows, AllocError> {
        let row_blocks = bits / BLOCK_BITS + 1;
        let places = usize::from(rows) * usize::from(row_blocks);
        Ok(BitRows {
            row_blocks,
            numbers: vec![in alloc; 0; places]?,
            blocks: Vec::new(alloc),
        })
    }

    // Sets a bit of a row. It fails only if memory is refused.
    pub(crate) fn insert(&mut self, row: u16, bit: u16) -> Result<(), AllocError> {
        let place = self.place(row, bit / BLOCK_BITS);
        let Some(number) = self.numbers.get_mut(place) else {
            return Ok(());
        };
        if *number == 0 {
            self.blocks.push([0; BLOCK])?;
            *number = self.blocks.len();
        }
        if let Some(block) = self.blocks.get_mut(*number - 1) {
            block[usize::from(bit % BLOCK_BITS / 64)] |= 1 << (bit % 64);
        }
        Ok(())
    }

    // Whether a bit of a row is set.
    pub(crate) fn has(&self, row: u16, bit: u16) -> bool {
        match self.block(row, bit / BLOCK_BITS) {
            Some(block) => block[usize::from(bit % BLOCK_BITS / 64)] >> (bit % 64) & 1 == 1,
            None => false,
        }
    }

    // The first bit of a row that isn't set in the first row of the others.
    pub(crate) fn first_beyond(&self, row: u16, taken: &BitRows) -> Option<u16> {
        for i in 0..self.row_blocks {
            if let Some(block) = self.block(row, i)
                && let Some(bit) = first_bit_beyond(block, taken.block(0, i))
            {
                return u16::try_from(usize::from(i) * usize::from(BLOCK_BITS) + bit).ok();
            }
        }
        None
    }

    // A block of a row, None if it has no bit.
    fn block(&self, row: u16, i: u16) -> Option<&[u64; BLOCK]> {
        let number = self.numbers.get(self.place(row, i))?.checked_sub(1)?;
        self.blocks.get(number)
    }

    // Where the number of a block of a row is.
    fn place(&self, row: u16, i: u16) -> usize {
        usize::from(row) * usize::from(self.row_blocks) + usize::from(i)
    }
}

// The first bit of a block that isn't set in the other one, if there is another one.
fn first_bit_beyond(block: &[u64; BLOCK], taken: Option<&[u64; BLOCK]>) -> Option<usize>
    ensures { IfSome result (λ bit. bit ≤ BLOCK_BITS) }
{
    for i in 0..BLOCK {
        let fresh = block[i] & !taken.map_or(0, |words| words[i]);
        if fresh != 0 {
            return Some(i * 64 + fresh.trailing_zeros() as usize);
        }
    }
    None
}
