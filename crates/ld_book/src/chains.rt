//! Distinct chains, numbered in order.

ghost use Rattle.std.specs.Prelude.{◌≡◌, ◌<◌, ◌++◌, [], ◌∷◌, length, slice_get, Some, IfOk, IfSome, OnOk, OnErr};
ghost use Rattle.std.specs.List.{IsDistinct};
ghost use Rattle.ld_task.specs.ChainEquality.{chain_eq};
ghost use Rattle.ld_book.specs.Inside.Journals.{AreChains, PutsChain};

use indexmap::IndexSet;
use ld_task::Chain;
use std::alloc::{AllocError, Global};
use std::marker::Model;

// Distinct chains, numbered in order of first entry: those of a set, and after them the latest, which aren't in the set
// yet. A chain that is known to be new is appended to the latest without a look-up. When one comes that may not be new,
// the latest move to the set. So each is hashed at most once, and none is if all that came were known to be new.
#[derive(Drop)]
pub(crate) struct Chains {
    indexed: IndexSet<Chain>,
    latest: Vec<Chain>,
}

impl Model for Chains {
    ghost use Rattle.std.specs.Prelude.{◌++◌, ◌-◌, length};
    ghost use Rattle.ld_book.specs.Inside.Journals.{AreChains, ChainsParts};

    ghost Value = { ChainsParts };

    ghost view = { λ c. record {
      all = c.indexed.keys ++ c.latest.items;
      room = c.latest.cap - length c.latest.items;
    } };

    ghost invariant = { λ c. AreChains (c.indexed.keys ++ c.latest.items) };
}

impl Chains {
    // No chains. It takes no memory yet.
    pub(crate) fn new(alloc: Global) -> Chains
        ensures { result.all ≡ [] }
    {
        Chains {
            indexed: IndexSet::new(alloc),
            latest: Vec::new(alloc),
        }
    }

    pub(crate) fn len(&self) -> usize
        ensures value { result ≡ length self.now.all }
        ensures distinct { AreChains self.now.all }
    {
        self.indexed.len() + self.latest.len()
    }

    // The chain of number `n`.
    pub(crate) fn get(&self, n: usize) -> &Chain
        requires { n < length self.now.all }
        ensures { slice_get self.now.all n ≡ Some result.now }
    {
        let indexed = self.indexed.as_slice();
        if n < indexed.len() {
            &indexed[n]
        } else {
            &self.latest[n - indexed.len()]
        }
    }

    // The number of a chain, if the set has it.
    pub(crate) fn find_indexed(&self, chain: &Chain) -> Option<usize>
        ensures { IfSome result (λ n. slice_get self.now.all n ≡ Some chain.now) }
    {
        if self.indexed.is_empty() {
            return None;
        }
        self.indexed.get_index_of(chain)
    }

    // Makes room for one more chain.
    pub(crate) fn make_room(&mut self) -> Result<(), AllocError>
        ensures same { self.new.all ≡ self.old.all }
        ensures room { OnOk result (0 < self.new.room) }
    {
        self.latest.reserve(1)
    }

    // Appends a chain that isn't here yet.
    pub(crate) fn push_new(&mut self, chain: Chain)
        requires room { 0 < self.old.room }
        requires new { AreChains (self.old.all ++ chain ∷ []) }
        ensures { self.new.all ≡ self.old.all ++ chain ∷ [] }
    {
        self.latest.push_reserved(chain);
    }

    // The number of a chain, which is appended if it isn't here yet. If memory is refused, nothing is changed.
    pub(crate) fn insert(&mut self, chain: Chain) -> Result<usize, AllocError>
        ensures put { IfOk result (λ n. PutsChain self.old.all self.new.all n chain) }
        ensures refused { OnErr result (self.new.all ≡ self.old.all) }
    {
        move_to_end(&mut self.indexed, &mut self.latest)?;
        let Ok((number, _)) = self.indexed.insert_full(chain) else {
            return Err(AllocError);
        };
        Ok(number)
    }
}

// Moves chains to the end of a set that has none of them. If memory is refused, nothing is changed.
fn move_to_end(indexed: &mut IndexSet<Chain>, latest: &mut Vec<Chain>) -> Result<(), AllocError>
    requires { IsDistinct chain_eq (indexed.old.keys ++ latest.old.items) }
    ensures moved { OnOk result (indexed.new.keys ≡ indexed.old.keys ++ latest.old.items) }
    ensures emptied { OnOk result (latest.new.items ≡ []) }
    ensures kept { OnErr result (indexed.new.keys ≡ indexed.old.keys) }
    ensures left { OnErr result (latest.new.items ≡ latest.old.items) }
{
    indexed.reserve(latest.len())?;
    for chain in latest.drain(..) {
        let Ok(_) = indexed.insert(chain) else {
            unreachable!();
        };
    }
    Ok(())
}
