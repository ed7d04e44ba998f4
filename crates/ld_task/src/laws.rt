//! Laws of the definitions, each carried by a function that does nothing.

ghost use Rattle.std.specs.Prelude.{◌≡◌, ◌↔◌, IsTrue};
ghost use Rattle.ld_task.specs.Chains.{ChainParts};
ghost use Rattle.ld_task.specs.Laws.{BeginningsKeepTheirChains, BeginningsKeepTheirFaults, ChainKeysAreTheTraces, DependenciesAreTheChains, MarksAreTheChains, OneMoreEventAddsItsChain, TurningOnTurnsOn};

use crate::chain::Chain;
use std::hash::Hash;

/// The dependencies of a trace are those of its chains.
pub fn dependencies_are_the_chains()
    ensures { DependenciesAreTheChains }
{}

/// The usage marks of a trace are those of its chains.
pub fn marks_are_the_chains()
    ensures { MarksAreTheChains }
{}

/// The keys of a trace's chains are keys of the trace.
pub fn chain_keys_are_the_traces()
    ensures { ChainKeysAreTheTraces }
{}

/// The chains of a beginning of a trace are among those of a longer one.
pub fn beginnings_keep_their_chains()
    ensures { BeginningsKeepTheirChains }
{}

/// What isn't allowed in a beginning of a trace isn't allowed in the trace, for the same reason.
pub fn beginnings_keep_their_faults()
    ensures { BeginningsKeepTheirFaults }
{}

/// One more event adds its own chain to those of a trace, if it makes one.
pub fn one_more_event_adds_its_chain()
    ensures { OneMoreEventAddsItsChain }
{}

/// Just after a state is turned on it is on, and the other one is as before.
pub fn turning_on_turns_on()
    ensures { TurningOnTurnsOn }
{}

/// Two chains are equal exactly if all their parts are.
pub fn equal_chains_have_equal_parts()
    ensures { (a b : ChainParts) → IsTrue (⟦<Chain as PartialEq>⟧.eq a b) ↔ (a ≡ b) }
{}

/// Equal chains hash alike: they feed a hasher the same bytes.
pub fn equal_chains_hash_alike()
    ensures { (a b : ChainParts) → IsTrue (⟦<Chain as PartialEq>⟧.eq a b)
        → ⟦<Chain as Hash>⟧.hash_input a ≡ ⟦<Chain as Hash>⟧.hash_input b }
{}
