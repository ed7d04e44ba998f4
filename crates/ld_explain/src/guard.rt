//! What speaks against one fact.

ghost use Rattle.std.specs.Prelude.{[], ◌↔◌, ◌≡◌, ◌≢◌, Contains, IsFalse, IsTrue, Some, filter, slice_get, ℕ};
ghost use Rattle.ld_explain.specs.Clauses.{IsFirstGuard, IsGateBefore, Narrows, gate_in, is_among, key_by};

use crate::naming::Naming;
use arrayvec::ArrayVec;
use ld_task::{Chain, MAX_HELD};
use ld_trace::KeyId;

/// What speaks against a fact, over all its occurrences.
#[derive(Drop, Debug)]
pub struct Guard {
    // The trace that they lie in; None if they lie in several.
    pub(crate) only: Option<u32>,
    // The keys of the locks that guard each of them.
    pub(crate) gates: ArrayVec<u16, MAX_HELD>,
}

impl Guard {
    // What speaks against a fact that occurs once, in this trace.
    pub(crate) fn first(trace: u32, gates: ArrayVec<u16, MAX_HELD>) -> Guard
        ensures { IsFirstGuard result trace gates.items }
    {
        Guard {
            only: Some(trace),
            gates,
        }
    }

    // Whether the key is a gate.
    pub(crate) fn has_gate(&self, key: KeyId) -> bool
        ensures { IsTrue result ↔ Contains self.now.gates.items key }
    {
        self.gates.as_slice().contains(&key.get())
    }

    // Whether there is a gate.
    pub(crate) fn has_gates(&self) -> bool
        ensures none { IsFalse result → self.now.gates.items ≡ [] }
        ensures some { IsTrue result → self.now.gates.items ≢ [] }
    {
        !self.gates.is_empty()
    }

    // The same with one occurrence more, in this trace.
    pub(crate) fn narrowed(&self, trace: u32, gates: &ArrayVec<u16, MAX_HELD>) -> Guard
        ensures { Narrows self.now result trace gates.now.items }
    {
        Guard {
            only: if_same(self.only, trace),
            gates: common(&self.gates, gates),
        }
    }
}

// The trace, if it is this one.
fn if_same(only: Option<u32>, trace: u32) -> Option<u32>
    ensures { (n : ℕ) → (result ≡ Some n) ↔ ((only ≡ Some n) × (trace ≡ n)) }
{
    if only == Some(trace) { only } else { None }
}

// The keys that are in both.
fn common(a: &ArrayVec<u16, MAX_HELD>, b: &ArrayVec<u16, MAX_HELD>) -> ArrayVec<u16, MAX_HELD>
    ensures { result.items ≡ filter (is_among b.now.items) a.now.items }
{
    let mut both = ArrayVec::new();
    for i in 0..a.len() {
        let key = a.as_slice()[i];
        if b.as_slice().contains(&key) {
            both.push(key);
        }
    }
    both
}

// The key of the held lock at this place of a chain, if it keeps all others out.
fn gate_at(chain: &Chain, naming: Naming<'_>, i: usize) -> Option<u16>
    ensures { result ≡ gate_in (key_by naming.entry) (slice_get chain.now.held_locks i) }
{
    let (key, mode) = chain.held(i)?;
    if mode.is_read() {
        None
    } else {
        Some(naming.of(key.get()))
    }
}

// The keys of the held locks of a chain that keep all others out, among this number of the oldest.
pub(crate) fn gates_before(
    chain: &Chain,
    naming: Naming<'_>,
    held: usize,
) -> ArrayVec<u16, MAX_HELD>
    ensures { (key : ℕ) → Contains result.items key ↔ IsGateBefore (key_by naming.entry) chain.now held key }
{
    let mut gates = ArrayVec::new();
    for i in 0..held.min(chain.held_len()) {
        if let Some(key) = gate_at(chain, naming, i) {
            gates.push(key);
        }
    }
    gates
}
