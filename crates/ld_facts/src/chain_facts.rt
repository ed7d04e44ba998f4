//! The facts of a chain, one after the other.

ghost use Rattle.std.specs.Prelude.{◌≡◌, ◌≤◌, slice_get, if◌then◌else◌};
ghost use Rattle.ld_task.specs.Marks.{marks_taken};
ghost use Rattle.ld_trace.specs.Modes.{is_read};
ghost use Rattle.ld_facts.specs.ChainFacts.{chain_fact, dependency_from, fact_slots, slot_held, mark_if, mark_of_held, mark_by_taking};

use crate::fact::Fact;
use ld_task::{Chain, Frame, Kind, Mark};
use ld_trace::{Irq, KeyId, Mode};

// How many marks an acquisition may give: that the key is used, and for each state that it is used in it or with it
// enabled.
pub(crate) const MARKS_TAKEN: usize = 5;

// How many marks an opening may give a held lock: one for each state.
pub(crate) const MARKS_OPENED: usize = 2;

/// How many slots the chain has for facts, at most 96. Some of them are empty.
pub fn fact_slots(chain: &Chain) -> usize
    ensures value { result ≡ fact_slots chain.now }
    ensures few { result ≤ 96 }
{
    match chain.taken() {
        Some(_) => chain.held_len() + MARKS_TAKEN,
        None => chain.held_len() * MARKS_OPENED,
    }
}

/// The fact in slot `n` of a chain, if there is one: of an acquisition the dependencies, oldest first, and then the
/// marks of the new lock; of an opening the marks of the held locks, oldest first.
#[inline(always)]
pub fn fact_in_slot(chain: &Chain, n: usize) -> Option<Fact>
    ensures { result ≡ chain_fact chain.now n }
{
    match chain.taken() {
        Some((key, mode, frame)) => {
            let held = chain.held_len();
            if n < held {
                dependency_of(chain, n, key, mode)
            } else {
                mark_of_new(chain, n - held, key, mode, frame)
            }
        }
        None => mark_of_old(chain, n / MARKS_OPENED, n % MARKS_OPENED),
    }
}

/// The place of the held lock by which the fact in slot `n` of a chain is given, counted from the oldest; None if it is
/// the lock that the chain takes.
pub fn lock_of_slot(chain: &Chain, n: usize) -> Option<usize>
    ensures { result ≡ slot_held chain.now n }
{
    match chain.taken() {
        Some(_) => { if n < chain.held_len() { Some(n) } else { None } }
        None => Some(n / MARKS_OPENED),
    }
}

// The dependency from the held lock `i`, if there is one, to the new lock, if that may be waited for.
pub(crate) fn dependency_of(chain: &Chain, i: usize, key: KeyId, mode: Mode) -> Option<Fact>
    ensures { result ≡ dependency_from (slice_get chain.now.held_locks i)
        (record { key = key; mode = mode }) }
{
    let (from, old) = chain.held(i)?;
    mode.may_wait().then_some(Fact::Dependency {
        from: from.get(),
        to: key.get(),
        kind: Kind::between(old, mode),
    })
}

// The mark of number `n` below 5 on the new lock, if the acquisition gives it.
pub(crate) fn mark_of_new(
    chain: &Chain,
    n: usize,
    key: KeyId,
    mode: Mode,
    frame: Frame,
) -> Option<Fact>
    ensures { result ≡ mark_if (marks_taken mode frame chain.now.flags) key
        (mark_by_taking (is_read mode) n) }
{
    let read = mode.is_read();
    let waits = mode.may_wait();
    let flags = chain.flags();
    let (given, mark) = match n {
        0 => (true, Mark::Used),
        1 => (waits && frame == Frame::Hardirq, used_in(Irq::Hard, read)),
        2 => (flags.is_enabled(Irq::Hard), enabled(Irq::Hard, read)),
        3 => (waits && frame == Frame::Softirq, used_in(Irq::Soft, read)),
        _ => (flags.is_enabled(Irq::Soft), enabled(Irq::Soft, read)),
    };
    mark_given(given, key, mark)
}

// The mark of number `n` below 2 on the held lock `i`, if there is one and the opening gives it.
pub(crate) fn mark_of_old(chain: &Chain, i: usize, n: usize) -> Option<Fact>
    ensures { result ≡ mark_of_held (slice_get chain.now.held_locks i) chain.now.flags n }
{
    let (key, mode) = chain.held(i)?;
    let irq = if n == 0 { Irq::Hard } else { Irq::Soft };
    mark_given(
        chain.flags().is_enabled(irq),
        key,
        enabled(irq, mode.is_read()),
    )
}

// The mark of a key that is used in the state.
fn used_in(irq: Irq, read: bool) -> Mark
    ensures { result ≡ Mark.UsedIn irq read }
{
    Mark::UsedIn { irq, read }
}

// The mark of a key that is used with the state enabled.
fn enabled(irq: Irq, read: bool) -> Mark
    ensures { result ≡ Mark.Enabled irq read }
{
    Mark::Enabled { irq, read }
}

// The mark on the key, if it is given.
fn mark_given(given: bool, key: KeyId, mark: Mark) -> Option<Fact>
    ensures { result ≡ (if given then Some (Fact.Marked key mark) else None) }
{
    given.then_some(Fact::Marked {
        key: key.get(),
        mark,
    })
}
