//! In which traces the dependencies of findings are, and what traces hold at their end.

ghost use Rattle.std.specs.Prelude.{◌≡◌, ◌≤◌, All, IfOk, OnOk, length, map};
ghost use Rattle.ld_explain.specs.Names.{IsWellFormed, MAX_KEYS, MAX_TRACES};
ghost use Rattle.ld_explain.specs.Clauses.{AreWhereabouts, AsksMore, AsksVerdict, Naming, key_by};

use crate::ends::{End, ends_of};
use crate::sightings::Sightings;
use crate::{Asked, Naming, Order, Tried, Verdict};
use ld_trace::{MAX_KEYS, RawTrace};
use std::alloc::{AllocError, Global};

/// In which traces the dependencies of verdicts are, and what the traces hold at their end.
#[derive(Drop)]
pub struct Whereabouts {
    /// Of dependencies between types.
    pub types: Sightings,
    /// Of those between single locks.
    pub locks: Sightings,
    /// What is held, trace by trace.
    pub ends: Vec<End>,
}

// Where the dependencies of these verdicts of the traces, at most 4,096, are, by what `types` calls the keys and by the keys' own
// names, and what the traces hold at their end. It fails only if memory is refused.
pub(crate) fn whereabouts_of(
    alloc: Global,
    traces: &[RawTrace],
    types: Naming<'_>,
    verdicts: &[Verdict],
) -> Tried<Whereabouts>
    requires well_formed { All IsWellFormed traces.now }
    requires few { length traces.now ≤ MAX_TRACES }
    ensures { IfOk result (AreWhereabouts traces.now (key_by types.entry) verdicts.now) }
{
    ld_facts::renamed_facts_are_the_image();
    let asked = asked_of(alloc, verdicts)?;
    Ok(Whereabouts {
        types: Sightings::of(alloc, traces, types, &asked)?,
        locks: Sightings::of(alloc, traces, Naming::Own, &asked)?,
        ends: ends_of(alloc, traces)?,
    })
}

// Asks about the dependencies of findings, between types and between single locks.
fn asked_of(alloc: Global, verdicts: &[Verdict]) -> Tried<Asked>
    ensures { IfOk result (λ asked. All (AsksVerdict asked) verdicts.now) }
{
    let mut asked = Asked::new(alloc, MAX_KEYS)?;
    for v in verdicts {
        ask_orders(&mut asked, v.finding.orders());
        ask_orders(&mut asked, v.between.orders());
    }
    Ok(asked)
}

// Asks about dependencies.
fn ask_orders(asked: &mut Asked, orders: &[Order])
    requires { asked.old.keys ≡ MAX_KEYS }
    ensures { AsksMore asked.old asked.new orders.now }
{
    for order in orders {
        asked.add(order.dependency.fact());
    }
}
