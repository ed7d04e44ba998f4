//! Findings between types, and between what they were seen.

ghost use Rattle.std.specs.Prelude.{◌≡◌, ◌≤◌, All, IfOk, IfSome, length, map};
ghost use Rattle.ld_explain.specs.Names.{AreSame, FactBelow, HasFact, Holds, IsWellFormed, MAX_KEYS, MAX_TRACES};
ghost use Rattle.ld_explain.specs.Clauses.{Are, AreVerdicts, HasBetween, IsSeenAmong, Naming, SaysSeen, ViewHas, levels_of, plain, view_of};

use crate::explainer::Explainer;
use crate::plan::Plan;
use crate::questions::Questions;
use crate::{Evidence, Finding, Levels, Naming, Tried, Verdict, findings_of};
use ld_parts::Settled;
use ld_trace::{KeyId, RawTrace};
use std::alloc::{AllocError, Global};

/// What was found in the traces, at most 4,096, between the types of their locks, among `type_keys` and in their order: the findings
/// of the types' facts, each with what it was seen between among `lock_keys`. A finding between single locks is a shortest one, with
/// its own first occurrences and what speaks against it.
///
/// It fails only if memory is refused. If the types' facts are clean it takes none and reads no trace.
pub fn verdicts_of<'a>(
    alloc: Global,
    levels: &Levels<'a>,
    traces: &[RawTrace],
    type_keys: &[KeyId],
    lock_keys: &'a [KeyId],
) -> Result<Vec<Verdict>, AllocError>
    requires few { length traces.now ≤ MAX_TRACES }
    requires well_formed { All IsWellFormed traces.now }
    requires types { AreSame (HasFact levels.now.types.now) (ViewHas (view_of (Naming.Renamed levels.now.type_of) traces.now)) }
    requires sure { Holds (ViewHas (plain traces.now)) (levels_of levels.now).sure.Has }
    requires locks { Holds (ViewHas (plain traces.now)) (levels_of levels.now).locks.Has }
    ensures { IfOk result (λ verdicts. AreVerdicts (HasFact levels.now.types.now)
        (view_of (Naming.Renamed levels.now.type_of) traces.now) type_keys.now (levels_of levels.now) (plain traces.now) lock_keys.now verdicts.items) }
{
    let by_type = Naming::Renamed(levels.type_of);
    let findings = findings_of(alloc, levels.types, traces, by_type, type_keys)?;
    if findings.is_empty() {
        return Ok(Vec::new(alloc));
    }
    let questions = Questions {
        alloc,
        levels: *levels,
        keys: lock_keys,
    };
    let keys = keys_between(levels);
    let plan = Plan::of(alloc, &questions, keys, findings.as_slice())?;
    explained(alloc, traces, Naming::Own, lock_keys, &plan, findings)
}

// The findings, each with what the plan says that it was seen between.
fn explained(
    alloc: Global,
    traces: &[RawTrace],
    naming: Naming<'_>,
    keys: &[KeyId],
    plan: &Plan,
    findings: Vec<Finding>,
) -> Tried<Vec<Verdict>>
    requires few { length traces.now ≤ MAX_TRACES }
    requires well_formed { All IsWellFormed traces.now }
    requires has { Holds (ViewHas (view_of naming traces.now)) (HasFact plan.now.asked) }
    requires among { All (IsSeenAmong plan.now.asked) plan.now.list.items }
    requires each { length findings.items ≡ length plan.now.list.items }
    ensures findings { IfOk result (λ verdicts. map (λ v. v.finding) verdicts.items ≡ findings.items) }
    ensures between { IfOk result (λ verdicts.
        Are (SaysSeen (view_of naming.entry traces.now) keys.now) plan.now.list.items verdicts.items) }
{
    let evidence = Evidence::of(alloc, traces, naming, &plan.asked)?;
    let explainer = Explainer {
        traces,
        naming,
        asked: &plan.asked,
        evidence: &evidence,
        keys,
        alloc,
    };
    explainer.verdicts(findings, plan.list.as_slice())
}

// A bound on the keys of facts between single locks.
fn keys_between(levels: &Levels<'_>) -> u16
    ensures few { result ≤ MAX_KEYS }
    ensures below { Holds (FactBelow result) (HasBetween levels.now) }
{
    let sure = keys_of(levels.sure);
    let locks = keys_of(levels.locks);
    if sure < locks { locks } else { sure }
}

// The bound on the keys, or 0.
fn keys_of(settled: Option<&Settled>) -> u16
    ensures few { result ≤ MAX_KEYS }
    ensures bound { IfSome settled.entry (λ s. s.now.keys ≤ result) }
{
    match settled {
        Some(settled) => settled.facts().keys(),
        None => 0,
    }
}
