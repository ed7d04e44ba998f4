//! The findings of settled facts.

ghost use Rattle.std.specs.Prelude.{◌≤◌, All, IfOk, length};
ghost use Rattle.ld_explain.specs.Names.{AreSame, HasFact, IsWellFormed, MAX_TRACES};
ghost use Rattle.ld_explain.specs.Clauses.{AreFindings, ViewHas, view_of};

use crate::choices::Choices;
use crate::explainer::Explainer;
use crate::{Evidence, Finding, Found, Naming};
use ld_parts::Settled;
use ld_trace::{KeyId, RawTrace};
use std::alloc::{AllocError, Global};

/// What was found in the traces, at most 4,096, whose facts these are, among the keys and in their order: first the circles
/// that are reported, then the doubles, then the inversions. Each finding says where its facts first occur, and what
/// speaks against it.
///
/// It fails only if memory is refused. If the facts are clean it takes none and reads no trace.
pub fn findings_of(
    alloc: Global,
    settled: &Settled,
    traces: &[RawTrace],
    naming: Naming<'_>,
    keys: &[KeyId],
) -> Result<Vec<Finding>, AllocError>
    requires few { length traces.now ≤ MAX_TRACES }
    requires well_formed { All IsWellFormed traces.now }
    requires facts { AreSame (HasFact settled.now) (ViewHas (view_of naming traces.now)) }
    ensures { IfOk result (λ findings. AreFindings (HasFact settled.now) (view_of naming.entry traces.now) keys.now findings.items) }
{
    if settled.is_clean() {
        return Ok(Vec::new(alloc));
    }
    let found = Found::of(alloc, settled, keys)?;
    let choices = Choices::of(alloc, settled, &found)?;
    let evidence = Evidence::of(alloc, traces, naming, &choices.asked)?;
    let explainer = Explainer {
        traces,
        naming,
        asked: &choices.asked,
        evidence: &evidence,
        keys,
        alloc,
    };
    explainer.findings(choices.list.as_slice())
}
