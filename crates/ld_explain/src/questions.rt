//! Between what findings were seen: the levels are asked in turn.

ghost use Rattle.std.specs.Prelude.{◌≡◌, IfOk, IfSome, IsNone, slice_index, true};
ghost use Rattle.ld_explain.specs.Names.{HasFact, IsDouble, IsInversion, OnCircle};
ghost use Rattle.ld_explain.specs.Clauses.{IsChoiceFor, IsNestedChoice, IsSeenAs, IsSeenAt, IsUnseenAt, IsUnseenBy, Makes, levels_of, lock_level};

use crate::asker::{Asker, Case};
use crate::choices::{Choice, circle_choice, double_choice, inversion_choice};
use crate::{Finding, Levels, Naming, Tried};
use ld_parts::Settled;
use ld_trace::KeyId;
use std::alloc::Global;

// Between what a finding was seen, before it is explained: with what the finding between single locks is reported with.
#[derive(Drop)]
pub(crate) enum Seen {
    Locks(Choice),
    Perhaps(Choice),
    Unknown,
    Classes,
    Types,
}

// What is asked: the levels, and the locks in the order of their names.
#[derive(Drop)]
pub(crate) struct Questions<'a> {
    pub alloc: Global,
    pub levels: Levels<'a>,
    pub keys: &'a [KeyId],
}

impl<'a> Questions<'a> {
    // Between what the finding was seen.
    pub(crate) fn seen(&self, finding: &Finding) -> Tried<Seen>
        ensures { IfOk result (IsSeenAs (levels_of self.now.levels) self.now.keys.now finding.now) }
    {
        let Some(sure) = self.levels.sure else {
            return Ok(Seen::Unknown);
        };
        match self.choice(sure, finding)? {
            Some(choice) => Ok(Seen::Locks(choice)),
            None => self.seen_unsurely(finding),
        }
    }

    // The same of one that isn't seen without the names that stand for several locks.
    fn seen_unsurely(&self, finding: &Finding) -> Tried<Seen>
        requires { IsUnseenBy self.now (levels_of self.now.levels).sure (levels_of self.now.levels).sure finding.now }
        ensures { IfOk result (IsSeenAs (levels_of self.now.levels) self.now.keys.now finding.now) }
    {
        let Some(locks) = self.levels.locks else {
            return Ok(Seen::Unknown);
        };
        match self.choice(locks, finding)? {
            Some(choice) => Ok(Seen::Perhaps(choice)),
            None => Ok(self.seen_above(finding)),
        }
    }

    // The same of one that isn't seen between single locks.
    fn seen_above(&self, finding: &Finding) -> Seen
        requires sure { IsUnseenBy self.now (levels_of self.now.levels).sure (levels_of self.now.levels).sure finding.now }
        requires locks { IsUnseenBy self.now (levels_of self.now.levels).locks (levels_of self.now.levels).locks finding.now }
        ensures { IsSeenAs (levels_of self.now.levels) self.now.keys.now finding.now result }
    {
        let Some(locks) = self.levels.locks else {
            unreachable!();
        };
        let Some(classes) = self.levels.classes else {
            return Seen::Unknown;
        };
        let asker = Asker {
            locks,
            settled: classes,
            naming: Naming::Renamed(self.levels.class_of),
            type_of: self.levels.type_of,
            keys: self.keys,
        };
        match asker.case(finding) {
            Some(_) => Seen::Classes,
            None => Seen::Types,
        }
    }

    // What a finding between single locks is reported with that these facts between them have, of what the finding is of.
    fn choice(&self, facts: &'a Settled, finding: &Finding) -> Tried<Option<Choice>>
        ensures none { IfOk result (λ choice. IsNone choice → ¬ IsSeenAt self.now.keys.now (HasFact facts.now)
            (slice_index self.now.levels.type_of.now) (lock_level facts.now) finding.now) }
        ensures some { IfOk result (λ choice. IfSome choice (IsNestedChoice (HasFact facts.now) self.now.keys.now
            (slice_index self.now.levels.type_of.now) finding.now)) }
    {
        let asker = Asker {
            locks: facts,
            settled: facts,
            naming: Naming::Own,
            type_of: self.levels.type_of,
            keys: self.keys,
        };
        match asker.case(finding) {
            Some(case) => Ok(Some(choice_for(self.alloc, facts, &case)?)),
            None => Ok(None),
        }
    }
}

// What a finding is reported with that this makes in the facts.
fn choice_for(alloc: Global, settled: &Settled, case: &Case) -> Tried<Choice>
    requires { Makes (HasFact settled.now) case.now }
    ensures { IfOk result (IsChoiceFor (HasFact settled.now) case.now) }
{
    match case {
        Case::Circle(d) => circle_choice(alloc, settled, d),
        Case::Double(irq, key) => Ok(double_choice(settled, *irq, *key)),
        Case::Inversion(irq, (a, b)) => inversion_choice(alloc, settled, *irq, *a, *b),
    }
}
