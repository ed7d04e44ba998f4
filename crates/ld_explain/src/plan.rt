//! What was seen of findings, and what is asked about for it, before the traces are read.

ghost use Rattle.std.specs.Prelude.{◌≡◌, ◌≤◌, IfOk, OnOk};
ghost use Rattle.ld_explain.specs.Names.{Adds, FactBelow, HasFact, Holds, MAX_KEYS};
ghost use Rattle.ld_explain.specs.Clauses.{AddsSeen, HasBetween, IsPlan, SeenHas};

use crate::choices::ask;
use crate::questions::{Questions, Seen};
use crate::{Asked, Finding, Tried};
use std::alloc::Global;

// What was seen of findings in turn, and all facts of it, which are asked about.
#[derive(Drop)]
pub(crate) struct Plan {
    pub asked: Asked,
    pub list: Vec<Seen>,
}

impl Plan {
    // What was seen of these findings, by facts about keys below `keys`.
    pub(crate) fn of(
        alloc: Global,
        questions: &Questions<'_>,
        keys: u16,
        findings: &[Finding],
    ) -> Tried<Plan>
        requires few { keys ≤ MAX_KEYS }
        requires below { Holds (FactBelow keys) (HasBetween questions.now.levels) }
        ensures { IfOk result (IsPlan questions.now.levels keys questions.now.keys.now findings.now) }
    {
        let mut plan = Plan {
            asked: Asked::new(alloc, keys)?,
            list: Vec::new(alloc),
        };
        for finding in findings {
            plan.add(questions.seen(finding)?)?;
        }
        Ok(plan)
    }

    // Adds what was seen of one more, and asks about its facts.
    fn add(&mut self, seen: Seen) -> Tried<()>
        requires { Holds (FactBelow self.old.asked.keys) (SeenHas seen) }
        ensures { OnOk result (AddsSeen self.old self.new seen) }
    {
        ask_seen(&mut self.asked, &seen);
        self.list.push(seen)?;
        Ok(())
    }
}

// Asks about the facts of what was seen.
fn ask_seen(asked: &mut Asked, seen: &Seen)
    requires { Holds (FactBelow asked.old.keys) (SeenHas seen.now) }
    ensures keys { asked.new.keys ≡ asked.old.keys }
    ensures adds { Adds (HasFact asked.old) (HasFact asked.new) (SeenHas seen.now) }
{
    match seen {
        Seen::Locks(choice) | Seen::Perhaps(choice) => ask(asked, choice),
        Seen::Unknown | Seen::Classes | Seen::Types => {}
    }
}
