//! What findings are reported with. It is chosen before anything is explained, so that the traces are asked only about
//! what is reported.

ghost use Rattle.std.specs.Prelude.{[], ◌<◌, ◌↔◌, ◌∷◌, ◌≡◌, ◌⊎◌, All, IfOk, List, OnOk, Some, length, slice_get, ℕ};
ghost use Rattle.ld_explain.specs.Names.{Adds, DependenciesOf, FactBelow, HasFact, Holds, IsDouble, IsInversion, OnCircle};
ghost use Rattle.ld_explain.specs.Clauses.{AddsChoice, AddsEach, AddsFor, AreAsked, AreChoices, AreFound, ChoosesCircle, ChoosesCircles, IsChoiceFrom, IsDoubleChoice, IsInversionChoice, IsMark, IsMember, IsPart, enabled_of, used_of};

use crate::{Asked, Dependency, Found, Tried};
use ld_facts::Fact;
use ld_graph::{Mark, Walk};
use ld_parts::Settled;
use ld_trace::{Irq, KeyId};
use std::alloc::Global;

// A link of a state: that the one key is used in it and the other with it enabled, and the forms of these marks.
#[derive(Drop)]
pub(crate) struct Link {
    pub irq: Irq,
    // Used in the state.
    pub a: KeyId,
    // Used with it enabled.
    pub b: KeyId,
    pub used_read: bool,
    pub enabled_read: bool,
}

impl Link {
    // That the one key is used in the state.
    pub(crate) fn used(&self) -> Fact
        ensures { result ≡ used_of self.now }
    {
        Fact::Marked {
            key: self.a.get(),
            mark: Mark::UsedIn {
                irq: self.irq,
                read: self.used_read,
            },
        }
    }

    // That the other is used with it enabled.
    pub(crate) fn enabled(&self) -> Fact
        ensures { result ≡ enabled_of self.now }
    {
        Fact::Marked {
            key: self.b.get(),
            mark: Mark::Enabled {
                irq: self.irq,
                read: self.enabled_read,
            },
        }
    }
}

// What a finding is reported with: a circle with its walk, a double with its link, an inversion with both.
#[derive(Drop)]
pub(crate) enum Choice {
    ByWalk(Vec<Dependency>),
    ByLink(Link),
    ByBoth(Vec<Dependency>, Link),
}

// What was chosen, and all facts of it, which are asked about.
#[derive(Drop)]
pub(crate) struct Choices {
    pub asked: Asked,
    pub list: Vec<Choice>,
}

impl Choices {
    pub(crate) fn of(alloc: Global, settled: &Settled, found: &Found) -> Tried<Choices>
        requires { (keys : List ℕ) × AreFound (HasFact settled.now) keys found.now }
        ensures { IfOk result (AreChoices settled.now found.now) }
    {
        let mut choices = Choices {
            asked: Asked::new(alloc, settled.facts().keys())?,
            list: Vec::new(alloc),
        };
        choices.add_circles(alloc, settled, found.circles())?;
        choices.add_doubles(settled, found.doubles())?;
        choices.add_inversions(alloc, settled, found.inversions())?;
        Ok(choices)
    }

    // Adds a choice, and asks about its facts.
    fn add(&mut self, choice: Choice) -> Tried<()>
        requires { Holds (FactBelow self.old.asked.keys) (IsPart choice) }
        ensures { OnOk result (AddsChoice self.old self.new choice) }
    {
        ask(&mut self.asked, &choice);
        self.list.push(choice)?;
        Ok(())
    }

    // A shortest circle through a dependency that is on one, unless that is a member of a circle that was chosen.
    fn add_circle(&mut self, alloc: Global, settled: &Settled, d: &Dependency) -> Tried<()>
        requires bound { self.old.asked.keys ≡ settled.now.keys }
        requires on { OnCircle (HasFact settled.now) d.now }
        ensures { OnOk result (ChoosesCircle settled.now d.now self.old self.new) }
    {
        if self.asked.has(d.fact()) {
            return Ok(());
        }
        self.add(circle_choice(alloc, settled, d)?)
    }

    fn add_circles(&mut self, alloc: Global, settled: &Settled, circles: &[Dependency]) -> Tried<()>
        requires none { ChoosesCircles settled.now [] self.old }
        requires on { All (OnCircle (HasFact settled.now)) circles.now }
        ensures { OnOk result (ChoosesCircles settled.now circles.now self.new) }
    {
        for d in circles {
            self.add_circle(alloc, settled, d)?;
        }
        Ok(())
    }

    // The link of a double.
    fn add_double(&mut self, settled: &Settled, irq: Irq, key: KeyId) -> Tried<()>
        requires bound { self.old.asked.keys ≡ settled.now.keys }
        requires is { IsDouble (HasFact settled.now) irq key }
        ensures { OnOk result (AddsFor (IsDoubleChoice (HasFact settled.now)) (irq, key) self.old self.new) }
    {
        self.add(double_choice(settled, irq, key))
    }

    fn add_doubles(&mut self, settled: &Settled, doubles: &[(Irq, KeyId)]) -> Tried<()>
        requires asked { AreAsked settled.now self.old }
        requires are { All (λ x. IsDouble (HasFact settled.now) x.0 x.1) doubles.now }
        ensures { OnOk result (AddsEach settled.now (IsDoubleChoice (HasFact settled.now)) doubles.now self.old self.new) }
    {
        for double in doubles {
            self.add_double(settled, double.0, double.1)?;
        }
        Ok(())
    }

    // A shortest walk of an inversion, and the link that closes it.
    fn add_inversion(
        &mut self,
        alloc: Global,
        settled: &Settled,
        irq: Irq,
        a: KeyId,
        b: KeyId,
    ) -> Tried<()>
        requires bound { self.old.asked.keys ≡ settled.now.keys }
        requires is { IsInversion (HasFact settled.now) irq a b }
        ensures { OnOk result (AddsFor (IsInversionChoice (HasFact settled.now)) (irq, (a, b)) self.old self.new) }
    {
        self.add(inversion_choice(alloc, settled, irq, a, b)?)
    }

    fn add_inversions(
        &mut self,
        alloc: Global,
        settled: &Settled,
        inversions: &[(Irq, (KeyId, KeyId))],
    ) -> Tried<()>
        requires asked { AreAsked settled.now self.old }
        requires are { All (λ x. IsInversion (HasFact settled.now) x.0 x.1.0 x.1.1) inversions.now }
        ensures { OnOk result (AddsEach settled.now (IsInversionChoice (HasFact settled.now)) inversions.now self.old self.new) }
    {
        for inversion in inversions {
            let (a, b) = inversion.1;
            self.add_inversion(alloc, settled, inversion.0, a, b)?;
        }
        Ok(())
    }
}

// A shortest circle of those that begin with a dependency that is on one.
pub(crate) fn circle_choice(alloc: Global, settled: &Settled, d: &Dependency) -> Tried<Choice>
    requires { OnCircle (HasFact settled.now) d.now }
    ensures { IfOk result (IsChoiceFrom (HasFact settled.now) d.now) }
{
    let Some(walk) = settled.circle_through(d.from.get(), d.to.get(), d.kind) else {
        unreachable!();
    };
    Ok(Choice::ByWalk(members(alloc, &walk)?))
}

pub(crate) fn double_choice(settled: &Settled, irq: Irq, key: KeyId) -> Choice
    requires { IsDouble (HasFact settled.now) irq key }
    ensures { IsDoubleChoice (HasFact settled.now) (irq, key) result }
{
    let Some((enabled_read, used_read)) = settled.double_forms(irq, key.get()) else {
        unreachable!();
    };
    Choice::ByLink(Link {
        irq,
        a: key,
        b: key,
        used_read,
        enabled_read,
    })
}

pub(crate) fn inversion_choice(
    alloc: Global,
    settled: &Settled,
    irq: Irq,
    a: KeyId,
    b: KeyId,
) -> Tried<Choice>
    requires { IsInversion (HasFact settled.now) irq a b }
    ensures { IfOk result (IsInversionChoice (HasFact settled.now) (irq, (a, b))) }
{
    let Some(found) = settled.inversion_walk(irq, a.get(), b.get()) else {
        unreachable!();
    };
    let walk = members(alloc, &found.walk)?;
    let link = Link {
        irq,
        a,
        b,
        used_read: found.used_read,
        enabled_read: found.enabled_read,
    };
    Ok(Choice::ByBoth(walk, link))
}

fn ask_walk(asked: &mut Asked, walk: &[Dependency])
    requires { Holds (FactBelow asked.old.keys) (IsMember walk.now) }
    ensures keys { asked.new.keys ≡ asked.old.keys }
    ensures adds { Adds (HasFact asked.old) (HasFact asked.new) (IsMember walk.now) }
{
    for d in walk {
        asked.add(d.fact());
    }
}

fn ask_link(asked: &mut Asked, link: &Link)
    requires { Holds (FactBelow asked.old.keys) (IsMark link.now) }
    ensures keys { asked.new.keys ≡ asked.old.keys }
    ensures adds { Adds (HasFact asked.old) (HasFact asked.new) (IsMark link.now) }
{
    asked.add(link.used());
    asked.add(link.enabled());
}

pub(crate) fn ask(asked: &mut Asked, choice: &Choice)
    requires { Holds (FactBelow asked.old.keys) (IsPart choice.now) }
    ensures keys { asked.new.keys ≡ asked.old.keys }
    ensures adds { Adds (HasFact asked.old) (HasFact asked.new) (IsPart choice.now) }
{
    match choice {
        Choice::ByWalk(walk) => ask_walk(asked, walk),
        Choice::ByLink(link) => ask_link(asked, link),
        Choice::ByBoth(walk, link) => {
            ask_walk(asked, walk);
            ask_link(asked, link);
        }
    }
}

// The members of a walk, in as many words as there are.
fn members(alloc: Global, walk: &Walk) -> Tried<Vec<Dependency>>
    ensures { IfOk result (λ members. members.items ≡ walk.now) }
{
    let mut members = Vec::new(alloc);
    for i in 0..walk.len() {
        members.push(member(walk, i))?;
    }
    Ok(members)
}

// The member at this place of a walk.
fn member(walk: &Walk, i: usize) -> Dependency
    requires { i < length walk.now }
    ensures { slice_get walk.now i ≡ Some result }
{
    match walk.get(i) {
        Some((from, to, kind)) => match (KeyId::of_many(from), KeyId::of_many(to)) {
            (Some(from), Some(to)) => Dependency { from, to, kind },
            _ => unreachable!(),
        },
        None => unreachable!(),
    }
}
