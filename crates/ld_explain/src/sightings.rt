//! In which traces dependencies are.

ghost use Rattle.std.specs.Prelude.{[], ◌++◌, ◌∷◌, ◌≡◌, ◌≤◌, All, IfOk, OnOk, length};
ghost use Rattle.ld_explain.specs.Names.{IsWellFormed, MAX_TRACES};
ghost use Rattle.ld_explain.specs.Clauses.{AreOriginsOf, AreOriginsOfEach, place_in, places_in, view_of};

use crate::{Asked, Dependency, Evidence, Naming, Origin, Origins, Tried};
use ld_trace::RawTrace;
use std::alloc::{AllocError, Global};
use std::marker::Model;
use std::slice::from_ref;

/// Of dependencies that are asked about, the first occurrence in each trace of a list that has them.
#[derive(Drop)]
pub struct Sightings {
    // The first occurrences in each trace by itself.
    each: Vec<Origins>,
}

impl Model for Sightings {
    ghost use Rattle.std.specs.Prelude.{◌≤◌, List, length};
    ghost use Rattle.ld_explain.specs.Names.{MAX_TRACES};
    ghost use Rattle.ld_explain.specs.Origins.{OriginParts};

    ghost Value = { List OriginParts };

    ghost view = { λ s. s.each.items };

    ghost invariant = { λ s. length s.each.items ≤ MAX_TRACES };
}

impl Sightings {
    /// Those in no traces.
    pub fn none(alloc: Global) -> Sightings
        ensures { result ≡ [] }
    {
        Sightings {
            each: Vec::new(alloc),
        }
    }

    // Those of the dependencies that are asked about.
    pub(crate) fn of(
        alloc: Global,
        traces: &[RawTrace],
        naming: Naming<'_>,
        asked: &Asked,
    ) -> Tried<Sightings>
        requires well_formed { All IsWellFormed traces.now }
        requires few { length traces.now ≤ MAX_TRACES }
        ensures { IfOk result (AreOriginsOfEach (view_of naming.entry traces.now) asked.now) }
    {
        let mut each = Vec::new(alloc);
        for trace in traces {
            each.push(origins_in(alloc, trace, naming, asked)?)?;
        }
        Ok(Sightings { each })
    }

    /// Of the traces that have the dependency, in their order, its first occurrence in each; of one that was asked about. It fails
    /// only if memory is refused.
    pub fn places(&self, alloc: Global, d: &Dependency) -> Result<Vec<Origin>, AllocError>
        ensures { IfOk result (λ places. places.items ≡ places_in self.now d.now) }
    {
        let mut places = Vec::new(alloc);
        for i in 0..self.each.len() {
            add_place(&mut places, i as u32, self.each[i].origin_in(d))?;
        }
        Ok(places)
    }
}

// The first occurrences in one trace.
fn origins_in(alloc: Global, trace: &RawTrace, naming: Naming<'_>, asked: &Asked) -> Tried<Origins>
    requires { IsWellFormed trace.now }
    ensures { IfOk result (AreOriginsOf (view_of naming.entry (trace.now ∷ [])) asked.now) }
{
    let evidence = Evidence::of(alloc, from_ref(trace), naming, asked)?;
    Ok(evidence.origins)
}

// Adds the occurrence in the trace of this number, if there is one.
fn add_place(places: &mut Vec<Origin>, trace: u32, origin: Option<Origin>) -> Tried<()>
    ensures { OnOk result (places.new.items ≡ places.old.items ++ place_in trace origin) }
{
    if let Some(origin) = origin {
        places.push(Origin { trace, ..origin })?;
    }
    Ok(())
}
