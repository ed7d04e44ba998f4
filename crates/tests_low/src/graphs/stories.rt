//! What graphs find in small traces. Each story is given to a graph and to a graph in parts, chain by chain, and all
//! that they find is compared.

mod circles;
mod interrupts;

use super::finds::Finds;
use crate::steps::{Step, chains_of};
use ld_facts::Facts;
use ld_graph::{Circle, Graph, InversionWalk, Kind, Walk};
use ld_parts::{PartedGraph, Ranks, Settled};
use ld_task::Chain;
use ld_task::Kind::{En, Er, Sn, Sr};
use ld_trace::Irq::{Hard, Soft};
use ld_trace::{GRAPH_KEYS, Irq};
use std::alloc::Global;

const KINDS: [Kind; 4] = [Er, En, Sr, Sn];

const IRQS: [Irq; 2] = [Hard, Soft];

// A dependency.
type Arrow = (u16, u16, Kind);

// A double of the state, and whether the marks that it is used with the state enabled and in it are the read forms.
type Double = (Irq, u16, (bool, bool));

// An inversion of the state, the forms of its marks, and its walk.
#[derive(Clone, Copy)]
struct Inversion {
    irq: Irq,
    ends: (u16, u16),
    forms: (bool, bool),
    walk: &'static [Arrow],
}

// Traces, and all that is found in them.
#[derive(Drop)]
struct Story {
    about: &'static str,
    keys: u16,
    traces: &'static [&'static [Step]],
    // The ranks of the first keys by which the graph is parted. None are given if they are to be found.
    ranks: &'static [u16],
    dependencies: u64,
    // After how many of the first chains nothing is found.
    clean: usize,
    // For each dependency on a circle the shortest one that begins with it.
    circles: &'static [&'static [Arrow]],
    doubles: &'static [Double],
    inversions: &'static [Inversion],
    // The dependencies that are in an inversion.
    inverted: &'static [Arrow],
}

const NOTHING: Story = Story {
    about: "nothing",
    keys: 2,
    traces: &[],
    ranks: &[],
    dependencies: 0,
    clean: 0,
    circles: &[],
    doubles: &[],
    inversions: &[],
    inverted: &[],
};

// The circle that begins with the dependency, or none.
fn circle_from(circles: &[&'static [Arrow]], arrow: Arrow) -> &'static [Arrow] {
    let found = circles.iter().find(|circle| circle.first() == Some(&arrow));
    found.copied().unwrap_or(&[])
}

fn double_of(doubles: &[Double], irq: Irq, key: u16) -> Option<(bool, bool)> {
    doubles
        .iter()
        .find(|double| (double.0, double.1) == (irq, key))
        .map(|double| double.2)
}

fn inversion_of(inversions: &[Inversion], irq: Irq, ends: (u16, u16)) -> Option<Inversion> {
    inversions
        .iter()
        .find(|inversion| (inversion.irq, inversion.ends) == (irq, ends))
        .copied()
}

// Whether the walk has these members in this order, and no other.
fn is_walk(walk: &Walk, members: &[Arrow]) -> bool {
    let same = (0..=members.len()).all(|i| walk.get(i) == members.get(i).copied());
    same && walk.len() == members.len()
}

fn is_circle(found: Option<Walk>, members: &[Arrow]) -> bool {
    match found {
        Some(walk) => is_walk(&walk, members),
        None => members.is_empty(),
    }
}

fn is_inversion(found: Option<InversionWalk>, wanted: Option<Inversion>) -> bool {
    match (found, wanted) {
        (Some(found), Some(wanted)) => is_walk(&found.walk, wanted.walk)
            && (found.enabled_read, found.used_read) == wanted.forms,
        (None, None) => true,
        _ => false,
    }
}

fn are_dependencies_told<G: Finds>(graph: &G, story: &Story, from: u16, to: u16) -> bool {
    for kind in KINDS {
        let circle = circle_from(story.circles, (from, to, kind));
        if graph.is_on_circle(from, to, kind) == circle.is_empty()
            || !is_circle(graph.circle(from, to, kind), circle)
            || graph.is_in_inversion(from, to, kind) != story.inverted.contains(&(from, to, kind))
        {
            return false;
        }
    }
    true
}

fn are_inversions_told<G: Finds>(graph: &G, story: &Story, a: u16, b: u16) -> bool {
    for irq in IRQS {
        let wanted = inversion_of(story.inversions, irq, (a, b));
        if graph.has_inversion(irq, a, b) != wanted.is_some()
            || !is_inversion(graph.inversion(irq, a, b), wanted)
        {
            return false;
        }
    }
    true
}

fn are_doubles_told<G: Finds>(graph: &G, story: &Story, key: u16) -> bool {
    for irq in IRQS {
        let wanted = double_of(story.doubles, irq, key);
        if graph.has_double(irq, key) != wanted.is_some() || graph.double(irq, key) != wanted {
            return false;
        }
    }
    true
}

// Whether the circle has these members in this order, and no other.
fn has_members(circle: &Circle, members: &[Arrow]) -> bool {
    let same = (0..=members.len()).all(|i| circle.get(i) == members.get(i).copied());
    same && circle.len() == members.len()
}

fn are_as_long(circles: &[&'static [Arrow]], length: usize) -> bool {
    circles.iter().all(|circle| circle.len() >= length)
}

// Whether the shortest circle is the one that begins with its first member, and none is shorter.
fn is_shortest_told<G: Finds>(graph: &G, story: &Story) -> bool {
    let Some(shortest) = graph.shortest() else {
        return story.circles.is_empty();
    };
    let Some(first) = shortest.get(0) else {
        return false;
    };
    has_members(&shortest, circle_from(story.circles, first))
        && are_as_long(story.circles, shortest.len())
}

// Whether two keys are in what is found as the story says.
fn are_two_told<G: Finds>(graph: &G, story: &Story, a: u16, b: u16) -> bool {
    are_dependencies_told(graph, story, a, b) && are_inversions_told(graph, story, a, b)
}

// Whether a key is in what is found as the story says, by itself, with each other key, and with keys that are out of
// range.
fn is_key_told<G: Finds>(graph: &G, story: &Story, key: u16) -> bool {
    (0..=story.keys).all(|other| are_two_told(graph, story, key, other))
        && are_doubles_told(graph, story, key)
        && are_two_told(graph, story, key, 300)
}

// Whether the graph finds what the story says, and nothing else.
fn finds<G: Finds>(graph: &G, story: &Story) -> bool {
    (0..=story.keys).all(|key| is_key_told(graph, story, key)) && is_shortest_told(graph, story)
}

// That nothing is found among this many keys.
fn nothing(keys: u16) -> Story {
    Story { keys, ..NOTHING }
}

// Gives the graph the chains, and returns after how many of them nothing is found. None if its flag disagrees with
// what it finds, or a key is out of range.
fn tell(graph: &mut Graph, chains: &[Chain]) -> Option<usize> {
    let nothing = nothing(graph.keys());
    let mut clean = 0usize;
    for chain in chains {
        if !chain.keys_below(graph.keys()) {
            return None;
        }
        graph.add_chain(chain);
        if graph.is_clean() != finds(graph, &nothing) {
            return None;
        }
        clean = clean.saturating_add(usize::from(graph.is_clean()));
    }
    Some(clean)
}

// Whether the chains bring nothing that the graph doesn't know, and it looks for nothing.
fn are_known(graph: &mut Graph, chains: &[Chain]) -> bool {
    let searched = graph.searched();
    for chain in chains {
        if !chain.keys_below(graph.keys()) || graph.add_chain(chain) {
            return false;
        }
    }
    graph.searched() == searched
}

// A graph of the story's traces, which finds what the story says. None if it finds anything else, memory is refused, or
// a trace isn't well formed.
fn told(alloc: Global, story: &Story) -> Option<Graph> {
    if story.keys > GRAPH_KEYS {
        return None;
    }
    let chains = chains_of(alloc, story.traces)?;
    let mut graph = Graph::new(alloc, story.keys).ok()?;
    let clean = tell(&mut graph, &chains)?;
    if clean == story.clean && are_known(&mut graph, &chains) && finds(&graph, story) {
        Some(graph)
    } else {
        None
    }
}

// The ranks of the first keys.
pub(crate) fn ranks_of(alloc: Global, ranks: &[u16]) -> Option<Ranks> {
    Some(Ranks::of(ranks.to_vec(alloc).ok()?))
}

fn facts_of(alloc: Global, graph: &Graph) -> Option<Facts> {
    let mut facts = Facts::new(alloc, graph.keys()).ok()?;
    facts.unite(graph.facts());
    Some(facts)
}

// Whether a graph finds what the story says, and a graph in parts of its facts does.
fn is_told(alloc: Global, story: &Story) -> Option<bool> {
    let facts = facts_of(alloc, &told(alloc, story)?)?;
    let counted = facts.dependencies() == story.dependencies;
    let parted = if story.ranks.is_empty() {
        PartedGraph::new(alloc, facts).ok()?
    } else {
        PartedGraph::by_ranks(alloc, facts, &ranks_of(alloc, story.ranks)?).ok()?
    };
    let graph = Settled::by_rank(parted);
    let clean = graph.is_clean() == finds(&graph, &nothing(story.keys));
    Some(counted && clean && finds(&graph, story))
}

// The first story for which something else is found.
fn misfit(alloc: Global, stories: &[Story]) -> Option<&'static str> {
    stories
        .iter()
        .find(|story| is_told(alloc, story) != Some(true))
        .map(|story| story.about)
}
