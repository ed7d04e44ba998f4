//! Traces and facts that are too large for a table, and a graph of only some keys.

use super::facts::add;
use crate::steps::ShortFact::{Depends, Used};
use crate::steps::Step::{TurnOff, TurnOn, Write};
use crate::steps::{A, B, C, Step, chains_of, last_chain};
use ld_facts::{FactWords, Facts};
use ld_graph::{Graph, Mark};
use ld_parts::{PartedGraph, Ranks, Settled, are_ranked, find_ranks};
use ld_task::Chain;
use ld_task::Kind::En;
use ld_trace::Irq::Hard;
use ld_trace::{GRAPH_KEYS, MAX_KEYS};
use std::alloc::Global;

// Takes 48 locks, one under the other, whose keys are `apart` apart.
fn take_forty_eight(trace: &mut Vec<Step>, apart: u16) -> Option<()> {
    for number in 0..48u16 {
        trace.push(Write(number.saturating_mul(apart))).ok()?;
    }
    Some(())
}

// Adds the chains whose keys are in range.
fn add_chains(graph: &mut Graph, chains: &[Chain]) {
    for chain in chains {
        if chain.keys_below(graph.keys()) {
            graph.add_chain(chain);
        }
    }
}

fn graph_of(alloc: Global, trace: &[Step]) -> Option<Graph> {
    let chains = chains_of(alloc, &[trace])?;
    let mut graph = Graph::new(alloc, GRAPH_KEYS).ok()?;
    add_chains(&mut graph, &chains);
    Some(graph)
}

fn give_a_dependency_a_pair(alloc: Global) -> Option<bool> {
    let mut trace = Vec::new(alloc);
    take_forty_eight(&mut trace, 1)?;
    let graph = graph_of(alloc, &trace)?;
    let facts = graph.facts();
    Some(graph.is_clean() && facts.dependencies() == 1128 && facts.marks() == 144)
}

// The marks are the bits from 262,144 on, nine per key: those of key 0 at 3 and 7, of key 5 at 48 and 52, and of key
// 235, the last, at 2,118 and 2,122.
fn are_marked_by_an_opening(alloc: Global) -> Option<bool> {
    let mut trace = vec![in alloc; TurnOff(Hard)].ok()?;
    take_forty_eight(&mut trace, 5)?;
    trace.push(TurnOn(Hard)).ok()?;
    let chain = last_chain(&trace)?;
    let mut facts = Facts::new(alloc, GRAPH_KEYS).ok()?;
    if !chain.keys_below(GRAPH_KEYS) || !chain.keys_below(facts.keys()) {
        return None;
    }
    let mut words = FactWords::new();
    words.set_to(&chain, GRAPH_KEYS);
    facts.add_chain(&chain);
    let first = words.get(0) == Some((4096, 1 << 3 | 1 << 7 | 1 << 48 | 1 << 52));
    let last = words.len() == 34 && words.get(33) == Some((4129, 1 << 6 | 1 << 10));
    Some(first && last && facts.marks() == 96 && facts.dependencies() == 0)
}

// A graph in which each key is taken while the one before it is held, all the way round.
fn ring(alloc: Global) -> Option<Graph> {
    let mut graph = Graph::new(alloc, GRAPH_KEYS).ok()?;
    for number in 0..GRAPH_KEYS {
        let chain = last_chain(&[Write(number), Write((number + 1) % GRAPH_KEYS)])?;
        if !chain.keys_below(graph.keys()) {
            return None;
        }
        graph.add_chain(&chain);
    }
    Some(graph)
}

fn is_a_circle_of_all_keys(alloc: Global) -> Option<bool> {
    let circle = ring(alloc)?.shortest_circle()?;
    for i in 0..circle.len() {
        let (from, to, kind) = circle.get(i)?;
        if to != (from % GRAPH_KEYS + 1) % GRAPH_KEYS || kind != En {
            return None;
        }
    }
    Some(circle.len() == 256)
}

// Each of 300 keys before the next: the first 256 have one rank, and the others the next.
fn have_two_ranks(alloc: Global) -> Option<bool> {
    let mut facts = Facts::new(alloc, 300).ok()?;
    for key in 0..299u16 {
        add(&mut facts, Depends(key, key + 1, En))?;
    }
    let ranks = find_ranks(alloc, &facts).ok()?;
    for key in 0..300u16 {
        if ranks.get(key) != u16::from(key >= 256) {
            return None;
        }
    }
    Some(are_ranked(&facts, &ranks))
}

// The last two of 300 keys, each taken while the other is held.
fn have_a_circle_in_parts(alloc: Global) -> Option<bool> {
    let mut facts = Facts::new(alloc, 300).ok()?;
    for (from, to) in [(A, 299), (298, 299), (299, 298)] {
        add(&mut facts, Depends(from, to, En))?;
    }
    let graph = Settled::by_rank(PartedGraph::new(alloc, facts).ok()?);
    let found = graph.on_circle(298, 299, En) && !graph.on_circle(A, 299, En);
    Some(found && graph.shortest_circle()?.len() == 2)
}

// Two keys in each other's way, A and C, and a dependency on B that isn't only about them. The keys of the graph of C
// and A have the numbers of their places.
fn have_the_numbers_of_their_places(alloc: Global) -> Option<bool> {
    let mut facts = Facts::new(alloc, 3).ok()?;
    for (from, to) in [(A, C), (C, A), (A, B)] {
        add(&mut facts, Depends(from, to, En))?;
    }
    for key in [B, C] {
        add(&mut facts, Used(key))?;
    }
    let graph = Graph::of_keys(alloc, &facts, &[C, A]).ok()?;
    let among = graph.facts();
    let counted = among.keys() == 2 && among.dependencies() == 2 && among.marks() == 1;
    Some(counted && among.has_mark(0, Mark::Used) && graph.on_circle(1, 0, En))
}

// Facts about the last of all keys there may be: with one rank for all keys nothing goes down, and with a greater one
// for the last the dependency from it does.
fn go_down_from_the_last_key(alloc: Global) -> Option<bool> {
    let last = MAX_KEYS - 1;
    let mut facts = Facts::new(alloc, MAX_KEYS).ok()?;
    for (from, to) in [(last, last), (last, 300)] {
        add(&mut facts, Depends(from, to, En))?;
    }
    let mut ranks = Ranks::new(alloc, MAX_KEYS).ok()?;
    let level = are_ranked(&facts, &ranks);
    ranks.set(last, 1);
    Some(level && !are_ranked(&facts, &ranks))
}

// The first of these that doesn't hold.
fn misfit(alloc: Global) -> Option<&'static str> {
    for (about, holds) in [
        (
            "48 locks give a dependency a pair",
            give_a_dependency_a_pair(alloc),
        ),
        (
            "an opening marks 48 held locks",
            are_marked_by_an_opening(alloc),
        ),
        (
            "a ring of all keys is a circle of as many",
            is_a_circle_of_all_keys(alloc),
        ),
        (
            "300 keys in one order have two ranks",
            have_two_ranks(alloc),
        ),
        (
            "a dependency goes down from the last of all keys",
            go_down_from_the_last_key(alloc),
        ),
        (
            "two of 300 keys are on a circle",
            have_a_circle_in_parts(alloc),
        ),
        (
            "keys have the numbers of their places",
            have_the_numbers_of_their_places(alloc),
        ),
    ] {
        if holds != Some(true) {
            return Some(about);
        }
    }
    None
}

#[test]
fn large_graphs(rt: HostRuntime) {
    assert_eq!(rt; misfit(rt.alloc()), None);
}
