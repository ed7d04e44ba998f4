//! Ranks: whether an arrow goes down by them, whether facts are parted by them, and those that are found.

use super::facts::add;
use super::stories::ranks_of;
use crate::steps::ShortFact::{Depends, Enabled, UsedIn};
use crate::steps::{A, B, C, ShortFact};
use ld_facts::Facts;
use ld_parts::{PartedGraph, PartingFault, Ranks, are_ranked, find_ranks, find_ranks_of};
use ld_task::Kind::En;
use ld_trace::Irq::{Hard, Soft};
use ld_trace::MAX_KEYS;
use std::alloc::Global;

// Facts about the first keys, the ranks of these keys, whether no arrow goes down by them, and whether the facts are
// then parted. Parting takes room for each rank up to the greatest, so with the last ranks nothing is parted.
struct Parting {
    about: &'static str,
    facts: &'static [ShortFact],
    ranks: &'static [u16],
    ranked: bool,
    parted: Option<bool>,
}

// A dependency from A to B, and a link from C, which is used with the state enabled, to A, which is used in it.
const THREE: &[ShortFact] = &[
    Depends(A, B, En),
    UsedIn(A, Soft, true),
    Enabled(C, Soft, false),
];

static PARTINGS: [Parting; 12] = [
    Parting {
        about: "a dependency goes down",
        facts: &[Depends(A, B, En)],
        ranks: &[1, 0],
        ranked: false,
        parted: Some(false),
    },
    Parting {
        about: "a dependency climbs",
        facts: &[Depends(A, B, En)],
        ranks: &[0, 1],
        ranked: true,
        parted: Some(true),
    },
    Parting {
        about: "a link goes down",
        facts: &[Enabled(A, Hard, false), UsedIn(B, Hard, false)],
        ranks: &[1, 0],
        ranked: false,
        parted: Some(false),
    },
    Parting {
        about: "a link climbs",
        facts: &[Enabled(A, Hard, false), UsedIn(B, Hard, false)],
        ranks: &[0, 1],
        ranked: true,
        parted: Some(true),
    },
    Parting {
        about: "a dependency and a link in one rank",
        facts: THREE,
        ranks: &[0, 0, 0],
        ranked: true,
        parted: Some(true),
    },
    Parting {
        about: "a dependency and a link climb",
        facts: THREE,
        ranks: &[1, 2, 0],
        ranked: true,
        parted: Some(true),
    },
    Parting {
        about: "the dependency alone goes down",
        facts: THREE,
        ranks: &[1, 0, 0],
        ranked: false,
        parted: Some(false),
    },
    Parting {
        about: "the link alone goes down",
        facts: THREE,
        ranks: &[0, 1, 1],
        ranked: false,
        parted: Some(false),
    },
    Parting {
        about: "a link goes down to the last rank but one",
        facts: THREE,
        ranks: &[65_534, 65_535, 65_535],
        ranked: false,
        parted: Some(false),
    },
    Parting {
        about: "a dependency and a link in the last rank",
        facts: THREE,
        ranks: &[65_535, 65_535, 65_535],
        ranked: true,
        parted: None,
    },
    Parting {
        about: "256 keys of one rank",
        facts: &[],
        ranks: &[0; 256],
        ranked: true,
        parted: Some(true),
    },
    Parting {
        about: "257 keys of one rank",
        facts: &[],
        ranks: &[0; 257],
        ranked: true,
        parted: Some(false),
    },
];

// These facts about the keys below the bound. None if a key isn't, or memory is refused.
fn facts_of(alloc: Global, keys: u16, all: &[ShortFact]) -> Option<Facts> {
    if keys > MAX_KEYS {
        return None;
    }
    let mut facts = Facts::new(alloc, keys).ok()?;
    for fact in all {
        add(&mut facts, *fact)?;
    }
    Some(facts)
}

fn is_parted(alloc: Global, parting: &Parting) -> Option<bool> {
    let keys = u16::try_from(parting.ranks.len()).ok()?;
    let facts = facts_of(alloc, keys, parting.facts)?;
    let ranks = ranks_of(alloc, parting.ranks)?;
    if are_ranked(&facts, &ranks) != parting.ranked {
        return None;
    }
    let Some(parted) = parting.parted else {
        return Some(true);
    };
    match PartedGraph::by_ranks(alloc, facts, &ranks) {
        Ok(_) => Some(parted),
        Err(fault) => Some(!parted && fault == PartingFault::TooTangled),
    }
}

fn misparted(alloc: Global, partings: &[Parting]) -> Option<&'static str> {
    partings
        .iter()
        .find(|parting| is_parted(alloc, parting) != Some(true))
        .map(|parting| parting.about)
}

#[test]
fn facts_are_parted_by_ranks(rt: HostRuntime) {
    assert_eq!(rt; misparted(rt.alloc(), &PARTINGS), None);
}

// Dependencies among the first keys, links of softirqs between them, and the ranks that are found if at most `most`
// keys are put together.
struct Found {
    about: &'static str,
    dependencies: &'static [(u16, u16)],
    links: &'static [(u16, u16)],
    most: usize,
    ranks: &'static [u16],
}

static FOUND: [Found; 6] = [
    Found {
        about: "a chain of keys climbs",
        dependencies: &[(2, 0), (0, 1)],
        links: &[],
        most: 1,
        ranks: &[1, 2, 0],
    },
    Found {
        about: "a ring of too many keys has one rank",
        dependencies: &[(0, 1), (1, 2), (2, 4), (4, 1), (4, 5), (5, 3)],
        links: &[],
        most: 2,
        ranks: &[0, 1, 1, 2, 1, 2],
    },
    Found {
        about: "a link leads from ring to ring",
        dependencies: &[(0, 1), (1, 0), (2, 3), (3, 2)],
        links: &[(1, 2)],
        most: 2,
        ranks: &[0, 0, 1, 1],
    },
    Found {
        about: "a link leads back from ring to ring",
        dependencies: &[(0, 1), (1, 0), (2, 3), (3, 2)],
        links: &[(2, 1)],
        most: 2,
        ranks: &[1, 1, 0, 0],
    },
    Found {
        about: "links both ways join rings",
        dependencies: &[(0, 1), (1, 0), (2, 3), (3, 2), (3, 4)],
        links: &[(1, 2), (2, 1)],
        most: 2,
        ranks: &[0, 0, 0, 0, 1],
    },
    Found {
        about: "as many keys as a graph takes have one rank",
        dependencies: &[(255, 0), (0, 7)],
        links: &[],
        most: 256,
        ranks: &[0; 256],
    },
];

// The two marks of a link.
fn link(from: u16, to: u16) -> [ShortFact; 2] {
    [Enabled(from, Soft, true), UsedIn(to, Soft, false)]
}

fn facts_to_rank(alloc: Global, found: &Found) -> Option<Facts> {
    let keys = u16::try_from(found.ranks.len()).ok()?;
    let mut facts = facts_of(alloc, keys, &[])?;
    for (from, to) in found.dependencies {
        add(&mut facts, Depends(*from, *to, En))?;
    }
    for (from, to) in found.links {
        for fact in link(*from, *to) {
            add(&mut facts, fact)?;
        }
    }
    Some(facts)
}

fn have_ranks(ranks: &Ranks, wanted: &[u16]) -> bool {
    let mut key = 0u16;
    for rank in wanted {
        if ranks.get(key) != *rank {
            return false;
        }
        key = key.saturating_add(1);
    }
    true
}

// Whether the ranks are found, and no arrow goes down by them. Up to 256 keys are put together if nothing else is said.
fn is_ranked(alloc: Global, found: &Found) -> Option<bool> {
    let facts = facts_to_rank(alloc, found)?;
    let ranks = if found.most == 256 {
        find_ranks(alloc, &facts).ok()?
    } else {
        find_ranks_of(alloc, &facts, found.most).ok()?
    };
    Some(have_ranks(&ranks, found.ranks) && are_ranked(&facts, &ranks))
}

fn misranked(alloc: Global, rows: &[Found]) -> Option<&'static str> {
    rows.iter()
        .find(|found| is_ranked(alloc, found) != Some(true))
        .map(|found| found.about)
}

#[test]
fn ranks_are_found(rt: HostRuntime) {
    assert_eq!(rt; misranked(rt.alloc(), &FOUND), None);
}
