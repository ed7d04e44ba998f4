//! What a refused request for memory leaves. In an ordinary run none is refused: `tests/sweep` runs each of these tests
//! with its first request refused, its second, and so on, and counts the lines that they print.

use ld_facts::Facts;
use ld_graph::Graph;
use ld_parts::Ranks;
use std::test::Fail;

#[test]
fn want_of_memory_for_facts(rt: HostRuntime) -> Result<(), Fail> {
    let facts = match Facts::new(rt.alloc(), 2) {
        Ok(facts) => facts,
        Err(_) => {
            println!(&rt; "refused: facts")?;
            Facts::new(rt.alloc(), 2)?
        }
    };
    assert!(rt; facts.keys() == 2 && facts.dependencies() == 0 && facts.marks() == 0);
    Ok(())
}

#[test]
fn want_of_memory_for_a_graph(rt: HostRuntime) -> Result<(), Fail> {
    let graph = match Graph::new(rt.alloc(), 2) {
        Ok(graph) => graph,
        Err(_) => {
            println!(&rt; "refused: a graph")?;
            Graph::new(rt.alloc(), 2)?
        }
    };
    assert!(rt; graph.is_clean() && graph.facts().keys() == 2 && graph.facts().dependencies() == 0);
    Ok(())
}

#[test]
fn want_of_memory_for_ranks(rt: HostRuntime) -> Result<(), Fail> {
    let ranks = match Ranks::new(rt.alloc(), 2) {
        Ok(ranks) => ranks,
        Err(_) => {
            println!(&rt; "refused: ranks")?;
            Ranks::new(rt.alloc(), 2)?
        }
    };
    assert!(rt; ranks.get(1) == 0);
    Ok(())
}
