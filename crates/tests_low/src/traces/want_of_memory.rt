//! What a refused request for memory leaves. In an ordinary run none is refused: `tests/sweep` runs each of these tests
//! with its first request refused, its second, and so on, and counts the lines that they print.

use ld_trace::{KeyTable, read_trace};
use std::alloc::Global;
use std::io::Print;
use std::process::Abort;
use std::test::Fail;

// An empty table, made again if that was refused.
fn table(alloc: Global) -> Result<KeyTable, Fail> {
    match KeyTable::new(alloc) {
        Ok(keys) => Ok(keys),
        Err(_) => Ok(KeyTable::new(alloc)?),
    }
}

// Reads a text of this many events. If that is refused at a record, the table has as many names as `before` says for
// it, or `all` of them after the last record, and the same text is then read.
fn reads(
    rt: &(impl Abort + AllocGlobal + Print),
    keys: &mut KeyTable,
    (text, events): (&[u8], usize),
    (before, all): (&[usize], usize),
) -> Result<(), Fail> {
    if let Err(fault) = read_trace(rt.alloc(), text, keys) {
        println!(rt; "refused: {} at record {}", fault.code(), fault.at)?;
        let names = before.get(fault.at).copied().unwrap_or(all);
        assert_eq!(rt; fault.code(), "T9 Memory");
        assert_eq!(rt; keys.len(), names, "at record {}", fault.at);
        assert_eq!(rt; read_trace(rt.alloc(), text, keys)?.len(), events);
    }
    assert_eq!(rt; keys.len(), all);
    Ok(())
}

#[test]
fn want_of_memory_in_reading_three_locks(rt: HostRuntime) -> Result<(), Fail> {
    let mut keys = table(rt.alloc())?;
    let text = b"lockdep,1\nacq,A,0,w\nacq,B,0,w\nrel,A,0\nacq,C,0,w\n";
    reads(
        &rt,
        &mut keys,
        (text.as_slice(), 4),
        (&[0, 0, 0, 1, 2, 2], 3),
    )
}

#[test]
fn want_of_memory_in_reading_three_traces(rt: HostRuntime) -> Result<(), Fail> {
    let mut keys = table(rt.alloc())?;
    let first = b"lockdep,1\nenter,softirq\nacq,A,0,w\nrel,A,0\nleave\n";
    reads(&rt, &mut keys, (first.as_slice(), 4), (&[0, 0, 0, 0], 1))?;
    let second = b"lockdep,1\noff,softirq\nacq,A,0,w\nacq,B,0,w\nrel,B,0\nrel,A,0\non,softirq\n";
    reads(
        &rt,
        &mut keys,
        (second.as_slice(), 6),
        (&[1, 1, 1, 1, 1], 2),
    )?;
    let third = b"lockdep,1\nacq,B,0,w\nrel,B,0\n";
    reads(&rt, &mut keys, (third.as_slice(), 2), (&[], 2))
}

#[test]
fn want_of_memory_for_a_key(rt: HostRuntime) -> Result<(), Fail> {
    let mut keys = table(rt.alloc())?;
    for (number, name) in ["A", "B", "C", "D", "E"].iter().enumerate() {
        if let Err(fault) = keys.number(name, 0) {
            println!(&rt; "refused: {}", fault.code())?;
            assert_eq!(rt; fault.code(), "K4 Memory");
            assert_eq!(rt; keys.len(), number);
        }
        assert_eq!(rt; keys.number(name, 0)?.get() as usize, number);
    }
    Ok(())
}
