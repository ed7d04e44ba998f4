//! What command lines ask for.

use ld_words::{Line, LineFault, command_line};
use std::slice::from_ref;

// What a line asks for: its word, its workers, whether it has `--many`, whether it has the flag of its own, `--json` or
// `--findings`, and its files. Chains and schedules have no workers, which counts as 0, and so do lines that are refused
// or ask for help.
type Asked<'l, 'a> = (&'static str, u16, bool, bool, &'l [&'a str]);

fn asked<'l, 'a>(line: &'l Result<Line<'a>, LineFault>) -> Asked<'l, 'a> {
    match line {
        Ok(
            Line::Check {
                workers,
                many,
                files,
            },
        ) => ("check", *workers, *many, false, files.as_slice()),
        Ok(
            Line::Explain {
                workers,
                many,
                json,
                locks,
                confirmed_only,
                files,
            },
        ) => (
            explain_word(*locks, *confirmed_only),
            *workers,
            *many,
            *json,
            files.as_slice(),
        ),
        Ok(
            Line::Graph {
                workers,
                many,
                findings,
                files,
            },
        ) => ("graph", *workers, *many, *findings, files.as_slice()),
        Ok(
            Line::Condense {
                workers,
                many,
                files,
            },
        ) => ("condense", *workers, *many, false, files.as_slice()),
        Ok(Line::Schedule { json, files }) => ("schedule", 0, false, *json, files.as_slice()),
        Ok(Line::Chains { file: Some(file) }) => ("chains", 0, false, false, from_ref(file)),
        Ok(Line::Chains { file: None }) => ("chains", 0, false, false, &[]),
        Err(LineFault::Help(_)) => ("help", 0, false, false, &[]),
        Err(LineFault::Refused) => ("refused", 0, false, false, &[]),
        Err(LineFault::Memory) => ("refused memory", 0, false, false, &[]),
    }
}

// The word of an explanation, with its flags `--locks` and `--confirmed-only`.
fn explain_word(locks: bool, confirmed_only: bool) -> &'static str {
    match (locks, confirmed_only) {
        (false, false) => "explain",
        (true, false) => "explain locks",
        (false, true) => "explain confirmed",
        (true, true) => "explain confirmed locks",
    }
}

// Words, and what they ask for.
static LINES: [(&[&str], Asked<'_, '_>); 42] = [
    (&["lockdep", "check"], ("check", 4, false, false, &[])),
    (
        &["lockdep", "check", "a.txt"],
        ("check", 4, false, false, &["a.txt"]),
    ),
    (
        &["lockdep", "check", "b", "a", "b"],
        ("check", 4, false, false, &["b", "a", "b"]),
    ),
    (
        &["lockdep", "check", "a", "--workers", "2", "b"],
        ("check", 2, false, false, &["a", "b"]),
    ),
    (
        &["lockdep", "check", "--workers=65535", "a"],
        ("check", 65535, false, false, &["a"]),
    ),
    (
        &["lockdep", "check", "--", "--workers", "2"],
        ("check", 4, false, false, &["--workers", "2"]),
    ),
    (
        &["lockdep", "check", "--workers", "0", "-"],
        ("check", 0, false, false, &["-"]),
    ),
    (
        &["lockdep", "check", "", "chains"],
        ("check", 4, false, false, &["", "chains"]),
    ),
    (
        &["lockdep", "check", "--many", "a"],
        ("check", 4, true, false, &["a"]),
    ),
    (&["lockdep", "explain"], ("explain", 4, false, false, &[])),
    (
        &["lockdep", "explain", "b", "a"],
        ("explain", 4, false, false, &["b", "a"]),
    ),
    (
        &["lockdep", "explain", "a", "--workers", "2"],
        ("explain", 2, false, false, &["a"]),
    ),
    (
        &["lockdep", "explain", "--workers=0", "-"],
        ("explain", 0, false, false, &["-"]),
    ),
    (
        &["lockdep", "explain", "--", "--findings"],
        ("explain", 4, false, false, &["--findings"]),
    ),
    (
        &["lockdep", "explain", "--many"],
        ("explain", 4, true, false, &[]),
    ),
    (
        &["lockdep", "explain", "a", "--json", "b"],
        ("explain", 4, false, true, &["a", "b"]),
    ),
    (
        &["lockdep", "explain", "--many", "--json"],
        ("explain", 4, true, true, &[]),
    ),
    (
        &["lockdep", "explain", "--", "--json"],
        ("explain", 4, false, false, &["--json"]),
    ),
    (
        &["lockdep", "explain", "--locks", "a"],
        ("explain locks", 4, false, false, &["a"]),
    ),
    (
        &["lockdep", "explain", "a", "--confirmed-only"],
        ("explain confirmed", 4, false, false, &["a"]),
    ),
    (
        &[
            "lockdep",
            "explain",
            "--confirmed-only",
            "--json",
            "--locks",
        ],
        ("explain confirmed locks", 4, false, true, &[]),
    ),
    (
        &["lockdep", "check", "--locks", "a"],
        ("refused", 0, false, false, &[]),
    ),
    (
        &["lockdep", "check", "--json", "a"],
        ("refused", 0, false, false, &[]),
    ),
    (&["lockdep", "condense"], ("condense", 4, false, false, &[])),
    (
        &["lockdep", "condense", "b", "--workers", "2", "a"],
        ("condense", 2, false, false, &["b", "a"]),
    ),
    (
        &["lockdep", "condense", "a", "--many"],
        ("condense", 4, true, false, &["a"]),
    ),
    (&["lockdep", "graph"], ("graph", 4, false, false, &[])),
    (
        &["lockdep", "graph", "--findings", "c"],
        ("graph", 4, false, true, &["c"]),
    ),
    (
        &["lockdep", "graph", "a", "--many", "b"],
        ("graph", 4, true, false, &["a", "b"]),
    ),
    (
        &["lockdep", "graph", "a", "--findings", "--many", "b"],
        ("graph", 4, true, true, &["a", "b"]),
    ),
    (
        &["lockdep", "graph", "--findings", "--workers", "2", "a"],
        ("graph", 2, false, true, &["a"]),
    ),
    (
        &["lockdep", "graph", "--", "--findings"],
        ("graph", 4, false, false, &["--findings"]),
    ),
    (&["lockdep", "schedule"], ("schedule", 0, false, false, &[])),
    (
        &["lockdep", "schedule", "a", "--json", "b"],
        ("schedule", 0, false, true, &["a", "b"]),
    ),
    (
        &["lockdep", "schedule", "--", "--json"],
        ("schedule", 0, false, false, &["--json"]),
    ),
    (
        &["lockdep", "schedule", "--many", "a"],
        ("refused", 0, false, false, &[]),
    ),
    (
        &["lockdep", "schedule", "--workers", "2", "a"],
        ("refused", 0, false, false, &[]),
    ),
    (&["lockdep", "chains"], ("chains", 0, false, false, &[])),
    (
        &["lockdep", "chains", "a.txt"],
        ("chains", 0, false, false, &["a.txt"]),
    ),
    (
        &["lockdep", "chains", "--", "-h"],
        ("chains", 0, false, false, &["-h"]),
    ),
    (&["lockdep", "help"], ("help", 0, false, false, &[])),
    (&["lockdep"], ("refused", 0, false, false, &[])),
];

#[test]
fn what_lines_ask_for(rt: HostRuntime) {
    for line_and_wanted in &LINES {
        let (words, wanted) = *line_and_wanted;
        let line = command_line(rt.alloc(), words);
        assert_eq!(rt; asked(&line), wanted, "{words:?}");
    }
}
