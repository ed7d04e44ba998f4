//! A trace that is read by known lines, and one that is read by CSV.

use ld_trace::{KeyTable, RawTrace, TraceFault, read_trace};
use std::alloc::Global;
use std::io;
use std::io::Read;

// A text that is read: six times the second one, between the others.
type Case<'t> = (&'t str, &'t str, &'t str);

static CASES: [Case<'_>; 13] = [
    (
        "lockdep,1\n",
        "acq,A,0,w\nrel,A,0\nenter,softirq\nleave\n",
        "",
    ),
    (
        "lockdep,2\n",
        "acq,A,0,tw\nacq,B,1,rr\nrel,B,1\nrel,A,0\n",
        "acq,C,0,w\n",
    ),
    // The last line has no newline.
    ("lockdep,1\n", "acq,A,0,w\nrel,A,0\n", "acq,C,7,w"),
    // Names with a comma or a quote, and one that needs no quotes.
    (
        "lockdep,1\n",
        "acq,\"a,b\",0,w\nacq,\"c\"\"d\",0,r\n",
        "acq,\"e\",0,w\n",
    ),
    // A key whose first line comes after those of later ones, and a try of version 2.
    (
        "lockdep,1\n",
        "rel,A,0\nacq,C,0,w\nacq,B,0,w\n",
        "acq,D,0,tw\n",
    ),
    // Newlines within quotes aren't the ends of records.
    (
        "lockdep,1\n",
        "acq,A,0,w\nrel,A,0\n",
        "acq,\"B\nC\",0,w\nacq,D,0,w\n",
    ),
    (
        "lockdep,1\n",
        "acq,A,0,w\nrel,A,0\n",
        "acq,\"B\nacq,C,0,w\nacq,D,0,w\nrel,D,0\nrel,C,0\n",
    ),
    // Lines that end with CR LF, with CR alone, and empty ones.
    ("lockdep,1\n", "acq,A,0,w\r\n\r\nrel,A,0\r\n\n", ""),
    ("lockdep,1\r\n", "acq,A,0,w\r\nrel,A,0\r\n", ""),
    ("lockdep,1\n", "acq,A,0,w\rrel,A,0\r\n", "leave"),
    // A faulty record far on, and a name that would be read after it.
    (
        "lockdep,1\n",
        "acq,A,0,w\nrel,A,0\n",
        "acq,B,0,w\nacq,C,9,w\nacq,D,0,w\n",
    ),
    // A byte order mark at the start of a line in the middle isn't skipped, and one at the start of the text is.
    (
        "lockdep,1\n",
        "acq,A,0,w\nrel,A,0\n",
        "\u{feff}acq,B,0,w\nrel,B,0\n",
    ),
    ("\u{feff}lockdep,1\n", "acq,A,0,w\nrel,A,0\n", "acq,B,0,w\n"),
];

// The text of a case. None if memory runs out.
fn text_of(alloc: Global, case: &Case<'_>) -> Option<String> {
    let (begin, repeated, end) = *case;
    let mut text = String::new(alloc);
    text.push_str(begin).ok()?;
    for _ in 0..6 {
        text.push_str(repeated).ok()?;
    }
    text.push_str(end).ok()?;
    Some(text)
}

// Whether two readings have the same events or the same fault, and left the same names.
fn are_alike(
    one: &Result<RawTrace, TraceFault>,
    other: &Result<RawTrace, TraceFault>,
    left: &KeyTable,
    right: &KeyTable,
) -> bool {
    let same = match (one, other) {
        (Ok(a), Ok(b)) => a.as_slice() == b.as_slice(),
        (Err(a), Err(b)) => a == b,
        _ => false,
    };
    same && left.len() == right.len()
}

// The same text with a header that CSV alone reads, since it is in quotes. None if it has no plain header, or if memory runs out.
fn by_csv(alloc: Global, text: &[u8]) -> Option<Vec<u8>> {
    let rest = text.strip_prefix(b"lockdep")?;
    let mut quoted = Vec::new(alloc);
    quoted.extend_from_slice(b"\"lockdep\"").ok()?;
    quoted.extend_from_slice(rest).ok()?;
    Some(quoted)
}

// A reader that gives at most so many bytes at a call.
#[derive(Clone, Copy)]
struct Slowly<'t> {
    text: &'t [u8],
    most: usize,
}

impl Read for Slowly<'_> {
    fn read(&mut self, buf: &mut [u8]) -> io::Result<usize> {
        let count = self.text.len().min(buf.len()).min(self.most);
        let (given, left) = self.text.split_at(count);
        buf[..count].copy_from_slice(given);
        self.text = left;
        Ok(count)
    }
}

// Whether the text is read by lines as it is by CSV, with so many bytes at a call, and once more when its lines are known.
fn reads(alloc: Global, text: &[u8], most: usize) -> Option<bool> {
    let quoted = match by_csv(alloc, text) {
        Some(quoted) => quoted,
        None => Vec::from_slice(alloc, text).ok()?,
    };
    let mut keys = KeyTable::new(alloc).ok()?;
    let mut others = KeyTable::new(alloc).ok()?;
    let mut all = true;
    for _ in 0..2 {
        let lines = read_trace(alloc, Slowly { text, most }, &mut keys);
        let csv = read_trace(alloc, quoted.as_slice(), &mut others);
        all = all && are_alike(&lines, &csv, &keys, &others);
    }
    Some(all)
}

#[test]
fn lines_read_as_records(rt: HostRuntime) {
    for case in &CASES {
        let text = text_of(rt.alloc(), case);
        for most in [1, 7, 4096] {
            let bytes = text.as_ref().map(|text| text.as_bytes());
            let alike = bytes.and_then(|bytes| reads(rt.alloc(), bytes, most));
            assert_eq!(rt; alike, Some(true));
        }
    }
}

// A reader that gives at most seven bytes at a call, and fails once, when it has given some. The calls after that one succeed again.
#[derive(Drop)]
struct FailsOnce<'t> {
    before: &'t [u8],
    after: &'t [u8],
    has_failed: bool,
}

impl FailsOnce<'_> {
    fn new(text: &[u8], fails_after: usize) -> FailsOnce<'_> {
        let (before, after) = text.split_at(fails_after.min(text.len()));
        FailsOnce {
            before,
            after,
            has_failed: false,
        }
    }
}

impl Read for FailsOnce<'_> {
    fn read(&mut self, buf: &mut [u8]) -> io::Result<usize> {
        if self.before.is_empty() && !self.has_failed {
            self.has_failed = true;
            self.before = self.after;
            return Err(io::Error::from(io::ErrorKind::Other));
        }
        let count = self.before.len().min(buf.len()).min(7);
        let (given, left) = self.before.split_at(count);
        buf[..count].copy_from_slice(given);
        self.before = left;
        Ok(count)
    }
}

// Whether a read that fails after this many bytes is refused with T8 at the record that it was in, with the names before it.
fn tells(alloc: Global, text: &[u8], bytes: usize) -> Option<bool> {
    let quoted = by_csv(alloc, text)?;
    let mut keys = KeyTable::new(alloc).ok()?;
    let mut others = KeyTable::new(alloc).ok()?;
    let lines = read_trace(alloc, FailsOnce::new(text, bytes), &mut keys);
    let csv = read_trace(
        alloc,
        FailsOnce::new(quoted.as_slice(), bytes.saturating_add(2)),
        &mut others,
    );
    let same = are_alike(&lines, &csv, &keys, &others);
    let ended = text.iter().take(bytes).filter(|byte| **byte == b'\n');
    let fault = lines.err()?;
    Some(same && fault.code() == "T8 Source" && fault.at == ended.count().saturating_add(1))
}

#[test]
fn a_read_that_fails_once_is_told(rt: HostRuntime) {
    let text = text_of(rt.alloc(), &CASES[0]);
    let text = text.as_ref().map(|text| text.as_bytes()).unwrap_or(b"");
    for bytes in 0..239 {
        assert_eq!(rt; tells(rt.alloc(), text, bytes), Some(true));
    }
}
