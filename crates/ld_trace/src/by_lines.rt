//! Reading a trace by lines that its table knows. All others are read by CSV.

ghost use Rattle.std.specs.Prelude.{◌≡◌, ◌≤◌, ◌++◌, ℕ, [], List, Some, IfOk, IfErr, IfSome, IsNone, IsTrue, drop, false, length, take};
ghost use Rattle.std.specs.Io.KnownBytes.{Consumes, IsAtEnd};
ghost use Rattle.ld_trace.specs.Events.{KeysBelow};
ghost use Rattle.ld_trace.specs.Inside.KnownLines.{Advances, ReadsOn, left_of};
ghost use Rattle.ld_trace.specs.Names.{Name};
ghost use Rattle.ld_trace.specs.Pieces.{header_line};
ghost use Rattle.ld_trace.specs.Reading.{ReadsTo, StopsAt};
ghost use Rattle.ld_trace.specs.declared.raw_trace.TheConstants.{MAX_EVENTS};

use crate::known_lines::{FrontLine, front_line};
use crate::laws::headers_read;
use crate::pieces::read_on;
use crate::reading::{plain_reader, read_by_csv, take_events};
use crate::until_failure::UntilFailure;
use crate::version::Version;
use crate::{Event, KeyTable, RawTrace, TraceFault};
use csv::{ByteRecord, WriterBuilder};
use std::alloc::{AllocError, Global};
use std::io::Read;
use std::mem;

// How many bytes the line of a header has.
const HEADER: usize = 10;

// How many bytes are read at a time, at first and at most.
const LEAST_READ: usize = 4096;

const MOST_READ: usize = 65_536;

// How many lines are remembered as those that were seen last.
const RECENT: usize = 128;

// The end of a longer line isn't waited for.
const LONGEST_WAIT: usize = 65_536;

/// Reads a trace in the text format of version 1 or 2, and numbers its keys in the table.
///
/// The records are those of CSV with the comma and the double quote, without a header row of CSV's own, of any length
/// and untrimmed. The first is `lockdep,1` or `lockdep,2`. Each of the others is an event: `acq,NAME,SUB,MODE`,
/// `rel,NAME,SUB`, `enter,STATE`, `leave`, `on,STATE` or `off,STATE`, where a name is 1 to 64 bytes of 0x21 to 0x7E, a
/// subclass is a digit 0 to 7, a mode is `w`, `r` or `rr`, or in version 2 also `tw`, `tr` or `trr`, and a state is
/// `hardirq` or `softirq`.
///
/// The first faulty record is refused, with the first of its faults in this order: T8 or T9 in getting it, T1, T7, T2,
/// T3, T4, T5, T9 for the event's room, T6, T9 for the key. Keys that had numbers keep them. After a refusal the keys
/// of the events before it have numbers too, and the refused record has added none.
pub fn read_trace<R: Read + Drop>(
    alloc: Global,
    reader: R,
    keys: &mut KeyTable,
) -> Result<RawTrace, TraceFault>
    ensures ok { IfOk result (λ trace. IfSome (R.remaining reader)
        (λ bytes. ReadsTo keys.old.room keys.old.names bytes keys.new.names trace)) }
    ensures refused { IfErr result (λ fault. IfSome (R.remaining reader)
        (λ bytes. StopsAt keys.old.room keys.old.names bytes keys.new.names fault)) }

    // These hold for any reader, even if its bytes aren't known.
    ensures numbered { IfOk result (λ trace. KeysBelow (length keys.new.names) trace) }
    ensures kept { (added : List Name) × (keys.new.names ≡ keys.old.names ++ added) }
    ensures room { keys.new.room ≡ keys.old.room }
{
    let mut block = keys.lend_block(alloc);
    let read = read_by_block(alloc, UntilFailure::new(reader), &mut block, keys);
    keys.keep_block(block);
    read
}

// Reads a trace by a block that has none of its bytes yet.
fn read_by_block<R: Read + Drop>(
    alloc: Global,
    mut source: R,
    block: &mut Vec<u8>,
    keys: &mut KeyTable,
) -> Result<RawTrace, TraceFault>
    requires { block.old.items ≡ [] }
    ensures ok { IfOk result (λ trace. IfSome (R.remaining source)
        (λ bytes. ReadsTo keys.old.room keys.old.names bytes keys.new.names trace)) }
    ensures refused { IfErr result (λ fault. IfSome (R.remaining source)
        (λ bytes. StopsAt keys.old.room keys.old.names bytes keys.new.names fault)) }
    ensures numbered { IfOk result (λ trace. KeysBelow (length keys.new.names) trace) }
    ensures kept { (added : List Name) × (keys.new.names ≡ keys.old.names ++ added) }
    ensures room { keys.new.room ≡ keys.old.room }
{
    match read_header(&mut source, block) {
        Some(version) => read_lines(alloc, version, source, block, keys),
        None => read_by_csv(alloc, block.as_slice().chain(source), keys),
    }
}

// Reads the header's line, if the bytes begin with exactly that, and returns its version. The block gets what was read besides, or all
// that was read if there is no such line.
fn read_header<R: Read>(source: &mut R, block: &mut Vec<u8>) -> Option<Version>
    requires { block.old.items ≡ [] }
    ensures some { IfSome result (λ version. Consumes (R.remaining source.old) (R.remaining source.new) (header_line version ++ block.new.items)) }
    ensures none { IsNone result → Consumes (R.remaining source.old) (R.remaining source.new) block.new.items }
{
    for _ in 0..HEADER {
        if block.len() >= HEADER || !fill(source, block, first_size(block))? {
            break;
        }
    }
    let version = Version::of_line(block.as_slice().get(..HEADER)?)?;
    drop_front(block, HEADER);
    Some(version)
}

// Reads more bytes behind those of the block, at most `size`, and returns whether there were any. None if the source or memory fails.
fn fill<R: Read>(source: &mut R, block: &mut Vec<u8>, size: usize) -> Option<bool>
    requires { 1 ≤ size }
    ensures more { (more : List ℕ) × (block.new.items ≡ block.old.items ++ more) × Consumes (R.remaining source.old) (R.remaining source.new) more }
    ensures end { result ≡ Some false → IsAtEnd (R.remaining source.new) }
{
    let had = block.len();
    if block.resize(had.checked_add(size)?, 0).is_err() {
        return None;
    }
    match source.read(block.slice_mut(had..)) {
        Ok(count) => {
            block.truncate(had + count);
            Some(count > 0)
        }
        Err(_) => {
            block.truncate(had);
            None
        }
    }
}

// Drops the first bytes of the block, as many as `count`.
fn drop_front(block: &mut Vec<u8>, count: usize)
    requires { count ≤ length block.old.items }
    ensures { block.new.items ≡ drop count block.old.items }
{
    let left = block.len() - count;
    block.copy_within(count.., 0);
    block.truncate(left);
}

// Reads what comes after a header's line: the bytes of the block, and then those of the source.
fn read_lines<R: Read + Drop>(
    alloc: Global,
    version: Version,
    mut source: R,
    block: &mut Vec<u8>,
    keys: &mut KeyTable,
) -> Result<RawTrace, TraceFault>
    ensures ok { IfOk result (λ trace. IfSome (left_of block.old.items (R.remaining source))
        (λ bytes. ReadsTo keys.old.room keys.old.names (header_line version ++ bytes) keys.new.names trace)) }
    ensures refused { IfErr result (λ fault. IfSome (left_of block.old.items (R.remaining source))
        (λ bytes. StopsAt keys.old.room keys.old.names (header_line version ++ bytes) keys.new.names fault)) }
    ensures numbered { IfOk result (λ trace. KeysBelow (length keys.new.names) trace) }
    ensures kept { (added : List Name) × (keys.new.names ≡ keys.old.names ++ added) }
    ensures room { keys.new.room ≡ keys.old.room }
{
    headers_read();
    let mut events = Vec::new(alloc);
    if take_blocks(alloc, version, &mut source, block, &mut events, keys) {
        return Ok(RawTrace::of_few(events));
    }
    let rest = block.as_slice().chain(source);
    read_on(alloc, version, RawTrace::of_few(events), rest, keys)
}

// Takes lines as events, block by block, up to one that can't be taken, and returns whether these were all.
fn take_blocks<R: Read>(
    alloc: Global,
    version: Version,
    source: &mut R,
    block: &mut Vec<u8>,
    events: &mut Vec<Event>,
    keys: &mut KeyTable,
) -> bool
    requires few { length events.old.items ≤ MAX_EVENTS }
    ensures few { length events.new.items ≤ MAX_EVENTS }
    ensures on { Advances version keys.old.room keys.old.names keys.new.names events.old.items events.new.items
        (left_of block.old.items (R.remaining source.old)) (left_of block.new.items (R.remaining source.new)) }
    ensures end { IsTrue result → (block.new.items ≡ []) × IsAtEnd (R.remaining source.new) }
    ensures room { keys.new.room ≡ keys.old.room }
{
    let mut size = first_size(block);
    for _ in 0..usize::MAX {
        let taken = take_lines(alloc, version, block.as_slice(), events, keys);
        drop_front(block, taken);
        if block.contains(&b'\n') || block.len() > LONGEST_WAIT {
            return false;
        }
        match fill(source, block, size) {
            Some(true) => size = next_size(size, block.len()),
            Some(false) => return block.is_empty(),
            None => return false,
        }
    }
    false
}

// How many bytes to read at first: many if the block had as many before, of the same table's traces.
fn first_size(block: &Vec<u8>) -> usize
    ensures { (1 ≤ result) × (result ≤ MOST_READ) }
{
    if block.capacity() < MOST_READ {
        LEAST_READ
    } else {
        MOST_READ
    }
}

// How many bytes to read after a read of this size, when the block has so many: more if it got all that it could, and few if it didn't,
// since then it is probably the last.
fn next_size(size: usize, bytes: usize) -> usize
    requires { (1 ≤ size) × (size ≤ MOST_READ) }
    ensures { (1 ≤ result) × (result ≤ MOST_READ) }
{
    if bytes < size {
        return LEAST_READ;
    }
    (size * 4).min(MOST_READ)
}

// Takes lines from the front of the bytes as events, up to one that can't be taken, and returns how many bytes these have.
fn take_lines(
    alloc: Global,
    version: Version,
    bytes: &[u8],
    events: &mut Vec<Event>,
    keys: &mut KeyTable,
) -> usize
    requires few { length events.old.items ≤ MAX_EVENTS }
    ensures few { length events.new.items ≤ MAX_EVENTS }
    ensures within { result ≤ length bytes.now }
    ensures on { ReadsOn version keys.old.room keys.old.names keys.new.names events.old.items events.new.items (take result bytes.now) }
    ensures room { keys.new.room ≡ keys.old.room }
{
    let mut seen = keys.len() as u16;
    let mut at = keys.take_known(version, bytes, &mut seen, events);
    for _ in 0..bytes.len() {
        keys.learn_lines(alloc, version, &bytes[at..]);
        let taken = keys.take_known(version, &bytes[at..], &mut seen, events);
        if taken == 0 {
            break;
        }
        at += taken;
    }
    keys.forget_from(seen as usize);
    at
}

impl KeyTable {
    // Learns those of the lines that it doesn't know. They are read by CSV, up to one that is refused.
    fn learn_lines(&mut self, alloc: Global, version: Version, bytes: &[u8])
        ensures kept { (added : List Name) × (self.new.names ≡ self.old.names ++ added) }
        ensures room { self.new.room ≡ self.old.room }
    {
        let mut fresh = Vec::new(alloc);
        if self.unknown_lines(bytes, &mut fresh).is_err() || fresh.is_empty() {
            return;
        }
        let newline: &[u8] = b"\n";
        let mut source = plain_reader(alloc, newline.chain(fresh.as_slice()));
        let mut row = ByteRecord::new(alloc);
        let mut events = Vec::new(alloc);
        let _read = take_events(version, &mut source, &mut row, &mut events, self);
        self.learn_all(alloc, events.as_slice());
    }

    // Learns the lines of these events.
    fn learn_all(&mut self, alloc: Global, events: &[Event])
        ensures { self.new ≡ self.old }
    {
        let mut rows = WriterBuilder::new()
            .flexible(true)
            .from_writer(Vec::new(alloc));
        for event in events {
            if self.learn(&mut rows, *event).is_err() {
                break;
            }
        }
    }

    // Puts the lines that it doesn't know into the vector, up to one that is too long to be known, and most of them once.
    fn unknown_lines(&self, bytes: &[u8], fresh: &mut Vec<u8>) -> Result<(), AllocError> {
        let mut recent = [0u64; RECENT];
        let mut left = bytes;
        for _ in 0..bytes.len() {
            let Some(FrontLine { hash, count }) = front_line(left) else {
                break;
            };
            let (line, rest) = left.split_at(count.min(left.len()));
            let before = mem::replace(&mut recent[(hash >> 32) as usize % RECENT], hash);
            if before != hash && !self.knows(hash) {
                fresh.extend_from_slice(line)?;
            }
            left = rest;
        }
        Ok(())
    }
}
