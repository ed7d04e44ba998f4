//! Lines that a table knows: each is the text of an event whose key the table has, and stands for that event.

ghost use Rattle.std.specs.Prelude.{◌≡◌, ◌≤◌, ◌<◌, ◌+◌, ◌*◌, [], List, All, IfOk, IfSome, IsNone, IsTrue, OnOk, drop, length, take};
ghost use Rattle.csv.specs.Writing.{writer_pending, writer_under};
ghost use Rattle.ld_trace.specs.Events.{KeyIsBelow};
ghost use Rattle.ld_trace.specs.Inside.KnownLines.{IsKnownLine, SeenAfter, TakesEvent, TakesKnown};
ghost use Rattle.ld_trace.specs.Inside.Written.{IsBetween};
ghost use Rattle.ld_trace.specs.KnownLines.{has_event};
ghost use Rattle.ld_trace.specs.Names.{Name};
ghost use Rattle.ld_trace.specs.declared.raw_trace.TheConstants.{MAX_EVENTS};
ghost use Rattle.ld_trace.specs.Writing.{event_text};

use crate::version::Version;
use crate::writing::write_event;
use crate::{Event, KeyTable, MAX_EVENTS};
use arrayvec::ArrayVec;
use csv::Writer;
use std::alloc::{AllocError, Global};

// The longest line that is known, with its newline: 8 bytes and more beyond one with a name that needs no quotes.
const LONGEST: usize = 88;

// The most lines that are known.
const MOST_LINES: usize = 16_384;

// How many slots there are for them at first, and at most: powers of two, of which at most half have a line.
const FIRST_SLOTS: usize = 1_024;

const MOST_SLOTS: usize = 32_768;

// What a slot has without a line: the number of none.
const NO_LINE: u64 = u64::MAX;

// The lowest bits of a slot are the number of its line, the others those of the line's hash.
const NUMBER_BITS: u64 = 0xFFFF;

// How many slots are looked at for a line.
const LOOKS: usize = 16;

// How many bytes are looked at at once for the end of a line.
const SHORT: usize = 32;

// Odd factors, one for each of the words that a hash is made of.
const MIXERS: [u64; 4] = [
    0x9E37_79B9_7F4A_7C15,
    0xC2B2_AE3D_27D4_EB4F,
    0x1656_67B1_9E37_79F9,
    0xD6E8_FEB8_6659_FD93,
];

// A line with its newline, and the event that it is the text of.
#[derive(Drop)]
pub(crate) struct KnownLine {
    text: ArrayVec<u8, LONGEST>,
    event: Event,
}

// The lines that a table knows. All but the lines are hints: they may be anything, and are looked at before they are believed.
#[derive(Drop)]
pub(crate) struct Lines {
    known: Vec<KnownLine>,
    // The number of a line and the rest of its hash, in one of the slots that are looked at for it.
    slots: Vec<u64>,
}

impl Lines {
    // No lines, which take no memory.
    pub(crate) fn new(alloc: Global) -> Lines
        ensures { result.known.items ≡ [] }
    {
        Lines {
            known: Vec::new(alloc),
            slots: Vec::new(alloc),
        }
    }

    // Forgets all lines.
    pub(crate) fn clear(&mut self)
        ensures { self.new.known.items ≡ [] }
    {
        self.known.clear();
        self.slots.clear();
    }

    // Takes a new line of an event's text in, unless it is too long, there are too many, or memory runs out.
    pub(crate) fn learn(&mut self, text: &[u8], event: Event)
        ensures { (names : List Name) → KeyIsBelow (length names) event → text.now ≡ event_text names event
            → All (IsKnownLine names) self.old.known.items → All (IsKnownLine names) self.new.known.items }
    {
        let Some(FrontLine { hash, .. }) = front_line(text) else {
            return;
        };
        if self.known.len() >= MOST_LINES || self.knows(hash) || !self.have_slots() {
            return;
        }
        let mut kept = ArrayVec::new();
        if kept.try_extend_from_slice(text).is_err() {
            return;
        }
        let number = self.known.len() as u64;
        if self.known.push(KnownLine { text: kept, event }).is_ok() {
            note(&mut self.slots, hash & !NUMBER_BITS | number);
        }
    }

    // Whether there are slots for one line more, of which there are twice as many if half of them have one.
    fn have_slots(&mut self) -> bool
        ensures { self.new.known ≡ self.old.known }
    {
        if self.known.len() < self.slots.len() / 2 {
            return true;
        }
        let count = (self.slots.len() * 2).clamp(FIRST_SLOTS, MOST_SLOTS);
        let mut slots = Vec::new(*self.slots.allocator());
        if slots.resize(count, NO_LINE).is_err() {
            return false;
        }
        for slot in self.slots.iter() {
            if *slot != NO_LINE {
                note(&mut slots, *slot);
            }
        }
        self.slots = slots;
        true
    }

    // The number of the line with this hash.
    #[inline(always)]
    fn find_hash(&self, hash: u64) -> Option<u16> {
        for step in 0..LOOKS {
            let slot = *self.slots.get(slot_of(hash, step, self.slots.len()))?;
            if slot & !NUMBER_BITS == hash & !NUMBER_BITS {
                return Some((slot % (NUMBER_BITS + 1)) as u16);
            }
            if slot == NO_LINE {
                return None;
            }
        }
        None
    }

    // Whether a line of this hash is known.
    pub(crate) fn knows(&self, hash: u64) -> bool {
        self.find_hash(hash).is_some()
    }

    // Takes known lines from the front of the bytes as events, and returns how many bytes these have. The first `seen` names of a table
    // have the keys of the events so far.
    pub(crate) fn take(
        &self,
        version: Version,
        bytes: &[u8],
        seen: &mut u16,
        events: &mut Vec<Event>,
    ) -> usize
        requires few { length events.old.items ≤ MAX_EVENTS }
        ensures few { length events.new.items ≤ MAX_EVENTS }
        ensures within { result ≤ length bytes.now }
        ensures takes { TakesKnown version self.now.known.items seen.old seen.new events.old.items events.new.items (take result bytes.now) }
    {
        let mut at = 0;
        for _ in 0..bytes.len() {
            match self.take_next(version, &bytes[at..], seen, events) {
                Some(count) => at += count,
                None => return at,
            }
        }
        at
    }

    // Takes the known line at the front of the bytes, and returns how many bytes it has. This is how many there are up to the newline, so
    // that a processor can look for the next line while it waits for this one.
    #[inline(always)]
    fn take_next(
        &self,
        version: Version,
        bytes: &[u8],
        seen: &mut u16,
        events: &mut Vec<Event>,
    ) -> Option<usize>
        requires few { length events.old.items ≤ MAX_EVENTS }
        ensures few { length events.new.items ≤ MAX_EVENTS }
        ensures within { IfSome result (λ count. count ≤ length bytes.now) }
        ensures takes { IfSome result (λ count. TakesKnown version self.now.known.items seen.old seen.new events.old.items events.new.items (take count bytes.now)) }
        ensures none { IsNone result → (events.new.items ≡ events.old.items) × (seen.new ≡ seen.old) }
    {
        let front = front_line(bytes)?;
        let number = self.find_hash(front.hash)?;
        let known = self.known.get(number as usize)?;
        let text = known.text.as_slice();
        if front.count != text.len() || !begin_with(bytes, text) {
            return None;
        }
        add_event(version, &known.event, seen, events)?;
        Some(front.count)
    }
}

// Puts a line with its hash into the first free slot of those that are looked at for it.
fn note(slots: &mut [u64], line: u64) {
    let count = slots.len();
    for step in 0..LOOKS {
        if let Some(free) = slots.get_mut(slot_of(line, step, count))
            && *free == NO_LINE
        {
            *free = line;
            return;
        }
    }
}

// Writes the text of an event behind those that were written before, and returns where it begins.
pub(crate) fn append_event(
    rows: &mut Writer<Vec<u8>>,
    keys: &KeyTable,
    event: Event,
) -> Result<usize, AllocError>
    requires between { IsBetween rows.old }
    requires out { writer_pending rows.old ≡ [] }
    ensures between { OnOk result (IsBetween rows.new) }
    ensures out { OnOk result (writer_pending rows.new ≡ []) }
    ensures within { IfOk result (λ at. at ≤ length (writer_under rows.new).items) }
    ensures text { IfOk result (λ at. drop at (writer_under rows.new).items ≡ event_text keys.now.names event) }
{
    let at = rows.get_ref().len();
    write_event(rows, keys, event)?;
    rows.flush().map_err(|_| AllocError)?;
    Ok(at)
}

// Adds an event, unless the version hasn't got it, there are too many, it has the key of a later name, or memory runs out.
fn add_event(version: Version, event: &Event, seen: &mut u16, events: &mut Vec<Event>) -> Option<()>
    requires few { length events.old.items ≤ MAX_EVENTS }
    ensures few { length events.new.items ≤ MAX_EVENTS }
    ensures takes { IfSome result (λ _. TakesEvent version event.now seen.old seen.new events.old.items events.new.items) }
    ensures none { IsNone result → (events.new.items ≡ events.old.items) × (seen.new ≡ seen.old) }
{
    if events.len() >= MAX_EVENTS || !has_event(version, *event) {
        return None;
    }
    let after = seen_after(*seen, *event)?;
    if events.push(*event).is_err() {
        return None;
    }
    *seen = after;
    Some(())
}

// How many names are seen after an event, of which `seen` were before. None if it has the key of a later one.
fn seen_after(seen: u16, event: Event) -> Option<u16>
    ensures { IfSome result (λ after. SeenAfter seen event after) }
{
    if event.key_is_below(seen) {
        return Some(seen);
    }
    let after = seen.checked_add(1)?;
    event.key_is_below(after).then_some(after)
}

// Whether a version has this event.
fn has_event(version: Version, event: Event) -> bool
    ensures { result ≡ has_event version event }
{
    match version {
        Version::One => !event.is_try(),
        Version::Two => true,
    }
}

// The slot that is looked at for a hash after as many others, of as many as a power of two.
fn slot_of(hash: u64, step: usize, count: usize) -> usize {
    (hash >> 48).wrapping_add(step as u64) as usize & count.wrapping_sub(1)
}

// The line that some bytes begin with: its hash, and how many bytes it has, its newline included.
#[derive(Clone, Copy)]
pub(crate) struct FrontLine {
    pub(crate) hash: u64,
    pub(crate) count: usize,
}

// None if there is no newline among so many bytes as a known line has.
#[inline(always)]
pub(crate) fn front_line(bytes: &[u8]) -> Option<FrontLine> {
    if bytes.len() >= SHORT
        && let Some(count) = line_end(bytes, 0, SHORT / 8)
    {
        let hash = hash_of_short(bytes, count);
        return Some(FrontLine { hash, count });
    }
    other_front_line(bytes)
}

// The same for a line that is longer, or if there are few bytes.
#[inline(never)]
fn other_front_line(bytes: &[u8]) -> Option<FrontLine> {
    let count = if bytes.len() >= LONGEST {
        line_end(bytes, SHORT / 8, LONGEST / 8)?
    } else {
        bytes.iter().position(|byte| *byte == b'\n')? + 1
    };
    let hash = hash_of_line(bytes.get(..count)?);
    Some(FrontLine { hash, count })
}

// How many bytes there are up to the first newline in these words, the newline included.
#[inline(always)]
fn line_end(bytes: &[u8], first: usize, end: usize) -> Option<usize>
    requires { 8 * end ≤ length bytes.now }
    ensures { IfSome result (λ count. (1 ≤ count) × (count ≤ 8 * end)) }
{
    for place in first..end {
        let ends = newlines_in(word_at(bytes, place * 8));
        if ends != 0 {
            return Some(place * 8 + ends.trailing_zeros() as usize % 64 / 8 + 1);
        }
    }
    None
}

// The newlines among the bytes of a word: the lowest bit that is set is in the byte of the first one.
#[inline(always)]
fn newlines_in(word: u64) -> u64 {
    let other = word ^ 0x0A0A_0A0A_0A0A_0A0A;
    other.wrapping_sub(0x0101_0101_0101_0101) & !other & 0x8080_8080_8080_8080
}

// The hash of a line, of which these are the first bytes. It doesn't depend on what comes after the line.
#[inline(always)]
fn hash_of_short(bytes: &[u8], count: usize) -> u64
    requires { (1 ≤ count) × (count ≤ SHORT) × (SHORT ≤ length bytes.now) }
{
    if count < 8 {
        return hash_of_word(word_at(bytes, 0) & u64::MAX >> (64 - 8 * count));
    }
    hash_of_words(bytes, count)
}

// The hash of a line that has all of these bytes.
fn hash_of_line(line: &[u8]) -> u64
    requires { length line.now ≤ LONGEST }
{
    let count = line.len();
    if count < 8 {
        return hash_of_word(word_of_few(line));
    }
    if count <= SHORT {
        return hash_of_words(line, count);
    }
    hash_of_long(line)
}

// The hash of a line of more than 32 bytes: that of its first ones, and then of further words.
fn hash_of_long(line: &[u8]) -> u64
    requires { (SHORT < length line.now) × (length line.now ≤ LONGEST) }
{
    let last = line.len() - 8;
    let mut mixed = hash_of_words(line, SHORT);
    for place in SHORT / 8..(last + 7) / 8 {
        let word = word_at(line, place * 8).wrapping_mul(MIXERS[0]);
        mixed = mixed.rotate_left(11).wrapping_add(word);
    }
    let word = word_at(line, last).wrapping_mul(MIXERS[1]);
    mixed.rotate_left(11).wrapping_add(word)
}

// The hash of the first 8 to 32 bytes: of four words of them, which may overlap.
#[inline(always)]
fn hash_of_words(bytes: &[u8], count: usize) -> u64
    requires { (8 ≤ count) × (count ≤ SHORT) × (count ≤ length bytes.now) }
{
    let last = count - 8;
    let second = last.min(8);
    let front = word_at(bytes, 0).wrapping_mul(MIXERS[0]);
    let middle = word_at(bytes, second).wrapping_mul(MIXERS[1]);
    let later = word_at(bytes, last - second).wrapping_mul(MIXERS[2]);
    let end = word_at(bytes, last).wrapping_mul(MIXERS[3]);
    front
        .wrapping_add(middle)
        .wrapping_add(later)
        .wrapping_add(end)
}

fn hash_of_word(word: u64) -> u64 {
    word.wrapping_mul(MIXERS[0])
}

// These bytes, fewer than eight, with zeros after them.
fn word_of_few(bytes: &[u8]) -> u64 {
    let mut word = 0u64;
    for byte in bytes.iter().rev() {
        word = word << 8 | u64::from(*byte);
    }
    word
}

// Whether the bytes begin with a line: by four words that may overlap if it is short.
#[inline(always)]
fn begin_with(bytes: &[u8], line: &[u8]) -> bool
    ensures { IsTrue result → (length line.now ≤ length bytes.now) × (take (length line.now) bytes.now ≡ line.now) }
{
    let count = line.len();
    if count > bytes.len() {
        return false;
    }
    if count < 8 || count > SHORT {
        return &bytes[..count] == line;
    }
    let last = count - 8;
    let second = last.min(8);
    let front = same_word(bytes, line, 0) & same_word(bytes, line, second);
    front & same_word(bytes, line, last - second) & same_word(bytes, line, last)
}

// Whether both have the same eight bytes at a place.
#[inline(always)]
fn same_word(some: &[u8], other: &[u8], at: usize) -> bool
    requires some { at + 8 ≤ length some.now }
    requires other { at + 8 ≤ length other.now }
    ensures { IsTrue result → take 8 (drop at some.now) ≡ take 8 (drop at other.now) }
{
    some[at..at + 8].as_array::<8>() == other[at..at + 8].as_array::<8>()
}

#[inline(always)]
fn word_at(bytes: &[u8], at: usize) -> u64
    requires { at + 8 ≤ length bytes.now }
{
    u64::from_le_bytes([
        bytes[at],
        bytes[at + 1],
        bytes[at + 2],
        bytes[at + 3],
        bytes[at + 4],
        bytes[at + 5],
        bytes[at + 6],
        bytes[at + 7],
    ])
}
