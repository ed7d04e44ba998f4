//! Reading a trace in pieces, each cut after a newline.

ghost use Rattle.std.specs.Prelude.{◌≡◌, ◌≢◌, ◌++◌, ℕ, [], List, length, IfOk, IfErr, IfSome, IsNone, IsTrue, IsFalse};
ghost use Rattle.ld_trace.specs.Events.{KeysBelow};
ghost use Rattle.ld_trace.specs.Names.{Name};
ghost use Rattle.ld_trace.specs.Pieces.{AreLines, header_line};
ghost use Rattle.ld_trace.specs.Reading.{ReadsTo, StopsAt};

use crate::reading::{plain_reader, take_events};
use crate::{KeyTable, RawTrace, Renumbering, TraceFault, Version};
use csv::ByteRecord;
use std::alloc::Global;
use std::io::Read;

/// The line with the header of version 1.
const HEADER_ONE: &[u8] = b"lockdep,1\n";

/// The line with the header of version 2.
const HEADER_TWO: &[u8] = b"lockdep,2\n";

impl Version {
    /// The version that this line names, if it is exactly a header and a newline.
    pub fn of_line(line: &[u8]) -> Option<Version>
        ensures some { IfSome result (λ version. line.now ≡ header_line version) }
        ensures none { IsNone result → (version : Version) → line.now ≢ header_line version }
    {
        if line == HEADER_ONE {
            return Some(Version::One);
        }
        if line == HEADER_TWO {
            return Some(Version::Two);
        }
        None
    }

    /// The line with the header of this version.
    pub fn line(self) -> &'static [u8]
        ensures { result.now ≡ header_line self }
    {
        match self {
            Version::One => HEADER_ONE,
            Version::Two => HEADER_TWO,
        }
    }
}

/// Reads on after whole lines that were read as these events: what `read_trace` does with those lines and then the reader's bytes.
pub fn read_on<R: Read + Drop>(
    alloc: Global,
    version: Version,
    events: RawTrace,
    reader: R,
    keys: &mut KeyTable,
) -> Result<RawTrace, TraceFault>
    ensures ok { IfOk result (λ trace. (old : List Name) (done : List ℕ) → AreLines version done
        → ReadsTo keys.old.room old done keys.old.names events
        → KeysBelow (length keys.new.names) trace
        × IfSome (R.remaining reader) (λ bytes. ReadsTo keys.old.room old (done ++ bytes) keys.new.names trace)) }
    ensures refused { IfErr result (λ fault. (old : List Name) (done : List ℕ) → AreLines version done
        → ReadsTo keys.old.room old done keys.old.names events
        → IfSome (R.remaining reader) (λ bytes. StopsAt keys.old.room old (done ++ bytes) keys.new.names fault)) }
    ensures kept { (added : List Name) × (keys.new.names ≡ keys.old.names ++ added) }
    ensures room { keys.new.room ≡ keys.old.room }
{
    // A newline at the start of a record is skipped, and a byte order mark after it isn't taken for one.
    let newline: &[u8] = b"\n";
    let mut source = plain_reader(alloc, newline.chain(reader));
    let mut row = ByteRecord::new(alloc);
    let mut events = events.into_events();
    take_events(version, &mut source, &mut row, &mut events, keys)?;
    Ok(RawTrace::of_few(events))
}
