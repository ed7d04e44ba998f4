//! How the traces of the files come into a session: in turn, or read ahead by several threads.

ghost use denote.Param.Send.{IsSync};
ghost use Rattle.std.specs.Prelude.{[], ◌++◌, ◌+◌, ◌<◌, ◌∷◌, ◌≡◌, ◌≤◌, All, IfErr, IfSome, List, None, OnErr, OnOk, Option, length, map, option_map, slice_get, ℕ};
ghost use Rattle.lockdep.specs.Names.{Event, KeysBelow, ReadsTo};
ghost use Rattle.lockdep.specs.Clauses.{IsReadingRefusal, NamesFileAt, StopsReading, remaining_in};

use crate::refusal::Refusal;
use crate::session::Session;
use crate::source::Source;
use ld_read::{ReadFault, Sources, Unread};
use ld_run::MAX_WORKERS;
use std::fs;
use std::fs::File;
use std::io::Read;
use std::marker::{Send, Sync};
use std::rt::{Files, Stdin};
use std::thread::Threads;

// With fewer bytes for each, more threads take as long as one.
const BYTES_PER_THREAD: u64 = 262_144;

// Of how many files the size is asked for.
const SIZES_ASKED: usize = 64;

/// How the traces of files are added to those of a session.
pub trait Adds {
    /// Adds the traces of these files in their order, read by as many of the workers as are worth their threads. If a file can't be
    /// opened, or its trace is refused, the refusal names the first such file, and the traces of those before it were added.
    fn add_files<'a, T: Threads + Sync>(
        &self,
        threads: &T,
        session: &mut Session,
        workers: u16,
        files: &[&'a str],
    ) -> Result<(), Refusal<'a>>
        requires shared { IsSync T.row }
        requires below { All (KeysBelow (length session.old.names)) session.old.traces }
        ensures ok { OnOk result (length session.new.traces ≡ length session.old.traces + length files.entry.now) }
        ensures below { OnOk result (All (KeysBelow (length session.new.names)) session.new.traces) }
        ensures err { (input : Option (List ℕ)) → IfErr result (StopsReading session.old.room (map (λ file. file.now) files.entry.now) input) }
        ensures named { IfErr result (λ refusal. (place : ℕ) × (length session.new.traces ≡ length session.old.traces + place)
            × NamesFileAt (map (λ file. file.now) files.entry.now) place refusal) };
}

/// Each file is read whole before the next one is opened.
#[derive(Clone, Copy)]
pub(crate) struct InTurn<'r, R> {
    pub(crate) rt: &'r R,
}

impl<R: Files> Adds for InTurn<'_, R> {
    fn add_files<'a, T: Threads + Sync>(
        &self,
        _threads: &T,
        session: &mut Session,
        _workers: u16,
        files: &[&'a str],
    ) -> Result<(), Refusal<'a>> {
        add_in_turn(self.rt, session, files)
    }
}

/// Adds the traces of the files as `Adds` says, read by as many of the workers as are worth their threads: later files may be opened
/// before an earlier one was read whole.
pub(crate) fn add_side_by_side<'a, T: Threads + Sync, R: Files + Sync>(
    threads: &T,
    rt: &R,
    session: &mut Session,
    workers: u16,
    files: &[&'a str],
) -> Result<(), Refusal<'a>>
where
    R::File: Send + Sync,
    R::Dir: Send + Sync,
    requires { All (KeysBelow (length session.old.names)) session.old.traces }
    ensures ok { OnOk result (length session.new.traces ≡ length session.old.traces + length files.entry.now) }
    ensures below { OnOk result (All (KeysBelow (length session.new.names)) session.new.traces) }
    ensures err { (input : Option (List ℕ)) → IfErr result (StopsReading session.old.room (map (λ file. file.now) files.entry.now) input) }
    ensures named { IfErr result (λ refusal. (place : ℕ) × (length session.new.traces ≡ length session.old.traces + place)
        × NamesFileAt (map (λ file. file.now) files.entry.now) place refusal) }
{
    let count = useful_threads(mean_size(rt, files), workers, files.len());
    let sources = NamedFiles { rt, files };
    match session.add_all(threads, count, &sources, files.len()) {
        Ok(()) => Ok(()),
        Err(unread) => Err(unread_refusal(files, unread)),
    }
}

// The files of these names.
#[derive(Clone, Copy)]
struct NamedFiles<'r, 'f, 'a, R> {
    rt: &'r R,
    files: &'f [&'a str],
}

impl<R: Files + Sync> Sources for NamedFiles<'_, '_, '_, R>
where
    R::File: Send + Sync,
    R::Dir: Send + Sync,
{
    // A file is read by the kind of reader that reads the program's input.
    type Source = Source<Stdin, R::File>;

    // No contract can tell what a file holds.
    ghost holds = { λ files place. None };

    // A pipe is neither opened early nor twice: opening it may wait, and what was read of it is gone.
    fn ahead(&self, place: usize) -> Option<Source<Stdin, R::File>> {
        let file = name_at(self.files, place)?;
        if !is_regular(self.rt, file) {
            return None;
        }
        File::open(self.rt, file).ok().map(Source::File)
    }

    fn open(&self, place: usize) -> Option<Source<Stdin, R::File>> {
        let file = name_at(self.files, place)?;
        File::open(self.rt, file).ok().map(Source::File)
    }
}

// The name at this place, as it was given.
fn name_at<'a>(files: &[&'a str], place: usize) -> Option<&'a str>
    ensures { option_map (λ file. file.now) result ≡ slice_get (map (λ file. file.now) files.entry.now) place }
{
    files.get(place).copied()
}

fn is_regular<R: Files>(rt: &R, file: &str) -> bool {
    match fs::metadata(rt, file) {
        Ok(found) => found.is_file(),
        Err(_) => false,
    }
}

// How many bytes the file has; 0 if that isn't known.
fn size_of<R: Files>(rt: &R, file: &str) -> u64 {
    match fs::metadata(rt, file) {
        Ok(found) => found.len(),
        Err(_) => 0,
    }
}

// How many bytes the files have in the mean, by the sizes of the first ones.
fn mean_size<R: Files>(rt: &R, files: &[&str]) -> u64 {
    let mut bytes = 0u64;
    let mut asked = 0u64;
    for file in files.iter().take(SIZES_ASKED) {
        bytes = bytes.saturating_add(size_of(rt, file));
        asked = asked.saturating_add(1);
    }
    bytes / asked.max(1)
}

// How many threads are worth it for this number of files of this mean size: one for every 256 KiB, and no more than there are workers and
// files. For a number of workers that a run refuses it is one.
fn useful_threads(mean: u64, workers: u16, files: usize) -> usize {
    if workers < 2 || workers > MAX_WORKERS || files < 2 {
        return 1;
    }
    let shares = mean.saturating_mul(files as u64) / BYTES_PER_THREAD;
    let threads = shares.saturating_add(1).min(u64::from(workers)) as usize;
    threads.min(files)
}

// The refusal of the file at whose place reading stopped.
fn unread_refusal<'a>(files: &[&'a str], unread: Unread) -> Refusal<'a>
    requires { unread.place < length files.now }
    ensures named { NamesFileAt (map (λ file. file.now) files.entry.now) unread.place result }
    ensures stops { (room : ℕ) (input : Option (List ℕ)) → StopsReading room (map (λ file. file.now) files.entry.now) input result }
{
    let file = files[unread.place];
    match unread.fault {
        ReadFault::CannotOpen => Refusal::CannotOpen { file },
        ReadFault::Trace(fault) => Refusal::Reading { file, fault },
    }
}

fn add_in_turn<'a, R: Files>(
    rt: &R,
    session: &mut Session,
    files: &[&'a str],
) -> Result<(), Refusal<'a>>
    requires { All (KeysBelow (length session.old.names)) session.old.traces }
    ensures ok { OnOk result (length session.new.traces ≡ length session.old.traces + length files.entry.now) }
    ensures below { OnOk result (All (KeysBelow (length session.new.names)) session.new.traces) }
    ensures err { (input : Option (List ℕ)) → IfErr result (StopsReading session.old.room (map (λ file. file.now) files.entry.now) input) }

    // The refused file is the one after those that were read.
    ensures named { IfErr result (λ refusal. (place : ℕ) × (length session.new.traces ≡ length session.old.traces + place)
        × NamesFileAt (map (λ file. file.now) files.entry.now) place refusal) }
{
    for file in files {
        add_file(rt, session, file)?;
    }
    Ok(())
}

fn add_file<'a, R: Files>(rt: &R, session: &mut Session, file: &'a str) -> Result<(), Refusal<'a>>
    ensures ok { OnOk result (length session.new.traces ≡ length session.old.traces + 1) }
    ensures below { OnOk result (All (KeysBelow (length session.new.names)) session.new.traces) }
    ensures err { IfErr result (StopsReading session.old.room (file.entry.now ∷ []) None) }
    ensures named { IfErr result (NamesFileAt (file.entry.now ∷ []) 0) }
    ensures kept { OnErr result (session.new.traces ≡ session.old.traces) }
{
    match File::open(rt, file) {
        Ok(opened) => add_trace::<R::File, R::File>(session, file, Source::File(opened)),
        Err(_) => Err(Refusal::CannotOpen { file }),
    }
}

/// Reads the trace of a file that is open, or of the input.
pub(crate) fn add_trace<'a, I: Read + Drop, F: Read + Drop>(
    session: &mut Session,
    file: &'a str,
    opened: Source<I, F>,
) -> Result<(), Refusal<'a>>
    ensures ok { OnOk result ((trace : List Event) × (session.new.traces ≡ session.old.traces ++ trace ∷ [])
        × IfSome (remaining_in I.remaining F.remaining opened)
        (λ bytes. ReadsTo session.old.room session.old.names bytes session.new.names trace)) }
    ensures below { All (KeysBelow (length session.new.names)) session.new.traces }
    ensures err { IfErr result (IsReadingRefusal file.entry.now session.old.room session.old.names
        (remaining_in I.remaining F.remaining opened)) }
    ensures kept { OnErr result (session.new.traces ≡ session.old.traces) }
{
    match session.add(opened) {
        Ok(()) => Ok(()),
        Err(fault) => Err(Refusal::Reading { file, fault }),
    }
}
