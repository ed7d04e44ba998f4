//! `lockdep`: checks recorded traces of tasks for lock orders that can deadlock.
#![tactic(auto)]

ghost use Rattle.std.specs.Prelude.{◌<◌, ◌≡◌, ◌≤◌, ◌⊎◌, IfErr, IfOk, List, map, string_bytes, ℕ};
ghost use Rattle.lockdep.specs.Clauses.{DoesWords, Refusal, WasTold};

use std::alloc::{AllocError, Global};
use std::process::ExitCode;
use std::{env, io};

mod chains;
mod condensed;
mod fault;
mod output;
mod program;
mod refusal;
mod request;
mod schedules;
mod session;
mod settled;
mod source;
#[cfg(test)]
mod tests;
mod trace_files;
mod verdicts;

use program::program_side_by_side;
use refusal::{REFUSED, Refusal, Tells};
use session::Session;
use std::io::{Read, Write};
use std::rt::{Env, Files};
use std::sync::Wait;
use std::thread::Threads;
use trace_files::{Adds, add_side_by_side};

// The words of the command line, the program's name first: P1 if one of them is no text, and P4 if memory is refused.
fn words_of(rt: &(impl Env + AllocGlobal)) -> Result<Vec<String>, Refusal<'static>>
    ensures { IfErr result (λ refusal. (refusal ≡ Refusal.BadCommandLine) ⊎ (refusal ≡ Refusal.Memory)) }
{
    let words = match env::args(rt) {
        Ok(words) => words,
        Err(error) if error.kind() == io::ErrorKind::OutOfMemory => return Err(Refusal::Memory),
        Err(_) => return Err(Refusal::BadCommandLine),
    };
    words.collect(rt.alloc()).map_err(|_| Refusal::Memory)
}

// The texts of the words, all of them and in their order.
fn texts_of<'a>(alloc: Global, words: &'a [String]) -> Result<Vec<&'a str>, AllocError>
    ensures { IfOk result (λ texts. map (λ text. text.now) texts.items ≡ map string_bytes words.entry.now) }
{
    let mut texts = Vec::new(alloc);
    for word in words {
        texts.push(word.as_str())?;
    }
    Ok(texts)
}

// Runs the program over the process's own words, which no contract can name, and returns its status. If they can't be read, that is
// the refusal.
fn run<R, I, O, T>(rt: &R, input: I, out: &mut O, err: &mut T) -> u8
where
    R: Files + Adds + Env + Threads + Wait + Sync + AllocGlobal,
    I: Read + Drop,
    O: Write,
    T: Tells,
    ensures status { result ≤ 2 }
    ensures done { result < 2 → (words : List (List ℕ)) × DoesWords words (I.remaining input) (O.contents out.old) (O.contents out.new) result }
    ensures quiet { result < 2 → err.new ≡ err.old }
    ensures refused { result ≡ 2 → (refusal : Refusal) × WasTold (λ why ended. T.tells err.old why ended err.new) refusal }
{
    let words = match words_of(rt) {
        Ok(words) => words,
        Err(refusal) => return refuse_words(err, refusal),
    };
    match texts_of(rt.alloc(), words.as_slice()) {
        Ok(texts) => program_side_by_side(rt, rt.alloc(), texts.as_slice(), input, out, err),
        Err(_) => refuse_words(err, Refusal::Memory),
    }
}

// Tells this refusal, and returns the status, however telling it ends.
fn refuse_words<T: Tells>(err: &mut T, refusal: Refusal<'_>) -> u8
    ensures status { result ≡ 2 }
    ensures line { WasTold (λ why ended. T.tells err.old why ended err.new) refusal.entry }
{
    match err.tell(refusal) {
        Ok(status) => status,
        Err(_) => REFUSED,
    }
}

// The runtime's own files and threads may be shared among threads, so that files are read side by side.
impl Adds for HostRuntime {
    fn add_files<'a, T: Threads + Sync>(
        &self,
        threads: &T,
        session: &mut Session,
        workers: u16,
        files: &[&'a str],
    ) -> Result<(), Refusal<'a>> {
        add_side_by_side(threads, self, session, workers, files)
    }
}

fn main(rt: HostRuntime) -> ExitCode {
    let (mut out, mut err) = (rt.stdout(), rt.stderr());
    ExitCode::from(run(&rt, rt.stdin(), &mut out, &mut err))
}
