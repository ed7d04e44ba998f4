//! Why the program refused, and the one line that says so.

ghost use Rattle.std.specs.Prelude.{◌≡◌, IfOk, OnErr, OnOk, Result, ℕ};
ghost use Rattle.lockdep.specs.Names.{Appends, AppendsBeginning, WriteFault};
ghost use Rattle.lockdep.specs.Clauses.{Refusal, fault_line, record_line};

use ld_run::{CondenseFault, RunFault};
use ld_schedule::HistoryRefusal;
use ld_task::StepFault;
use ld_text::{WriteFault, digits_of, write_texts};
use ld_trace::TraceFault;
use std::io::Write;

/// The status of a program that refused.
pub(crate) const REFUSED: u8 = 2;

/// Why the program refused.
#[derive(Clone, Copy, PartialEq, Eq, Debug)]
pub(crate) enum Refusal<'a> {
    /// P1: the command line is refused, or its words can't be got as text.
    BadCommandLine,
    /// P2: the file can't be opened.
    CannotOpen {
        file: &'a str,
    },
    /// P3: the output took no more.
    Output,
    /// P4: memory was refused in the command line, in making the session or the key table, or in writing.
    Memory,
    /// A trace is refused while it is read.
    Reading {
        file: &'a str,
        fault: TraceFault,
    },
    /// A trace isn't well formed: the number of the record, counted from 1 with the header, and why.
    Step {
        file: &'a str,
        at: usize,
        fault: StepFault,
    },
    /// A history is refused.
    History {
        file: &'a str,
        refusal: HistoryRefusal,
    },
    /// The run over the traces is refused for another reason.
    Run(RunFault),
    /// The facts of the traces aren't condensed.
    Condensing(CondenseFault),
}

/// What a refusal is told to.
pub(crate) trait Tells {
    // How telling it may end, and what that leaves.
    ghost tells: { Self → Refusal → Result ℕ WriteFault → Self → Type 0 };

    /// Tells the refusal in its one line, and returns the status; or how telling it failed.
    fn tell(&mut self, refusal: Refusal<'_>) -> Result<u8, WriteFault>
        ensures status { IfOk result (λ status. status ≡ 2) }
        ensures told { tells self.old refusal.entry result self.new };
}

impl<E: Write> Tells for E {
    ghost use Rattle.lockdep.specs.FaultLines.{IsTold};

    ghost tells = { λ old refusal result new. IsTold (E.contents old) (E.contents new) refusal result };

    fn tell(&mut self, refusal: Refusal<'_>) -> Result<u8, WriteFault> {
        refuse(self, refusal)
    }
}

fn tell_record<W: Write>(w: &mut W, file: &str, at: usize, code: &str) -> Result<(), WriteFault>
    ensures ok { OnOk result (Appends (W.contents w.old) (W.contents w.new) (record_line file.now at code.now)) }
    ensures err { OnErr result (AppendsBeginning (W.contents w.old) (W.contents w.new)
        (record_line file.now at code.now)) }
{
    let number = digits_of(at);
    write_texts(
        w,
        &[
            "lockdep: ",
            file,
            ": record ",
            number.as_str(),
            ": ",
            code,
            "\n",
        ],
    )
}

fn write_line<W: Write>(w: &mut W, refusal: Refusal<'_>) -> Result<(), WriteFault>
    ensures ok { OnOk result (Appends (W.contents w.old) (W.contents w.new) (fault_line refusal.entry)) }
    ensures err { OnErr result (AppendsBeginning (W.contents w.old) (W.contents w.new) (fault_line refusal.entry)) }
{
    match refusal {
        Refusal::BadCommandLine => write_texts(w, &["lockdep: P1 BadCommandLine\n"]),
        Refusal::CannotOpen { file } => write_texts(w, &["lockdep: ", file, ": P2 CannotOpen\n"]),
        Refusal::Output => write_texts(w, &["lockdep: P3 Output\n"]),
        Refusal::Memory => write_texts(w, &["lockdep: P4 Memory\n"]),
        Refusal::Reading { file, fault } => tell_record(w, file, fault.at, fault.code()),
        Refusal::Step { file, at, fault } => tell_record(w, file, at, fault.code()),
        Refusal::History { file, refusal } => {
            tell_record(w, file, refusal.record(), refusal.code())
        }
        Refusal::Run(fault) => write_texts(w, &["lockdep: ", fault.code(), "\n"]),
        Refusal::Condensing(fault) => write_texts(w, &["lockdep: ", fault.code(), "\n"]),
    }
}

/// Writes the one line that says why the program refused, as `lockdep: a.txt: record 2: T2 BadRecord`, and returns the
/// status. Takes no memory. If the writer failed, how it failed is returned, and a beginning of the line was written.
pub(crate) fn refuse<W: Write>(w: &mut W, refusal: Refusal<'_>) -> Result<u8, WriteFault>
    ensures status { IfOk result (λ status. status ≡ 2) }
    ensures line { OnOk result (Appends (W.contents w.old) (W.contents w.new) (fault_line refusal.entry)) }
    ensures err { OnErr result (AppendsBeginning (W.contents w.old) (W.contents w.new) (fault_line refusal.entry)) }
{
    match write_line(w, refusal) {
        Ok(()) => Ok(REFUSED),
        Err(fault) => Err(fault),
    }
}
