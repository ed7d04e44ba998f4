//! The text of a trace's chains.

ghost use Rattle.std.specs.Prelude.{[], ◌++◌, ◌+◌, ◌≡◌, ◌≤◌, Err, OnErr, OnOk, codes, length};
ghost use Rattle.ld_text.specs.Names.{Appends, name_at};
ghost use Rattle.ld_text.specs.Clauses.{AppendsBeginning, LINE_BYTES, chain_line, chains_text, flags_text, key_text, taken_text};
ghost use Rattle.ld_text.specs.ChainLines.{head_text};

use crate::output::{Page, put, write_out};
use crate::words::{digits_of, flag_word, frame_word, name_of};
use crate::write_fault::WriteFault;
use arrayvec::ArrayString;
use ld_task::{Chain, Flags, TaskState, Trace, one_more_event_adds_its_chain};
use ld_trace::{Irq, KeyId, KeyTable, Mode};
use std::io::Write;

// Room for any line: 92 bytes for an acquisition, 9 for the count, 73 for each of 48 held locks, and 1 for the line's end.
const LINE_BYTES: usize = 3_606;

// A line, while it is made. It takes no memory.
type Line = ArrayString<LINE_BYTES>;

// A key's name: at most 64 bytes, a slash, and the three that a subclass's type has room for.
fn add_key(line: &mut Line, names: &KeyTable, key: KeyId)
    requires { length line.old.bytes + 68 ≤ LINE_BYTES }
    ensures text { line.new.bytes ≡ line.old.bytes ++ key_text (name_at names.now.names key) }
    ensures short { length line.new.bytes ≤ length line.old.bytes + 68 }
{
    let (name, sub) = name_of(names, key);
    line.push_str(name);
    line.push_str("/");
    line.push_str(digits_of(sub as usize).as_str());
}

// A held lock: its key and mode after a space.
fn add_lock(line: &mut Line, names: &KeyTable, lock: (KeyId, Mode))
    requires { length line.old.bytes + 73 ≤ LINE_BYTES }
    ensures text { line.new.bytes ≡ line.old.bytes ++ (codes " " ++ taken_text names.now.names lock.0 lock.1) }
    ensures short { length line.new.bytes ≤ length line.old.bytes + 73 }
{
    line.push_str(" ");
    add_key(line, names, lock.0);
    line.push_str(" ");
    line.push_str(lock.1.word());
}

// The flags: hardirq, softirq.
fn add_flags(line: &mut Line, flags: Flags)
    requires { length line.old.bytes + 7 ≤ LINE_BYTES }
    ensures text { line.new.bytes ≡ line.old.bytes ++ flags_text flags }
    ensures short { length line.new.bytes ≤ length line.old.bytes + 7 }
{
    line.push_str(flag_word(flags.is_on(Irq::Hard)));
    line.push_str(" ");
    line.push_str(flag_word(flags.is_on(Irq::Soft)));
}

// What a line says of the chain itself.
fn add_head(line: &mut Line, names: &KeyTable, chain: &Chain)
    requires { length line.old.bytes + 92 ≤ LINE_BYTES }
    ensures text { line.new.bytes ≡ line.old.bytes ++ head_text names.now.names chain.now.new_lock chain.now.flags }
    ensures short { length line.new.bytes ≤ length line.old.bytes + 92 }
{
    match chain.taken() {
        Some((key, mode, frame)) => {
            line.push_str("acq");
            add_lock(line, names, (key, mode));
            line.push_str(" ");
            line.push_str(frame_word(frame));
            line.push_str(" ");
        }
        None => line.push_str("on "),
    }
    add_flags(line, chain.flags());
}

fn add_line(line: &mut Line, names: &KeyTable, chain: &Chain)
    requires { line.old.bytes ≡ [] }
    ensures { line.new.bytes ≡ chain_line names.now.names chain.now }
{
    add_head(line, names, chain);
    line.push_str(" held ");
    line.push_str(digits_of(chain.held_len()).as_str());
    for place in 0..chain.held_len() {
        let Some(lock) = chain.held(place) else {
            unreachable!();
        };
        add_lock(line, names, lock);
    }
    line.push_str("\n");
}

/// Writes a line for each chain of the trace, in order: an acquisition with its mode, frame and flags, or an opening with
/// the flags just after it, and the locks held then in the frame, oldest first. Takes no memory.
pub fn write_chains<W: Write>(w: &mut W, trace: &Trace, names: &KeyTable) -> Result<(), WriteFault>
    ensures ok { OnOk result (Appends (W.contents w.old) (W.contents w.new) (chains_text names.now.names trace.now)) }
    ensures not_memory { ¬ (result ≡ Err WriteFault.Memory) }
    ensures err { OnErr result (AppendsBeginning (W.contents w.old) (W.contents w.new)
        (chains_text names.now.names trace.now)) }
{
    // A law: what was written so far begins the text, wherever writing stops.
    one_more_event_adds_its_chain();
    let (mut page, mut line) = (Page::new(), Line::new());
    let mut state = TaskState::new();
    for place in 0..trace.len() {
        let Some(event) = trace.event(place) else {
            unreachable!();
        };
        let Ok(chain) = state.step(event) else {
            unreachable!();
        };
        if let Some(chain) = chain {
            line.clear();
            add_line(&mut line, names, &chain);
            put(w, &mut page, line.as_str())?;
        }
    }
    write_out(w, &mut page)
}
