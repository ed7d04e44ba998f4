//! Where the messages of a history are given.

ghost use Rattle.std.specs.Prelude.{◌≡◌, ℕ, ◌+◌, ◌<◌, length, replicate, IfOk, MatchOption};
ghost use Rattle.ld_schedule.specs.Inside.HistoryTables.{AreGivings, NoMessageFault};
ghost use Rattle.ld_schedule.specs.WellFormed.{IsFaultAt};

use crate::history::NEVER;
use crate::history_fault::StepFault;
use crate::step::{Action, Step};

/// Enters the message of a step into the table of where each message was given before it, or NEVER. A fault if it is given
/// twice, or got and not given.
pub fn enter_message(givings: &mut [u32], steps: &[Step], position: u32) -> Option<StepFault>
    requires here { position < length steps.now }
    requires few { length steps.now < NEVER }
    requires before { AreGivings steps.now position givings.old }
    ensures { MatchOption result
        (AreGivings steps.now (position + 1) givings.new × NoMessageFault steps.now position)
        (IsFaultAt steps.now position) }
{
    match steps[position as usize].action {
        Action::Give { message } => {
            if givings[message as usize] != NEVER {
                return Some(StepFault::GivenTwice);
            }
            givings[message as usize] = position;
            None
        }
        Action::Get { message } => {
            if givings[message as usize] == NEVER {
                return Some(StepFault::NotGiven);
            }
            None
        }
        _ => None,
    }
}
