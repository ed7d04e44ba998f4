//! Whether the recorded steps of tasks could have come in another order in which the tasks stand still.
#![tactic(auto)]

mod closure;
mod counts;
mod course;
mod cut;
mod decider;
mod decision;
mod draft;
mod drafting;
mod findings;
mod growth;
mod history;
mod history_fault;
mod judging;
mod kinds;
mod limits;
mod line;
mod messages;
mod name_table;
mod named_history;
mod numbering;
mod parts;
mod read_fault;
mod reason;
mod record;
mod replay;
mod ring;
mod rings;
mod schedule_json;
mod schedule_lines;
mod schedule_text;
mod seen;
mod standing;
mod step;
mod takings;
mod telling;
#[cfg(test)]
mod tests;

pub use decider::Decider;
pub use decision::{Cause, Contradiction, Decision, Forced, KeptOrder, Reason, Standstill};
pub use findings::{Findings, Judged, findings_of};
pub use history::{History, MAX_STEPS};
pub use history_fault::{HistoryFault, StepFault};
pub use judging::{Verdict, judge};
pub use kinds::{HeldLock, Kind, Kinds, Taken, kinds_of, taken_before};
pub use limits::{
    LONGEST_RING, MAX_NAME, MAX_RECORDS, MOST_RINGS, MOST_TRIED, MOST_TRIED_OVER_LOCKS, MOST_WORK,
};
pub use name_table::NameTable;
pub use named_history::{HistoryRefusal, NamedHistory, read_history};
pub use read_fault::{ReadFault, ReadFaultKind};
pub use rings::{Rings, rings_of};
pub use schedule_text::ScheduleText;
pub use step::{Action, HoldMode, LockKind, Step, Wait};
