//! A history with its names.

ghost use Rattle.std.specs.Prelude.{◌≡◌, IfErr, IfOk, slice_index};
ghost use Rattle.ld_schedule.specs.HistoryCodes.{code_of, record_of, step_code_of};
ghost use Rattle.ld_schedule.specs.NamedHistories.{IsHistoryOf, IsRefusalOf, IsRefusedAs, IsRefusedDraft, IsTextOf};

use crate::draft::Draft;
use crate::drafting::read_draft;
use crate::history::History;
use crate::history_fault::{HistoryFault, StepFault};
use crate::name_table::NameTable;
use crate::read_fault::{ReadFault, ReadFaultKind};
use std::alloc::Global;
use std::io::Read;
use thiserror::Error;

/// A history, the names of its tasks and locks by their numbers, and for each step the number of its record, counted from
/// 1 with the header.
#[derive(Drop)]
pub struct NamedHistory {
    pub history: History,
    pub tasks: NameTable,
    pub locks: NameTable,
    pub records: Vec<u32>,
}

/// Why a text is no history.
#[derive(Clone, Copy, PartialEq, Eq, Debug, Error)]
pub enum HistoryRefusal {
    /// A record has a fault, or couldn't be got or stored. The first one is named.
    #[error("{0}")]
    Text(ReadFault),
    /// All records are well formed, but the step of this one, counted from 1 with the header, is the first that can't come
    /// where it stands.
    #[error("record {at}: {fault}")]
    Step { at: usize, fault: StepFault },
}

impl HistoryRefusal {
    /// The number of the refused record, counted from 1 with the header.
    pub fn record(&self) -> usize
        ensures { result ≡ record_of self.now }
    {
        match self {
            HistoryRefusal::Text(fault) => fault.at,
            HistoryRefusal::Step { at, .. } => *at,
        }
    }

    /// The number and name of what was wrong, as `H2 BadRecord`.
    pub fn code(&self) -> &'static str
        ensures { result.now ≡ code_of self.now }
    {
        match self {
            HistoryRefusal::Text(fault) => fault.kind.code(),
            HistoryRefusal::Step { fault, .. } => step_code(*fault),
        }
    }
}

fn step_code(fault: StepFault) -> &'static str
    ensures { result.now ≡ step_code_of fault }
{
    match fault {
        StepFault::TakenByAnother => "H9 TakenByAnother",
        StepFault::TakenAgain => "H10 TakenAgain",
        StepFault::NotHeld => "H11 NotHeld",
        StepFault::GivenTwice => "H12 GivenTwice",
        StepFault::NotGiven => "H13 NotGiven",
    }
}

/// Reads a history in the text form `history,1`.
///
/// The records are those of CSV, of any length and untrimmed. The first is `history,1`. `thread,LOCK` and `once,LOCK` say
/// what a lock stands for that wasn't named before. Each other record is a step: `TASK,take,LOCK,MODE`, `TASK,again,LOCK`,
/// `TASK,release,LOCK`, `TASK,give,N` or `TASK,get,N`, where a name is 1 to 64 bytes of 0x21 to 0x7E, a mode is `w`, `r` or
/// `rr`, after `t` for a try and after `l` for a taking with a limit of time, and N is a decimal number below 2^32 without
/// leading zeros. Tasks, locks and messages are numbered from 0 in the order of their first appearance.
///
/// The first faulty record is refused, with the first of its faults in this order: H7 or H8 in getting it, H1, H6, H2, H3,
/// H4, H5, H8 in storing it. Only if there is none, the first step that can't come where it stands is refused, with H9 to
/// H13.
pub fn read_history<R: Read + Drop>(
    alloc: Global,
    reader: R,
) -> Result<NamedHistory, HistoryRefusal>
    ensures ok { IfOk result (IsTextOf (R.remaining reader)) }
    ensures refused { IfErr result (IsRefusedAs (R.remaining reader)) }
{
    match read_draft(alloc, reader) {
        Ok(draft) => history_of(alloc, draft),
        Err(fault) => Err(HistoryRefusal::Text(fault)),
    }
}

// The history that was read.
fn history_of(alloc: Global, draft: Draft) -> Result<NamedHistory, HistoryRefusal>
    ensures ok { IfOk result (IsHistoryOf draft) }
    ensures refused { IfErr result (IsRefusedDraft draft) }
{
    let Draft {
        steps,
        records,
        numbering,
    } = draft;
    let (tasks, locks, kinds) = numbering.into_tables();
    match History::of(alloc, steps, kinds) {
        Ok(history) => Ok(NamedHistory {
            history,
            tasks,
            locks,
            records,
        }),
        Err(fault) => Err(refusal_of(fault, records.as_slice())),
    }
}

// The refusal for this fault of the steps of these records. Memory that was refused is told at the record after the last step.
fn refusal_of(fault: HistoryFault, records: &[u32]) -> HistoryRefusal
    ensures { IsRefusalOf fault records.now result }
{
    match fault {
        HistoryFault::NotWellFormed { position, fault } => HistoryRefusal::Step {
            at: record_at(records, position),
            fault,
        },
        HistoryFault::TooManySteps | HistoryFault::Memory => HistoryRefusal::Text(ReadFault {
            kind: ReadFaultKind::Memory,
            at: records.len() + 1,
        }),
    }
}

// The record of the step at this position.
fn record_at(records: &[u32], position: u32) -> usize
    ensures { result ≡ slice_index records.now position }
{
    match records.get(position as usize) {
        Some(record) => *record as usize,
        None => 0,
    }
}
