//! Which steps are refused, and where.

use crate::history::History;
use crate::history_fault::{HistoryFault, StepFault};
use crate::step::{Action, HoldMode, Step, Wait};
use std::alloc::Global;
use std::test::Fail;

fn take(task: u32, lock: u32, mode: HoldMode) -> Step {
    let wait = Wait::Forever;
    Step {
        task,
        action: Action::Take { lock, mode, wait },
    }
}

fn release(task: u32, lock: u32) -> Step {
    Step {
        task,
        action: Action::Release { lock },
    }
}

fn give(task: u32, message: u32) -> Step {
    Step {
        task,
        action: Action::Give { message },
    }
}

fn get(task: u32, message: u32) -> Step {
    Step {
        task,
        action: Action::Get { message },
    }
}

fn again(task: u32, lock: u32) -> Step {
    Step {
        task,
        action: Action::Again { lock },
    }
}

// How these steps are refused, if they are.
fn refusal(alloc: Global, steps: &[Step]) -> Result<Option<HistoryFault>, Fail> {
    let steps = steps.to_vec(alloc)?;
    match History::of(alloc, steps, Vec::new(alloc)) {
        Ok(_) => Ok(None),
        Err(fault) => Ok(Some(fault)),
    }
}

fn at(position: u32, fault: StepFault) -> Option<HistoryFault> {
    Some(HistoryFault::NotWellFormed { position, fault })
}

#[test]
fn readers_share_a_lock(rt: HostRuntime) -> Result<(), Fail> {
    let steps = [
        take(0, 0, HoldMode::Read),
        take(1, 0, HoldMode::RecRead),
        again(0, 0),
        release(0, 0),
        release(1, 0),
        take(0, 0, HoldMode::Write),
    ];
    assert_eq!(rt; refusal(rt.alloc(), &steps)?, None);
    Ok(())
}

#[test]
fn a_lock_is_refused_that_another_task_has(rt: HostRuntime) -> Result<(), Fail> {
    let steps = [
        give(0, 0),
        take(0, 0, HoldMode::Read),
        take(1, 0, HoldMode::Write),
    ];
    assert_eq!(rt;
        refusal(rt.alloc(), &steps)?,
        at(2, StepFault::TakenByAnother)
    );
    Ok(())
}

#[test]
fn a_lock_is_refused_that_the_task_has(rt: HostRuntime) -> Result<(), Fail> {
    let steps = [take(0, 0, HoldMode::Read), take(0, 0, HoldMode::Read)];
    assert_eq!(rt; refusal(rt.alloc(), &steps)?, at(1, StepFault::TakenAgain));
    Ok(())
}

#[test]
fn a_release_is_refused_of_what_the_task_does_not_have(rt: HostRuntime) -> Result<(), Fail> {
    let steps = [take(0, 0, HoldMode::Write), release(0, 0), release(0, 0)];
    assert_eq!(rt; refusal(rt.alloc(), &steps)?, at(2, StepFault::NotHeld));
    let writer = [take(0, 0, HoldMode::Write), again(0, 0)];
    assert_eq!(rt; refusal(rt.alloc(), &writer)?, at(1, StepFault::NotHeld));
    Ok(())
}

#[test]
fn a_message_is_given_once_and_then_got(rt: HostRuntime) -> Result<(), Fail> {
    assert_eq!(rt;
        refusal(rt.alloc(), &[give(0, 1), get(1, 1), get(2, 1)])?,
        None
    );
    assert_eq!(rt;
        refusal(rt.alloc(), &[give(0, 1), give(1, 1)])?,
        at(1, StepFault::GivenTwice)
    );
    assert_eq!(rt;
        refusal(rt.alloc(), &[give(0, 1), get(1, 0)])?,
        at(1, StepFault::NotGiven)
    );
    Ok(())
}
