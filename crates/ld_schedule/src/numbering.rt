//! The numbers of tasks, locks and messages.

ghost use Rattle.std.specs.Prelude.{◌≡◌, ◌||◌, IfErr, IfOk, OnOk, false, true};
ghost use Rattle.ld_schedule.specs.Inside.ReadLines.{deed_read};
ghost use Rattle.ld_schedule.specs.Names.{is_known, is_one_too_many, place_of};
ghost use Rattle.ld_schedule.specs.Numbers.{action_of, is_over, no_numbers, step_of, with_deed, with_line, with_lock};
ghost use Rattle.ld_schedule.specs.ReadFaults.{is_of_text};
ghost use Rattle.ld_schedule.specs.Records.{does};

use crate::line::{Deed, LineName};
use crate::name_table::{MessageTable, NameTable};
use crate::read_fault::ReadFaultKind;
use crate::step::{Action, LockKind, Step};
use std::alloc::Global;
use std::marker::Model;

// The numbers of tasks, locks and messages so far, and what each lock stands for.
#[derive(Drop)]
pub(crate) struct Numbering {
    tasks: NameTable,
    locks: NameTable,
    kinds: Vec<LockKind>,
    messages: MessageTable,
}

impl Model for Numbering {
    ghost use Rattle.ld_schedule.specs.Numbers.{Numbers};

    ghost Value = { Numbers };

    ghost view = { λ n. record { tasks = n.tasks; locks = n.locks; kinds = n.kinds.items; messages = n.messages } };
}

impl Numbering {
    // No numbers.
    pub(crate) fn new(alloc: Global) -> Numbering
        ensures { result ≡ no_numbers }
    {
        Numbering {
            tasks: NameTable::new(alloc),
            locks: NameTable::new(alloc),
            kinds: Vec::new(alloc),
            messages: MessageTable::new(alloc),
        }
    }

    // The names of tasks, the names of locks, and what each lock stands for.
    pub(crate) fn into_tables(self) -> (NameTable, NameTable, Vec<LockKind>)
        ensures tasks { result.0 ≡ self.tasks }
        ensures locks { result.1 ≡ self.locks }
        ensures kinds { result.2.items ≡ self.kinds }
    {
        (self.tasks, self.locks, self.kinds)
    }

    // Whether a lock was named.
    pub(crate) fn has_lock(&self, name: &LineName<'_>) -> bool
        ensures { result ≡ is_known self.now.locks name.now.text.now }
    {
        self.locks.has(name.text)
    }

    // The number of a lock. A new one stands for this.
    pub(crate) fn lock(&mut self, name: &LineName<'_>, kind: LockKind) -> Result<u32, ReadFaultKind>
        ensures value { IfOk result (λ lock. lock ≡ place_of self.old.locks name.now.text.now) }
        ensures numbers { OnOk result (self.new ≡ with_lock self.old name.now.text.now kind) }
        ensures fits { OnOk result (is_one_too_many self.old.locks name.now.text.now ≡ false) }
        ensures over { IfErr result (λ fault. is_of_text fault ≡ true
            → (fault ≡ ReadFaultKind.TooManyNames) × (is_one_too_many self.old.locks name.now.text.now ≡ true)) }
    {
        let before = self.locks.len();
        let lock = self.locks.number(name.text)?;
        if lock as usize == before {
            self.kinds.push(kind)?;
        }
        Ok(lock)
    }

    // The action that a deed stands for.
    fn action(&mut self, deed: &Deed<'_>) -> Result<Action, ReadFaultKind>
        ensures value { IfOk result (λ action. action ≡ action_of self.old (deed_read deed.now)) }
        ensures numbers { OnOk result (self.new ≡ with_deed self.old (deed_read deed.now)) }
        ensures fits { OnOk result (is_over self.old (deed_read deed.now) ≡ false) }
        ensures over { IfErr result (λ fault. is_of_text fault ≡ true
            → (fault ≡ ReadFaultKind.TooManyNames) × (is_over self.old (deed_read deed.now) ≡ true)) }
    {
        match deed {
            Deed::Takes(lock, mode, wait) => Ok(Action::Take {
                lock: self.lock(lock, LockKind::Plain)?,
                mode: *mode,
                wait: *wait,
            }),
            Deed::TakesAgain(lock) => Ok(Action::Again {
                lock: self.lock(lock, LockKind::Plain)?,
            }),
            Deed::Releases(lock) => Ok(Action::Release {
                lock: self.lock(lock, LockKind::Plain)?,
            }),
            Deed::Gives(message) => Ok(Action::Give {
                message: self.messages.number(*message)?,
            }),
            Deed::Gets(message) => Ok(Action::Get {
                message: self.messages.number(*message)?,
            }),
        }
    }

    // The step of a task's deed.
    pub(crate) fn step(
        &mut self,
        task: &LineName<'_>,
        deed: &Deed<'_>,
    ) -> Result<Step, ReadFaultKind>
        ensures value { IfOk result (λ step. step ≡ step_of self.old task.now.text.now (deed_read deed.now)) }
        ensures numbers { OnOk result (self.new ≡ with_line self.old (does task.now.text.now (deed_read deed.now))) }
        ensures fits { OnOk result ((is_one_too_many self.old.tasks task.now.text.now || is_over self.old (deed_read deed.now)) ≡ false) }
        ensures over { IfErr result (λ fault. is_of_text fault ≡ true → (fault ≡ ReadFaultKind.TooManyNames)
            × ((is_one_too_many self.old.tasks task.now.text.now || is_over self.old (deed_read deed.now)) ≡ true)) }
    {
        let task = self.tasks.number(task.text)?;
        let action = self.action(deed)?;
        Ok(Step { task, action })
    }
}
