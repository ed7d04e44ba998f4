//! What one record of a trace says.

ghost use Rattle.std.specs.Prelude.{◌≡◌, ◌⊎◌, false, true, IfErr, IfOk, IsErrOf, OnErr};
ghost use Rattle.ld_trace.specs.Names.{is_name};

use crate::{Event, Irq, KeyFault, KeyId, KeyTable, Mode, TraceFaultKind};

// A class's name and a subclass, both as the format requires. The name is borrowed from the record's own bytes.
#[derive(Clone, Copy)]
pub(crate) struct LineName<'r> {
    pub(crate) class: &'r str,
    pub(crate) sub: u8,
    ghost named: { is_name (class.now, sub) ≡ true },
}

// What a record says, with the lock's name if it has one.
#[derive(Clone, Copy)]
pub(crate) enum Line<'r> {
    Takes(LineName<'r>, Mode),
    GivesBack(LineName<'r>),
    Enters(Irq),
    Leaves,
    TurnsOn(Irq),
    TurnsOff(Irq),
}

impl Line<'_> {
    ghost use Rattle.ld_trace.specs.Lines.{event_of, is_over, with_line};
    ghost use Rattle.ld_trace.specs.Inside.ReadLines.{line_read};
    ghost use Rattle.ld_trace.specs.TraceFaults.{is_of_text};

    // Its event, with the number of its key in the table.
    //
    // `TooManyKeys` if the key would be one more than there is room for, `Memory` if memory for a new key is refused.
    // The table is then unchanged.
    pub(crate) fn numbered(&self, keys: &mut KeyTable) -> Result<Event, TraceFaultKind>
        ensures event { IfOk result (λ event. event ≡ event_of keys.old.names (line_read self.now)) }
        ensures names { IfOk result (λ _. keys.new.names ≡ with_line keys.old.names (line_read self.now)) }
        ensures room { keys.new.room ≡ keys.old.room }
        ensures fits { IfOk result (λ _. is_over keys.old.room keys.old.names (line_read self.now) ≡ false) }
        ensures over { IfErr result (λ kind. is_of_text kind ≡ true
            → (kind ≡ TraceFaultKind.TooManyKeys)
            × (is_over keys.old.room keys.old.names (line_read self.now) ≡ true)) }
        ensures always_over { is_over keys.old.room keys.old.names (line_read self.now) ≡ true
            → IsErrOf result TraceFaultKind.TooManyKeys }
        ensures either { IfErr result (λ kind. (kind ≡ TraceFaultKind.TooManyKeys)
            ⊎ (kind ≡ TraceFaultKind.Memory)) }
        ensures refused { OnErr result (keys.new ≡ keys.old) }
    {
        match self {
            Line::Takes(name, mode) => Ok(Event::Acquire {
                key: name.numbered(keys)?,
                mode: *mode,
            }),
            Line::GivesBack(name) => Ok(Event::Release {
                key: name.numbered(keys)?,
            }),
            Line::Enters(irq) => Ok(Event::Enter { irq: *irq }),
            Line::Leaves => Ok(Event::Leave),
            Line::TurnsOn(irq) => Ok(Event::TurnOn { irq: *irq }),
            Line::TurnsOff(irq) => Ok(Event::TurnOff { irq: *irq }),
        }
    }
}

impl LineName<'_> {
    ghost use Rattle.ld_trace.specs.Names.{is_one_too_many, place_of, with_name};
    ghost use Rattle.ld_trace.specs.Inside.ReadLines.{name_read};
    ghost use Rattle.ld_trace.specs.TraceFaults.{is_of_text};

    // The number of its key in the table. Refusals are those of `Line::numbered`.
    fn numbered(&self, keys: &mut KeyTable) -> Result<KeyId, TraceFaultKind>
        ensures value { IfOk result (λ key. key ≡ place_of keys.old.names (name_read self.now)) }
        ensures names { IfOk result (λ _. keys.new.names ≡ with_name keys.old.names (name_read self.now)) }
        ensures room { keys.new.room ≡ keys.old.room }
        ensures fits { IfOk result (λ _. is_one_too_many keys.old.room keys.old.names (name_read self.now) ≡ false) }
        ensures over { IfErr result (λ kind. is_of_text kind ≡ true
            → (kind ≡ TraceFaultKind.TooManyKeys)
            × (is_one_too_many keys.old.room keys.old.names (name_read self.now) ≡ true)) }
        ensures always_over { is_one_too_many keys.old.room keys.old.names (name_read self.now) ≡ true
            → IsErrOf result TraceFaultKind.TooManyKeys }
        ensures either { IfErr result (λ kind. (kind ≡ TraceFaultKind.TooManyKeys)
            ⊎ (kind ≡ TraceFaultKind.Memory)) }
        ensures refused { OnErr result (keys.new ≡ keys.old) }
    {
        match keys.number_name(self.class, self.sub) {
            Ok(key) => Ok(key),
            Err(KeyFault::Full) => Err(TraceFaultKind::TooManyKeys),
            Err(_) => Err(TraceFaultKind::Memory),
        }
    }
}
