//! What one record of a history says.

ghost use Rattle.std.specs.Prelude.{◌≡◌, true};
ghost use Rattle.ld_schedule.specs.Names.{is_name};

use crate::step::{HoldMode, LockKind, Wait};

// A name as the format requires it, borrowed from the record's own bytes.
#[derive(Clone, Copy)]
pub(crate) struct LineName<'r> {
    pub(crate) text: &'r str,
    ghost named: { is_name text.now ≡ true },
}

// What a task does.
#[derive(Clone, Copy)]
pub(crate) enum Deed<'r> {
    Takes(LineName<'r>, HoldMode, Wait),
    TakesAgain(LineName<'r>),
    Releases(LineName<'r>),
    Gives(u32),
    Gets(u32),
}

// What a record says.
#[derive(Clone, Copy)]
pub(crate) enum Line<'r> {
    Declares(LineName<'r>, LockKind),
    Does(LineName<'r>, Deed<'r>),
}
