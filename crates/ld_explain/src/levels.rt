//! The levels that traces of single locks are asked at.

use ld_parts::Settled;

/// What is settled about some traces at each level. A level is None where more than 256 of its keys lead to one another.
#[derive(Clone, Copy)]
pub struct Levels<'a> {
    /// Single locks, by all names of the traces.
    pub locks: Option<&'a Settled>,
    /// The same facts without those about names that stand for several locks.
    pub sure: Option<&'a Settled>,
    /// Classes.
    pub classes: Option<&'a Settled>,
    /// Types.
    pub types: &'a Settled,
    /// For each lock its class's key.
    pub class_of: &'a [u16],
    /// For each lock its type's key.
    pub type_of: &'a [u16],
}
