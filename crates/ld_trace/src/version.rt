//! The versions of the trace format.

/// The version of the text format that a trace's header names.
#[derive(Clone, Copy, PartialEq, Eq, Debug)]
pub enum Version {
    /// Without try acquisitions.
    One,
    /// With try acquisitions.
    Two,
}
