//! What a worker calls before it records a chain.

/// What the workers of a run call just before each chain is recorded. With it, whoever runs them can watch them or hold
/// them up. This project's own.
pub trait Gate {
    /// The chain of this number in its trace, counted from 0, is about to be recorded; `trace` is the trace's place in
    /// the list.
    fn before_record(&self, trace: usize, number: u64);
}

/// The gate that does nothing.
#[derive(Clone, Copy, Debug, Default)]
pub struct OpenGate;

impl Gate for OpenGate {
    fn before_record(&self, _trace: usize, _number: u64) {}
}
