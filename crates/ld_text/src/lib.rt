//! The texts: what was found is put into words here, as a report, as an explanation and as a picture, and the chains of a
//! trace as lines; and a text is written out.
#![tactic(auto, using(crate::proofs::Turns::turns))]

mod because;
mod blocks;
mod chains_text;
mod edges;
mod findings;
mod json_ends;
mod json_lists;
mod json_members;
mod json_objects;
mod json_text;
mod json_traces;
mod key_texts;
mod lines;
mod notes;
mod order;
mod output;
mod picture;
mod report;
mod verdict_json;
mod verdict_lines;
mod verdicts;
mod wording;
mod words;
mod write_fault;

pub use chains_text::write_chains;
pub use findings::{Format, write_findings};
pub use order::sorted_keys;
pub use output::{write_text, write_texts};
pub use picture::write_picture;
pub use report::write_report;
use std::alloc::AllocError;
pub use verdicts::{VerdictFormat, verdicts_of_traces, write_verdicts};
pub use words::{STDIN, digits_of, file_of};
pub use write_fault::WriteFault;

// What is made, unless memory is refused.
pub(crate) type Tried<T> = Result<T, AllocError>;
