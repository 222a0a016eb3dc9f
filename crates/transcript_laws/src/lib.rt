//! The law that there is a transcript. The crate has laws alone, and nothing stands on it. That a
//! transcript exists is shown doubly negated, as that it can't be that there is none, since no
//! program in the logic decides verdicts over all histories.
#![tactic(auto)]

mod laws;

pub use laws::transcripts_exist;
