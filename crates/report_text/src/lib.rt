//! The lines that sigaudit prints. Each call appends exactly its text to a sink, or a prefix of it
//! where the sink fails; none takes memory. The texts are those of `docs/FORMATS.md`.
#![tactic(auto)]

mod applied;
mod approaches;
mod audit;
mod config_refusal;
mod coordination;
mod counts;
mod diagrams;
mod heads;
mod lines;
mod measures;
mod packed;
mod pairs;
mod peds;
mod phases;
mod preempts;
mod refusal;
mod rules;
mod shifts;
mod undecided;
mod usage;
mod verdicts;

pub use applied::put_applied;
pub use approaches::put_approaches;
pub use audit::{put_audit_counts, put_audit_line};
pub use config_refusal::put_config_error;
pub use counts::put_counts;
pub use diagrams::{put_diagram, put_diagrams};
pub use measures::{put_hour_measures, put_measures, put_window_measures};
pub use packed::put_packed_refusal;
pub use pairs::put_pair;
pub use refusal::{Refusal, put_refusal};
pub use shifts::put_shifts;
pub use undecided::{put_nothing, put_pairs};
pub use usage::put_usage;
pub use verdicts::{put_audit, put_verdicts};
