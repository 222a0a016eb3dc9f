//! Worked examples of edits of a session and of fillings of its holes: small logs whose answers
//! were found by hand. They call only what the crates below put out.
#![tactic(auto)]

#[cfg(test)]
mod edits;
#[cfg(test)]
mod fillings;
#[cfg(test)]
mod held;
