//! Worked examples of one channel's moves through an hour, of all channels of an hour, and of the
//! states at hour points: small logs whose answers were found by hand. They call only what the
//! crates below put out.
#![tactic(auto)]

#[cfg(test)]
mod hours;
#[cfg(test)]
mod moves;
#[cfg(test)]
mod points;
#[cfg(test)]
mod ring;
#[cfg(test)]
mod ways;
