//! Worked examples of the calls on one hour of a window of two: what is kept at the points before
//! and after it, its numbers, its audit with decisive windows, its cycles and its arrivals. The logs
//! are small, and their answers were found by hand. They call only what the crates below put out.
#![tactic(auto)]

#[cfg(test)]
mod audit;
#[cfg(test)]
mod given;
#[cfg(test)]
mod hours;
#[cfg(test)]
mod points;
#[cfg(test)]
mod wanted;
