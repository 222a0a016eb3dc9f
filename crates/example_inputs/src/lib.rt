//! Worked examples of what is read: files, records of a log, stamps, configurations, words and
//! lines, packed hours, and of the small values that they make. They call only what the crates below
//! put out.
#![tactic(auto)]

#[cfg(test)]
mod codes;
#[cfg(test)]
mod configurations;
#[cfg(test)]
mod demonstrations;
#[cfg(test)]
mod files;
#[cfg(test)]
mod gaps;
#[cfg(test)]
mod held;
#[cfg(test)]
mod lines;
#[cfg(test)]
mod packs;
#[cfg(test)]
mod records;
#[cfg(test)]
mod shifts;
#[cfg(test)]
mod tables;
#[cfg(test)]
mod tenths;
#[cfg(test)]
mod windows;
#[cfg(test)]
mod words;
