//! Worked examples of whole runs: words and files in memory, and the bytes that a run writes, the
//! status with which it ends and how often it opens each hour.
#![tactic(auto)]

#[cfg(test)]
mod audits;
#[cfg(test)]
mod cases;
#[cfg(test)]
mod cut_off;
#[cfg(test)]
mod demo;
#[cfg(test)]
mod demo_edits;
#[cfg(test)]
mod given;
#[cfg(test)]
mod limits;
#[cfg(test)]
mod many_edits;
#[cfg(test)]
mod measures;
#[cfg(test)]
mod moved;
#[cfg(test)]
mod offsets;
#[cfg(test)]
mod packed;
#[cfg(test)]
mod pairs;
#[cfg(test)]
mod points;
#[cfg(test)]
mod runs;
