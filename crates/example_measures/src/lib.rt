//! Worked examples of the measures of an hour and of its audit: services and cycles, detectors and
//! their windows, split failures, pedestrian signals, arrivals and rules, each a
//! small log whose numbers were found by hand. They call only what the crates below put out.
#![tactic(auto)]

#[cfg(test)]
mod arrivals;
#[cfg(test)]
mod bars;
#[cfg(test)]
mod cycles;
#[cfg(test)]
mod detectors;
#[cfg(test)]
mod given;
#[cfg(test)]
mod greens;
#[cfg(test)]
mod pedestrians;
#[cfg(test)]
mod rules;
#[cfg(test)]
mod services;
#[cfg(test)]
mod splits;
