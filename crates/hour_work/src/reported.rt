// The numbers of each hour, and their sums.
ghost use Rattle.std.specs.Prelude.{◌≡◌, ◌≤◌, ◌<◌, ◌+◌, ◌*◌, ℕ, List, All, [], length, option_map, slice_get, slice_index_or, IfOk};
ghost use Rattle.hour_work.specs.Numbers.{AreBlocks, AreNewSums, FitHours, IsTotal, Numbers, block, patched, total_of};

use crate::Partial;
use crate::lists::{pick, put_in};
use crate::numbers::add;
use sig_base::{Hour, NoMemory};
use std::alloc::Global;
use std::marker::Model;

/// The numbers of each hour of a window, seen as a list of them, and their sums.
#[derive(Drop)]
pub struct Report {
    hours: Vec<Partial>,
    // The sums over each block of 27 hours, so that new numbers of an hour change few sums.
    blocks: Vec<Partial>,
    total: Partial,
}

impl Model for Report {
    ghost use Rattle.std.specs.Prelude.{List};
    ghost use Rattle.hour_work.specs.Numbers.{AreSummed, Numbers};

    ghost Value = { List Numbers };

    ghost view = { λ r. r.hours.items };

    ghost invariant = { λ r. AreSummed r.hours.items r.blocks.items r.total };
}

/// The sums that new numbers of some hours change.
#[derive(Drop)]
pub struct Sums {
    // The first block that changes.
    first: usize,
    blocks: Vec<Partial>,
    total: Partial,
}

impl Model for Sums {
    ghost use Rattle.hour_work.specs.Numbers.{Summed};

    ghost Value = { Summed };

    ghost view = { λ s. record { first = s.first; blocks = s.blocks.items; total = s.total } };
}

impl Report {
    /// The report with these numbers of each hour.
    pub fn new(alloc: Global, hours: Vec<Partial>) -> Result<Report, NoMemory>
        requires few { length hours.items ≤ 744 }
        requires small { All (FitHours 1) hours.items }
        ensures { IfOk result (λ r. r ≡ hours.items) }
    {
        let count = block_count(hours.len());
        let blocks = blocks_with(alloc, &hours, 0, &[], 0, count)?;
        let total = total_over(alloc, &blocks, 0, &[])?;
        Ok(Report {
            hours,
            blocks,
            total,
        })
    }

    /// The numbers of an hour, or `None` where the window doesn't have it.
    pub fn hour(&self, hour: Hour) -> Option<&Partial>
        ensures { option_map (λ p. p.now) result ≡ slice_get self.now hour }
    {
        self.hours.get(hour as usize)
    }

    /// The numbers of all hours together.
    pub fn total(&self) -> &Partial
        ensures { result.now ≡ total_of self.now }
    {
        &self.total
    }

    /// The sums that change with these numbers in place of those of as many hours from this one on.
    /// It adds up the hours of the blocks that change, and then the blocks.
    pub fn sums_with(&self, alloc: Global, from: usize, parts: &[Partial]) -> Result<Sums, NoMemory>
        requires within { from + length parts.now ≤ length self.now }
        requires small { All (FitHours 1) parts.now }
        ensures { IfOk result (AreNewSums self.now (patched self.now from parts.now)) }
    {
        let hours = self.hours.as_slice();
        let first = from / 27;
        let end = block_count(from + parts.len()).max(first);
        let blocks = blocks_with(alloc, hours, from, parts, first, end)?;
        let total = total_over(alloc, &self.blocks, first, &blocks)?;
        Ok(Sums {
            first,
            blocks,
            total,
        })
    }

    /// Exchanges the numbers of as many hours from this one on for these, with the sums that they
    /// change. Can't run out of memory.
    pub fn exchange(&mut self, from: usize, parts: &mut [Partial], sums: Sums)
        requires within { from + length parts.old ≤ length self.old }
        requires small { All (FitHours 1) parts.old }
        requires sums { AreNewSums self.old (patched self.old from parts.old) sums }
        ensures { self.new ≡ patched self.old from parts.old }
    {
        let Sums {
            first,
            mut blocks,
            total,
        } = sums;
        put_in(&mut self.hours, from, parts);
        put_in(&mut self.blocks, first, blocks.as_mut_slice());
        self.total = total;
    }
}

// How many blocks so many hours have.
fn block_count(hours: usize) -> usize
    requires { hours ≤ 744 }
    ensures all { hours ≤ 27 * result }
    ensures few { 27 * result ≤ hours + 26 }
{
    (hours + 26) / 27
}

// The sums over a block of the hours, once these stand among them from one on.
fn block_with(
    alloc: Global,
    hours: &[Partial],
    from: usize,
    parts: &[Partial],
    place: usize,
) -> Result<Partial, NoMemory>
    requires within { from + length parts.now ≤ length hours.now }
    requires few { length hours.now ≤ 744 }
    requires small { All (FitHours 1) hours.now }
    requires new_small { All (FitHours 1) parts.now }
    requires place { 27 * place ≤ length hours.now }
    ensures { IfOk result (IsTotal (block place (patched hours.now from parts.now))) }
{
    let mut total = Partial::nothing(alloc);
    for hour in 27 * place..hours.len().min(27 * place + 27) {
        add(&mut total, pick(hours, from, parts, hour))?;
    }
    Ok(total)
}

// The sums over the blocks from `first` up to `end`.
fn blocks_with(
    alloc: Global,
    hours: &[Partial],
    from: usize,
    parts: &[Partial],
    first: usize,
    end: usize,
) -> Result<Vec<Partial>, NoMemory>
    requires within { from + length parts.now ≤ length hours.now }
    requires few { length hours.now ≤ 744 }
    requires small { All (FitHours 1) hours.now }
    requires new_small { All (FitHours 1) parts.now }
    requires order { first ≤ end }
    requires last { 27 * end ≤ length hours.now + 26 }
    ensures size { IfOk result (λ v. first + length v.items ≡ end) }
    ensures each { IfOk result (λ v. (i : ℕ) (d : Numbers) → i < length v.items
        → slice_index_or v.items i d ≡ total_of (block (first + i)
        (patched hours.now from parts.now))) }
{
    let mut blocks = Vec::new(alloc);
    for place in first..end {
        blocks.push(block_with(alloc, hours, from, parts, place)?)?;
    }
    Ok(blocks)
}

// The sums over all hours, from those over blocks, once these stand among them from one on.
fn total_over(
    alloc: Global,
    kept: &[Partial],
    first: usize,
    fresh: &[Partial],
) -> Result<Partial, NoMemory>
    requires room { first + length fresh.now ≤ length kept.now }
    requires blocks { (hours : List Numbers) × (length hours ≤ 744) × All (FitHours 1) hours
        × AreBlocks hours (patched kept.now first fresh.now) }
    ensures { IfOk result (λ t. (hours : List Numbers) → length hours ≤ 744 → All (FitHours 1) hours
        → AreBlocks hours (patched kept.now first fresh.now) → t ≡ total_of hours) }
{
    let mut total = Partial::nothing(alloc);
    for place in 0..kept.len() {
        add(&mut total, pick(kept, first, fresh, place))?;
    }
    Ok(total)
}
