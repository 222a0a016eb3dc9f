// The rows of an hour in chains: those of a phase or of a detector, one after another.
ghost use Rattle.std.specs.Prelude.{◌≡◌, ◌+◌, ◌<◌, true, false, filter, length, slice_index_or, ℕ, MatchOption, IfOk, OnOk};
ghost use Rattle.board.specs.Logs.{no_row};
ghost use Rattle.arrival_measures.specs.declared.chains.Chain.{Chain};
ghost use Rattle.arrival_measures.specs.Chains.{IsNext, IsOnlyIn, cell_of, is_in, number_of};
ghost use Rattle.arrival_measures.specs.Own.{is_turn, turns_of};

use sig_base::{NoMemory, Row};
use std::alloc::Global;
use std::marker::Model;

/// Which rows a chain has.
#[derive(Clone, Copy)]
pub(crate) enum Chain {
    /// Those that begin or end green of the phase.
    Green(u8),
    /// Those at which the detector goes on.
    On(u8),
}

impl Chain {
    // Where a table of all chains has it. Small numbers come first.
    fn cell(self) -> usize
        ensures cell { result ≡ cell_of self }
        ensures within { result < 512 }
        ensures number { number_of self < 256 }
    {
        match self {
            Chain::Green(phase) => 2 * usize::from(phase),
            Chain::On(detector) => 2 * usize::from(detector) + 1,
        }
    }

    // Whether it has the row.
    fn has(self, row: &Row) -> bool
        ensures { result ≡ is_in self row.now }
    {
        match self {
            Chain::Green(phase) => row.param == u16::from(phase) && is_turn(row),
            Chain::On(detector) => row.code == 82 && row.param == u16::from(detector),
        }
    }
}

// The chain that has the row.
fn chain_of(row: &Row) -> Option<Chain>
    ensures { MatchOption result ((c : Chain) → number_of c < 256
        → is_in c row.now ≡ false) (λ own. IsOnlyIn row.now own) }
{
    if row.param > 255 {
        return None;
    }
    let number = row.param as u8;
    match row.code {
        1 | 7 | 8 => Some(Chain::Green(number)),
        82 => Some(Chain::On(number)),
        _ => None,
    }
}

/// An hour's rows, of which those of a phase or of a detector are gone through without the others.
/// A clause sees the rows.
#[derive(Drop)]
pub(crate) struct Chains<'a> {
    rows: &'a [Row],
    // The first place of each chain, by its cell; a chain past its end has none.
    heads: Vec<usize>,
    // For each row the next place of its chain; their number where there is none.
    next: Vec<usize>,
}

impl<'a> Model for Chains<'a> {
    ghost use Rattle.std.specs.Prelude.{List};
    ghost use Rattle.sig_base.specs.declared.values.Row.{Row};

    ghost Value = { List Row };

    ghost use Rattle.arrival_measures.specs.Chains.{AreChains};

    ghost view = { λ c. c.rows.now };

    ghost invariant = { λ c. AreChains c.rows.now 0 c.heads.items c.next.items };
}

// Makes the table go as far as the cell. Each cell that is new has `none`.
fn make_cell(heads: &mut Vec<usize>, cell: usize, none: usize) -> Result<(), NoMemory>
    requires { cell < 512 }
    ensures within { OnOk result (cell < length heads.new.items) }
    ensures same { OnOk result ((i : ℕ) → slice_index_or heads.new.items i none
        ≡ slice_index_or heads.old.items i none) }
{
    if heads.len() <= cell {
        heads.resize(cell + 1, none)?;
    }
    Ok(())
}

impl<'a> Chains<'a> {
    /// The chains of the rows.
    pub(crate) fn new(alloc: Global, rows: &'a [Row]) -> Result<Chains<'a>, NoMemory>
        ensures { IfOk result (λ c. c ≡ rows.now) }
    {
        let count = rows.len();
        let mut heads = Vec::new(alloc);
        let mut next = vec![in alloc; count; count]?;
        for place in (0..rows.len()).rev() {
            if let Some(chain) = chain_of(&rows[place]) {
                let cell = chain.cell();
                make_cell(&mut heads, cell, count)?;
                next[place] = heads[cell];
                heads[cell] = place;
            }
        }
        Ok(Chains { rows, heads, next })
    }

    pub(crate) fn len(&self) -> usize
        ensures { result ≡ length self.now }
    {
        self.rows.len()
    }

    /// The row with this place.
    pub(crate) fn row(&self, place: usize) -> Row
        requires { place < length self.now }
        ensures { result ≡ slice_index_or self.now place no_row }
    {
        let rows = self.rows;
        rows[place]
    }

    /// The chain's first place, or the number of rows where it has none.
    pub(crate) fn first(&self, chain: Chain) -> usize
        ensures next { IsNext (is_in chain) self.now 0 result }
        ensures number { number_of chain < 256 }
    {
        let cell = chain.cell();
        if cell < self.heads.len() {
            self.heads[cell]
        } else {
            self.rows.len()
        }
    }

    /// The next place of the chain that has the row with this place, or the number of rows where it
    /// has none.
    pub(crate) fn next(&self, place: usize) -> usize
        requires { place < length self.now }
        ensures { (c : Chain) → number_of c < 256 → is_in c (slice_index_or self.now place no_row)
            ≡ true → IsNext (is_in c) self.now (place + 1) result }
    {
        self.next[place]
    }
}

fn is_turn(row: &Row) -> bool
    ensures { result ≡ is_turn row.now }
{
    row.code == 1 || row.code == 7 || row.code == 8
}

/// Those of the rows that begin or end green of a phase, in their order. They are few.
pub(crate) fn turns_among(alloc: Global, rows: &[Row]) -> Result<Vec<Row>, NoMemory>
    ensures { IfOk result (λ v. v.items ≡ turns_of rows.now) }
{
    let turns = rows
        .iter()
        .copied()
        .filter(|row| is_turn(row))
        .collect(alloc)?;
    Ok(turns)
}

/// The rows that the chain has, in their order.
pub(crate) fn chain_rows(
    alloc: Global,
    chains: &Chains<'_>,
    chain: Chain,
) -> Result<Vec<Row>, NoMemory>
    ensures { IfOk result (λ v. v.items ≡ filter (is_in chain) chains.now) }
{
    let mut own = Vec::new(alloc);
    let mut place = chains.first(chain);
    while place < chains.len() {
        own.push(chains.row(place))?;
        place = chains.next(place);
    }
    Ok(own)
}

/// Those of the rows that the chain has, in their order, where the rows are few.
pub(crate) fn rows_in(alloc: Global, rows: &[Row], chain: Chain) -> Result<Vec<Row>, NoMemory>
    ensures { IfOk result (λ v. v.items ≡ filter (is_in chain) rows.now) }
{
    let own = rows
        .iter()
        .copied()
        .filter(|row| chain.has(row))
        .collect(alloc)?;
    Ok(own)
}
