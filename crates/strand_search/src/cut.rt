// An hour cut at a place.
ghost use Rattle.std.specs.Prelude.{◌≡◌, ◌∷◌, ◌+◌, ◌<◌, ◌≤◌, ◌^◌, length, IfOk};
ghost use Rattle.board.specs.Places.{since, upto};
ghost use Rattle.strand_search.specs.Crossings.{rows_to};
ghost use Rattle.strand_search.specs.Parts.{IsCutOf};
ghost use Rattle.strand_search.specs.Runs.{IsPlaceAt};

use crate::part::Part;
use board::count_before;
use gap_map::Stretch;
use sig_base::{NoMemory, Row};
use std::alloc::Global;

/// What is before a place of an hour, its tenth with it, and what is after it, its tenth with it.
#[derive(Drop)]
pub(crate) struct Cut<'a> {
    pub(crate) left: Part<'a>,
    pub(crate) right: Part<'a>,
}

// The stretches up to the tenth, that tenth with them.
fn stretches_upto(
    alloc: Global,
    stretches: &[Stretch],
    tenth: u32,
) -> Result<Vec<Stretch>, NoMemory>
    ensures { IfOk result (λ v. v.items ≡ upto tenth stretches.now) }
{
    let mut cut = Vec::new(alloc);
    for stretch in stretches {
        if tenth < stretch.to {
            cut.push(Stretch {
                from: stretch.from,
                to: tenth + 1,
                known: stretch.known,
            })?;
            return Ok(cut);
        }
        cut.push(*stretch)?;
    }
    Ok(cut)
}

// The stretches from the tenth on, where it is in the first of these.
fn begun_at(
    head: Stretch,
    rest: &[Stretch],
    alloc: Global,
    tenth: u32,
) -> Result<Vec<Stretch>, NoMemory>
    requires { tenth < head.to }
    ensures { IfOk result (λ v. v.items ≡ since tenth (head ∷ rest.now)) }
{
    let mut cut = Vec::new(alloc);
    cut.push(Stretch {
        from: tenth,
        to: head.to,
        known: head.known,
    })?;
    cut.extend_from_slice(rest)?;
    Ok(cut)
}

// The stretches from the tenth on.
fn stretches_since(
    alloc: Global,
    stretches: &[Stretch],
    tenth: u32,
) -> Result<Vec<Stretch>, NoMemory>
    ensures { IfOk result (λ v. v.items ≡ since tenth stretches.now) }
{
    for i in 0..stretches.len() {
        if tenth < stretches[i].to {
            return begun_at(stretches[i], &stretches[i + 1..], alloc, tenth);
        }
    }
    Ok(Vec::new(alloc))
}

// How many of the hour's rows are before the place.
#[tactic(auto, using(board::proofs::Adding::count_le))]
fn rows_to(rows: &[Row], at: u32, before: Option<u32>) -> usize
    requires place { IsPlaceAt rows.now at before }
    requires soon { at + 1 < 2 ^ 32 }
    ensures count { result ≡ rows_to rows.now at before }
    ensures within { result ≤ length rows.now }
{
    match before {
        Some(row) => row as usize,
        None => count_before(rows, at + 1),
    }
}

/// The hour cut at a place of the tenth: before the row with the number, or at the tenth's end.
pub(crate) fn cut_at<'a>(
    alloc: Global,
    hour: &Part<'a>,
    at: u32,
    before: Option<u32>,
) -> Result<Cut<'a>, NoMemory>
    requires place { IsPlaceAt hour.now.rows.now at before }
    requires soon { at + 1 < 2 ^ 32 }
    ensures { IfOk result (IsCutOf hour.now.rows.now hour.now.stretches.items at
        (rows_to hour.now.rows.now at before)) }
{
    let (rows_left, rows_right) = hour.rows.split_at(rows_to(hour.rows, at, before));
    let left = stretches_upto(alloc, &hour.stretches, at)?;
    let right = stretches_since(alloc, &hour.stretches, at)?;
    Ok(Cut {
        left: Part {
            rows: rows_left,
            stretches: left,
        },
        right: Part {
            rows: rows_right,
            stretches: right,
        },
    })
}
