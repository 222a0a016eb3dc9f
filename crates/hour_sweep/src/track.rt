// Measures that keep a part for each of some numbers.
ghost use Rattle.std.specs.Prelude.{◌≡◌, ◌<◌, ℕ, Bool, Option, None, List, [], ◌++◌, map, length, option_map, option_to_list, slice_index_or, OnOk, OnSome, IfOk};
ghost use Rattle.sig_base.specs.declared.values.Row.{Row};
ghost use Rattle.hour_sweep.specs.Passes.{swept};
ghost use Rattle.hour_sweep.specs.Numbers.{PassesOver, tracking_after, tracking_cleared};

use crate::watch::{Watch, sweep};
use gap_map::Stretch;
use sig_base::{NoMemory, Row};
use std::alloc::Global;
use std::marker::Model;

/// What a measure keeps for one number, as a phase has: a row concerns it where its parameter is
/// the number.
pub trait Track: Copy {
    /// What a row may give, as a whole service.
    type Out: Copy;

    /// The part after a row.
    ghost step: { Row → Self → Self };

    /// The part after a gap.
    ghost clear: { Self → Self };

    /// What a row gives.
    ghost out_by: { Row → Self → Option Self.Out };

    /// The event codes of the rows that concern the measure.
    ghost wants: { ℕ → Bool };

    /// The other rows change no part and give nothing.
    ghost passes: { PassesOver wants step out_by };

    /// Whether rows with this event code concern the measure.
    fn wants(code: u8) -> bool
        ensures { result ≡ wants code };

    /// The part after a row of its number.
    fn after(self, row: &Row) -> Self
        ensures { result ≡ step row.now self };

    /// The part after a stretch that isn't known.
    fn cleared(self) -> Self
        ensures { result ≡ clear self };

    /// What a row of its number gives, from the part before the row.
    fn out(self, row: &Row) -> Option<Self::Out>
        ensures { result ≡ out_by row.now self };
}

/// The parts, and what the rows gave. The part of a number stands at that place of the table; a
/// place without a part is passed over.
#[derive(Drop)]
pub struct Tracked<T, O> {
    parts: Vec<Option<T>>,
    outs: Vec<O>,
}

impl<T, O> Model for Tracked<T, O> {
    ghost use Rattle.hour_sweep.specs.Numbers.{Tracking};

    ghost Value = { Tracking T O };

    ghost view = { λ t. record { parts = t.parts.items; outs = t.outs.items } };
}

impl<T: Drop, O: Drop> Tracked<T, O> {
    /// The parts, and what the rows gave, in the order of the rows.
    pub fn into_parts(self) -> (Vec<Option<T>>, Vec<O>)
        ensures parts { result.0.items ≡ self.parts }
        ensures outs { result.1.items ≡ self.outs }
    {
        let Tracked { parts, outs } = self;
        (parts, outs)
    }
}

// The part of this number, if there is one.
fn part_of<T: Copy>(parts: &[Option<T>], number: u16) -> Option<T>
    ensures part { result ≡ slice_index_or parts.now number None }
    ensures within { OnSome result (number < length parts.now) }
{
    let place = usize::from(number);
    if place < parts.len() {
        parts[place]
    } else {
        None
    }
}

fn put_out<O: Copy>(out: Option<O>, outs: &mut Vec<O>) -> Result<(), NoMemory>
    ensures { OnOk result (outs.new.items ≡ outs.old.items ++ option_to_list out) }
{
    match out {
        Some(o) => outs.push(o)?,
        None => {}
    }
    Ok(())
}

fn cleared_part<T: Track>(part: Option<T>) -> Option<T>
    ensures { result ≡ option_map T.clear part }
{
    match part {
        Some(part) => Some(part.cleared()),
        None => None,
    }
}

fn clear_all<T: Track>(parts: &mut [Option<T>])
    ensures { parts.new ≡ map (option_map T.clear) parts.old }
{
    for part in parts.iter_mut() {
        *part = cleared_part(*part);
    }
}

impl<T: Track> Watch for Tracked<T, T::Out> {
    ghost after = { tracking_after T.step T.out_by };

    ghost cleared = { tracking_cleared T.clear };

    fn row(&mut self, row: &Row) -> Result<(), NoMemory> {
        if !T::wants(row.code) {
            return Ok(());
        }
        let Some(part) = part_of(&self.parts, row.param) else {
            return Ok(());
        };
        put_out(part.out(row), &mut self.outs)?;
        self.parts[usize::from(row.param)] = Some(part.after(row));
        Ok(())
    }

    fn gap(&mut self) {
        clear_all(&mut self.parts);
    }
}

/// The parts before the first row, which have given nothing.
pub fn tracked_of<T: Track>(
    alloc: Global,
    parts: &[Option<T>],
) -> Result<Tracked<T, T::Out>, NoMemory>
    ensures { IfOk result (λ t. t ≡ record { parts = parts.now; outs = [] }) }
{
    Ok(Tracked {
        parts: parts.iter().copied().collect(alloc)?,
        outs: Vec::new(alloc),
    })
}

/// One pass over an hour, from the parts at the point before it.
pub fn track_hour<T: Track>(
    alloc: Global,
    parts: &[Option<T>],
    rows: &[Row],
    stretches: &[Stretch],
) -> Result<Tracked<T, T::Out>, NoMemory>
    ensures { IfOk result (λ t. t ≡ swept (tracking_after T.step T.out_by)
        (tracking_cleared T.clear) stretches.now rows.now
        (record { parts = parts.now; outs = [] })) }
{
    let mut tracked = tracked_of(alloc, parts)?;
    sweep(&mut tracked, rows, stretches)?;
    Ok(tracked)
}
