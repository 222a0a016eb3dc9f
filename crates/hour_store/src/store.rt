// The rows of each hour, and the blanked tenths.
ghost use Rattle.std.specs.Prelude.{◌≡◌, ◌≤◌, ◌<◌, ◌*◌, length, Some, None, is_some, option_map, IfOk, IfSome};
ghost use Rattle.sig_base.specs.Reads.{raised};
ghost use Rattle.sig_base.specs.HourRows.{AreRowsOf};
ghost use Rattle.hour_store.specs.Store.{IsOfHour, IsStore, LieWithin, count_in, held_at, nothing_held, rows_at, rows_held, with_blanks, with_hour};

use sig_base::{Hour, HourRows, NoMemory, Reads, Row};
use span_set::SpanSet;
use std::alloc::Global;
use std::marker::Model;
use std::mem;

/// For each hour of a window nothing or its rows, and a set of blanked tenths. A held hour may
/// have no rows. The rows are handed out only by `open_hour`, which counts it.
#[derive(Drop)]
pub struct HourStore<L> {
    hours: Vec<Option<HourRows<L>>>,
    count: u64,
    blanks: SpanSet,
}

impl<L> Model for HourStore<L> {
    ghost use Rattle.std.specs.Prelude.{◌≡◌, sum_by};
    ghost use Rattle.hour_store.specs.Store.{IsStore, Store, count_in};

    ghost Value = { Store };

    ghost view = { λ s. record { hours = s.hours.items; blanks = s.blanks } };

    ghost invariant = { λ s. IsStore (record { hours = s.hours.items; blanks = s.blanks })
        × (s.count ≡ sum_by count_in s.hours.items) };
}

// How many rows these are.
fn count_in<L>(held: &Option<HourRows<L>>) -> u32
    ensures { result ≡ count_in held.now }
{
    match held {
        Some(rows) => rows.len(),
        None => 0,
    }
}

impl<L> HourStore<L> {
    /// A store of a window of so many hours, which holds and blanks nothing.
    pub fn new(alloc: Global, hours: u32) -> Result<HourStore<L>, NoMemory>
        requires some { 1 ≤ hours }
        requires few { hours ≤ 744 }
        ensures { IfOk result (λ s. s ≡ nothing_held hours) }
    {
        let mut held = Vec::new(alloc);
        for _ in 0..hours {
            held.push(None)?;
        }
        Ok(HourStore {
            hours: held,
            count: 0,
            blanks: SpanSet::new(alloc),
        })
    }

    /// How many hours the window has, 1 to 744.
    pub fn hours(&self) -> u32
        ensures value { result ≡ length self.now.hours }
        ensures store { IsStore self.now }
    {
        self.hours.len() as u32
    }

    /// Whether the rows of the hour are held.
    pub fn is_held(&self, hour: Hour) -> bool
        requires { hour < length self.now.hours }
        ensures { result ≡ is_some (held_at self.now hour) }
    {
        self.hours[hour as usize].is_some()
    }

    /// How many rows are held of all hours, those at blanked tenths among them.
    pub fn rows_held(&self) -> u64
        ensures value { result ≡ rows_held self.now }
        ensures few { result ≤ 400000 * 744 }
    {
        self.count
    }

    /// How many rows are held of this hour, 0 where it isn't held. No count of reads rises.
    pub fn len_of(&self, hour: Hour) -> u32
        requires { hour < length self.now.hours }
        ensures { result ≡ count_in (held_at self.now hour) }
    {
        count_in(&self.hours[hour as usize])
    }

    /// The blanked tenths.
    pub fn blanked(&self) -> &SpanSet
        ensures value { result.now ≡ self.now.blanks }
        ensures within { LieWithin (length self.now.hours) self.now.blanks }
        ensures store { IsStore self.now }
    {
        &self.blanks
    }

    /// The rows of an hour, those at blanked tenths among them, or `None` where it isn't held.
    /// The count of this hour rises either way.
    pub fn open_hour(&self, hour: Hour, reads: &mut Reads<L>) -> Option<&[Row]>
        requires { hour < length self.now.hours }
        ensures rows { option_map (λ s. s.now) result ≡ rows_at self.now hour }
        ensures of_hour { IfSome result (λ s. AreRowsOf hour s.now) }
        ensures raised { reads.new ≡ raised reads.old hour }
    {
        match &self.hours[hour as usize] {
            Some(rows) => Some(rows.show(reads)),
            None => {
                reads.raise(hour);
                None
            }
        }
    }

    /// Holds these rows for their hour, and answers what was held of it. It can't run out of memory.
    pub fn put(&mut self, rows: HourRows<L>) -> Option<HourRows<L>>
        requires { rows.hour < length self.old.hours }
        ensures store { self.new ≡ with_hour self.old rows.hour (Some rows) }
        ensures before { result ≡ held_at self.old rows.hour }
        ensures of_hour { IfSome result (IsOfHour rows.hour) }
    {
        let hour = rows.hour() as usize;
        self.count += rows.len() as u64;
        self.count -= count_in(&self.hours[hour]) as u64;
        mem::replace(&mut self.hours[hour], Some(rows))
    }

    /// Holds nothing for an hour, and answers what was held of it. It can't run out of memory.
    pub fn take(&mut self, hour: Hour) -> Option<HourRows<L>>
        requires { hour < length self.old.hours }
        ensures store { self.new ≡ with_hour self.old hour None }
        ensures before { result ≡ held_at self.old hour }
        ensures of_hour { IfSome result (IsOfHour hour) }
    {
        let hour = hour as usize;
        self.count -= count_in(&self.hours[hour]) as u64;
        mem::replace(&mut self.hours[hour], None)
    }

    /// Blanks these tenths and no others, and answers those that were blanked. It can't run out of
    /// memory.
    pub fn set_blanks(&mut self, blanks: SpanSet) -> SpanSet
        requires within { LieWithin (length self.old.hours) blanks }
        ensures store { self.new ≡ with_blanks self.old blanks }
        ensures before { result ≡ self.old.blanks }
        ensures within_before { LieWithin (length self.old.hours) result }
    {
        mem::replace(&mut self.blanks, blanks)
    }
}
