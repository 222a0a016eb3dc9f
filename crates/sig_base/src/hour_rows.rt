// The rows of one hour, which are handed out only with a rise of its count.
ghost use Rattle.std.specs.Prelude.{◌≡◌, ◌<◌, ◌≤◌, ◌↔◌, ◌+◌, ◌*◌, length, IsTrue, IsSome, IfSome};
ghost use Rattle.sig_base.specs.Reads.{raised};
ghost use Rattle.sig_base.specs.HourRows.{RiseIn, AreRowsOf, Shown};

use crate::{Hour, Reads, Row};
use std::marker::{Model, PhantomData};

/// The rows of one hour, ordered by tenth: at most 400,000, all in the hour. With them is kept how
/// many repeats were dropped. The rows are handed out only by `show`, which counts it.
pub struct HourRows<L> {
    hour: Hour,
    rows: Vec<Row>,
    repeats: u32,
    mark: PhantomData<L>,
}

impl<L> Model for HourRows<L> {
    ghost use Rattle.sig_base.specs.HourRows.{AreRowsOf, Shown};

    ghost Value = { Shown };

    ghost view = { λ h. record { hour = h.hour; rows = h.rows.items; repeats = h.repeats } };

    ghost invariant = { λ h. AreRowsOf h.hour h.rows.items };
}

// Whether each row is in the range and none is before the one in front of it.
fn rise_in(from: u32, to: u32, rows: &[Row]) -> bool
    ensures { IsTrue result ↔ RiseIn from to rows.now }
{
    let mut least = from;
    let mut rest = rows;
    while let [first, after @ ..] = rest {
        if first.at < least || to <= first.at {
            return false;
        }
        least = first.at;
        rest = after;
    }
    true
}

impl<L> HourRows<L> {
    /// These rows as those of this hour; `None` where the hour is past 743, there are more than
    /// 400,000 rows, one isn't in the hour or one stands behind a later one.
    pub fn new(hour: Hour, rows: Vec<Row>, repeats: u32) -> Option<Self>
        ensures there { IsSome result ↔ AreRowsOf hour rows.items }
        ensures value { IfSome result (λ h. h ≡ record {
          hour = hour;
          rows = rows.items;
          repeats = repeats;
        }) }
    {
        if hour >= 744 || rows.len() > 400_000 {
            return None;
        }
        let from = 36_000 * hour;
        if !rise_in(from, from + 36_000, &rows) {
            return None;
        }
        Some(HourRows::of(hour, rows, repeats))
    }

    /// The same of rows that are known to be so: they aren't looked at.
    pub fn of(hour: Hour, rows: Vec<Row>, repeats: u32) -> Self
        requires { AreRowsOf hour rows.items }
        ensures { result ≡ record { hour = hour; rows = rows.items; repeats = repeats } }
    {
        HourRows {
            hour,
            rows,
            repeats,
            mark: PhantomData,
        }
    }

    /// The hour, counted from the start of the window.
    pub fn hour(&self) -> Hour
        ensures value { result ≡ self.now.hour }
        ensures rows { AreRowsOf self.now.hour self.now.rows }
    {
        self.hour
    }

    /// How many rows there are.
    pub fn len(&self) -> u32
        ensures { result ≡ length self.now.rows }
    {
        self.rows.len() as u32
    }

    /// How many repeats were dropped.
    pub fn repeats(&self) -> u32
        ensures { result ≡ self.now.repeats }
    {
        self.repeats
    }

    /// The rows, with a rise of the count of their hour.
    pub fn show(&self, reads: &mut Reads<L>) -> &[Row]
        ensures rows { result.now ≡ self.now.rows }
        ensures raised { reads.new ≡ raised reads.old self.now.hour }
        ensures few { length result.now ≤ 400000 }
    {
        reads.raise(self.hour);
        &self.rows
    }
}

impl<L> Drop for HourRows<L> {
    fn drop(self) {
        let HourRows {
            hour: _,
            rows: _rows,
            repeats: _,
            mark: _,
        } = self;
    }
}
