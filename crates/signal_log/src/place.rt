// One hour of a store that is opened.
ghost use Rattle.std.specs.Prelude.{◌≡◌, ◌+◌, ◌*◌, ◌<◌, is_some, option_copied, IfOk, IfSome};
ghost use Rattle.sig_base.specs.HourRows.{AreRowsOf};
ghost use Rattle.gap_map.specs.Stretches.{known_in};
ghost use Rattle.signal_log.specs.Opened.{IsOpened};
ghost use Rattle.board.specs.Channels.{AreSpecs};
ghost use Rattle.signal_log.specs.Points.{rows_or_none};
ghost use Rattle.signal_log.specs.Over.{AreCoursesOver};

use board::Courses;
use channel_tables::Spec;
use gap_map::{Stretch, stretches};
use sig_base::{Hour, NoMemory, Row};
use span_set::SpanSet;
use std::alloc::Global;
use std::marker::Model;
use std::snapshot::Snapshot;

/// One hour of a store that is opened: the rows that are held of it, and the stretches into which
/// its known and unknown tenths cut it.
#[derive(Drop)]
pub struct Place<'a> {
    hour: Hour,
    rows: Option<&'a [Row]>,
    stretches: Vec<Stretch>,
    blanked: Snapshot<SpanSet>,
}

impl<'a> Model for Place<'a> {
    ghost use Rattle.std.specs.Prelude.{option_copied};
    ghost use Rattle.signal_log.specs.Opened.{IsOpened, Opened};

    ghost Value = { Opened };

    ghost view = { λ p. record {
      hour = p.hour;
      rows = option_copied p.rows;
      blanks = p.blanked.value;
      stretches = p.stretches.items;
    } };

    ghost invariant = { λ p. IsOpened (record {
      hour = p.hour;
      rows = option_copied p.rows;
      blanks = p.blanked.value;
      stretches = p.stretches.items;
    }) };
}

impl<'a> Place<'a> {
    /// The hour, 0 to 743, where these rows are held of it (`None`: it isn't held) and these tenths
    /// are blanked.
    pub fn new(
        alloc: Global,
        hour: Hour,
        rows: Option<&'a [Row]>,
        blanked: &SpanSet,
    ) -> Result<Place<'a>, NoMemory>
        requires in_range { hour < 744 }
        requires of_hour { IfSome rows (λ r. AreRowsOf hour r.now) }
        ensures { IfOk result (λ p. (p.hour ≡ hour) × (p.rows ≡ option_copied rows.entry)
            × (p.blanks ≡ blanked.now)) }
    {
        let stretches = stretches(alloc, hour, rows.is_some(), blanked)?;
        Ok(Place {
            hour,
            rows,
            stretches,
            blanked: Snapshot::of(blanked),
        })
    }

    /// The hour, 0 to 743.
    pub fn hour(&self) -> Hour
        ensures value { result ≡ self.now.hour }
        ensures in_range { result < 744 }
    {
        self.hour
    }

    /// Whether the hour is held.
    pub fn is_held(&self) -> bool
        ensures { result ≡ is_some self.now.rows }
    {
        self.rows.is_some()
    }

    /// The rows of the hour, none where it isn't held.
    pub fn rows(&self) -> &[Row]
        ensures value { result.now ≡ rows_or_none self.now.rows }
        ensures are_rows { AreRowsOf self.now.hour result.now }
    {
        match self.rows {
            Some(rows) => rows,
            None => &[],
        }
    }

    /// The stretches of the hour, in their order.
    pub fn stretches(&self) -> &[Stretch]
        ensures value { result.now ≡ self.now.stretches }
        ensures opened { IsOpened self.now }
    {
        self.stretches.as_slice()
    }

    /// The courses of these channels in the hour.
    pub fn courses(&self, alloc: Global, specs: &[Spec]) -> Result<Courses, NoMemory>
        requires { AreSpecs specs.now }
        ensures { IfOk result (AreCoursesOver specs.now self.now.hour self.now.rows
            self.now.blanks) }
    {
        Courses::of(alloc, specs, self.rows(), self.stretches())
    }

    /// Whether the hour's last tenth is known.
    pub fn is_end_known(&self) -> bool
        ensures { result ≡ known_in (is_some self.now.rows) self.now.blanks
            (36000 * self.now.hour + 35999) }
    {
        match self.stretches.last() {
            Some(last) => last.known,
            None => false,
        }
    }
}
