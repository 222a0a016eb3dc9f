// The hours that are looked at.
ghost use Rattle.std.specs.Prelude.{◌≡◌, ◌<◌, ◌≤◌, ◌↔◌, ◌*◌, IsTrue, IsSome, IfSome};
ghost use Rattle.sig_base.specs.Window.{IsDay, IsWindow, Span, tenth_in};
ghost use Rattle.sig_base.specs.Stamp.{ShowsTenth, stamp_at};

use crate::stamp::{date_at, stamp_of};
use crate::{Hour, Tenth};
use std::marker::Model;

const FIRST_DAY: i64 = -719_528;

const LAST_DAY: i64 = 2_932_896;

/// The hours that a log is about: 1 to 744 of them, one after another, of days with 24 hours each.
/// Stamps are civil times of the years 0000 to 9999.
#[derive(Drop)]
pub struct Window {
    day: i64,
    hour: u8,
    hours: u32,
}

impl Model for Window {
    ghost use Rattle.sig_base.specs.Window.{IsWindow, Span};

    ghost Value = { Span };

    ghost view = { λ w. record { day = w.day; hour = w.hour; hours = w.hours } };

    ghost invariant = { λ w. IsWindow w.day w.hour w.hours };
}

fn is_day(day: i64) -> bool
    ensures { IsTrue result ↔ IsDay day }
{
    FIRST_DAY <= day && day <= LAST_DAY
}

impl Window {
    /// A window of so many hours from an hour of a day, counted from 1970-01-01.
    pub fn new(day: i64, hour: u8, hours: u32) -> Option<Self>
        ensures there { IsSome result ↔ IsWindow day hour hours }
        ensures value { IfSome result (λ w. w ≡ record { day = day; hour = hour; hours = hours }) }
    {
        if hour > 23 || hours == 0 || hours > 744 || !is_day(day) {
            return None;
        }
        let last = day + ((hour as u32 + hours - 1) / 24) as i64;
        if !is_day(last) {
            return None;
        }
        Some(Window { day, hour, hours })
    }

    /// How many hours the window has, 1 to 744.
    pub fn hours(&self) -> u32
        ensures value { result ≡ self.now.hours }
        ensures some { 1 ≤ result }
        ensures few { result ≤ 744 }
    {
        self.hours
    }

    /// Whether the window has this hour, counted from its start.
    pub fn has_hour(&self, hour: Hour) -> bool
        ensures { IsTrue result ↔ (hour < self.now.hours) }
    {
        hour < self.hours
    }

    /// The tenth of the window at this tenth of this day, which may lie outside it.
    pub fn tenth_of(&self, day: i64, tenth_of_day: u32) -> Tenth
        requires day { IsDay day }
        requires tenth { tenth_of_day < 864000 }
        ensures { result ≡ tenth_in self.now day tenth_of_day }
    {
        (day - self.day) * 864_000 + tenth_of_day as i64 - 36_000 * self.hour as i64
    }

    /// The stamp `YYYY-MM-DDTHH:MM:SS.f` of this tenth of the window.
    #[tactic(auto, unfolding(crate::specs::Stamp::stamp_at))]
    pub fn stamp(&self, at: u32) -> [u8; 21]
        requires { at < 36000 * self.now.hours }
        ensures value { result ≡ stamp_at self.now at }
        ensures shows { ShowsTenth self.now at result }
    {
        let since = 36_000 * self.hour as u32 + at;
        let date = date_at(self.day + (since / 864_000) as i64);
        stamp_of(date, since % 864_000)
    }
}
