// The minute of the stamp before. Rows stand nearly in order, so most stamps begin with the text of
// the one before up to and with its second colon: then only the seconds after it are read.
ghost use Rattle.std.specs.Prelude.{◌≡◌, ◌≤◌, ◌+◌, ◌*◌, ◌++◌, ℕ, List, Some, take, length, IfSome};
ghost use Rattle.std.proofs.Props.{props};
ghost use Rattle.sig_base.specs.Window.{IsDay};
ghost use Rattle.row_reader.specs.Minute.{IsMinute};
ghost use Rattle.row_reader.specs.Stamp.{stamp_in};
ghost use Rattle.row_reader.specs.Trim.{trimmed};

use crate::number::read_number;
use crate::stamp::{cut, date_of, halves, read_stamp, seconds_of};
use crate::trim::is_plain;
use crate::word::begins_with;
use sig_base::{Tenth, Window};

// The bytes of the longest text of a minute, as `12/31/2023 23:59:`.
const LONGEST: usize = 17;

// No text of a minute has less, and so many are compared at once.
const SHORTEST: usize = 8;

/// A minute as its stamps begin: their text up to and with the second colon, the day, and the tenth
/// of the day at which the minute starts.
#[derive(Clone, Copy)]
pub(crate) struct Minute {
    text: [u8; LONGEST],
    len: usize,
    day: i64,
    start: u32,
    ghost fits: { len ≤ 17 },
    ghost some: { 8 ≤ len },
    ghost in_years: { IsDay day },
    ghost in_day: { start ≤ 863400 },
    ghost begins: { IsMinute (take len text) day start } by { Prim.hlevel props },
}

impl Minute {
    // The minute of this text.
    fn new(text: &[u8], day: i64, start: u32) -> Minute
        requires fits { length text.now ≤ 17 }
        requires some { 8 ≤ length text.now }
        requires day { IsDay day }
        requires start { start ≤ 863400 }
        requires begins { IsMinute text.now day start }
        ensures text { take result.len result.text ≡ text.now }
        ensures day { result.day ≡ day }
        ensures start { result.start ≡ start }
    {
        let mut kept = [0; LONGEST];
        kept[..text.len()].copy_from_slice(text);
        Minute {
            text: kept,
            len: text.len(),
            day,
            start,
        }
    }

    // What a text has after that of the minute, where it begins with it.
    fn after<'a>(&self, text: &'a [u8]) -> Option<&'a [u8]>
        ensures { IfSome result (λ r. text.now ≡ take self.now.len self.now.text ++ r.now) }
    {
        let front = &self.text[..self.len];
        if text.len() < front.len() || !begins_with(text, front) {
            return None;
        }
        Some(&text[front.len()..])
    }

    // The tenth of the window that the minute's text with these seconds names, where they are some.
    fn tenth(&self, seconds: &[u8], window: &Window) -> Option<Tenth>
        ensures { IfSome result (λ t.
            stamp_in window.now (take self.now.len self.now.text ++ seconds.now) ≡ Some t) }
    {
        match seconds_of(seconds) {
            Some(tenth) => Some(window.tenth_of(self.day, self.start + tenth)),
            None => None,
        }
    }
}

// The tenth of the window that a stamp names which begins with the known minute's text; no answer
// where it is another one.
#[inline(always)]
fn tenth_in(minute: &Option<Minute>, stamp: &[u8], window: &Window) -> Option<Tenth>
    ensures { IfSome result (λ t. stamp_in window.now stamp.now ≡ Some t) }
{
    let Some(minute) = minute else {
        return None;
    };
    let seconds = minute.after(stamp)?;
    minute.tenth(seconds, window)
}

/// The tenth of the window that a stamp names which begins with the known minute's text and has no
/// space at its ends; no answer where it is another one. Most stamps are so.
pub(crate) fn usual_tenth(minute: &Option<Minute>, stamp: &[u8], window: &Window) -> Option<Tenth>
    ensures { IfSome result (λ t. stamp_in window.now (trimmed stamp.now) ≡ Some t) }
{
    if is_plain(stamp) {
        tenth_in(minute, stamp, window)
    } else {
        None
    }
}

// The minute of a stamp.
fn minute_of(stamp: &[u8]) -> Option<Minute>
    ensures { IfSome result (λ m. (rest : List ℕ) × (stamp.now ≡ take m.len m.text ++ rest)) }
{
    let (date, time) = halves(stamp)?;
    let (hour, rest) = cut(time, b':')?;
    let (minute, _) = cut(rest, b':')?;
    let len = date.len() + hour.len() + minute.len() + 3;
    if len < SHORTEST || len > LONGEST {
        return None;
    }
    match (
        date_of(date),
        read_number(hour, 1, 2, 23),
        read_number(minute, 2, 2, 59),
    ) {
        (Some(day), Some(hour), Some(minute)) => {
            Some(Minute::new(&stamp[..len], day, 36_000 * hour + 600 * minute))
        }
        _ => None,
    }
}

/// The tenth of the window that a stamp names, as `read_stamp` gives it. `minute` is that of the
/// stamp before, where it is known, and then that of this one.
pub(crate) fn read_next_stamp(
    minute: &mut Option<Minute>,
    stamp: &[u8],
    window: &Window,
) -> Option<Tenth>
    ensures { result ≡ stamp_in window.now stamp.now }
{
    if let Some(tenth) = tenth_in(minute, stamp, window) {
        return Some(tenth);
    }
    *minute = minute_of(stamp);
    read_stamp(stamp, window)
}
