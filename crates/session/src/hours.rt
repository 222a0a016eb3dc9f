// What an edit puts into a store, and the hours that it touches.
ghost use Rattle.std.specs.Prelude.{◌≡◌, ◌*◌, false, pos, ◌≤ℤ◌, ◌<ℤ◌, length};
ghost use Rattle.session.specs.Links.{Stays, is_as_was};
ghost use Rattle.session.specs.Moved.{IsIn};
ghost use Rattle.session.specs.Puts.{IsPlaced, put_into};

use hour_store::HourStore;
use sig_base::{Hour, HourRows, Tenth};
use span_set::SpanSet;

/// What is held of an hour, or which tenths are blanked.
#[derive(Drop)]
pub enum Put<L> {
    Hour(Hour, Option<HourRows<L>>),
    Blanks(SpanSet),
}

/// Puts it into the store, and answers what was there.
pub fn exchange<L>(store: &mut HourStore<L>, put: Put<L>) -> Put<L>
    requires { IsPlaced (length store.old.hours) put }
    ensures store { store.new ≡ put_into store.old put }
    ensures back { put_into store.new result ≡ store.old }
    ensures placed { IsPlaced (length store.new.hours) result }
{
    match put {
        Put::Hour(hour, Some(rows)) => Put::Hour(hour, store.put(rows)),
        Put::Hour(hour, None) => Put::Hour(hour, store.take(hour)),
        Put::Blanks(blanks) => Put::Blanks(store.set_blanks(blanks)),
    }
}

/// The hours from the first to the last that an edit touches, of each hour with a place in the list
/// whether it is told to be as it was, and whether the numbers of those that change may wait.
#[derive(Drop)]
pub struct Touched {
    pub first: Hour,
    pub last: Hour,
    pub same: Vec<bool>,
    pub may_wait: bool,
}

impl Touched {
    /// Whether the edit may have changed the hour.
    pub fn changes(&self, hour: Hour) -> bool
        ensures { result ≡ false
            → Stays self.now.first self.now.last self.now.same.items hour }
    {
        self.first <= hour && hour <= self.last && !is_as_was(&self.same, hour)
    }
}

// Whether the hour is told to be as it was. Of an hour without a place nothing is told.
fn is_as_was(same: &[bool], hour: Hour) -> bool
    ensures { result ≡ is_as_was same.now hour }
{
    let place = hour as usize;
    place < same.len() && same[place]
}

/// The hour of a tenth of a window.
pub fn hour_at(tenth: Tenth) -> Hour
    requires low { pos 0 ≤ℤ tenth }
    requires high { tenth <ℤ pos (36000 * 744) }
    ensures { IsIn tenth result }
{
    tenth as u32 / 36_000
}
