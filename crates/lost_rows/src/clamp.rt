// States at the point between two hours, and walks over one hour after another.
ghost use Rattle.std.specs.Prelude.{ℕ, pos, ◌-ℤ◌, ◌≤◌};
ghost use Rattle.colour_machine.specs.Rules.{Rules};
ghost use Rattle.reach.specs.Past.{AreClamped};
ghost use Rattle.lost_rows.specs.Credits.{sets_with, AllBefore, AllOf, HoldsLost};
ghost use Rattle.lost_rows.specs.Hours.{AlikeAt, HoursAreOne, OlderIsAlike};

use crate::pasts::LostPasts;
use reach::Past;

impl LostPasts {
    /// Makes the entries that are more than an hour before the point one: no floor and no bound of
    /// an age tells them apart from then on. It can't run out of memory.
    pub fn clamp(&mut self, point: u32)
        ensures clamped { (j : ℕ) → j ≤ 3 → AreClamped (pos point -ℤ pos 36001)
            (sets_with self.old j) (sets_with self.new j) }
        ensures alike { (m : Rules) → AllOf m.colours self.old
            → AlikeAt m point (HoldsLost self.old) (HoldsLost self.new) }
        ensures entered { AllBefore self.old point → AllBefore self.new point }
        ensures colours { (n : ℕ) → AllOf n self.old → AllOf n self.new }
    {
        clamp_at(&mut self.none, point);
        clamp_at(&mut self.one, point);
        clamp_at(&mut self.two, point);
        clamp_at(&mut self.three, point);
    }
}

fn clamp_at(past: &mut Past, point: u32)
    ensures { AreClamped (pos point -ℤ pos 36001) past.old past.new }
{
    past.clamp(i64::from(point));
}

/// A walk over two lists of moves is one over the first and then one over the second, cut at any
/// tenth of the still between them. It does nothing.
pub fn hours_are_one()
    ensures { HoursAreOne }
{}

/// States that can't be told apart at a point lead to states that can't, and as many lost rows
/// explain a line behind it. It does nothing.
pub fn older_is_alike()
    ensures { OlderIsAlike }
{}
