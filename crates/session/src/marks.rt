// Which hours wait for their numbers once an edit is made.
ghost use Rattle.std.specs.Prelude.{◌≡◌, ◌+◌, ◌<◌, ◌≤◌, ℕ, false, length, IfOk};
ghost use Rattle.session.specs.Links.{AllSettled};
ghost use Rattle.session.specs.Renewed.{AreMarks, FitAfter, IsUnchanged};

use crate::hours::Touched;
use crate::renew::{Points, Worked};
use hour_work::pick;
use sig_base::{Hour, NoMemory};
use std::alloc::Global;

/// So many hours, none of which is waiting.
pub fn none_waiting(alloc: Global, count: usize) -> Result<Vec<bool>, NoMemory>
    ensures size { IfOk result (λ v. length v.items ≡ count) }
    ensures settled { IfOk result (λ v. AllSettled v.items) }
{
    let mut waiting = Vec::new(alloc);
    for _ in 0..count {
        waiting.push(false)?;
    }
    Ok(waiting)
}

// Whether the numbers of an hour wait once all this is new: they do already, the edit changes the
// hour, something else is kept at the point before it, or what is new after it doesn't admit the
// same of the states that come up there.
fn waits_then(worked: &Worked, touched: &Touched, points: &Points, hour: Hour) -> bool
    requires waiting { hour < length worked.now.waiting.items }
    requires carries { hour + 1 < length worked.now.carries.items }
    requires futures { hour + 1 < length worked.now.futures.items }
    requires carry_room { points.now.first + 1 + length points.now.carries.items
        ≤ length worked.now.carries.items }
    requires future_room { points.now.from + length points.now.futures.items
        ≤ length worked.now.futures.items }
    requires shape { FitAfter worked.now.carries.items points.now.first points.now.carries.items
        worked.now.futures.items points.now.from points.now.futures.items hour }
    ensures { result ≡ false → IsUnchanged touched.now.first touched.now.last touched.now.same.items
        worked.now.waiting.items worked.now.carries.items points.now.first
        points.now.carries.items worked.now.futures.items points.now.from
        points.now.futures.items hour }
{
    let place = hour as usize;
    if worked.waiting[place] || touched.changes(hour) {
        return true;
    }
    let at = points.first as usize + 1;
    let kept = worked.carries.as_slice();
    let fresh = points.carries.as_slice();
    let before = pick(kept, at, fresh, place);
    if !before.same(&kept[place]) {
        return true;
    }
    let ahead = worked.futures.as_slice();
    let from = points.from as usize;
    let next = pick(ahead, from, points.futures.as_slice(), place + 1);
    let after = pick(kept, at, fresh, place + 1);
    !ahead[place + 1].same_for(after, next)
}

/// Of each hour from the first point at which something is new going back up to the last one at
/// which something is new going forward, whether its numbers wait then.
pub fn marks_of(
    alloc: Global,
    worked: &Worked,
    touched: &Touched,
    points: &Points,
) -> Result<Vec<bool>, NoMemory>
    requires few { points.now.first + length points.now.carries.items ≤ 744 }
    requires order { points.now.from ≤ points.now.first }
    requires room { points.now.first + length points.now.carries.items
        ≤ length worked.now.waiting.items }
    requires carry_room { points.now.first + 1 + length points.now.carries.items
        ≤ length worked.now.carries.items }
    requires future_room { points.now.from + length points.now.futures.items
        ≤ length worked.now.futures.items }
    requires futures { points.now.first + length points.now.carries.items
        < length worked.now.futures.items }
    requires shape { (k : ℕ) → k < points.now.first + length points.now.carries.items
        → FitAfter worked.now.carries.items points.now.first points.now.carries.items
        worked.now.futures.items points.now.from points.now.futures.items k }
    ensures size { IfOk result (λ v. points.now.from + length v.items
        ≡ points.now.first + length points.now.carries.items) }
    ensures marks { IfOk result (λ v. AreMarks points.now.from v.items (IsUnchanged
        touched.now.first touched.now.last touched.now.same.items worked.now.waiting.items
        worked.now.carries.items points.now.first points.now.carries.items
        worked.now.futures.items points.now.from points.now.futures.items)) }
{
    let end = points.first + points.carries.len() as u32;
    let mut marks = Vec::new(alloc);
    for hour in points.from..end {
        marks.push(waits_then(worked, touched, points, hour))?;
    }
    Ok(marks)
}
