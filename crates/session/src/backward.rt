// Back over the hours that an edit changes.
ghost use Rattle.std.specs.Prelude.{◌≡◌, ◌↔◌, ◌+◌, ◌-◌, ◌≤◌, ◌<◌, length, slice_index_or, IfSome, IfOk, IsTrue};
ghost use Rattle.hour_store.specs.Store.{IsStore, Store, rows_at};
ghost use Rattle.ring_config.specs.Settings.{Settings};
ghost use Rattle.hour_work.specs.Numbers.{patched};
ghost use Rattle.hour_work.specs.Points.{IsFutureAt};
ghost use Rattle.session.specs.Links.{Ahead, AreFuturesBut, Backs, BacksAt, FuturesFit, IsGone, Stays};
ghost use Rattle.session.specs.Opens.{AreOpened};
ghost use Rattle.session.specs.Renewed.{AreNewFutures};
ghost use Rattle.sig_base.specs.Reads.{Grow};

use crate::hours::Touched;
use crate::steps::{Gone, future_again, future_before};
use board::About;
use hour_store::HourStore;
use hour_work::Future;
use ring_config::Config;
use sig_base::{Hour, NoMemory, Reads};
use std::alloc::Global;
use std::collections::VecDeque;

// Whether all hours that are changed are passed, and nothing changes at the point before this one.
fn is_passed(first: Hour, hour: Hour, next: &Future, kept: &Future) -> bool
    ensures { IsTrue result ↔ ((hour ≤ first) × (next.now ≡ kept.now)) }
{
    hour <= first && next.same(kept)
}

/// What was kept going back at each hour point, the hours that an edit touches, and how the first
/// of them was gone over forward.
#[derive(Drop)]
pub struct Returning<'a, 'b> {
    pub touched: &'a Touched,
    pub kept: &'a [Future],
    pub gone: Option<Gone<'b>>,
}

// How the hour was gone over forward, where it is the first one that is changed.
fn own_gone<'a, 'b>(told: &'a Returning<'_, 'b>, hour: Hour) -> Option<&'a Gone<'b>>
    ensures { (c : Settings) (s : Store)
        → IfSome told.now.gone (λ g. IsGone c s told.now.touched.now.first g.courses.now
        g.states.before.now g.states.after.now)
        → IfSome result (λ g. IsGone c s hour g.now.courses.now g.now.states.before.now
        g.now.states.after.now) }
{
    if hour != told.touched.first {
        return None;
    }
    match &told.gone {
        Some(gone) => Some(gone),
        None => None,
    }
}

// What is kept going back at the point before the hour; of an hour that isn't changed it was told
// before.
fn previous_future<L>(
    alloc: Global,
    config: &Config,
    store: &HourStore<L>,
    told: &Returning<'_, '_>,
    hour: Hour,
    after: &Future,
    reads: &mut Reads<L>,
) -> Result<Future, NoMemory>
    requires in_store { hour < length store.now.hours }
    requires after { IsFutureAt config.now store.now (hour + 1) after.now }
    requires room { length told.now.kept.now ≡ length store.now.hours + 1 }
    requires told { Stays told.now.touched.now.first told.now.touched.now.last
        told.now.touched.now.same.items hour → BacksAt config.now store.now told.now.kept.now hour }
    requires gone { IfSome told.now.gone (λ g. IsGone config.now store.now
        told.now.touched.now.first g.courses.now g.states.before.now g.states.after.now) }
    ensures backs { IfOk result (Backs config.now hour (rows_at store.now hour) store.now.blanks
        after.now) }
    ensures once { AreOpened hour (hour + 1) 1 1 reads.old reads.new }
{
    if told.touched.changes(hour) {
        let gone = own_gone(told, hour);
        return future_before(alloc, config, store, hour, after, gone, reads);
    }
    let place = hour as usize;
    let was = About {
        before: &told.kept[place],
        after: &told.kept[place + 1],
    };
    future_again(alloc, config, store, hour, after, &was, reads)
}

// What is kept at the point, once these stand in its place and in that of those after it.
fn first_or<'a>(kept: &'a [Future], point: usize, fresh: &'a VecDeque<Future>) -> &'a Future
    requires room { point + length fresh.now.items ≤ length kept.now }
    requires there { point < length kept.now }
    ensures { (d : Ahead) → result.now
        ≡ slice_index_or (patched kept.now point fresh.now.items) point d }
{
    match fresh.front() {
        Some(first) => first,
        None => &kept[point],
    }
}

/// What is kept going back at the points up to the last hour that is changed, from the last one
/// before the first hour at which nothing changes, or from the window's start.
pub fn go_back<L>(
    alloc: Global,
    config: &Config,
    store: &HourStore<L>,
    told: &Returning<'_, '_>,
    reads: &mut Reads<L>,
) -> Result<Vec<Future>, NoMemory>
    requires store { IsStore store.now }
    requires order { told.now.touched.now.first ≤ told.now.touched.now.last }
    requires within { told.now.touched.now.last < length store.now.hours }
    requires kept { AreFuturesBut config.now store.now told.now.touched.now.first
        told.now.touched.now.last told.now.kept.now }
    requires stays { FuturesFit config.now store.now told.now.touched.now.same.items
        told.now.kept.now }
    requires gone { IfSome told.now.gone (λ g. IsGone config.now store.now
        told.now.touched.now.first g.courses.now g.states.before.now g.states.after.now) }
    ensures futures { IfOk result (λ v. AreNewFutures config.now store.now
        told.now.touched.now.first told.now.touched.now.last told.now.kept.now
        (told.now.touched.now.last + 1 - length v.items) v.items) }
    ensures opens { IfOk result (λ v. AreOpened (told.now.touched.now.last + 1 - length v.items)
        (told.now.touched.now.last + 1) 1 1 reads.old reads.new) }
    ensures grow { Grow reads.old reads.new }
{
    let first = told.touched.first;
    let last = told.touched.last;
    let mut fresh = VecDeque::new(alloc);
    for hour in (0..last + 1).rev() {
        let place = hour as usize;
        let after = first_or(told.kept, place + 1, &fresh);
        let next = previous_future(alloc, config, store, told, hour, after, reads)?;
        let done = is_passed(first, hour, &next, &told.kept[place]);
        fresh.push_front(next)?;
        if done {
            return Ok(fresh.into_vec());
        }
    }
    Ok(fresh.into_vec())
}
