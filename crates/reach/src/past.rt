// The possible states, and what is made of them without a row or a gap.
ghost use Rattle.std.specs.Prelude.{◌≡◌, ℤ, pos, negsuc, ◌+ℤ◌, ◌-ℤ◌, ◌≤ℤ◌, ◌<ℤ◌, ◌<◌, ◌≤◌, ◌^◌, ◌↔◌, [], ◌∷◌, length, slice_index_or, IsTrue, IfOk, IfSome, OnOk, replicate};
ghost use Rattle.span_set.specs.Spans.{AreRanges, Member, Within};
ghost use Rattle.span_set.specs.Changes.{span};
ghost use Rattle.reach.specs.Runs.{State};
ghost use Rattle.reach.specs.Past.{Holds, AreClamped};
ghost use Rattle.reach.specs.Single.{sets_of, IsSingle};

use sig_base::{NoMemory, Tenth};
use span_set::SpanSet;
use std::alloc::Global;
use std::marker::Model;

/// One state of so many colours.
#[derive(Clone, Copy)]
pub struct Single {
    pub(crate) colours: u8,
    pub(crate) colour: u8,
    pub(crate) entry: Tenth,
}

/// The possible states: for each colour the set of possible entries. Where exactly one state is
/// possible, that alone may be kept, and then the sets don't count.
#[derive(Drop)]
pub struct Past {
    pub(crate) one: Option<Single>,
    pub(crate) sets: Vec<SpanSet>,
    pub(crate) alloc: Global,
}

impl Model for Past {
    ghost use Rattle.std.specs.Prelude.{List};
    ghost use Rattle.span_set.specs.declared.set.Span.{Span};
    ghost use Rattle.reach.specs.Single.{held, AreSingle};

    ghost Value = { List (List Span) };

    ghost view = { λ p. held p.one p.sets.items };

    ghost invariant = { λ p. AreSingle p.one };
}

impl Past {
    /// All colours, each with every entry from -36,001 to -1.
    pub fn start(alloc: Global, colours: u8) -> Result<Past, NoMemory>
        requires some { 1 ≤ colours }
        requires few { colours ≤ 16 }
        ensures colours { IfOk result (λ p. length p ≡ colours) }
        ensures states { IfOk result (λ p. (s : State) → Holds p s
            ↔ ((s.colour < colours) × Within (span (negsuc 36000) (pos 0)) s.entry)) }
    {
        let mut sets = Vec::new(alloc);
        for _colour in 0..colours {
            let set = start_set(alloc)?;
            sets.push(set)?;
        }
        Ok(Past {
            one: None,
            sets,
            alloc,
        })
    }

    /// An equal value.
    pub fn copy(&self) -> Result<Past, NoMemory>
        ensures { IfOk result (λ p. p ≡ self.now) }
    {
        if let Some(one) = self.one {
            return Ok(Past {
                one: Some(one),
                sets: Vec::new(self.alloc),
                alloc: self.alloc,
            });
        }
        let sets = copy_sets(self.alloc, &self.sets)?;
        Ok(Past {
            one: None,
            sets,
            alloc: self.alloc,
        })
    }

    /// Whether both have equally many colours and the same states.
    pub fn same(&self, other: &Past) -> bool
        ensures value { IsTrue result ↔ (self.now ≡ other.now) }
        ensures states { IsTrue result ↔ ((length self.now ≡ length other.now)
            × ((s : State) → Holds self.now s ↔ Holds other.now s)) }
    {
        match (self.one, other.one) {
            (None, None) => same_sets(&self.sets, &other.sets),
            (Some(a), Some(b)) => same_single(a, b),
            (Some(a), None) => is_single(&other.sets, a),
            (None, Some(b)) => is_single(&self.sets, b),
        }
    }

    /// Makes the entries before the tenth `point` - 36,001 that tenth: at the point all of them are
    /// older than an hour, which no floor and no bound of an age tells apart. It can't run out of
    /// memory.
    pub fn clamp(&mut self, point: Tenth)
        requires low { negsuc (2 ^ 39) ≤ℤ point }
        requires high { point ≤ℤ pos (2 ^ 39) }
        ensures { AreClamped (point -ℤ pos 36001) self.old self.new }
    {
        match self.one {
            Some(one) => self.one = Some(clamp_single(one, point)),
            None => clamp_all(self.sets.as_mut_slice(), point),
        }
    }
}

fn copy_sets(alloc: Global, sets: &[SpanSet]) -> Result<Vec<SpanSet>, NoMemory>
    ensures { IfOk result (λ v. v.items ≡ sets.now) }
{
    let mut copies = Vec::with_capacity(alloc, sets.len())?;
    for set in sets {
        let next = set.copy()?;
        copies.push(next)?;
    }
    Ok(copies)
}

// The sets that hold the state alone.
pub(crate) fn sets_of(alloc: Global, one: Single) -> Result<Vec<SpanSet>, NoMemory>
    requires { IsSingle one }
    ensures { IfOk result (λ v. v.items ≡ sets_of one) }
{
    let mut sets = Vec::new(alloc);
    for _colour in 0..one.colours {
        sets.push(SpanSet::new(alloc))?;
    }
    let mut set = SpanSet::new(alloc);
    set.add(one.entry, one.entry + 1)?;
    sets[one.colour as usize] = set;
    Ok(sets)
}

// Makes the sets hold the state alone, in the room that they have where they are as many.
pub(crate) fn spread(alloc: Global, sets: &mut Vec<SpanSet>, one: Single) -> Result<(), NoMemory>
    requires { IsSingle one }
    ensures { OnOk result (sets.new.items ≡ sets_of one) }
{
    if sets.len() == one.colours as usize {
        return fill(sets.as_mut_slice(), one);
    }
    let new = sets_of(alloc, one)?;
    *sets = new;
    Ok(())
}

fn fill(sets: &mut [SpanSet], one: Single) -> Result<(), NoMemory>
    requires single { IsSingle one }
    requires colours { length sets.old ≡ one.colours }
    ensures ok { OnOk result (sets.new ≡ sets_of one) }
    ensures colours { length sets.new ≡ length sets.old }
{
    clear_all(sets);
    add_one(&mut sets[one.colour as usize], one.entry)
}

fn clear_all(sets: &mut [SpanSet])
    ensures { sets.new ≡ replicate (length sets.old) [] }
{
    for set in sets.iter_mut() {
        set.clear();
    }
}

fn add_one(set: &mut SpanSet, entry: Tenth) -> Result<(), NoMemory>
    requires empty { set.old ≡ [] }
    requires low { negsuc (2 ^ 40) <ℤ entry }
    requires high { entry <ℤ pos (2 ^ 40) }
    ensures { OnOk result (set.new ≡ span entry (entry +ℤ pos 1) ∷ []) }
{
    set.add(entry, entry + 1)?;
    Ok(())
}

// The state that the sets hold, where it is one alone.
pub(crate) fn alone(sets: &[SpanSet]) -> Option<Single>
    requires { length sets.now ≤ 16 }
    ensures single { IfSome result (λ o. IsSingle o) }
    ensures sets { IfSome result (λ o. sets.now ≡ sets_of o) }
{
    let one = some_state(sets)?;
    if is_single(sets, one) {
        return Some(one);
    }
    None
}

// A state that the sets hold.
fn some_state(sets: &[SpanSet]) -> Option<Single>
    requires { length sets.now ≤ 16 }
    ensures { IfSome result (λ o. IsSingle o) }
{
    for colour in 0..sets.len() {
        if let Some(least) = sets[colour].least() {
            return state_of(sets.len() as u8, colour as u8, least);
        }
    }
    None
}

fn state_of(colours: u8, colour: u8, entry: Tenth) -> Option<Single>
    requires few { colours ≤ 16 }
    requires colour { colour < colours }
    ensures { IfSome result (λ o. IsSingle o) }
{
    if -(1 << 39) <= entry && entry <= 1 << 39 {
        return Some(Single {
            colours,
            colour,
            entry,
        });
    }
    None
}

// Whether the sets hold this state alone.
pub(crate) fn is_single(sets: &[SpanSet], one: Single) -> bool
    requires { IsSingle one }
    ensures value { IsTrue result ↔ (sets.now ≡ sets_of one) }
    ensures states { IsTrue result ↔ ((length sets.now ≡ length (sets_of one))
        × ((s : State) → Holds sets.now s ↔ Holds (sets_of one) s)) }
{
    if sets.len() != one.colours as usize {
        return false;
    }
    for colour in 0..sets.len() {
        if !is_part(&sets[colour], one, colour as u8) {
            return false;
        }
    }
    true
}

// Whether the set is that of the colour, where the state is held alone.
fn is_part(set: &SpanSet, one: Single, colour: u8) -> bool
    requires single { IsSingle one }
    requires colour { colour < one.colours }
    ensures value { IsTrue result ↔ (set.now ≡ slice_index_or (sets_of one) colour []) }
    ensures ordered { AreRanges set.now }
{
    if colour == one.colour {
        return is_only(set, one.entry);
    }
    is_empty(set)
}

fn is_only(set: &SpanSet, entry: Tenth) -> bool
    requires { entry <ℤ pos (2 ^ 40) }
    ensures value { IsTrue result ↔ (set.now ≡ span entry (entry +ℤ pos 1) ∷ []) }
    ensures ordered { AreRanges set.now }
{
    match set.ranges() {
        [only] => only.from == entry && only.to == entry + 1,
        _ => false,
    }
}

fn is_empty(set: &SpanSet) -> bool
    ensures value { IsTrue result ↔ (set.now ≡ []) }
    ensures ordered { AreRanges set.now }
{
    match set.ranges() {
        [] => true,
        _ => false,
    }
}

fn same_single(a: Single, b: Single) -> bool
    ensures { IsTrue result ↔ ((a.colours ≡ b.colours) × (a.colour ≡ b.colour)
        × (a.entry ≡ b.entry)) }
{
    if a.colours == b.colours && a.colour == b.colour {
        return a.entry == b.entry;
    }
    false
}

fn clamp_single(one: Single, point: Tenth) -> Single
    requires single { IsSingle one }
    requires low { negsuc (2 ^ 39) ≤ℤ point }
    requires high { point ≤ℤ pos (2 ^ 39) }
    ensures single { IsSingle result }
    ensures clamped { AreClamped (point -ℤ pos 36001) (sets_of one) (sets_of result) }
{
    Single {
        colours: one.colours,
        colour: one.colour,
        entry: one.entry.max(point - 36001),
    }
}

fn clamp_all(sets: &mut [SpanSet], point: Tenth)
    requires low { negsuc (2 ^ 39) ≤ℤ point }
    requires high { point ≤ℤ pos (2 ^ 39) }
    ensures { AreClamped (point -ℤ pos 36001) sets.old sets.new }
{
    clamp_sets(sets, point - 36001);
}

fn start_set(alloc: Global) -> Result<SpanSet, NoMemory>
    ensures { IfOk result (λ s. (e : ℤ) → Member s e ↔ Within (span (negsuc 36000) (pos 0)) e) }
{
    let mut set = SpanSet::new(alloc);
    set.add(-36001, 0)?;
    Ok(set)
}

fn same_sets(a: &[SpanSet], b: &[SpanSet]) -> bool
    ensures value { IsTrue result ↔ (a.now ≡ b.now) }
    ensures states { IsTrue result ↔ ((length a.now ≡ length b.now)
        × ((s : State) → Holds a.now s ↔ Holds b.now s)) }
{
    if a.len() != b.len() {
        return false;
    }
    for i in 0..a.len() {
        if !a[i].same(&b[i]) {
            return false;
        }
    }
    true
}

fn clamp_sets(sets: &mut [SpanSet], limit: Tenth)
    requires low { negsuc (2 ^ 40) <ℤ limit }
    requires high { limit ≤ℤ pos (2 ^ 40) }
    ensures { AreClamped limit sets.old sets.new }
{
    for set in sets.iter_mut() {
        set.clamp_below(limit);
    }
}
