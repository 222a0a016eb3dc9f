// What is kept at an hour point.
ghost use Rattle.std.specs.Prelude.{◌≡◌, ◌↔◌, [], List, length, IfOk, IsTrue};
ghost use Rattle.channel_tables.specs.declared.spec.Spec.{Spec};
ghost use Rattle.hour_store.specs.Store.{Store};
ghost use Rattle.board.specs.Places.{AreAheadsOf, AreSameFor};
ghost use Rattle.board.specs.Stops.{AreBefore};
ghost use Rattle.hour_work.specs.Points.{FitPoint, IsCarryAt, IsFutureAt};
ghost use Rattle.hour_work.specs.Moved.{SaySame};

use arrival_measures::ArrivalCarry;
use board::{Aheads, Pasts};
use other_measures::OtherCarry;
use ring_config::Config;
use service_cut::{Closing, CutCarry};
use sig_base::{NoMemory, Tenth};
use split_measures::SplitCarry;
use std::alloc::Global;
use std::marker::Model;

/// What the hours before an hour point say: the states in which each channel may be there, whether
/// the tenth before the point is known, and what is under way of each measure.
#[derive(Drop)]
pub struct Carry {
    pub(crate) pasts: Pasts,
    pub(crate) known: bool,
    pub(crate) cuts: CutCarry,
    pub(crate) closing: Closing,
    pub(crate) splits: SplitCarry,
    pub(crate) others: OtherCarry,
    pub(crate) arrivals: ArrivalCarry,
}

impl Model for Carry {
    ghost use Rattle.hour_work.specs.Points.{Carried};

    ghost Value = { Carried };

    ghost view = { λ c. record {
      pasts = c.pasts;
      known = c.known;
      cuts = c.cuts;
      closing = c.closing;
      splits = c.splits;
      others = c.others;
      arrivals = c.arrivals;
    } };
}

impl Carry {
    /// At the window's start: any state, entered before it, no known tenth before it, and nothing
    /// under way.
    pub fn start(alloc: Global, config: &Config) -> Result<Carry, NoMemory>
        ensures fit { IfOk result (FitPoint config.now 0) }
        ensures carry { IfOk result (λ c. (s : Store) → IsCarryAt config.now s 0 c) }
    {
        let pasts = Pasts::start(alloc, config.specs())?;
        let cuts = CutCarry::start(alloc, config.phases())?;
        let closing = Closing::start(alloc);
        let splits = SplitCarry::start(alloc, config)?;
        let others = OtherCarry::start(alloc, config)?;
        let arrivals = ArrivalCarry::start(alloc, config)?;
        Ok(Carry {
            pasts,
            known: false,
            cuts,
            closing,
            splits,
            others,
            arrivals,
        })
    }

    /// Room for what is kept at a point of which nothing is known yet: no channel and no phase.
    pub fn nothing(alloc: Global, config: &Config) -> Result<Carry, NoMemory>
        ensures pasts { IfOk result (λ c. c.pasts ≡ []) }
    {
        let channels = Vec::new(alloc);
        let phases = Vec::new(alloc);
        let pasts = Pasts::start(alloc, &channels)?;
        let cuts = CutCarry::start(alloc, &phases)?;
        let closing = Closing::start(alloc);
        let splits = SplitCarry::start(alloc, config)?;
        let others = OtherCarry::start(alloc, config)?;
        let arrivals = ArrivalCarry::nothing(alloc);
        Ok(Carry {
            pasts,
            known: false,
            cuts,
            closing,
            splits,
            others,
            arrivals,
        })
    }

    /// An equal value.
    pub fn copy(&self, alloc: Global) -> Result<Carry, NoMemory>
        ensures { IfOk result (λ c. c ≡ self.now) }
    {
        Ok(Carry {
            pasts: self.pasts.copy()?,
            known: self.known,
            cuts: self.cuts.copy()?,
            closing: self.closing.copy(alloc)?,
            splits: self.splits.copy()?,
            others: self.others.copy()?,
            arrivals: self.arrivals.copy()?,
        })
    }

    /// The states in which each channel may be, in the order of the specs.
    pub fn pasts(&self) -> &Pasts
        ensures { result.now ≡ self.now.pasts }
    {
        &self.pasts
    }

    /// Whether both say the same.
    pub fn same(&self, other: &Carry) -> bool
        ensures value { IsTrue result ↔ (self.now ≡ other.now) }
        ensures says { IsTrue result ↔ SaySame self.now other.now }
    {
        if !self.pasts.same(&other.pasts) {
            return false;
        }
        self.same_under_way(other)
    }

    // Whether both say the same of all but the states.
    fn same_under_way(&self, other: &Carry) -> bool
        ensures { IsTrue result ↔ ((self.now.known ≡ other.now.known)
            × (self.now.cuts ≡ other.now.cuts) × (self.now.closing ≡ other.now.closing)
            × (self.now.splits ≡ other.now.splits) × (self.now.others ≡ other.now.others)
            × (self.now.arrivals ≡ other.now.arrivals)) }
    {
        self.known == other.known
            && self.cuts.same(&other.cuts)
            && self.closing.same(&other.closing)
            && self.splits.same(&other.splits)
            && self.others.same(&other.others)
            && self.arrivals.same(&other.arrivals)
    }
}

/// What the hours after an hour point allow: the states of each channel from which the rest of the
/// window can be met.
#[derive(Drop)]
pub struct Future {
    pub(crate) aheads: Aheads,
}

impl Model for Future {
    ghost use Rattle.std.specs.Prelude.{List, Option, ℤ};

    ghost Value = { List (List (Option ℤ)) };

    ghost view = { λ f. f.aheads };
}

/// What is kept at the points before and after an hour.
#[derive(Drop)]
pub struct Between<'a> {
    pub before: &'a Carry,
    pub after: &'a Future,
}

impl Future {
    /// At the window's end: any state.
    pub fn end(alloc: Global, config: &Config) -> Result<Future, NoMemory>
        ensures fit { IfOk result (AreAheadsOf config.now.specs) }
        ensures future { IfOk result (λ f. (s : Store) → length s.hours ≡ config.now.window.hours
            → IsFutureAt config.now s (length s.hours) f) }
    {
        let point = 36_000 * i64::from(config.window().hours());
        let aheads = Aheads::end(alloc, config.specs(), point)?;
        Ok(Future { aheads })
    }

    /// Whether of each channel both admit the same of the states that the carry has, and of those of
    /// their colours that were entered earlier. It answers yes only where of each channel both admit
    /// the same states at all, or one state alone is possible and both admit it.
    pub fn same_for(&self, carry: &Carry, other: &Future) -> bool
        requires shape { (specs : List Spec) × AreBefore specs carry.now.pasts
            × AreAheadsOf specs self.now × AreAheadsOf specs other.now }
        ensures { IsTrue result → AreSameFor carry.now.pasts self.now other.now }
    {
        self.aheads.same_for(&carry.pasts, &other.aheads)
    }

    /// Whether both admit the same states.
    pub fn same(&self, other: &Future) -> bool
        ensures { IsTrue result ↔ (self.now ≡ other.now) }
    {
        self.aheads.same(&other.aheads)
    }
}
