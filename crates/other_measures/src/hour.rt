// The numbers of an hour.
ghost use Rattle.std.specs.Prelude.{◌≡◌, ◌+◌, ◌++◌, ℕ, Bool, true, List, Option, length, option_copied, IfOk, IfSome, OnOk, OnErr};
ghost use Rattle.sig_base.specs.declared.values.Row.{Row};
ghost use Rattle.sig_base.specs.Numbers.{has_number};
ghost use Rattle.hour_sweep.specs.Rows.{known_rows};
ghost use Rattle.hour_sweep.specs.Hours.{IsHour};
ghost use Rattle.board.specs.Logs.{HourLog, first_tenth};
ghost use Rattle.ring_config.specs.Settings.{Settings};
ghost use Rattle.other_measures.specs.Crossing.{IsCarry};
ghost use Rattle.other_measures.specs.Hours.{AreNumbers, AreStates, HasDelays, HasEvents, HasRows, delays_from, events_from, no_numbers, others_added, with_detector, with_states};
ghost use Rattle.other_measures.specs.States.{EachOf, HasDetector, HasStates, IsSeen, IsWhatIsSeen, MetBy};
ghost use Rattle.detector_state.specs.States.{MeetsAt};

use crate::carry::OtherCarry;
use crate::coordination_sums::{coordination_of, no_coordination};
use crate::ped_sums::ped_table;
use crate::peds::Delay;
use crate::preempt_sums::preempt_table;
use crate::preempts::PreemptEvent;
use crate::states::{Seen, tenths};
use crate::sums::{CoordSum, PedSum, PreemptSum};
use board::HourView;
use detector_state::Asked;
use event_codes::{Channel, Kind};
use gap_map::{Stretch, first_of};
use hour_sweep::{Both, Sum, add_each, sweep_both, tracked_of};
use ring_config::Config;
use sig_base::{NoMemory, Row, has_number};
use std::alloc::Global;
use std::marker::Model;

/// The numbers of an hour.
#[derive(Drop)]
pub struct OtherSums {
    peds: Vec<PedSum>,
    preempts: Vec<PreemptSum>,
    coordination: CoordSum,
}

impl Model for OtherSums {
    ghost use Rattle.other_measures.specs.Hours.{OtherNumbers};

    ghost Value = { OtherNumbers };

    ghost view = { λ s. record {
      peds = s.peds.items;
      preempts = s.preempts.items;
      coordination = s.coordination;
    } };
}

impl OtherSums {
    /// The numbers of nothing. Can't run out of memory.
    pub fn new(alloc: Global) -> OtherSums
        ensures { result ≡ no_numbers }
    {
        OtherSums {
            peds: Vec::new(alloc),
            preempts: Vec::new(alloc),
            coordination: no_coordination(),
        }
    }

    /// Adds the numbers of each pedestrian signal and each preempt to its own, and those of the
    /// coordination. Where memory ran out some of them may have been added.
    pub fn add(&mut self, more: &OtherSums) -> Result<(), NoMemory>
        ensures { OnOk result (self.new ≡ others_added self.old more.now) }
    {
        add_each(&mut self.peds, &more.peds)?;
        add_each(&mut self.preempts, &more.preempts)?;
        self.coordination = self.coordination.sum(&more.coordination);
        Ok(())
    }

    /// One entry for each pedestrian signal, by number.
    pub fn peds(&self) -> &[PedSum]
        ensures { result.now ≡ self.now.peds }
    {
        self.peds.as_slice()
    }

    /// One entry for each preempt, by number.
    pub fn preempts(&self) -> &[PreemptSum]
        ensures { result.now ≡ self.now.preempts }
    {
        self.preempts.as_slice()
    }

    /// All 0 where the coordination isn't on.
    pub fn coordination(&self) -> &CoordSum
        ensures { result.now ≡ self.now.coordination }
    {
        &self.coordination
    }
}

// The numbers of a pedestrian signal, from those of its delays.
fn ped_sum(config: &Config, seen: Option<&Seen<'_>>, ped: u8, delays: &PedSum) -> PedSum
    requires view { IfSome seen (λ s. length s.now.view.now.specs ≡ length config.now.specs) }
    requires ped { has_number config.now.peds ped ≡ true }
    ensures delays { result ≡ with_detector delays.now result.detector_on
        result.detector_undecided }
    ensures detector { (log : Option HourLog) (first : ℕ)
        → IsWhatIsSeen config.now (option_copied seen.entry) log first
        → HasDetector (MetBy log) first config.now ped result }
{
    let detector = Channel {
        kind: Kind::PedDetector,
        number: ped,
    };
    PedSum {
        detector_on: tenths(config, seen, detector, Asked::Colour(1)),
        detector_undecided: tenths(config, seen, detector, Asked::NoneOf(2)),
        ..*delays
    }
}

// The numbers of a preempt, from those of its entries and exits.
fn preempt_sum(
    config: &Config,
    seen: Option<&Seen<'_>>,
    preempt: u8,
    events: &PreemptSum,
) -> PreemptSum
    requires view { IfSome seen (λ s. length s.now.view.now.specs ≡ length config.now.specs) }
    requires preempt { has_number config.now.preempts preempt ≡ true }
    ensures events { result ≡ with_states events.now result }
    ensures states { (log : Option HourLog) (first : ℕ)
        → IsWhatIsSeen config.now (option_copied seen.entry) log first
        → HasStates (MetBy log) first config.now preempt result }
{
    let input = Channel {
        kind: Kind::PreemptInput,
        number: preempt,
    };
    let service = Channel {
        kind: Kind::PreemptService,
        number: preempt,
    };
    PreemptSum {
        input_on: tenths(config, seen, input, Asked::Colour(1)),
        input_undecided: tenths(config, seen, input, Asked::NoneOf(2)),
        rest: tenths(config, seen, service, Asked::Colour(0)),
        entry: tenths(config, seen, service, Asked::Colour(1)),
        track: tenths(config, seen, service, Asked::Colour(2)),
        dwell: tenths(config, seen, service, Asked::Colour(3)),
        undecided: tenths(config, seen, service, Asked::NoneOf(4)),
        ..*events
    }
}

fn ped_sums(
    alloc: Global,
    config: &Config,
    seen: Option<&Seen<'_>>,
    delays: &[Delay],
) -> Result<Vec<PedSum>, NoMemory>
    requires view { IfSome seen (λ s. length s.now.view.now.specs ≡ length config.now.specs) }
    ensures delays { IfOk result (λ v. EachOf (has_number config.now.peds) (HasDelays delays.now) 17
        v.items) }
    ensures detector { IfOk result (λ v. (log : Option HourLog) (first : ℕ)
        → IsWhatIsSeen config.now (option_copied seen.entry) log first
        → EachOf (has_number config.now.peds) (HasDetector (MetBy log) first config.now) 17
        v.items) }
{
    let table = ped_table(delays);
    let mut sums = Vec::new(alloc);
    for ped in 0..17u8 {
        if has_number(config.peds(), ped) {
            sums.push(ped_sum(config, seen, ped, &table[usize::from(ped)]))?;
        }
    }
    Ok(sums)
}

fn preempt_sums(
    alloc: Global,
    config: &Config,
    seen: Option<&Seen<'_>>,
    events: &[PreemptEvent],
) -> Result<Vec<PreemptSum>, NoMemory>
    requires view { IfSome seen (λ s. length s.now.view.now.specs ≡ length config.now.specs) }
    ensures events { IfOk result (λ v. EachOf (has_number config.now.preempts)
        (HasEvents events.now) 17 v.items) }
    ensures states { IfOk result (λ v. (log : Option HourLog) (first : ℕ)
        → IsWhatIsSeen config.now (option_copied seen.entry) log first
        → EachOf (has_number config.now.preempts) (HasStates (MetBy log) first config.now) 17
        v.items) }
{
    let table = preempt_table(events);
    let mut sums = Vec::new(alloc);
    for preempt in 0..17u8 {
        if has_number(config.preempts(), preempt) {
            sums.push(preempt_sum(config, seen, preempt, &table[usize::from(preempt)]))?;
        }
    }
    Ok(sums)
}

// What crosses the point after an hour, the delays, entries and exits that end in it, and the
// numbers of the coordination's rows.
#[derive(Drop)]
struct Tracked {
    carry: OtherCarry,
    delays: Vec<Delay>,
    events: Vec<PreemptEvent>,
    counted: CoordSum,
}

// By whatever configuration the carry was kept.
fn track_others(
    alloc: Global,
    carry: &OtherCarry,
    rows: &[Row],
    stretches: &[Stretch],
) -> Result<Tracked, NoMemory>
    ensures carry { IfOk result (λ t. (known : ℕ → Bool) (c : Settings) (before : List Row)
        (hour : ℕ) → IsHour known hour rows.now stretches.now
        → IsCarry known c before hour carry.now
        → IsCarry known c (before ++ known_rows known rows.now) (hour + 1) t.carry) }
    ensures delays { IfOk result (λ t. (known : ℕ → Bool) (c : Settings) (before : List Row)
        (hour : ℕ) → IsHour known hour rows.now stretches.now
        → IsCarry known c before hour carry.now
        → t.delays.items ≡ delays_from known c before (known_rows known rows.now)) }
    ensures events { IfOk result (λ t. (known : ℕ → Bool) (c : Settings) (before : List Row)
        (hour : ℕ) → IsHour known hour rows.now stretches.now
        → IsCarry known c before hour carry.now
        → t.events.items ≡ events_from known c before (known_rows known rows.now)) }
    ensures counted { IfOk result (λ t. (known : ℕ → Bool) (hour : ℕ)
        → IsHour known hour rows.now stretches.now
        → HasRows (known_rows known rows.now) t.counted) }
{
    let peds = tracked_of(alloc, &carry.peds)?;
    let preempts = tracked_of(alloc, &carry.preempts)?;
    let both = Both::of(peds, preempts);
    let (both, counted) = sweep_both(both, no_coordination(), rows, stretches)?;
    let (peds, preempts) = both.into_parts();
    let (peds, delays) = peds.into_parts();
    let (preempts, events) = preempts.into_parts();
    Ok(Tracked {
        carry: OtherCarry {
            peds,
            preempts,
            alloc,
        },
        delays,
        events,
        counted,
    })
}

// The hour's numbers, by what is seen of it if there is that, and in `carry` what crosses the point
// after it in place of what crosses the point before it.
fn over_hour(
    alloc: Global,
    config: &Config,
    carry: &mut OtherCarry,
    seen: Option<&Seen<'_>>,
    rows: &[Row],
    stretches: &[Stretch],
) -> Result<OtherSums, NoMemory>
    requires view { IfSome seen (λ s. length s.now.view.now.specs ≡ length config.now.specs) }
    ensures numbers { IfOk result (λ sums. (known : ℕ → Bool) (before : List Row) (hour : ℕ)
        → IsHour known hour rows.now stretches.now → IsCarry known config.now before hour carry.old
        → AreNumbers known config.now before (known_rows known rows.now) sums) }
    ensures states { IfOk result (λ sums. (log : Option HourLog) (first : ℕ)
        → IsWhatIsSeen config.now (option_copied seen.entry) log first
        → AreStates (MetBy log) first config.now sums) }
    ensures carry { IfOk result (λ _. (known : ℕ → Bool) (before : List Row) (hour : ℕ)
        → IsHour known hour rows.now stretches.now → IsCarry known config.now before hour carry.old
        → IsCarry known config.now (before ++ known_rows known rows.now) (hour + 1) carry.new) }
    ensures err { OnErr result (carry.new ≡ carry.old) }
{
    let tracked = track_others(alloc, carry, rows, stretches)?;
    let Tracked {
        carry: next,
        delays,
        events,
        counted,
    } = tracked;
    let peds = ped_sums(alloc, config, seen, &delays)?;
    let preempts = preempt_sums(alloc, config, seen, &events)?;
    let coordination = coordination_of(config, seen, counted);
    *carry = next;
    Ok(OtherSums {
        peds,
        preempts,
        coordination,
    })
}

/// The hour's numbers, and in `carry` what crosses the point after it in place of what crosses the
/// point before it. The view is one of the hour, with the configuration's channels.
pub fn others_hour(
    alloc: Global,
    config: &Config,
    carry: &mut OtherCarry,
    view: &HourView,
    rows: &[Row],
    stretches: &[Stretch],
) -> Result<OtherSums, NoMemory>
    requires view { length view.now.specs ≡ length config.now.specs }
    ensures numbers { IfOk result (λ sums. (known : ℕ → Bool) (before : List Row) (hour : ℕ)
        → IsHour known hour rows.now stretches.now → IsCarry known config.now before hour carry.old
        → AreNumbers known config.now before (known_rows known rows.now) sums) }
    ensures states { IfOk result (λ sums. (log : HourLog)
        → IsSeen config.now view.now rows.now stretches.now log
        → AreStates (MeetsAt log) (first_tenth log.hour) config.now sums) }
    ensures carry { IfOk result (λ _. (known : ℕ → Bool) (before : List Row) (hour : ℕ)
        → IsHour known hour rows.now stretches.now → IsCarry known config.now before hour carry.old
        → IsCarry known config.now (before ++ known_rows known rows.now) (hour + 1) carry.new) }
    ensures err { OnErr result (carry.new ≡ carry.old) }
{
    let seen = Seen {
        view,
        from: first_of(stretches),
    };
    over_hour(alloc, config, carry, Some(&seen), rows, stretches)
}

/// The same without a view: of no channel a tenth of a state is seen.
pub fn others_unseen(
    alloc: Global,
    config: &Config,
    carry: &mut OtherCarry,
    rows: &[Row],
    stretches: &[Stretch],
) -> Result<OtherSums, NoMemory>
    ensures numbers { IfOk result (λ sums. (known : ℕ → Bool) (before : List Row) (hour : ℕ)
        → IsHour known hour rows.now stretches.now → IsCarry known config.now before hour carry.old
        → AreNumbers known config.now before (known_rows known rows.now) sums) }
    ensures states { IfOk result (λ sums. (from : ℕ)
        → AreStates (λ _ _ _. ⊥) from config.now sums) }
    ensures carry { IfOk result (λ _. (known : ℕ → Bool) (before : List Row) (hour : ℕ)
        → IsHour known hour rows.now stretches.now → IsCarry known config.now before hour carry.old
        → IsCarry known config.now (before ++ known_rows known rows.now) (hour + 1) carry.new) }
    ensures err { OnErr result (carry.new ≡ carry.old) }
{
    over_hour(alloc, config, carry, None, rows, stretches)
}
