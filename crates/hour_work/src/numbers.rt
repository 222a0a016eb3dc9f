// The numbers of one hour, or of several together.
ghost use Rattle.std.specs.Prelude.{◌≡◌, ◌↔◌, ◌≤◌, ◌+◌, ℕ, [], All, IsTrue, OnOk};
ghost use Rattle.hour_sweep.specs.Sums.{merged};
ghost use Rattle.hour_work.specs.Numbers.{FitHours, FitsCount, IsTotal, count_sum, numbers_sum};
ghost use Rattle.hour_work.specs.Counts.{HasKeptAlone};

use crate::RuleCount;
use arrival_measures::ArrivalSums;
use other_measures::OtherSums;
use sig_base::NoMemory;
use split_measures::SplitSums;
use std::alloc::Global;
use std::marker::Model;

/// The numbers of one hour, or the sums over all hours of the window.
#[derive(Drop)]
pub struct Partial {
    pub(crate) held_hours: u64,
    pub(crate) held_rows: u64,
    pub(crate) known_tenths: u64,
    pub(crate) rules: Vec<RuleCount>,
    pub(crate) splits: SplitSums,
    pub(crate) others: OtherSums,
    pub(crate) arrivals: ArrivalSums,
}

impl Model for Partial {
    ghost use Rattle.hour_work.specs.Numbers.{Numbers};

    ghost Value = { Numbers };

    ghost view = { λ p. record {
      held_hours = p.held_hours;
      held_rows = p.held_rows;
      known_tenths = p.known_tenths;
      rules = p.rules.items;
      splits = p.splits.phases;
      failures = p.splits.approaches;
      others = p.others;
      arrivals = p.arrivals;
    } };
}

impl Partial {
    /// The sums over no hours. Can't run out of memory.
    pub fn nothing(alloc: Global) -> Partial
        ensures sums { IsTotal [] result }
        ensures small { FitHours 1 result }
    {
        Partial {
            held_hours: 0,
            held_rows: 0,
            known_tenths: 0,
            rules: Vec::new(alloc),
            splits: SplitSums::new(alloc),
            others: OtherSums::new(alloc),
            arrivals: ArrivalSums::new(alloc),
        }
    }

    /// How many hours are held, those without rows among them.
    pub fn held_hours(&self) -> u64
        ensures { result ≡ self.now.held_hours }
    {
        self.held_hours
    }

    /// How many rows are held, those at blanked tenths among them.
    pub fn held_rows(&self) -> u64
        ensures { result ≡ self.now.held_rows }
    {
        self.held_rows
    }

    /// How many tenths are known.
    pub fn known_tenths(&self) -> u64
        ensures { result ≡ self.now.known_tenths }
    {
        self.known_tenths
    }

    /// How often each rule is kept, broken and undecided, the rule with number 1 first.
    pub fn rules(&self) -> &[RuleCount]
        ensures { result.now ≡ self.now.rules }
    {
        self.rules.as_slice()
    }

    /// The numbers of the phases' services and cycles, and of the services at the approaches' stop
    /// bars.
    pub fn splits(&self) -> &SplitSums
        ensures phases { result.now.phases ≡ self.now.splits }
        ensures approaches { result.now.approaches ≡ self.now.failures }
    {
        &self.splits
    }

    /// Whether no rule has a broken or undecided verdict.
    pub fn are_all_kept(&self) -> bool
        ensures { IsTrue result ↔ All HasKeptAlone self.now.rules }
    {
        for count in &self.rules {
            if !count.has_kept_alone() {
                return false;
            }
        }
        true
    }

    /// The numbers of the pedestrian signals, the preempts and the coordination.
    pub fn others(&self) -> &OtherSums
        ensures { result.now ≡ self.now.others }
    {
        &self.others
    }

    /// The numbers of the approaches' arrivals and actuations, in file order.
    pub fn arrivals(&self) -> &ArrivalSums
        ensures { result.now ≡ self.now.arrivals }
    {
        &self.arrivals
    }
}

// Adds the numbers of more hours, all of them at most 744.
pub(crate) fn add(total: &mut Partial, part: &Partial) -> Result<(), NoMemory>
    requires { (m n : ℕ) × FitHours m total.old × FitHours n part.now × (m + n ≤ 744) }
    ensures { OnOk result (total.new ≡ numbers_sum total.old part.now) }
{
    total.held_hours += part.held_hours;
    total.held_rows += part.held_rows;
    total.known_tenths += part.known_tenths;
    add_counts(&mut total.rules, part.rules.as_slice())?;
    total.splits.add(&part.splits)?;
    total.others.add(&part.others)?;
    total.arrivals.add(&part.arrivals)
}

// Adds rule by rule.
fn add_counts(total: &mut Vec<RuleCount>, more: &[RuleCount]) -> Result<(), NoMemory>
    requires { (m n : ℕ) × All (FitsCount m) total.old.items × All (FitsCount n) more.now
        × (m + n ≤ 744) }
    ensures { OnOk result (total.new.items ≡ merged count_sum total.old.items more.now) }
{
    for i in 0..more.len() {
        if i < total.len() {
            total[i] = count_sum(total[i], more[i]);
        } else {
            total.push(more[i])?;
        }
    }
    Ok(())
}

fn count_sum(a: RuleCount, b: RuleCount) -> RuleCount
    requires { (m n : ℕ) × FitsCount m a × FitsCount n b × (m + n ≤ 744) }
    ensures { result ≡ count_sum a b }
{
    RuleCount {
        kept: a.kept + b.kept,
        broken: a.broken + b.broken,
        undecided: a.undecided + b.undecided,
    }
}
