// What holds of the numbers of several hours. Each law is the contract of a function that does
// nothing.
ghost use Rattle.std.specs.Prelude.{◌≡◌, ◌++◌, ℕ, Bool, List, []};
ghost use Rattle.sig_base.specs.declared.values.Row.{Row};
ghost use Rattle.hour_sweep.specs.Hours.{AreOrdered};
ghost use Rattle.hour_sweep.specs.Sums.{capped};
ghost use Rattle.ring_config.specs.Settings.{Settings};
ghost use Rattle.other_measures.specs.declared.peds.Delay.{Delay};
ghost use Rattle.other_measures.specs.declared.preempts.PreemptEvent.{PreemptEvent};
ghost use Rattle.other_measures.specs.Sums.{delays_of, events_of, ped_added, ped_sum_of, preempt_added, preempt_sum_of};
ghost use Rattle.other_measures.specs.Hours.{delays_from, events_from};

/// The delays, entries and exits of two parts of a log, one after the other, are those of the
/// whole, wherever it is cut between two tenths.
pub fn hours_add_up()
    ensures delays { (known : ℕ → Bool) (c : Settings) (t b : ℕ) (before rows : List Row)
        → AreOrdered 0 t before → AreOrdered t b rows → delays_from known c [] (before ++ rows)
        ≡ delays_from known c [] before ++ delays_from known c before rows }
    ensures events { (known : ℕ → Bool) (c : Settings) (t b : ℕ) (before rows : List Row)
        → AreOrdered 0 t before → AreOrdered t b rows → events_from known c [] (before ++ rows)
        ≡ events_from known c [] before ++ events_from known c before rows }
{}

/// The numbers of two such parts add up to those of the whole.
pub fn numbers_add_up()
    ensures delays { (p : ℕ) (ds more : List Delay) → ped_sum_of (delays_of p (ds ++ more))
        ≡ ped_added (ped_sum_of (delays_of p ds)) (ped_sum_of (delays_of p more)) }
    ensures events { (p : ℕ) (es more : List PreemptEvent)
        → preempt_sum_of (events_of p (es ++ more)) ≡ preempt_added
        (preempt_sum_of (events_of p es)) (preempt_sum_of (events_of p more)) }
{}
