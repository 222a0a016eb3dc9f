// What rows of pedestrian signals and of preempts end, and what is under way of them.
ghost use Rattle.std.specs.Prelude.{◌≡◌, ◌↔◌, ◌++◌, ◌∷◌, ℕ, Bool, false, List, MatchOption};
ghost use Rattle.sig_base.specs.declared.values.Row.{Row};
ghost use Rattle.hour_sweep.specs.Hours.{AreOrdered};
ghost use Rattle.other_measures.specs.declared.peds.PedPart.{PedPart};
ghost use Rattle.other_measures.specs.declared.preempts.PreemptPart.{PreemptPart};
ghost use Rattle.other_measures.specs.Peds.{delay_at, ped_of};
ghost use Rattle.other_measures.specs.Preempts.{event_at, preempt_of};
ghost use Rattle.other_measures.specs.Sums.{delay_in, dwell_in, is_entry_event, is_late_entry, is_late_exit, is_not_begun, is_partial, ran};
ghost use Rattle.delay_laws.specs.Standing.{says};
ghost use Rattle.delay_laws.specs.Delays.{IsDelay, IsPed};
ghost use Rattle.delay_laws.specs.Events.{IsEvent, IsPreempt, is_service};

/// Law: among ordered rows exactly the begins of walk of a pedestrian signal end a wait. It has run
/// since the first call after the last begin of walk, where each tenth since that one is known; it
/// is uncalled where no call has come since; and it is partial where there is no begin of walk before
/// since which each tenth is known. What is under way at a tenth is such a begin of walk with the
/// first call after it.
pub fn delays_are_whole()
    ensures delays { (known : ℕ → Bool) (p a b : ℕ) (before : List Row) (r : Row) (rest : List Row)
        → AreOrdered a b (before ++ r ∷ rest)
        → MatchOption (delay_at known p before r rest) (says p 21 r ≡ false)
        (λ d. IsDelay known p before r d.ped (ran d.wait) (is_not_begun d.wait) (is_partial d.wait)) }
    ensures peds { (known : ℕ → Bool) (p a b t : ℕ) (before : List Row) (part : PedPart)
        → AreOrdered a b before → (ped_of known t before p ≡ part) ↔ IsPed known t before p part }
{}

/// Law: among ordered rows exactly the entries and the exits of a preempt are its events. The delay of
/// an entry has run since the input was last turned on, where no entry has come since then and each
/// tenth since is known; else it isn't known. The dwell of an exit has run since the first begin of
/// dwell after the last entry or exit, where each tenth since that one is known; there is none where
/// no dwell has begun since; and it is partial where there is no entry or exit before since which
/// each tenth is known. What is under way at a tenth is such a call, and such an entry or exit with
/// the first begin of dwell after it.
pub fn events_are_whole()
    ensures events { (known : ℕ → Bool) (p a b : ℕ) (before : List Row) (r : Row) (rest : List Row)
        → AreOrdered a b (before ++ r ∷ rest)
        → MatchOption (event_at known p before r rest) (is_service p r ≡ false)
        (λ e. IsEvent known p before r e.preempt (is_entry_event e.event) (delay_in e.event)
        (is_late_entry e.event) (dwell_in e.event) (is_late_exit e.event)) }
    ensures preempts { (known : ℕ → Bool) (p a b t : ℕ) (before : List Row) (part : PreemptPart)
        → AreOrdered a b before
        → (preempt_of known t before p ≡ part) ↔ IsPreempt known t before p part }
{}
