// What the definitions alone say. Each law is the contract of a function that does nothing.
ghost use Rattle.std.specs.Prelude.{◌≡◌, ◌↔◌, ◌+◌, ◌++◌, ◌<◌, ◌≤◌, ℕ, true, false, All, List, [], length};
ghost use Rattle.std.specs.List.{filter};
ghost use Rattle.board.specs.Logs.{first_tenth};
ghost use Rattle.hour_store.specs.Store.{IsStore, Store, is_known, known_rows};
ghost use Rattle.ring_config.specs.Settings.{Settings};
ghost use Rattle.ring_config.specs.Sound.{IsSound};
ghost use Rattle.signal_log.specs.Log.{HasHistory, log_of};
ghost use Rattle.rule_audit.specs.declared.lines.AuditLine.{AuditLine};
ghost use Rattle.hour_sweep.specs.Hours.{AreOrdered};
ghost use Rattle.arrival_measures.specs.Judged.{AllPass, NonePass, is_green};
ghost use Rattle.arrival_measures.specs.Hours.{HaveCycles};
ghost use Rattle.arrival_measures.specs.Points.{diagrams_of, points_from};
ghost use Rattle.service_cut.specs.Cut.{cycle_is_in, cycles_from, service_is_in, services_from};
ghost use Rattle.split_measures.specs.Phases.{phase_sums};
ghost use Rattle.other_measures.specs.Hours.{AreNumbers, delays_from, events_from};
ghost use Rattle.hour_work.specs.Numbers.{Numbers, total_of};
ghost use Rattle.hour_work.specs.Rows.{earlier_rows, own_rows};
ghost use Rattle.hour_work.specs.Verdicts.{AreAuditLines};
ghost use Rattle.hour_work.specs.Measures.{CyclesShow, cycles_in, over_hours, services_in};
ghost use Rattle.hour_work.specs.Reports.{IsReport};
ghost use Rattle.hour_work.specs.Moved.{CarriesAreOne, CarryIsSame, FutureIsSame, FuturesAreOne};

/// Law: where some history agrees with a store, it has one report, and each hour has one list of
/// audit lines.
pub fn reports_are_one()
    ensures lines { (c : Settings) (s : Store) (hour : ℕ) (a b : List AuditLine)
        → HasHistory (log_of c.specs s) → AreAuditLines c s hour a → AreAuditLines c s hour b
        → a ≡ b }
    ensures report { (c : Settings) (s : Store) (a b : List Numbers) → HasHistory (log_of c.specs s)
        → IsReport c s a → IsReport c s b → a ≡ b }
{}

/// Law: the services, cycles, delays, entries, exits and arrivals of the hours, one hour after
/// another, are those of the whole log. Each service and each cycle is in the hour of its last row.
pub fn hours_make_up_the_log()
    ensures services { (c : Settings) (s : Store) → IsStore s
        → over_hours (services_in c s) (length s.hours)
        ≡ services_from (is_known s) c.phases [] (known_rows s) }
    ensures cycles { (c : Settings) (s : Store) → IsStore s
        → over_hours (cycles_in c s) (length s.hours) ≡ cycles_from (is_known s) c.phases []
        (known_rows s) }
    ensures delays { (c : Settings) (s : Store) → IsStore s
        → over_hours (λ hour. delays_from (is_known s) c (earlier_rows s hour) (own_rows s hour))
        (length s.hours) ≡ delays_from (is_known s) c [] (known_rows s) }
    ensures events { (c : Settings) (s : Store) → IsStore s
        → over_hours (λ hour. events_from (is_known s) c (earlier_rows s hour) (own_rows s hour))
        (length s.hours) ≡ events_from (is_known s) c [] (known_rows s) }
    ensures points { (c : Settings) (s : Store) (p : ℕ) → IsStore s
        → over_hours (λ hour. points_from (is_known s) c p (earlier_rows s hour) (own_rows s hour))
        (length s.hours) ≡ points_from (is_known s) c p [] (known_rows s) }
    ensures ordered { (s : Store) → IsStore s → AreOrdered 0 (first_tenth (length s.hours))
        (known_rows s) }
    ensures own_services { (c : Settings) (s : Store) (hour : ℕ) → IsStore s → hour < length s.hours
        → filter (service_is_in (first_tenth hour) (first_tenth (hour + 1)))
        (services_from (is_known s) c.phases [] (known_rows s)) ≡ services_in c s hour }
    ensures own_cycles { (c : Settings) (s : Store) (hour : ℕ) → IsStore s → hour < length s.hours
        → filter (cycle_is_in (first_tenth hour) (first_tenth (hour + 1)))
        (cycles_from (is_known s) c.phases [] (known_rows s)) ≡ cycles_in c s hour }
{}

/// Law: the sums over the hours of a report are the numbers of the whole log. For phases they are
/// those of all its services and cycles; for pedestrian signals, preempts and the coordination,
/// those of all its delays, entries, exits and rows; for approaches those of all whole cycles.
/// Tenths of states, and judged arrivals and actuations, are no part of this law.
pub fn totals_are_of_the_log()
    ensures splits { (c : Settings) (s : Store) (all : List Numbers) → IsStore s → IsReport c s all
        → (total_of all).splits ≡ phase_sums c.phases (services_from (is_known s) c.phases []
        (known_rows s)) (cycles_from (is_known s) c.phases [] (known_rows s)) }
    ensures others { (c : Settings) (s : Store) (all : List Numbers) → IsStore s → IsReport c s all
        → AreNumbers (is_known s) c [] (known_rows s) (total_of all).others }
    ensures arrivals { (c : Settings) (s : Store) (all : List Numbers) → IsStore s
        → IsReport c s all → HaveCycles (is_known s) c [] (known_rows s) (total_of all).arrivals }
{}

/// Law: in a whole cycle the rows alone say what its phase shows. At the end of each of its tenths
/// it is green by the rows exactly where it is green in all histories that agree with the store,
/// and not green by them exactly where it is green in none.
pub fn cycles_show_green()
    ensures green { CyclesShow true (AllPass is_green) }
    ensures not_green { CyclesShow false (NonePass is_green) }
{}

/// Law: where some history agrees with a store, no whole cycle of it has its last begin of green
/// after its last begin of yellow, since a phase that is yellow doesn't begin green.
pub fn green_before_yellow()
    ensures cycles { (c : Settings) (s : Store) → IsSound c → IsStore s
        → HasHistory (log_of c.specs s) → All (λ x. x.green
        ≤ x.yellow) (cycles_from (is_known s) c.phases [] (known_rows s)) }
    ensures diagrams { (c : Settings) (s : Store) (p : ℕ) → IsSound c → IsStore s
        → HasHistory (log_of c.specs s) → All (λ d. d.cycle.green ≤ d.cycle.yellow)
        (diagrams_of (is_known s) c p (known_rows s)) }
{}

/// Law: where two stores say the same up to an hour point of both windows, all values that say what
/// the one and what the other says are the same but for the ranges in which their states are
/// written; where both can be completed from the same states at a point, all values that admit
/// these are equal. And where one value says what both say, they say the same of each channel and
/// of all that is under way; where one admits what both can be completed from, these are the same
/// states.
pub fn points_are_one()
    ensures carries { CarriesAreOne }
    ensures futures { FuturesAreOne }
    ensures same_carry { CarryIsSame }
    ensures same_future { FutureIsSame }
{}
