// What the definitions say of whole logs. Each law is the contract of a function that does nothing.
ghost use Rattle.std.specs.Prelude.{◌≡◌, ◌↔◌, ◌+◌, ◌≤◌, ◌++◌, ℕ, Bool, true, Some, All, List, [], map};
ghost use Rattle.sig_base.specs.declared.values.Row.{Row};
ghost use Rattle.sig_base.specs.declared.values.PhaseItem.{PhaseItem};
ghost use Rattle.hour_sweep.specs.Hours.{AreOrdered};
ghost use Rattle.service_cut.specs.declared.items.Service.{Service};
ghost use Rattle.service_cut.specs.declared.items.Cycle.{Cycle};
ghost use Rattle.service_cut.specs.Services.{service_at};
ghost use Rattle.service_cut.specs.Cycles.{cycle_at};
ghost use Rattle.service_cut.specs.Whole.{IsService, IsCycle, CycleFits};
ghost use Rattle.service_cut.specs.Cut.{AreHourParts, services_from, served_from, closing_at, cycles_from, service_is_in, cycle_is_in, service_tenths, served_tenths};

/// A row ends exactly the whole services: four rows of the phase, each the first of its kind, no
/// begin of green between, every tenth between known.
pub fn services_are_whole()
    ensures { (known : ℕ → Bool) (p : ℕ) (before : List Row) (r : Row) (later : List Row)
        (s : Service) → known r.at ≡ true → (service_at known p before r later ≡ Some s)
        ↔ IsService known p before r later s }
{}

/// The rows that are listed are those of the whole services, in their order: each service has the
/// phase and the tenths of its rows.
pub fn served_are_services()
    ensures { (known : ℕ → Bool) (phases : List PhaseItem) (before rows : List Row)
        → map served_tenths (served_from known phases before rows)
        ≡ map service_tenths (services_from known phases before rows) }
{}

/// A row ends exactly the whole cycles: two ends of yellow with none between, every tenth between
/// known.
pub fn cycles_are_whole()
    ensures { (known : ℕ → Bool) (p a b : ℕ) (before : List Row) (r : Row) (c : Cycle)
        → AreOrdered a b before → All (λ z. known z.at ≡ true) before → known r.at ≡ true
        → (cycle_at known p before r ≡ Some c) ↔ IsCycle known p before r c }
{}

/// The cycles that end among ordered rows, where the first rows stand before them: none ends before
/// it begins, and the offsets of green and of yellow are at most its length.
pub fn cycles_fit()
    ensures { (known : ℕ → Bool) (phases : List PhaseItem) (a b : ℕ) (before rows : List Row)
        → AreOrdered a b (before ++ rows) → All CycleFits (cycles_from known phases before rows) }
{}

/// The lists of two parts of a log, one after the other, are those of the whole, wherever it is
/// cut between two tenths.
pub fn hours_add_up()
    ensures services { (known : ℕ → Bool) (phases : List PhaseItem) (t b : ℕ)
        (before rows : List Row) → AreOrdered 0 t before → AreOrdered t b rows
        → services_from known phases [] (before ++ rows) ≡ services_from known phases [] before
        ++ services_from known phases before rows }
    ensures served { (known : ℕ → Bool) (phases : List PhaseItem) (t b : ℕ) (before rows : List Row)
        → AreOrdered 0 t before → AreOrdered t b rows → served_from known phases [] (before ++ rows)
        ≡ served_from known phases [] before ++ served_from known phases before rows }
    ensures cycles { (known : ℕ → Bool) (phases : List PhaseItem) (t b : ℕ) (before rows : List Row)
        → AreOrdered 0 t before → AreOrdered t b rows → cycles_from known phases [] (before ++ rows)
        ≡ cycles_from known phases [] before ++ cycles_from known phases before rows }
{}

/// Where the later part is at least 50 tenths long, those whose red window isn't over at its end
/// end in it.
pub fn closing_is_of_the_hour()
    ensures { (known : ℕ → Bool) (phases : List PhaseItem) (t b : ℕ) (before rows : List Row)
        → t + 50 ≤ b → AreOrdered 0 t before → AreOrdered t b rows
        → closing_at b (served_from known phases [] (before ++ rows))
        ≡ closing_at b (served_from known phases before rows) }
{}

/// Of all services and cycles of a log, those whose last row is in an hour are the hour's part.
pub fn hours_count()
    ensures services { AreHourParts services_from service_is_in }
    ensures cycles { AreHourParts cycles_from cycle_is_in }
{}
