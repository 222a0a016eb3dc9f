// What holds of the numbers of several hours.
ghost use Rattle.std.specs.Prelude.{◌≡◌, ◌++◌, ℕ, List};
ghost use Rattle.service_cut.specs.declared.items.Service.{Service};
ghost use Rattle.service_cut.specs.declared.items.Cycle.{Cycle};
ghost use Rattle.split_measures.specs.Hours.{SplitSumsAreOne};
ghost use Rattle.split_measures.specs.Phases.{added, phase_sum};
ghost use Rattle.split_measures.specs.Verdicts.{NumbersTell, VerdictsTell};

/// The numbers of two parts of a log, one after the other, add up to those of the whole.
pub fn numbers_add_up()
    ensures { (p : ℕ) (ss later_ss : List Service) (cs later_cs : List Cycle)
        → phase_sum (ss ++ later_ss) (cs ++ later_cs) p
        ≡ added (phase_sum ss cs p) (phase_sum later_ss later_cs p) }
{}

/// Law: the four numbers of a service's windows tell whether it fails in all histories that agree,
/// in none, or only in some.
pub fn numbers_tell()
    ensures { NumbersTell }
{}

/// Law: the verdicts of services by their windows are what all histories that agree tell.
pub fn verdicts_tell()
    ensures { VerdictsTell }
{}

/// Law: the sums of the approaches in an hour are one list.
pub fn split_sums_are_one()
    ensures { SplitSumsAreOne }
{}
