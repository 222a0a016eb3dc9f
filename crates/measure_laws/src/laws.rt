// What holds of sums of measures, and of cycles.
ghost use Rattle.std.specs.Prelude.{true, false};
ghost use Rattle.arrival_measures.specs.Judged.{AllPass, NonePass, is_green};
ghost use Rattle.measure_laws.specs.Green.{GreenNumbers, HourGreen, OpenCyclesShow, TotalGreen};
ghost use Rattle.measure_laws.specs.Plain.{PartsAreOne, SumsArePlain};
ghost use Rattle.measure_laws.specs.States.{StateTotals};
ghost use Rattle.measure_laws.specs.Sums.{ArrivalsAddUp, SplitsAddUp, SumsKeepAddingUp};
ghost use Rattle.measure_laws.specs.Totals.{ArrivalTotals, RuleTotals, SplitTotals};

/// Law: the numbers of each verdict at a stop bar add up to the services that count in the hour.
pub fn splits_add_up()
    ensures { SplitsAddUp }
{}

/// Law: where some history agrees with a store, the arrivals of each approach in an hour are those
/// on green, those that aren't, those that are undecided and those that are unseen.
pub fn arrivals_add_up()
    ensures { ArrivalsAddUp }
{}

/// Law: numbers of two parts that add up do so together, and the services of two parts are those
/// of both.
pub fn sums_keep_adding_up()
    ensures { SumsKeepAddingUp }
{}

/// Law: the totals of a report at stop bars are those of the whole log, approach by approach: each
/// service of the bar's phase whose red window is over by the window's end has the verdict that all
/// histories tell, and the others are open.
pub fn split_totals_are_of_the_log()
    ensures { SplitTotals }
{}

/// Law: the totals of a report of arrivals and actuations are those of the whole log, approach by
/// approach: all its arrivals, judged where their arrival tenths are known and unseen where they
/// aren't, all its actuations, and its fault rows.
pub fn arrival_totals_are_of_the_log()
    ensures { ArrivalTotals }
{}

/// Law: the totals of a report's tenths in states are those of the whole log: of all its known
/// tenths those at whose end each pedestrian detector, each preempt and the coordination is in the
/// state in all histories, and those at whose end it is in no one state in all of them.
pub fn state_totals_are_of_the_log()
    ensures { StateTotals }
{}

/// Law: where some history agrees with a store, the totals of a report's rules are the counts of
/// the audit lines of all its hours, one hour after another.
pub fn rule_totals_are_of_the_log()
    ensures { RuleTotals }
{}

/// Law: of a store that has all hours of its window each hour of a report has the numbers of that
/// hour, and the totals are those of the whole window, in the same words: which hours and rows are
/// held, which tenths are known, the counts of the rules by the audit lines, and of the measures
/// what is counted itself, with its sums, its least and its greatest: of services and cycles of
/// phases, delays of pedestrian signals, entries and exits of preempts, rows of the coordination,
/// tenths in states, verdicts at stop bars, and arrivals, actuations and whole cycles of
/// approaches. No sum stands still at the last value of a u64.
pub fn sums_are_plain()
    ensures { SumsArePlain }
{}

/// Law: where some history agrees with a store, a part of its log has one value of its numbers.
pub fn parts_are_one()
    ensures { PartsAreOne }
{}

/// Law: of a cycle that has begun before an hour point and isn't over there, the rows before the
/// point alone say what its phase shows, also those of them that tell of green with the arrivals at
/// their arrival tenths. At the end of each of its tenths before the point it is green by them
/// exactly where it is green in all histories that agree with the store, and not green by them
/// exactly where it is green in none.
pub fn open_cycles_show_green()
    ensures green { OpenCyclesShow true (AllPass is_green) }
    ensures not_green { OpenCyclesShow false (NonePass is_green) }
{}

/// Law: the green of whole cycles is counted as all histories that agree with a store tell it. The
/// green tenths of a cycle are those at whose end its phase is green in all of them, and its green
/// arrivals, at their rows' tenths or at their arrival tenths, are those in such tenths. What a
/// report says of cycles, in its hours and in its totals, are the sums of these.
pub fn green_is_of_all_histories()
    ensures cycles { GreenNumbers }
    ensures hours { HourGreen }
    ensures totals { TotalGreen }
{}
