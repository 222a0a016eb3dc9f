// Laws: functions that do nothing, whose contracts say what holds of every log.
ghost use Rattle.signal_log.specs.Laws.{AheadsStay, AlikeMeetSame, AllCount, ChannelsCombine, ContradictionIsOne, ContradictionMeansNone, ContradictionStays, EndAtLast, HoursTell, LessAgrees, NothingContradicts, PastsStay, SameCount, StartAtFirst, StatesMeanHistory};

/// Law: the states with which a window starts are those at its first point, and those with which it
/// may end are those at its last.
pub fn points_at_both_ends()
    ensures first { StartAtFirst }
    ensures last { EndAtLast }
{}

/// Law: the states at a point depend on the hours before it alone, and which states can be completed
/// from there on the hours after it alone. The row at which a log contradicts itself depends on the
/// hours up to that row alone.
pub fn points_see_one_side()
    ensures before { PastsStay }
    ensures after { AheadsStay }
    ensures row { ContradictionStays }
{}

/// Law: where each channel has a state at the window's end, some history agrees with the log. Where
/// the log contradicts itself, none agrees, and it does so at one row.
pub fn some_history_agrees()
    ensures history { StatesMeanHistory }
    ensures none { ContradictionMeansNone }
    ensures one { ContradictionIsOne }
{}

/// Law: some history agrees with the log of a window of which nothing is held.
pub fn nothing_contradicts()
    ensures { NothingContradicts }
{}

/// Law: where some history agrees with a log, one agrees with less of it: hours withdrawn, tenths
/// blanked.
pub fn less_is_known()
    ensures { LessAgrees }
{}

/// Law: legality is one channel at a time, so the channels' states at the end of a tenth are all
/// combinations of those that each may have.
pub fn channels_combine()
    ensures { ChannelsCombine }
{}

/// Law: states that are alike have one colour, and their ages meet the same bounds, where no bound is
/// more than an hour.
pub fn alike_meet_same()
    ensures { AlikeMeetSame }
{}

/// Law: what the view of one hour says of its known places, and of whether there is a history, is
/// what the histories of the whole window say.
pub fn hours_tell()
    ensures { HoursTell }
{}

/// Law: of the states from which the rest of the window can be met, only those count that come up.
pub fn only_what_comes_up_counts()
    ensures all { AllCount }
    ensures same { SameCount }
{}
