// What lost rows can do to a broken line: what it means that none explain it, and which do.
ghost use Rattle.lost_laws.specs.Agreeing.{NoneLostAgrees};
ghost use Rattle.lost_laws.specs.Channels.{ChannelIsEnough, ClauseIsOfChannels, IntervalIsOfChannel, NeedsOfChannel, NeedsOfTerms, TermIsEnough};
ghost use Rattle.lost_laws.specs.Less.{LessNeedsNoMore, LessNeedsNoMoreAtEnds};
ghost use Rattle.lost_laws.specs.Sturdy.{EndsHaveStates, RowStands, SturdyHoldsNone, SturdyIsBroken};
ghost use Rattle.lost_laws.specs.Walks.{CompletedOverPart, NeedsOfEnd, NeedsOfRow, NeedsOfWindowEnd, NeedsOfWindowRow, NoneLostOutside, RangeIsWalk, RangesJoin, ReachedOverPart};

/// Law: the histories of which no row was lost are those that agree with the log.
pub fn none_lost_is_agreement()
    ensures { NoneLostAgrees }
{}

/// Law: a line of an interval rule is sturdy exactly where, whatever three rows were lost or fewer,
/// the rule was broken at the line's row or at one of the lost rows before it. That row has one
/// place in each of these histories.
pub fn sturdy_intervals_are_broken()
    ensures broken { SturdyIsBroken }
    ensures row { RowStands }
{}

/// Law: a line of a clause is sturdy exactly where, whatever three rows were lost or fewer, no term
/// of the clause held at the end of the line's tenth. In each of these histories the channels have
/// states there.
pub fn sturdy_clauses_hold_none()
    ensures none { SturdyHoldsNone }
    ensures states { EndsHaveStates }
{}

/// Law: where some history of which at most n rows were lost explains a line, at most n rows do
/// that are all of one channel, each changing its colour: rows of other channels, and rows that
/// change nothing, needn't be lost.
pub fn other_rows_need_not_be_lost()
    ensures interval { IntervalIsOfChannel }
    ensures clause { ClauseIsOfChannels }
{}

/// Law: lost rows of one channel that explain a line for that channel are those of a history that
/// explains it, since the other channels go on as in some history that agrees with the log.
pub fn one_channel_is_enough()
    ensures interval { ChannelIsEnough }
    ensures clause { TermIsEnough }
{}

/// Law: a line of an interval rule needs as many rows as its channel alone does, and one of a
/// clause as many as the one of its terms' channels that needs the fewest.
pub fn needs_are_of_channels()
    ensures interval { NeedsOfChannel }
    ensures clause { NeedsOfTerms }
{}

/// Law: what a channel takes over a range of tenths, with lost rows, is a walk over its moves there
/// with so many rows lost in the stills between them, and one range after another has the lost rows
/// of both. So the states at the end of a part of the window follow from those at its begin, and
/// which of those can go on to the window's end from those at its end that can. Nothing is lost
/// outside the window.
pub fn channels_walk()
    ensures range { RangeIsWalk }
    ensures join { RangesJoin }
    ensures reached { ReachedOverPart }
    ensures completed { CompletedOverPart }
    ensures outside { NoneLostOutside }
{}

/// Law: the number of rows that a line of an interval rule needs is the least one with which a walk
/// over its channel's moves of a part explains it, between the states at the part's begin and those
/// at its end that can go on; and that of a clause's line the least one with which a walk over the
/// moves of a term's channel does.
pub fn parts_tell_the_number()
    ensures interval { NeedsOfRow }
    ensures clause { NeedsOfEnd }
{}

/// Law: over the whole window the walk begins in the states before it and ends in any, so that the
/// number is the least one with which the line is explained between sets of states and latest
/// entries of these.
pub fn the_window_tells_the_number()
    ensures interval { NeedsOfWindowRow }
    ensures clause { NeedsOfWindowEnd }
{}

/// Law: a line needs no fewer rows because more is known: where n lost rows or fewer explain it,
/// they do where fewer tenths are known, with the same rows at those, or where floors are lower.
pub fn less_needs_no_more()
    ensures interval { LessNeedsNoMore }
    ensures clause { LessNeedsNoMoreAtEnds }
{}
