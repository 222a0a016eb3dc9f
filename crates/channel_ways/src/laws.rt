// What holds of all fillings of moves.
ghost use Rattle.channel_ways.specs.Laws.{FillingsAreWalks, AlikeGoesOn, HoursJoin};

/// Moves with letters in their gaps, from one state to another, are a walk. It does nothing.
pub fn fillings_are_walks()
    ensures { FillingsAreWalks }
{}

/// From a state that is alike the same letters lead to one that is alike. It does nothing.
pub fn alike_goes_on()
    ensures { AlikeGoesOn }
{}

/// The letters of an hour and of those after it are joined, where an hour's lead to a state that is
/// alike to one from which the others go on. It does nothing.
pub fn hours_join()
    ensures { HoursJoin }
{}
