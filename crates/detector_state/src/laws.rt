// What holds of every hour.
ghost use Rattle.detector_state.specs.Hours.{HoursFit};
ghost use Rattle.detector_state.specs.Switches.{SwitchesAreOrdered};

/// Law: an hour of a store is one of its log, and its states before the hour are those of the log.
pub fn hours_fit()
    ensures { HoursFit }
{}

/// Law: the colours of a detector, a pedestrian detector or a preempt input have an order that no
/// row turns round.
pub fn switches_are_ordered()
    ensures { SwitchesAreOrdered }
{}
