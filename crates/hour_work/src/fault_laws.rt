// Laws: functions that do nothing, whose contracts say what holds of every log.
ghost use Rattle.hour_work.specs.Sure.{FaultRowsAreSure, FaultyByStates, FaultyIsSure};

/// Law: before a known row a detector is faulty exactly where it is in a fault in all histories
/// that agree.
pub fn faulty_is_sure()
    ensures { FaultyIsSure }
{}

/// Law: the fault rows are the rows 82 before which their detector is in a fault in all histories
/// that agree; the arrivals are those before which it is not in one of them.
pub fn fault_rows_are_sure()
    ensures { FaultRowsAreSure }
{}

/// Law: at the start of a tenth, as at an hour point, a detector is faulty by the known rows before
/// it exactly where it is in a fault in each of the states that it may have there by them. So what
/// is kept of faults at an hour point follows from the states that are kept there.
pub fn faulty_by_states()
    ensures { FaultyByStates }
{}
