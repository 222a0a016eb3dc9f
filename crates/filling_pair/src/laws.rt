// Laws: functions that do nothing, whose contracts say what holds of every log.
ghost use Rattle.filling_pair.specs.Laws.{KeptByStates, StrandsAreOfHistory};
ghost use Rattle.filling_pair.specs.Lines.{ObligationsHaveLines};

/// Law: where some history agrees with a log, the strands of a rule are part of one that agrees.
pub fn strands_are_of_history()
    ensures { StrandsAreOfHistory }
{}

/// Law: strands keep a clause exactly where it is kept in the states to which they come.
pub fn kept_by_states()
    ensures { KeptByStates }
{}

/// Law: what is to be judged in a store has a line of one of the rules, at a place of a known
/// tenth.
pub fn obligations_have_lines()
    ensures { ObligationsHaveLines }
{}
