// Laws: functions that do nothing, whose contracts say what holds of every log.
ghost use Rattle.detector_state.specs.Bounds.{NumbersAreOne, NumbersBound, NumbersReached, NumbersStay, StoresTell};
ghost use Rattle.detector_state.specs.Tables.{TablesAreOrdered};
ghost use Rattle.detector_state.specs.Tells.{ColoursStay, ColoursTell, Extremes, LooksBack, LooksBackAmongRows};

/// Law: the tables of the detector and of the switch take every row in every colour, and their
/// colours have an order that no row turns round.
pub fn tables_are_ordered()
    ensures { TablesAreOrdered }
{}

/// Law: the states that a free channel may have at the end of a tenth follow from the tenths up to
/// it.
pub fn look_back()
    ensures { LooksBack }
{}

/// Law: those that it may have among the rows of a known tenth follow from what stands before.
pub fn look_back_among_rows()
    ensures { LooksBackAmongRows }
{}

/// Law: the colours that a free channel has in some or in all histories are those that are reached.
pub fn colours_tell()
    ensures { ColoursTell }
{}

/// Law: the colours that are reached depend on the tenths up to it alone.
pub fn colours_stay()
    ensures { ColoursStay }
{}

/// Law: one agreeing history is on at the fewest tenths, and one at the most.
pub fn extremes()
    ensures { Extremes }
{}

/// Law: each agreeing history is on at no fewer tenths of a range than the least number, and at no
/// more than the greatest.
pub fn numbers_bound()
    ensures { NumbersBound }
{}

/// Law: one agreeing history has the least numbers of all ranges at once, and one the greatest.
pub fn numbers_reached()
    ensures { NumbersReached }
{}

/// Law: the numbers of a range depend on the tenths up to its end alone.
pub fn numbers_stay()
    ensures { NumbersStay }
{}

/// Law: a range has one least number and one greatest.
pub fn numbers_are_one()
    ensures { NumbersAreOne }
{}

/// Law: stores that tell the same of the hours before a point tell the same of its tenths before.
pub fn stores_tell()
    ensures { StoresTell }
{}
