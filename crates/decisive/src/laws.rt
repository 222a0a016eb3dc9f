// Laws: functions that do nothing, whose contracts say what holds of every log.
ghost use Rattle.decisive.specs.Laws.{BrokenGrows, BrokenIsOpenBefore, BrokenStays, ChannelAlone, ClauseByTerms, IdleStays, OnlyTellsLess, StatesStay, WholeTellsMore, WindowIsOne};

/// Law: an obligation has at most one decisive window.
pub fn window_is_one()
    ensures { WindowIsOne }
{}

/// Law: where less is known no state is lost. So what is broken stays so where more is known, as long
/// as some history agrees, and what is idle stays idle.
pub fn more_is_known()
    ensures only { OnlyTellsLess }
    ensures whole { WholeTellsMore }
    ensures states { StatesStay }
    ensures broken { BrokenStays }
    ensures idle { IdleStays }
    ensures open { BrokenIsOpenBefore }
    ensures grows { BrokenGrows }
{}

/// Law: what a channel may do where only some tenths are known is told by its own runs of these
/// tenths.
pub fn channel_alone()
    ensures { ChannelAlone }
{}

/// Law: a clause is broken exactly where each of its channels breaks it alone.
pub fn clause_by_terms()
    ensures { ClauseByTerms }
{}
