// Laws: functions that do nothing, whose contracts say what holds of all moves.
ghost use Rattle.decisive.specs.Moves.{EndDecides, EndIsLetter};

/// Law: with the end it is told of any number of first moves whether a walk that keeps the rule is
/// left; and the move with which none is left is a letter, so its tenth is that of a known row.
pub fn end_decides()
    ensures decides { EndDecides }
    ensures letter { EndIsLetter }
{}
