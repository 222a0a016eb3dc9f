// What holds of fillings of an hour.
ghost use Rattle.strand_search.specs.Fillings.{FillingsAgree};

/// Where letters in the gaps of an hour's moves lead a channel from a state to another, the rows
/// that are these letters lead it so with the known rows, tenth by tenth. It does nothing.
pub fn fillings_agree()
    ensures { FillingsAgree }
{}
