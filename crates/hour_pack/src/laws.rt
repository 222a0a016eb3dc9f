// What holds of the format as a whole. Each law is the contract of a function that does nothing.
ghost use Rattle.hour_pack.specs.Laws.{CutsAreShort, EachIsSpelled, FaultsHaveCauses, FaultsStay, LongerAreExtra, NoneBeginsAnother, NoneIsCutFromAnother, OneSpelling, OthersAreNotPacked, ReadsWhatIsPacked};

/// A number has one spelling, and none begins another.
pub fn numbers_have_one_spelling()
    ensures one { OneSpelling }
    ensures apart { NoneBeginsAnother }
    ensures each { EachIsSpelled }
{}

/// Bytes are read as rows exactly where they are the packed hour of these rows.
pub fn reading_is_exact()
    ensures { ReadsWhatIsPacked }
{}

/// Each fault comes exactly where the bytes have its cause.
pub fn faults_have_causes()
    ensures { FaultsHaveCauses }
{}

/// The first and the last fault in plain words: the first four bytes aren't the mark; a packed
/// hour, and then more bytes.
pub fn outer_faults()
    ensures not_packed { OthersAreNotPacked }
    ensures extra { LongerAreExtra }
{}

/// A packed hour that is cut anywhere behind its mark is short. Any other fault stays, whatever
/// follows the bytes, so these never begin a packed hour.
pub fn cuts_are_short()
    ensures cuts { CutsAreShort }
    ensures others { FaultsStay }
{}

/// No packed hour is a proper beginning of another, of whatever signal and hour.
pub fn none_begins_another()
    ensures { NoneIsCutFromAnother }
{}
