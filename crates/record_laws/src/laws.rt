// Which records of a log file give which rows, and which record is refused for what.
ghost use Rattle.record_laws.specs.Fields.{FieldsAreTrimmed};
ghost use Rattle.record_laws.specs.Files.{FilesAreRefused, FilesGiveRows};
ghost use Rattle.record_laws.specs.Records.{RecordsAreRefused, RecordsGiveRows};

/// Law: what is left of a text without the spaces at its ends is exactly what neither begins nor
/// ends with one and has spaces alone before and after it.
pub fn fields_are_trimmed()
    ensures fields { FieldsAreTrimmed }
{}

/// Law: a record with so many rows before it gives a row exactly where these aren't 400,000 and it
/// has four fields that say the row: the wanted signal, a stamp in the hour, a code and a
/// parameter.
pub fn records_give_rows()
    ensures row { RecordsGiveRows }
{}

/// Law: a record is refused exactly where 400,000 rows are before it, or else for the first of
/// these that it hasn't: four fields, the wanted signal, a stamp, one in the hour, a code, a
/// parameter. The error has the record's number.
pub fn records_are_refused()
    ensures refusal { RecordsAreRefused }
{}

/// Law: a file gives rows exactly where the records behind its header, or all of them where it has
/// none, are at most 400,000 and each gives the row of its place.
pub fn records_are_rows()
    ensures rows { FilesGiveRows }
{}

/// Law: a file is refused exactly where the records before some record give rows and that one is
/// refused, and with its error.
pub fn first_refusal_decides()
    ensures refused { FilesAreRefused }
{}
